//! What no clause of `acng_base` says: that its calls succeed with ample memory, and values from outside.
#![tactic(auto)]

#[cfg(test)]
mod tests;
