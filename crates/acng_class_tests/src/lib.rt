//! Tests of the classes by their public calls.
//!
//! They stand apart from `acng_class`, so that its own functions aren't proved a second time with them.
#![tactic(auto)]

#[cfg(test)]
mod tests;
