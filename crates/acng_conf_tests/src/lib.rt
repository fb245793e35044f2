//! Tests of the configuration's reading by its public calls.
//!
//! They stand apart from `acng_conf`, so that its own functions aren't proved a second time with them.
#![tactic(auto)]

#[cfg(test)]
mod tests;
