//! Tests of the reading of targets by its public call.
//!
//! They stand apart from `acng_remap`, so that its own functions aren't proved a second time with them.
#![tactic(auto)]

#[cfg(test)]
mod tests;
