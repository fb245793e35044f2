//! Tests of `acng_grow` over its public calls, in a crate of their own so that its functions aren't proved once more.
#![tactic(auto)]

#[cfg(test)]
mod bodies;
#[cfg(test)]
mod follows;
#[cfg(test)]
mod settles;
#[cfg(test)]
mod stages;
