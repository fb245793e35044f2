//! Tests of `acng_keeper` over its public calls, in a crate of their own so that its functions aren't proved once more.
#![tactic(auto)]

#[cfg(test)]
mod failing;
#[cfg(test)]
mod flushes;
#[cfg(test)]
mod folder;
#[cfg(test)]
mod open;
#[cfg(test)]
mod script;
#[cfg(test)]
mod steps;
#[cfg(test)]
mod stops;
