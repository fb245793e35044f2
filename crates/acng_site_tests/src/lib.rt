//! Tests of `acng_site` over its public calls, in a crate of their own so that its functions aren't proved once more.
#![tactic(auto)]

#[cfg(test)]
mod asks;
#[cfg(test)]
mod memory;
#[cfg(test)]
mod net;
#[cfg(test)]
mod request;
#[cfg(test)]
mod tries;
