//! Tests of `acng_reply` over its public calls, in a crate of their own so that its functions aren't proved once more.
#![tactic(auto)]

#[cfg(test)]
mod bodies;
#[cfg(test)]
mod replies;
