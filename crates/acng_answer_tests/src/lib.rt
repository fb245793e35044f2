//! Tests of `acng_answer` over its public calls, in a crate of their own so that its functions aren't proved once more.
#![tactic(auto)]

#[cfg(test)]
mod hearing;
#[cfg(test)]
mod prefix;
#[cfg(test)]
mod room;
#[cfg(test)]
mod table;
#[cfg(test)]
mod told;
