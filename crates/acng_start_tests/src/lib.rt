//! Tests of the start of a desk over a folder's heads and bodies, in a crate of their own so that the desk's functions
//! aren't proved once more.
#![tactic(auto)]

#[cfg(test)]
mod folder;
#[cfg(test)]
mod starts;
