//! Tests of bodies that many follow while one loads them, in threads. A crate of their own, so that functions over threads
//! aren't proved beside the other tests of `acng_grow`.
#![tactic(auto)]

#[cfg(test)]
mod herd;
#[cfg(test)]
mod loading;
