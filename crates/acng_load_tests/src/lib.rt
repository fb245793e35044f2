//! Tests of the load of a body that others follow, in threads. A crate of their own, so that functions over threads aren't
//! proved beside others, nor the desk's and the download's once more.
#![tactic(auto)]

#[cfg(test)]
mod crowd;
#[cfg(test)]
mod herd;
