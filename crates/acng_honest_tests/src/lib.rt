//! The premises of what is said over an honest site can be met: a site of one file, and `once` over it.
#![tactic(auto)]

pub mod honest;
#[cfg(test)]
mod told;
