//! Tests of the public calls of `acng_index`: that they succeed, and that the definitions mean what they are to mean.
#![tactic(auto)]

#[cfg(test)]
mod inrelease;
#[cfg(test)]
mod packages;
#[cfg(test)]
mod print;
#[cfg(test)]
mod release;
