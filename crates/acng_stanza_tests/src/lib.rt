//! Tests of the public calls of `acng_stanza`: that they succeed, and that the definitions mean what they are to mean.
#![tactic(auto)]

#[cfg(test)]
mod limits;
#[cfg(test)]
mod print;
#[cfg(test)]
mod texts;
