//! Tests of connections that share a house, in threads: each client gets the bytes of the file that it asks for, and the notes
//! of its replies are lawful, by a check that doesn't use the cache's own rules. A crate of their own, so that functions over
//! threads aren't proved beside others, nor those of the server once more.
#![tactic(auto)]

#[cfg(test)]
mod bodies;
#[cfg(test)]
mod crowd;
#[cfg(test)]
mod heads;
#[cfg(test)]
mod hit;
#[cfg(test)]
mod judge;
#[cfg(test)]
mod law;
#[cfg(test)]
mod mirror;
#[cfg(test)]
mod pages;
#[cfg(test)]
mod places;
#[cfg(test)]
mod seen;
#[cfg(test)]
mod tally;
#[cfg(test)]
mod tests;
#[cfg(test)]
mod wishes;
