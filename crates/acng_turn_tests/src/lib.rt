//! Tests that sessions, loaders and origins truly run beside each other. Each has a thread of its own, and so has the test, which
//! looks at what the clients got while an origin is held at a byte that the test chooses. A crate of its own, so that functions over
//! threads aren't proved beside others, nor those of the server once more.
#![tactic(auto)]

#[cfg(test)]
mod beside;
#[cfg(test)]
mod client;
#[cfg(test)]
mod door;
#[cfg(test)]
mod mended;
#[cfg(test)]
mod mirror;
#[cfg(test)]
mod removed;
#[cfg(test)]
mod scene;
#[cfg(test)]
mod shop;
#[cfg(test)]
mod visit;
