//! What the held indexes of a Debian repository reach and name, and where they are broken.
//!
//! Only whole bodies count as held. An index that doesn't read, or a list of packages that is held and isn't read, is a
//! problem of its folder, so that nobody removes files because an index was lost.
#![tactic(auto)]

mod bodies;
mod desk;
mod find;
mod index;
mod name;
mod named;
mod problems;
mod reach;
mod reached;
mod set;

pub use bodies::{Bodies, held_paths};
pub use index::{Index, Listed, Lists};
pub use reach::Reach;
