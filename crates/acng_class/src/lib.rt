//! The class of a file: whether it may change under its path, or isn't passed on at all.
//!
//! The path alone decides, by a table of the names and endings in Debian's repositories, with two patterns of the
//! administrator's for further files. The table stands in `specs/Classes.antt`; `line` has its lines, `name` what
//! they ask of a segment, and `segments` finds the segments from the end. A pattern is held built, and what searches
//! by it is made anew for each path, since it borrows the pattern.
#![tactic(auto)]

mod class;
mod fault;
mod line;
mod name;
mod pattern;
mod segments;

pub use class::{Class, Classes};
pub use fault::ClassFault;
