//! The rows of a cache: what it knows of each path, and what its keeper has for that.
//!
//! A row says which whole body a path has and whether a ticket of the path is out. The keeper holds a row where the head
//! of its id reads as the row and the sealed body has the head's size. Each call here that changes heads or bodies says
//! what a stop at any moment leaves of them, and keeps that the keeper holds the rows, whether the call was refused or not.
//! `find_rows` reads the rows back from stored heads and bodies.
#![tactic(auto)]

mod change;
mod fault;
mod find;
mod found;
mod id_set;
mod path_map;
mod put;
mod removal;
mod row;
mod row_map;
mod stamp;
mod walk;
mod whole;

pub use change::{hold, let_go, restamp};
pub use fault::RowFault;
pub use find::{Found, find_rows};
pub use id_set::IdSet;
pub use path_map::PathMap;
pub use put::{put_stamped, put_whole};
pub use removal::{Removal, remove_all};
pub use row::{Out, Row, Whole};
pub use stamp::Stamp;
