//! Import: files that lie ready enter the cache where a held index names them.
//!
//! A found file is read once, and hashed as it is copied. It enters the cache at every path that a current index names with
//! its hash and size, and at no other.
#![tactic(auto)]

mod copy;
mod ending;
mod file;
mod fill;
mod finder;
mod folder;
mod imports;
mod memory;
mod print;
mod put;
mod wanted;

pub use ending::{FileEnd, FileEnds, Imported};
pub use finder::Finder;
pub use folder::FolderFinder;
pub use imports::import;
pub use memory::MemoryFinder;
pub use print::print_imported;
