//! Stored heads and bodies.
//!
//! The trait `Keeper` says what a cache keeps by id and what a stop at any call leaves; `MemoryKeeper` is its form for
//! tests, with calls that fail on demand, and `FolderKeeper` its form over a plain folder.
#![tactic(auto)]

mod body;
mod calls;
mod effect;
mod folder;
mod folder_file;
mod folder_scan;
mod id_map;
mod keeper;
mod law;
mod lists;
mod memory;
mod names;
mod slip;

pub use body::{BodyFile, BodyId};
pub use calls::CallSlip;
pub use effect::Effect;
pub use folder::{FolderKeeper, LOCK_SECONDS, OpenFault};
pub use folder_file::FolderBody;
pub use keeper::{Keeper, SlipOf};
pub use law::images_are_apart;
pub use lists::{Heads, Ids};
pub use memory::{MemoryBody, MemoryKeeper};
pub use slip::{KeepFault, KeeperSlip};
