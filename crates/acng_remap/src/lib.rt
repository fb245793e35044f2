//! What a request asks for: the file's path in the cache, and the URLs from which it may come.
//!
//! The same package asked for through any mirror's name and in any form of a target has one path, and only that one.
//! A place is a host and decoded segments; the longest entry of a group that fits it, by whole segments, decides. A
//! target is decoded once, so that what is looked up, what is kept and what is asked are the same bytes.
#![tactic(auto)]

mod decide;
mod form;
mod host;
mod law;
mod read;
mod target;

pub use law::{one_path_one_origins, origins_serve_targets};
pub use read::read_target;
pub use target::{Target, TargetFault};
