//! The record of a file of the cache: its path, its download or import, its size, its tag, its dates and its mark, as
//! a small text that an administrator can read and that the program reads back exactly or refuses.
//!
//! A record is these lines in this order, each ended by LF. The lines `tag`, `modified` and `mark` may be missing.
//!
//! ```text
//! acng-head 1
//! path PATH
//! origin fetched FIRST LAST      or      origin imported HASH
//! size N
//! tag TAG
//! modified N
//! checked N
//! mark N
//! end
//! ```
//!
//! PATH is a path of the cache and TAG a strong tag. FIRST and LAST are attempts below 2^63, in order; an import names
//! no size, since its size is the file's. A file has at most 2^41 bytes, and `modified` lies before the year 10000.
//! Numbers have no leading zero and a hash has 64 lower-case digits, so a head has one record.
#![tactic(auto)]

mod head;
mod law;
mod lines;
mod read;
mod values;
mod write;

pub use acng_base::{Hash, Tag};
pub use head::{Head, Label};
pub use law::one_record;
pub use read::read_head;
pub use write::write_head;
