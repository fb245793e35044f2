//! What every layer of the proxy stands on: texts, paths of the cache, entity tags and hashes, the traits of the
//! outside (a client's link, a source, a sink, a clock) with their forms over memory and over std, and the scan for
//! the end of a head block.
//!
//! Nothing here knows of origins, rows or replies. A call that takes memory takes the allocator first and may answer
//! `NoMemory`; a call on the outside answers `Failed` only where the object's count of faults rose.
#![tactic(auto)]

mod block;
mod buffer;
mod bytes;
mod clock;
mod fault;
mod field;
mod files;
mod hash;
mod limit;
mod line;
mod link;
mod memory;
mod name;
mod number;
mod path;
mod stdio;
mod stream;
mod tag;
mod text;

pub use block::{LineState, Scan, scan_block};
pub use buffer::{ByLink, Reads, Unread};
pub use bytes::{copy_at_most, copy_front, find_byte, first_bytes};
pub use clock::{Clock, FixedClock, HostClock, Moment};
pub use fault::{Failed, NoMemory};
pub use field::{Named, find_name, find_only, is_name};
pub use files::{FileFault, named};
pub use hash::{Hash, HashSoFar};
pub use limit::{MOST_BYTES, MOST_FIELDS, MOST_HEAD};
pub use line::{
    Blank, BlankOrCr, Kind, next_line_feed, trim, trim_by, trim_end_by, trim_start_by, without_cr,
    words, words_by,
};
pub use link::{Link, send_all, send_counted};
pub use memory::MemoryLink;
pub use name::{base_name, cut_last, last_segment, unpacked};
pub use number::{are_digits, read_digits, read_length};
pub use path::{CachePath, PathFault};
pub use stdio::{StdLink, StdSink, StdSource};
pub use stream::{MemorySink, MemorySource, Sink, Source, write_all};
pub use tag::Tag;
pub use text::{Text, Texts};
