//! What the cache says of a file.
use acng_base::{CachePath, Hash, Moment, Tag};

/// Where a file came from.
#[derive(Clone, Copy, Debug, PartialEq, Eq)]
pub enum Label {
    /// Downloads, of which the first and the last attempt are named.
    Fetched { first: u64, last: u64 },
    /// An import of so many bytes with this hash.
    Imported { sha256: Hash, size: u64 },
}

/// What the cache says of a file.
#[derive(Debug, Drop)]
pub struct Head {
    pub path: CachePath,
    pub label: Label,
    /// The bytes of the file.
    pub size: u64,
    pub tag: Option<Tag>,
    /// When the file was changed, as its origin says.
    pub modified: Option<Moment>,
    /// When the file was last fetched, found the same or imported.
    pub checked: Moment,
    /// Since when no index reaches the file; None while one does.
    pub mark: Option<Moment>,
}
