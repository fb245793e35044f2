//! The limits that several layers keep, all of them this project's own.

/// The most bytes of an answer's body and of a file that an index names.
pub const MOST_BYTES: u64 = 1 << 41;

/// The most bytes of a head.
pub const MOST_HEAD: usize = 16_384;

/// The most lines of a head between its first line that isn't empty and its last.
pub const MOST_FIELDS: usize = 64;
