//! What a reader of an answer tells its caller.

use acng_base::{Moment, Tag};

/// What one call found. `Whole`, `Early` and `Bad` end the answer: from then on each call tells the same step and uses
/// no byte.
#[derive(Clone, Copy, Debug, PartialEq, Eq)]
pub enum Step {
    /// Bytes were used, and there is nothing to tell yet.
    More,
    /// The final head is whole. It comes once, and before the body.
    Head,
    /// The bytes of the piece from `start` up to and without `stop` belong to the body; there is at least one.
    Body { start: usize, stop: usize },
    /// The answer's last byte has come.
    Whole,
    /// The connection ended before the answer's last byte.
    Early,
    /// No answer has this byte, or the block of bytes that begins here; places count from the answer's first byte.
    Bad { at: u64 },
}

/// What is told of the final head. A field that stands twice is as if it weren't there.
#[derive(Debug, Drop)]
pub struct AnswerHead {
    /// Below 1,000.
    pub status: u16,
    /// The bytes of the body, where `Content-Length` counts them; at most 2^41.
    pub length: Option<u64>,
    /// First place, last place and total of `Content-Range`; the last place is below the total, which is at most 2^41.
    pub range: Option<(u64, u64, u64)>,
    /// `ETag`, where it is strong.
    pub tag: Option<Tag>,
    /// `Last-Modified`, before the year 10000.
    pub modified: Option<Moment>,
}
