//! Where a download stands between two attempts.

use acng_base::Text;
use acng_grow::Why;

/// Before the body opens: the cause of the last attempt, whether the partial body's rest is asked next or all, at which
/// URL, the place of the next origin, and the redirects followed; or while it runs: the cause that broke it off.
#[derive(Debug, Drop)]
pub enum Standing<P, Q> {
    Asking {
        last: Option<Why<P, Q>>,
        ranged: bool,
        url: Text,
        next: usize,
        followed: u32,
    },
    Going {
        kept: Why<P, Q>,
    },
}

/// What follows an attempt.
#[derive(Debug, Drop)]
pub enum Turned<P, Q> {
    /// The body ended.
    Done,
    /// A further attempt.
    Again(Standing<P, Q>),
}
