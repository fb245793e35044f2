//! The mark of one body: the moment from which no index has reached it.
ghost use Rattle.std.specs.Prelude.{◌≡◌, ◌↔◌, IsTrue};
ghost use Rattle.acng_expire.specs.Places.{seconds, moment_of};
ghost use Rattle.acng_expire.specs.Runs.{new_mark, is_over};

use acng_base::Moment;

/// The mark of a body after the round of marks: none where it is reached, and else the lesser of its mark and the moment.
pub(crate) fn new_mark(reached: bool, now: Moment, mark: Option<Moment>) -> Option<Moment>
    ensures { result ≡ moment_of (new_mark reached now.0 (seconds mark)) }
{
    if reached {
        return None;
    }
    match mark {
        Some(mark) => Some(Moment(mark.0.min(now.0))),
        None => Some(now),
    }
}

/// Whether a mark lies before the moment by more than so many seconds.
pub(crate) fn is_over(limit: u64, now: Moment, mark: Option<Moment>) -> bool
    ensures { result ≡ is_over limit now.0 (seconds mark) }
{
    match mark {
        Some(mark) => mark.0 < now.0 && limit < now.0 - mark.0,
        None => false,
    }
}

/// Whether two marks are the same.
pub(crate) fn is_same(a: Option<Moment>, b: Option<Moment>) -> bool
    ensures { IsTrue result ↔ (a ≡ b) }
{
    match (a, b) {
        (Some(a), Some(b)) => a.0 == b.0,
        (None, None) => true,
        _ => false,
    }
}
