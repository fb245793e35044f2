//! A run of expiration over a desk.
ghost use Rattle.std.specs.Prelude.{◌≡◌, true, false, length};
ghost use Rattle.acng_reach.specs.Bodies.{MaySlip};
ghost use Rattle.acng_reach.specs.Desks.{held_paths};
ghost use Rattle.acng_reach.specs.Sets.{Rises};
ghost use Rattle.acng_expire.specs.Expirations.{HasExpired, HasRun, cut, is_broken};

use crate::round::{count_marks, limit_of, mark_all, remove_all};
use acng_base::{CachePath, Moment};
use acng_desk::{Desk, Joint};
use acng_keeper::{KeepFault, Keeper, SlipOf};
use acng_reach::Reach;
use acng_site::Site;
use std::alloc::Global;

/// How a run ended.
#[derive(Debug, Drop)]
pub enum Expired<P> {
    /// So many files went, and so many held ones have a mark now.
    Done { removed: u64, marked: u64 },
    /// There are too many problems, and nothing changed.
    Aborted { problems: u64 },
    /// A call of the keeper failed, after so many files went.
    Stopped { slip: P, removed: u64 },
    /// Memory was refused, after so many files went.
    NoMemory { removed: u64 },
}

fn cut<P>(fault: KeepFault<P>, removed: u64) -> Expired<P>
    ensures { result ≡ cut fault removed }
{
    match fault {
        KeepFault::Slip(slip) => Expired::Stopped { slip, removed },
        KeepFault::NoMemory => Expired::NoMemory { removed },
    }
}

// Whether there are so many problems that nothing expires; a limit of 0 is none.
fn is_broken(most: u64, problems: u64) -> bool
    ensures { result ≡ is_broken most problems }
{
    most >= 1 && problems >= most
}

/// Finds what the held indexes reach. Where their problems are as many as the limit, nothing is changed. Else each held
/// file that is reached loses its mark, and another gets one if it has none; then, once all marks stand, those files are
/// removed, in byte order, whose mark lies before the moment by more than the threshold. Folders of failed paths count as
/// problems.
pub fn expire<S: Site, K: Keeper, T: Joint>(
    alloc: Global,
    desk: &mut Desk<S, K, T>,
    failed: &[CachePath],
    now: Moment,
) -> Expired<SlipOf<K>>
    ensures { HasExpired K.tells failed.now now.0 desk.old desk.new result }
{
    let reach = match Reach::of(alloc, desk, failed) {
        Ok(reach) => reach,
        Err(fault) => return cut(fault, 0),
    };
    let problems = reach.problems().len() as u64;
    if is_broken(u64::from(desk.rules().abort_limit()), problems) {
        return Expired::Aborted { problems };
    }
    expire_by(alloc, desk, &reach, now)
}

// The two rounds.
fn expire_by<S: Site, K: Keeper, T: Joint>(
    alloc: Global,
    desk: &mut Desk<S, K, T>,
    reach: &Reach,
    now: Moment,
) -> Expired<SlipOf<K>>
    requires held { reach.now.held ≡ held_paths desk.old.plain.rows }
    requires in_order { Rises reach.now.held }
    ensures { HasRun K.tells now.0 reach.now desk.old desk.new result }
{
    if let Err(fault) = mark_all(alloc, desk, reach, now) {
        return cut(fault, 0);
    }
    let limit = limit_of(desk);
    match remove_all(alloc, desk, reach.held(), limit, now) {
        Ok(removed) => Expired::Done {
            removed,
            marked: count_marks(desk, reach.held()),
        },
        Err(stop) => cut(stop.fault, stop.removed),
    }
}
