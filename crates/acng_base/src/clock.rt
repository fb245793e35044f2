//! The clock: moments in whole seconds, and the clocks that tell them.
ghost use Rattle.std.specs.Prelude.{◌≡◌, ◌+◌, ◌<◌, List, ℕ, None, Some, drop, length, IfOk};
ghost use Rattle.std.specs.declared.option.Option.{Option};
ghost use Rattle.acng_base.specs.Moments.{Ticks};

use crate::fault::NoMemory;
use std::alloc::Global;
use std::marker::Model;
use std::time::Clock as TimeSource;

/// A moment, in seconds since 1970-01-01 00:00:00 UTC.
#[derive(Clone, Copy, Debug, PartialEq, Eq, PartialOrd, Ord)]
pub struct Moment(pub u64);

impl Moment {
    /// The first moment of the year 10000, which no HTTP date names.
    pub const LIMIT: u64 = 253_402_300_800;
}

/// A clock, which may go back and never fails.
pub trait Clock {
    /// The moments to come, where they are known. The list is never empty, and its last moment repeats.
    ghost coming: { Self → Option (List ℕ) };

    fn now(&mut self) -> Moment
        ensures { Ticks (coming self.old) (coming self.new) result.0 };
}

/// A clock that tells the moments of a list, and then the last one again and again.
#[derive(Debug, Drop)]
pub struct FixedClock {
    moments: Vec<u64>,
    at: usize,
}

impl Model for FixedClock {
    ghost Value = { List ℕ };

    ghost view = { λ c. drop c.at c.moments.items };

    ghost invariant = { λ c. c.at < length c.moments.items };
}

impl FixedClock {
    /// A clock over at least one moment.
    pub fn new(alloc: Global, moments: &[u64]) -> Result<FixedClock, NoMemory>
        requires { 0 < length moments.now }
        ensures { IfOk result (λ clock. clock ≡ moments.now) }
    {
        Ok(FixedClock {
            moments: Vec::from_slice(alloc, moments)?,
            at: 0,
        })
    }
}

impl Clock for FixedClock {
    ghost coming = { λ c. Some c };

    fn now(&mut self) -> Moment {
        let moment = self.moments[self.at];
        if self.at + 1 < self.moments.len() {
            self.at += 1;
        }
        Moment(moment)
    }
}

/// The clock of the system. It tells nothing of the moments to come. Where the system refuses, it repeats the moment
/// that it told last.
#[derive(Debug, Drop)]
pub struct HostClock<T: TimeSource + Drop> {
    source: T,
    last: Moment,
}

impl<T: TimeSource + Drop> HostClock<T> {
    pub fn new(source: T) -> HostClock<T> {
        HostClock {
            source,
            last: Moment(0),
        }
    }
}

impl<T: TimeSource + Drop> Clock for HostClock<T> {
    ghost coming = { λ _. None };

    fn now(&mut self) -> Moment {
        if let Ok(since_1970) = self.source.since_1970() {
            self.last = Moment(since_1970.as_secs());
        }
        self.last
    }
}
