//! The slip of both origins.
ghost use Rattle.std.specs.Prelude.{◌≡◌};

use crate::ask::Ask;
use crate::conn::OriginSlip;
use std::snapshot::Snapshot;

/// That an attempt over memory or over TCP failed. Only the failed call makes one.
#[derive(Drop)]
pub struct AttemptSlip {
    number: u64,
    ask: Snapshot<Snapshot<Ask>>,
}

impl OriginSlip for AttemptSlip {
    ghost number = { λ s. s.number };

    ghost ask = { λ s. s.ask.value.value };

    fn attempt(&self) -> u64 {
        self.number
    }
}

impl AttemptSlip {
    // The slip of a dial with this ask.
    pub(crate) fn at_dial(number: u64, ask: &Ask) -> AttemptSlip
        ensures number { result.number ≡ number }
        ensures ask { result.ask.value.value ≡ ask.now }
    {
        AttemptSlip {
            number,
            ask: Snapshot::of(&Snapshot::of(ask)),
        }
    }

    // The slip of a read, by the ask that the connection remembers.
    pub(crate) fn at_read(number: u64, ask: &Snapshot<Ask>) -> AttemptSlip
        ensures number { result.number ≡ number }
        ensures ask { result.ask.value.value ≡ ask.now.value }
    {
        AttemptSlip {
            number,
            ask: Snapshot::of(ask),
        }
    }
}
