//! What answers an attempt: an origin is dialed, and gives a connection or a slip.
ghost use Rattle.std.specs.Prelude.{◌<◌, IfSome};
ghost use Rattle.acng_base.specs.Moments.{moment_limit};
ghost use Rattle.acng_site.specs.Dials.{DialsFor};

use crate::ask::Ask;
use crate::conn::{Conn, OriginSlip};
use crate::site::{Site, Try};
use std::alloc::Global;

/// What a dial answers.
#[derive(Debug, Drop)]
pub enum Dial<C, P> {
    /// The connection of the attempt.
    Up(C),
    /// The attempt failed before a byte came.
    Fault(P),
    /// Memory was refused.
    NoMemory,
}

/// What answers the attempts on a site.
pub trait Origin<S: Site> {
    type Slip: OriginSlip;

    type Conn: Conn<Slip = Self::Slip>;

    /// Spends the attempt on an ask. A moment to compare with is one that HTTP can write: before the year 10000.
    fn dial(&self, alloc: Global, attempt: Try<S>, ask: &Ask) -> Dial<Self::Conn, Self::Slip>
        requires since { IfSome ask.now.since (λ moment. moment.0 < moment_limit) }
        ensures answer { DialsFor S.Site ⟦<Self::Conn as Conn>⟧ ⟦<Self::Slip as OriginSlip>⟧ attempt.number ask.now result };
}
