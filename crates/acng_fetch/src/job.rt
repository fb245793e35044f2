//! A download that is to be run, and who runs it.
ghost use Rattle.std.specs.Prelude.{◌≡◌, IfErr};
ghost use Rattle.acng_desk.specs.Tickets.{IsUnused};

use crate::followed::Joined;
use acng_desk::Ticket;
use acng_keeper::Keeper;
use acng_site::{OriginSlip, Site};

/// A ticket with the body that it loads. It has to be spent, by `load`. No try and no body was taken from its ticket.
pub struct Job<S: Site, K: Keeper, P: OriginSlip> {
    ticket: Ticket<S, K::Body>,
    body: Joined<S, K::Body, P>,
    ghost unused: { IsUnused ticket },
}

impl<S: Site, K: Keeper, P: OriginSlip> Job<S, K, P> {
    pub fn new(ticket: Ticket<S, K::Body>, body: Joined<S, K::Body, P>) -> Job<S, K, P>
        requires unused { IsUnused ticket }
    {
        Job { ticket, body }
    }

    /// The ticket, as it was put in, and the body.
    pub fn into_parts(self) -> (Ticket<S, K::Body>, Joined<S, K::Body, P>)
        ensures unused { IsUnused result.0 }
    {
        let Job { ticket, body } = self;
        (ticket, body)
    }
}

/// Who runs downloads.
pub trait Loaders<J> {
    /// Hands a download over. Who gets it back runs it.
    fn hand(&self, job: J) -> Result<(), J>
        ensures back { IfErr result (λ it. it ≡ job) };
}

/// Hands each download back.
#[derive(Debug, Drop)]
pub struct NoLoaders;

impl<J> Loaders<J> for NoLoaders {
    fn hand(&self, job: J) -> Result<(), J>
        ensures back { IfErr result (λ it. it ≡ job) }
    {
        Err(job)
    }
}
