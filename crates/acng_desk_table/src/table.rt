//! A desk, the tickets that it has out, and the handle that was fetched last.
ghost use Rattle.std.specs.Prelude.{◌≡◌};
ghost use Rattle.acng_desk.specs.Tickets.{IsUnused};

use crate::keeper::SeenKeeper;
use crate::view::View;
use acng_base::CachePath;
use acng_desk::{Desk, Ticket};
use acng_grow::Growing;
use acng_keeper::{MemoryBody, MemoryKeeper};
use acng_site::{AttemptSlip, Untold};
use std::sync::Arc;

pub type Store = SeenKeeper<MemoryKeeper>;

pub type Shop = Desk<Untold, Store, ()>;

/// The right to load a path.
pub type Lead = Ticket<Untold, MemoryBody>;

/// The body that is loaded.
pub type Load = Growing<Untold, MemoryBody, AttemptSlip>;

/// A ticket that is out, of which nothing was taken.
pub struct Out {
    pub path: CachePath,
    pub ticket: Lead,
    ghost at: { path ≡ ticket.info.path },
    ghost unused: { IsUnused ticket },
}

/// Tickets that are out, at most three.
pub struct Outs {
    pub first: Option<Out>,
    pub second: Option<Out>,
    pub third: Option<Out>,
}

/// What the commands of a list work on.
pub struct Table {
    pub shop: Shop,
    pub outs: Outs,
    pub handle: Option<MemoryBody>,
    pub view: Arc<View>,
}

impl Outs {
    pub fn none() -> Outs {
        Outs {
            first: None,
            second: None,
            third: None,
        }
    }

    fn slot(&mut self, slot: u64) -> &mut Option<Out> {
        match slot {
            0 => &mut self.first,
            1 => &mut self.second,
            _ => &mut self.third,
        }
    }

    pub fn take(&mut self, slot: u64) -> Option<Out> {
        self.slot(slot).take()
    }

    /// Puts a ticket where none is, and gives it back where one is.
    pub fn put(&mut self, slot: u64, out: Out) -> Option<Out> {
        self.slot(slot).replace(out)
    }

    pub fn has(&self, slot: u64) -> bool {
        match slot {
            0 => self.first.is_some(),
            1 => self.second.is_some(),
            _ => self.third.is_some(),
        }
    }
}
