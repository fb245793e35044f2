//! Which end a ticket comes to.
//!
//! A body that is whole is sealed before its head is put, and its head is put before the old one is removed: so a stop
//! between leaves the old body or the new one, and never a head without a body.
ghost use Rattle.std.specs.Prelude.{◌≡◌, is_some, option_copied};
ghost use Rattle.acng_rows.specs.Rows.{whole_in, out_in};
ghost use Rattle.acng_desk.specs.House.{spot_at};
ghost use Rattle.acng_desk.specs.Settles.{same_id as same_id_of, is_out, id_of, part_id, was_id, is_keepers, can_park, end_of};

use crate::desk::Desk;
use crate::ending::Ending;
use crate::joint::Joint;
use crate::ticket::{Info, Ticket};
use acng_grow::{Growing, Shown, Stage};
use acng_keeper::Keeper;
use acng_rows::{Out, Row};
use acng_site::{OriginSlip, Site};

/// How a desk settled a ticket.
#[derive(Debug, Drop)]
pub enum Settled<P> {
    /// The new body is held from now on.
    Kept,
    /// The old body is still the file.
    Same,
    /// The cut body waits for a later download.
    Partial,
    /// Nothing is kept of it.
    Dropped,
    /// A call of the keeper failed.
    KeeperFault(P),
    /// Memory was refused.
    NoMemory,
}

/// The most partial bodies of a desk.
pub(crate) const MOST_PARTS: usize = 64;

fn same_id(one: Option<u64>, other: Option<u64>) -> bool
    ensures { result ≡ same_id_of one other }
{
    match one {
        Some(m) => match other {
            Some(n) => m == n,
            None => false,
        },
        None => match other {
            Some(_) => false,
            None => true,
        },
    }
}

impl Info {
    // The id of the partial body.
    pub(crate) fn part_id(&self) -> Option<u64>
        ensures { result ≡ part_id self.now }
    {
        match &self.part {
            Some(part) => Some(part.id),
            None => None,
        }
    }

    // The id of the old body.
    pub(crate) fn was_id(&self) -> Option<u64>
        ensures { result ≡ was_id self.now }
    {
        match &self.was {
            Some(was) => Some(was.id),
            None => None,
        }
    }

    // Whether the row says that this ticket is out.
    fn is_in<T>(&self, row: Option<&Row<T>>) -> bool
        ensures { result ≡ is_out (out_in (option_copied row.entry)) self.now }
    {
        let Some(row) = row else {
            return false;
        };
        match &row.out {
            Some(out) => {
                let out: &Out<T> = out;
                out.first == self.first
                    && out.fresh == self.fresh
                    && same_id(out.part, self.part_id())
            }
            None => false,
        }
    }
}

fn whole_id<T>(row: Option<&Row<T>>) -> Option<u64>
    ensures { result ≡ id_of (whole_in (option_copied row.entry)) }
{
    let row = row?;
    match &row.whole {
        Some(whole) => Some(whole.id),
        None => None,
    }
}

fn is_keepers(shown: &Option<Shown>) -> bool
    ensures { result ≡ is_keepers shown.now }
{
    match shown {
        Some(Shown::Keeper(_)) => true,
        _ => false,
    }
}

impl<S: Site, K: Keeper, T: Joint> Desk<S, K, T> {
    // Whether a later download can go on with the cut body.
    fn can_park<P: OriginSlip>(&self, body: &Growing<S, K::Body, P>) -> bool
        ensures { result ≡ can_park (spot_at self.now.plain body.now.path) body.now }
    {
        if body.file_id().is_none() {
            return false;
        }
        let facts = body.facts();
        facts.tag.is_some()
            && facts.total.is_some()
            && body.len() > 0
            && !is_keepers(&body.shown())
            && self.parts.len() < MOST_PARTS
    }

    // The first case that fits.
    pub(crate) fn ending<P: OriginSlip>(
        &self,
        ticket: &Ticket<S, K::Body>,
        body: &Growing<S, K::Body, P>,
    ) -> Ending
        ensures { result ≡ end_of (spot_at self.now.plain body.now.path) ticket.now body.now }
    {
        let row = self.rows.get(body.path());
        if !ticket.info.is_in(row) {
            return Ending::Unknown;
        }
        match body.stage() {
            Stage::Opening => Ending::Drop,
            Stage::Running => Ending::Drop,
            Stage::Whole => Ending::Keep,
            Stage::Same => {
                if same_id(whole_id(row), ticket.info.was_id()) {
                    Ending::Same
                } else {
                    Ending::Drop
                }
            }
            Stage::Cut => {
                if self.can_park(body) {
                    Ending::Park
                } else {
                    Ending::Drop
                }
            }
            Stage::Refused => {
                if ticket.part_body.is_some() && self.parts.len() < MOST_PARTS {
                    Ending::Back
                } else {
                    Ending::Drop
                }
            }
        }
    }
}
