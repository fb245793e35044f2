//! Settling a ticket.
ghost use Rattle.std.specs.Prelude.{◌≡◌, ◌≢◌, ◌⊎◌, true, ⊤, OnOk, OnErr, IfErr};
ghost use Rattle.acng_keeper.specs.Slips.{SlipRose, Later};
ghost use Rattle.acng_desk.specs.declared.ending.Ending.TheVariants.{Unknown};
ghost use Rattle.acng_desk.specs.House.{spot_at};
ghost use Rattle.acng_desk.specs.Settles.{Ends, IsLoaded, end_of, ended, grown_after, Falls, SettledAs, IfSettled};
ghost use Rattle.acng_desk.specs.Commands.{Settle, step};
ghost use Rattle.acng_desk.specs.Stops.{StopsAt, IsFound};

use crate::desk::Desk;
use crate::ending::Ending;
use crate::ends::spend;
use crate::joint::Joint;
use crate::settle::Settled;
use crate::ticket::Ticket;
use acng_grow::Growing;
use acng_keeper::{KeepFault, Keeper, SlipOf};
use acng_rows::RowFault;
use acng_site::{OriginSlip, Site};
use std::alloc::Global;

impl<S: Site, K: Keeper, T: Joint> Desk<S, K, T> {
    /// Ends a ticket by what became of the body that was loaded by it. The ticket is spent whatever the answer, and the
    /// tries that are left are given up. Nothing is asked of the desk: a ticket that isn't out is dropped.
    pub fn settle<P: OriginSlip>(
        &mut self,
        alloc: Global,
        ticket: Ticket<S, K::Body>,
        body: &mut Growing<S, K::Body, P>,
    ) -> Settled<SlipOf<K>>
        requires ends { Ends ticket body.old }
        requires loaded { S.tells ≡ true → IsLoaded S.Site ticket body.old.seen }
        ensures settled { SettledAs (end_of (spot_at self.old.plain body.old.path) ticket body.old) self.old.faults self.new.faults result }

        // What it leaves.
        ensures plain { IfSettled result (self.new.plain ≡ step (Settle ticket body.old) self.old.plain)
            (Falls (end_of (spot_at self.old.plain body.old.path) ticket body.old) ticket body.old self.old.plain self.new.plain) }
        ensures body { IfSettled result
            (body.new ≡ grown_after (end_of (spot_at self.old.plain body.old.path) ticket body.old) body.old)
            ((body.new ≡ body.old)
            ⊎ (body.new ≡ grown_after (end_of (spot_at self.old.plain body.old.path) ticket body.old) body.old)) }
        ensures exact { IfSettled result (K.tells ≡ true → IsFound self.old → IsFound self.new) ⊤ }
        ensures stops { K.tells ≡ true → StopsAt S.Site (step (Settle ticket body.old) self.old.plain).rows self.old self.new }
        ensures later { Later self.old.faults self.new.faults }
    {
        let mut ticket = ticket;
        let ending = self.ending(&ticket, body);
        let came = self.come_in(alloc, ending, &mut ticket, body);
        spend(ticket);
        match came {
            Ok(()) => match ending {
                Ending::Keep => Settled::Kept,
                Ending::Same => Settled::Same,
                Ending::Park => Settled::Partial,
                Ending::Unknown => Settled::Dropped,
                Ending::Back => Settled::Dropped,
                Ending::Drop => Settled::Dropped,
            },
            Err(KeepFault::Slip(slip)) => Settled::KeeperFault(slip),
            Err(KeepFault::NoMemory) => Settled::NoMemory,
        }
    }

    // The ticket comes in by its end. It is spent afterwards, so that no way out drops it.
    fn come_in<P: OriginSlip>(
        &mut self,
        alloc: Global,
        ending: Ending,
        ticket: &mut Ticket<S, K::Body>,
        body: &mut Growing<S, K::Body, P>,
    ) -> Result<(), KeepFault<SlipOf<K>>>
        requires ends { Ends ticket.old body.old }
        requires ending { ending ≡ end_of (spot_at self.old.plain body.old.path) ticket.old body.old }
        ensures plain { OnOk result (self.new.plain ≡ ended ending ticket.old body.old self.old.plain) }
        ensures fell { OnErr result (Falls ending ticket.old body.old self.old.plain self.new.plain) }
        ensures closed { OnOk result (body.new ≡ grown_after ending body.old) }
        ensures body { (body.new ≡ body.old) ⊎ (body.new ≡ grown_after ending body.old) }
        ensures exact { OnOk result (K.tells ≡ true → IsFound self.old → IsFound self.new) }
        ensures stops { K.tells ≡ true → StopsAt S.Site (ended ending ticket.old body.old self.old.plain).rows self.old self.new }
        ensures later { Later self.old.faults self.new.faults }
        ensures cause { IfErr result (λ e. SlipRose e self.old.faults self.new.faults) }
        ensures known { OnErr result (ending ≢ Unknown) }
    {
        self.keeps();
        ticket.keeps();
        body.keeps();
        match ending {
            Ending::Unknown => Ok(()),
            Ending::Keep => self.keep_load(alloc, ticket.info(), body),
            Ending::Same => match self.same_load(alloc, ticket.info()) {
                Ok(()) => Ok(()),
                Err(RowFault::KeeperFault(slip)) => Err(KeepFault::Slip(slip)),
                Err(RowFault::NoMemory) => Err(KeepFault::NoMemory),
                Err(RowFault::NotHeld) => unreachable!(),
            },
            Ending::Park => self.park_load(alloc, ticket.info(), body),
            Ending::Back => {
                let Some(part) = ticket.take_partial() else {
                    unreachable!();
                };
                let info = ticket.info();
                self.rest_load(alloc, info, part, Some(info.fresh))
            }
            Ending::Drop => self.drop_load(alloc, ticket.info()),
        }
    }
}
