//! The calls of expiration and import: a whole body is fetched, marked or removed, and a body is made or dropped.
ghost use Rattle.std.specs.Prelude.{◌≡◌, ◌≢◌, true, false, None, Some, IfOk, IfErr, OnOk, OnErr, is_some};
ghost use Rattle.acng_keeper.specs.Handles.{fresh};
ghost use Rattle.acng_keeper.specs.Kept.{has_body, with_taken};
ghost use Rattle.acng_keeper.specs.Slips.{SlipRose, Later, none_yet};
ghost use Rattle.acng_rows.specs.Calls.{RowRose};
ghost use Rattle.acng_rows.specs.Rows.{whole_at};
ghost use Rattle.acng_desk.specs.Begins.{IsHeld, HoldsAs, HasRested};
ghost use Rattle.acng_desk.specs.Calls.{HoldsRow, PutRose, IsSpare, put_result};
ghost use Rattle.acng_desk.specs.Commands.{SetMark, NewBody, step};
ghost use Rattle.acng_desk.specs.Keeps.{IsNobodys};
ghost use Rattle.acng_desk.specs.Stops.{StopsAt, IsFound, KeepsFiles};

use crate::desk::Desk;
use crate::entry::Held;
use crate::joint::Joint;
use acng_base::{CachePath, Moment};
use acng_keeper::{BodyFile, BodyId, KeepFault, Keeper, SlipOf};
use acng_rows::{Removal, RowFault, Stamp};
use acng_site::Site;
use std::alloc::Global;

/// Why a body wasn't made or put.
#[derive(Debug, Drop)]
pub enum PutFault<P> {
    /// There is room for no further path.
    Full,
    /// No id is left.
    Worn,
    /// A call of the keeper failed.
    KeeperFault(P),
    /// Memory was refused.
    NoMemory,
}

// The same with the fault of a call of the keeper as one of these calls.
fn put_result<X, P>(made: Result<X, KeepFault<P>>) -> Result<X, PutFault<P>>
    ensures { result ≡ put_result made }
{
    match made {
        Ok(value) => Ok(value),
        Err(KeepFault::Slip(slip)) => Err(PutFault::KeeperFault(slip)),
        Err(KeepFault::NoMemory) => Err(PutFault::NoMemory),
    }
}

impl<S: Site, K: Keeper, T: Joint> Desk<S, K, T> {
    /// Marks the whole body of a path, or takes the mark away. Its head is put anew.
    pub fn set_mark(
        &mut self,
        alloc: Global,
        path: &CachePath,
        mark: Option<Moment>,
    ) -> Result<(), RowFault<SlipOf<K>>>
        ensures plain { OnOk result (self.new.plain ≡ step (SetMark path.now mark) self.old.plain) }
        ensures there { OnOk result (is_some (whole_at self.old.plain.rows path.now) ≡ true) }
        ensures exact { OnOk result (K.tells ≡ true → IsFound self.old → IsFound self.new) }

        // A stop at any moment, a refusal, and what they leave.
        ensures stops { K.tells ≡ true → StopsAt S.Site (step (SetMark path.now mark) self.old.plain).rows self.old self.new }
        ensures same { OnErr result (self.new.plain ≡ self.old.plain) }
        ensures cause { IfErr result (λ e. RowRose e (whole_at self.old.plain.rows path.now) self.old.faults self.new.faults) }
        ensures later { Later self.old.faults self.new.faults }
    {
        self.stamp(alloc, path, Stamp::Mark(mark))
    }

    /// The whole body of a path.
    pub fn fetch(
        &mut self,
        alloc: Global,
        path: &CachePath,
    ) -> Result<Held<K::Body>, RowFault<SlipOf<K>>>
        ensures held { IfOk result (λ held. HoldsRow K.Body.handle K.tells self.old.kept (whole_at self.old.plain.rows path.now) held) }
        ensures stands { IfOk result (λ held. IsHeld S.Site K.Body.handle K.tells path.now held) }
        ensures taken { IfOk result (λ held. K.tells ≡ true → self.new.kept ≡ with_taken held.size self.old.kept) }
        ensures unfailed { IfOk result (λ held. K.Body.faults held.body ≡ none_yet self.old.faults.may_fail) }

        // A refusal, and what it leaves.
        ensures cause { IfErr result (λ e. RowRose e (whole_at self.old.plain.rows path.now) self.old.faults self.new.faults) }
        ensures plain { self.new.plain ≡ self.old.plain }
        ensures rests { K.tells ≡ true → HasRested self.old.kept self.new.kept }
        ensures later { Later self.old.faults self.new.faults }
    {
        if !self.has_whole(path) {
            return Err(RowFault::NotHeld);
        }
        match self.held(alloc, path) {
            Ok(held) => Ok(held),
            Err(fault) => Err(RowFault::of(fault)),
        }
    }

    // Whether the path has a whole body.
    fn has_whole(&self, path: &CachePath) -> bool
        ensures { result ≡ is_some (whole_at self.now.plain.rows path.now) }
    {
        match self.rows.get(path) {
            Some(row) => row.whole.is_some(),
            None => false,
        }
    }

    /// A new body, empty and unsealed, for an import.
    pub fn new_body(&mut self, alloc: Global) -> Result<(BodyId, K::Body), PutFault<SlipOf<K>>>
        ensures id { IfOk result (λ r. r.0.0 ≡ self.old.plain.next_id) }
        ensures body { IfOk result (λ r. K.Body.handle r.1 ≡ fresh self.old.plain.next_id) }
        ensures spare { IfOk result (λ r. IsSpare K.tells self.new r.0.0) }
        ensures unfailed { IfOk result (λ r. K.Body.faults r.1 ≡ none_yet self.old.faults.may_fail) }
        ensures plain { OnOk result (self.new.plain ≡ step NewBody self.old.plain) }

        // A refusal, and what it leaves.
        ensures cause { IfErr result (λ e. PutRose e self.old.plain self.old.faults self.new.faults) }
        ensures same { OnErr result (self.new.plain ≡ self.old.plain) }
        ensures rests { K.tells ≡ true → HasRested self.old.kept self.new.kept }
        ensures later { Later self.old.faults self.new.faults }
    {
        if self.keeper.next_id() >= 1 << 63 {
            return Err(PutFault::Worn);
        }
        let made = self.keeper.create(alloc);
        put_result(made)
    }

    /// Removes a body that no row and no ticket has.
    pub fn drop_body(
        &mut self,
        alloc: Global,
        id: BodyId,
        body: K::Body,
    ) -> Result<(), KeepFault<SlipOf<K>>>
        requires number { (K.Body.handle body).number ≡ id.0 }
        requires nobodys { IsNobodys self.old.plain.rows self.old.plain.parts id.0 }
        ensures gone { OnOk result (K.tells ≡ true → has_body self.new.kept id.0 ≡ false) }
        ensures plain { self.new.plain ≡ self.old.plain }
        ensures files { K.tells ≡ true → KeepsFiles S.Site self.old self.new }
        ensures later { Later self.old.faults self.new.faults }
        ensures cause { IfErr result (λ e. SlipRose e self.old.faults self.new.faults) }
    {
        drop(body);
        self.discard(alloc, &[Removal::Body(id.0)])
    }
}
