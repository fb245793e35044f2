//! The ends of a ticket, one by one.
//!
//! Each takes the ticket in, whatever its answer. What is removed from the keeper is nobody's by then, so a refusal leaves
//! at most what the next start removes.
ghost use Rattle.std.specs.Prelude.{◌≡◌, ◌≢◌, ◌⊎◌, ◌<◌, ◌^◌, true, IfOk, IfErr, OnOk, OnErr, is_some, IfSome, None, Some, option_map};
ghost use Rattle.std.specs.FinMap as map;
ghost use Rattle.acng_base.specs.Tags.{is_tag};
ghost use Rattle.acng_keeper.specs.Slips.{SlipRose, Later};
ghost use Rattle.acng_rows.specs.declared.stamp.Stamp.TheVariants.{Checked};
ghost use Rattle.acng_rows.specs.Calls.{RowRose};
ghost use Rattle.acng_rows.specs.Rows.{whole_at, out_at, stamped_in};
ghost use Rattle.acng_rows.specs.Starts.{NamesBelow};
ghost use Rattle.acng_grow.specs.declared.facts.Stage.TheVariants as stage;
ghost use Rattle.acng_grow.specs.Grown.{number_of};
ghost use Rattle.acng_desk.specs.declared.ending.Ending.TheVariants as ending;
ghost use Rattle.acng_desk.specs.House.{parked_of, most_parts};
ghost use Rattle.acng_desk.specs.Keeps.{IsParked, IsNobodys};
ghost use Rattle.acng_desk.specs.Tickets.{IsTicket};
ghost use Rattle.acng_desk.specs.Settles.{is_out, part_id, left_with, new_in, parked_in, grown_after, FellTo, IsOwn, IsAmong};
ghost use Rattle.acng_desk.specs.Stops.{StopsAt, IsFound, KeepsFiles};

use crate::desk::Desk;
use crate::joint::Joint;
use crate::ticket::{Info, Ticket};
use acng_base::{Moment, NoMemory, Tag, Text};
use acng_grow::{Growing, PartialBody};
use acng_keeper::{BodyFile, KeepFault, Keeper, SlipOf};
use acng_rows::{Removal, RowFault, Stamp, Whole};
use acng_site::{OriginSlip, Site};
use std::alloc::Global;

// The tries that are left of a ticket are given up.
pub(crate) fn spend<S: Site, F: BodyFile>(ticket: Ticket<S, F>) {
    let Ticket {
        info: _,
        tries,
        fresh: _,
        old_body: _,
        part_body: _,
    } = ticket;
    tries.give_up();
}

impl<S: Site, K: Keeper, T: Joint> Desk<S, K, T> {
    // A body that is nobody's, where there is one, is removed.
    pub(crate) fn discard_body(
        &mut self,
        alloc: Global,
        id: Option<u64>,
    ) -> Result<(), KeepFault<SlipOf<K>>>
        requires nobodys { IfSome id (IsNobodys self.old.plain.rows self.old.plain.parts) }
        ensures plain { self.new.plain ≡ self.old.plain }
        ensures files { K.tells ≡ true → KeepsFiles S.Site self.old self.new }
        ensures later { Later self.old.faults self.new.faults }
        ensures cause { IfErr result (λ e. SlipRose e self.old.faults self.new.faults) }
    {
        match id {
            Some(id) => self.discard(alloc, &[Removal::Body(id)]),
            None => Ok(()),
        }
    }

    // Nothing is kept of it.
    pub(crate) fn drop_load(
        &mut self,
        alloc: Global,
        info: &Info,
    ) -> Result<(), KeepFault<SlipOf<K>>>
        requires out { is_out (out_at self.old.plain.rows info.now.path) info.now ≡ true }
        ensures plain { self.new.plain ≡
            left_with info.now.path (whole_at self.old.plain.rows info.now.path) None self.old.plain }
        ensures files { K.tells ≡ true → KeepsFiles S.Site self.old self.new }
        ensures later { Later self.old.faults self.new.faults }
        ensures cause { IfErr result (λ e. SlipRose e self.old.faults self.new.faults) }
    {
        self.keeps();
        self.close(&info.path);
        self.discard_body(alloc, Some(info.fresh))?;
        self.discard_body(alloc, info.part_id())
    }
}

// The other one of the ticket's new and partial body.
fn other_than(info: &Info, file: u64) -> Option<u64>
    requires apart { IfSome (part_id info.now) (λ id. id ≢ info.now.fresh) }
    ensures { IfSome result (λ id. IsOwn info.now id × (id ≢ file)) }
{
    if info.fresh == file {
        info.part_id()
    } else {
        Some(info.fresh)
    }
}

impl<S: Site, K: Keeper, T: Joint> Desk<S, K, T> {
    // One of the ticket's bodies rests at the path; another one, where there is one, is removed.
    pub(crate) fn rest_load(
        &mut self,
        alloc: Global,
        info: &Info,
        part: PartialBody<K::Body>,
        other: Option<u64>,
    ) -> Result<(), KeepFault<SlipOf<K>>>
        requires out { is_out (out_at self.old.plain.rows info.now.path) info.now ≡ true }
        requires own { IsOwn info.now (K.Body.handle part.body).number }
        requires parked { IsParked S.Site K.tells info.now.path (parked_of K.Body.handle part) }
        requires below { NamesBelow self.old.plain.next_try part.label }
        requires room { map.len self.old.plain.parts < most_parts }
        requires other { IfSome other (λ id. IsOwn info.now id × (id ≢ (K.Body.handle part.body).number)) }
        ensures plain { OnOk result (self.new.plain ≡ left_with info.now.path (whole_at self.old.plain.rows info.now.path)
            (Some (parked_of K.Body.handle part)) self.old.plain) }
        ensures fell { OnErr result (FellTo info.now.path (whole_at self.old.plain.rows info.now.path)
            (Some (parked_of K.Body.handle part)) self.old.plain self.new.plain) }
        ensures files { K.tells ≡ true → KeepsFiles S.Site self.old self.new }
        ensures later { Later self.old.faults self.new.faults }
        ensures cause { IfErr result (λ e. SlipRose e self.old.faults self.new.faults) }
    {
        self.keeps();
        let Ok(()) = self.rest(alloc, &info.path, part) else {
            self.close(&info.path);
            return Err(KeepFault::NoMemory);
        };
        self.discard_body(alloc, other)
    }
}

impl<S: Site, K: Keeper, T: Joint> Desk<S, K, T> {
    // The file of the cut body rests at the path.
    pub(crate) fn park_load<P: OriginSlip>(
        &mut self,
        alloc: Global,
        info: &Info,
        body: &mut Growing<S, K::Body, P>,
    ) -> Result<(), KeepFault<SlipOf<K>>>
        requires out { is_out (out_at self.old.plain.rows info.now.path) info.now ≡ true }
        requires path { body.old.path ≡ info.now.path }
        requires cut { body.old.seen.stage ≡ stage.Cut }
        requires file { is_some body.old.file ≡ true }
        requires own { IfSome (number_of body.old) (IsOwn info.now) }
        requires label { IfSome body.old.seen.label (IsAmong info.now.first) }
        requires room { map.len self.old.plain.parts < most_parts }
        ensures plain { OnOk result (self.new.plain ≡ left_with info.now.path (whole_at self.old.plain.rows info.now.path)
            (parked_in body.old.file body.old.seen.url body.old.seen.label body.old.seen.facts) self.old.plain) }
        ensures fell { OnErr result (FellTo info.now.path (whole_at self.old.plain.rows info.now.path)
            (parked_in body.old.file body.old.seen.url body.old.seen.label body.old.seen.facts) self.old.plain self.new.plain) }
        ensures files { K.tells ≡ true → KeepsFiles S.Site self.old self.new }
        ensures body { body.new ≡ grown_after ending.Park body.old }
        ensures later { Later self.old.faults self.new.faults }
        ensures cause { IfErr result (λ e. SlipRose e self.old.faults self.new.faults) }
    {
        self.keeps();
        body.keeps();
        let Some(part) = body.move_out() else {
            unreachable!();
        };
        let other = other_than(info, part.body.id().0);
        self.rest_load(alloc, info, part, other)
    }
}

impl<S: Site, K: Keeper, T: Joint> Desk<S, K, T> {
    // The old body is still the file.
    pub(crate) fn same_load(
        &mut self,
        alloc: Global,
        info: &Info,
    ) -> Result<(), RowFault<SlipOf<K>>>
        requires out { is_out (out_at self.old.plain.rows info.now.path) info.now ≡ true }
        requires held { is_some (whole_at self.old.plain.rows info.now.path) ≡ true }
        ensures plain { OnOk result (self.new.plain ≡ left_with info.now.path
            (stamped_in (Checked info.now.moment) (whole_at self.old.plain.rows info.now.path)) None self.old.plain) }
        ensures fell { OnErr result (FellTo info.now.path
            (stamped_in (Checked info.now.moment) (whole_at self.old.plain.rows info.now.path)) None self.old.plain self.new.plain) }
        ensures stops { K.tells ≡ true → StopsAt S.Site (left_with info.now.path
            (stamped_in (Checked info.now.moment) (whole_at self.old.plain.rows info.now.path)) None self.old.plain).rows
            self.old self.new }
        ensures exact { OnOk result (K.tells ≡ true → IsFound self.old → IsFound self.new) }
        ensures later { Later self.old.faults self.new.faults }
        ensures cause { IfErr result (λ e. RowRose e (whole_at self.old.plain.rows info.now.path) self.old.faults self.new.faults) }
    {
        if let Err(fault) = self.stamp(alloc, &info.path, Stamp::Checked(info.moment)) {
            self.close(&info.path);
            return Err(fault);
        }
        self.keeps();
        match self.drop_load(alloc, info) {
            Ok(()) => Ok(()),
            Err(fault) => Err(RowFault::of(fault)),
        }
    }

    // The whole body is held from now on; another of the ticket's bodies, where there is one, is removed.
    pub(crate) fn keep_load<P: OriginSlip>(
        &mut self,
        alloc: Global,
        info: &Info,
        body: &mut Growing<S, K::Body, P>,
    ) -> Result<(), KeepFault<SlipOf<K>>>
        requires out { is_out (out_at self.old.plain.rows info.now.path) info.now ≡ true }
        requires path { body.old.path ≡ info.now.path }
        requires stage { body.old.seen.stage ≡ stage.Whole }
        requires own { IfSome (number_of body.old) (IsOwn info.now) }
        requires label { IfSome body.old.seen.label (IsAmong info.now.first) }
        ensures plain { OnOk result (self.new.plain ≡ left_with info.now.path
            (new_in info.now.moment (number_of body.old) body.old.seen.label body.old.seen) None self.old.plain) }
        ensures fell { OnErr result (FellTo info.now.path
            (new_in info.now.moment (number_of body.old) body.old.seen.label body.old.seen) None self.old.plain self.new.plain) }
        ensures stops { K.tells ≡ true → StopsAt S.Site (left_with info.now.path
            (new_in info.now.moment (number_of body.old) body.old.seen.label body.old.seen) None self.old.plain).rows
            self.old self.new }
        ensures exact { OnOk result (K.tells ≡ true → IsFound self.old → IsFound self.new) }
        ensures body { (body.new ≡ body.old) ⊎ (body.new ≡ grown_after ending.Keep body.old) }
        ensures closed { OnOk result (body.new ≡ grown_after ending.Keep body.old) }
        ensures later { Later self.old.faults self.new.faults }
        ensures cause { IfErr result (λ e. SlipRose e self.old.faults self.new.faults) }
    {
        self.keeps();
        body.keeps();
        let Ok(whole) = new_whole(alloc, info.moment, body) else {
            self.close(&info.path);
            return Err(KeepFault::NoMemory);
        };
        let other = other_than(info, whole.id);
        self.hold(alloc, &info.path, body, whole)?;
        self.keeps();
        self.discard_body(alloc, other)
    }
}

// The whole body that a download gave.
fn new_whole<S: Site, F: BodyFile, P: OriginSlip>(
    alloc: Global,
    now: Moment,
    body: &Growing<S, F, P>,
) -> Result<Whole, NoMemory>
    requires stage { body.now.seen.stage ≡ stage.Whole }
    ensures whole { IfOk result (λ w. new_in now (number_of body.now) body.now.seen.label body.now.seen ≡ Some w) }
    ensures tag { IfOk result (λ w. IfSome w.tag (λ t. is_tag t ≡ true)) }
    ensures moment { now.0 < 2 ^ 64 }
{
    let _seconds = now.0;
    body.keeps();
    let Some(id) = body.file_id() else {
        unreachable!();
    };
    let Some(label) = body.label() else {
        unreachable!();
    };
    let facts = body.facts();
    let tag = text_of(alloc, &facts.tag)?;
    Ok(Whole {
        id: id.0,
        label,
        size: body.len(),
        tag,
        modified: facts.modified,
        checked: now,
        mark: None,
    })
}

fn text_of(alloc: Global, tag: &Option<Tag>) -> Result<Option<Text>, NoMemory>
    ensures text { IfOk result (λ text. text ≡ tag.now) }
    ensures tag { IfOk result (λ text. IfSome text (λ t. is_tag t ≡ true)) }
{
    match tag {
        Some(tag) => Ok(Some(Text::copy(alloc, tag.as_bytes())?)),
        None => Ok(None),
    }
}
