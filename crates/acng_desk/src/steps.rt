//! The steps of settling: each leaves the desk sound, whatever its answer.
ghost use Rattle.std.specs.Prelude.{◌≡◌, ◌<◌, ◌^◌, true, IfErr, OnOk, OnErr, is_some, IfSome, None, Some};
ghost use Rattle.std.specs.FinMap as map;
ghost use Rattle.acng_base.specs.Tags.{is_tag};
ghost use Rattle.acng_keeper.specs.Images.{changed};
ghost use Rattle.acng_keeper.specs.Kept.{stored};
ghost use Rattle.acng_keeper.specs.Slips.{SlipRose, Later};
ghost use Rattle.acng_rows.specs.Calls.{RowRose};
ghost use Rattle.acng_rows.specs.Removals.{effects_of, loose_by};
ghost use Rattle.acng_rows.specs.Rows.{whole_at, out_at, restamped};
ghost use Rattle.acng_rows.specs.Starts.{NamesBelow};
ghost use Rattle.acng_grow.specs.declared.facts.Stage.TheVariants as stage;
ghost use Rattle.acng_grow.specs.Grown.{number_of, closed_file};
ghost use Rattle.acng_desk.specs.House.{parked_of, most_parts};
ghost use Rattle.acng_desk.specs.Keeps.{AreNobodys, IsParked};
ghost use Rattle.acng_desk.specs.Settles.{left_with, new_in, FellTo, HasOwn};
ghost use Rattle.acng_desk.specs.Stops.{StopsAt, IsFound, KeepsFiles};

use crate::desk::Desk;
use crate::joint::Joint;
use crate::part::Part;
use acng_base::{CachePath, NoMemory};
use acng_grow::{Growing, PartialBody};
use acng_keeper::{BodyFile, KeepFault, Keeper, SlipOf};
use acng_rows::{Removal, RowFault, Stamp, Whole, hold, remove_all, restamp};
use acng_site::{OriginSlip, Site};
use std::alloc::Global;

impl<S: Site, K: Keeper, T: Joint> Desk<S, K, T> {
    // The ticket of the path comes in, and leaves the whole body that is there. Its own bodies are nobody's from then on.
    pub(crate) fn close(&mut self, path: &CachePath)
        requires out { is_some (out_at self.old.plain.rows path.now) ≡ true }
        ensures plain { self.new.plain ≡ left_with path.now (whole_at self.old.plain.rows path.now) None self.old.plain }
        ensures kept { self.new.kept ≡ self.old.kept }
        ensures faults { self.new.faults ≡ self.old.faults }
    {
        self.rows.close(path, false);
    }

    // What is nobody's is removed from the keeper.
    pub(crate) fn discard(
        &mut self,
        alloc: Global,
        list: &[Removal],
    ) -> Result<(), KeepFault<SlipOf<K>>>
        requires nobodys { AreNobodys self.old.plain.rows self.old.plain.parts list.now }
        ensures plain { self.new.plain ≡ self.old.plain }
        ensures stored { OnOk result (K.tells ≡ true →
            stored self.new.kept ≡ changed (effects_of list.now) (stored self.old.kept)) }
        ensures loose { OnOk result (K.tells ≡ true → self.new.kept.loose ≡ loose_by (effects_of list.now) self.old.kept.loose) }
        ensures files { K.tells ≡ true → KeepsFiles S.Site self.old self.new }
        ensures later { Later self.old.faults self.new.faults }
        ensures cause { IfErr result (λ e. SlipRose e self.old.faults self.new.faults) }
    {
        remove_all(&mut self.keeper, alloc, list)
    }
}

impl<S: Site, K: Keeper, T: Joint> Desk<S, K, T> {
    // One of the ticket's bodies comes to rest at the path, and the ticket comes in.
    pub(crate) fn rest(
        &mut self,
        alloc: Global,
        path: &CachePath,
        part: PartialBody<K::Body>,
    ) -> Result<(), NoMemory>
        requires own { HasOwn (out_at self.old.plain.rows path.now) (K.Body.handle part.body).number }
        requires parked { IsParked S.Site K.tells path.now (parked_of K.Body.handle part) }
        requires below { NamesBelow self.old.plain.next_try part.label }
        requires room { map.len self.old.plain.parts < most_parts }
        ensures plain { OnOk result (self.new.plain ≡ left_with path.now (whole_at self.old.plain.rows path.now)
            (Some (parked_of K.Body.handle part)) self.old.plain) }
        ensures same { OnErr result (self.new.plain ≡ self.old.plain) }
        ensures kept { self.new.kept ≡ self.old.kept }
        ensures faults { self.new.faults ≡ self.old.faults }
    {
        let key = path.again(alloc)?;
        self.parts.put(key, Part { inner: part })?;
        self.rows.close(path, true);
        Ok(())
    }

    // The body is sealed, and it is the path's whole body from then on; the old one is removed. The ticket comes in, whatever
    // the answer.
    pub(crate) fn hold<P: OriginSlip>(
        &mut self,
        alloc: Global,
        path: &CachePath,
        body: &mut Growing<S, K::Body, P>,
        whole: Whole,
    ) -> Result<(), KeepFault<SlipOf<K>>>
        requires path { body.old.path ≡ path.now }
        requires stage { body.old.seen.stage ≡ stage.Whole }
        requires whole { new_in whole.checked (number_of body.old) body.old.seen.label body.old.seen ≡ Some whole }
        requires own { HasOwn (out_at self.old.plain.rows path.now) whole.id }
        requires below { NamesBelow self.old.plain.next_try whole.label }
        requires tag { IfSome whole.tag (λ t. is_tag t ≡ true) }
        requires moment { whole.checked.0 < 2 ^ 64 }
        ensures body { body.new ≡ closed_file body.old }
        ensures plain { OnOk result (self.new.plain ≡ left_with path.now (Some whole) None self.old.plain) }
        ensures fell { OnErr result (FellTo path.now (Some whole) None self.old.plain self.new.plain) }
        ensures stops { K.tells ≡ true →
            StopsAt S.Site (left_with path.now (Some whole) None self.old.plain).rows self.old self.new }
        ensures exact { OnOk result (K.tells ≡ true → IsFound self.old → IsFound self.new) }
        ensures later { Later self.old.faults self.new.faults }
        ensures cause { IfErr result (λ e. SlipRose e self.old.faults self.new.faults) }
    {
        body.keeps();
        let _ = path.as_bytes();
        if let Err(fault) = body.seal(alloc, &mut self.keeper) {
            self.rows.close(path, false);
            return Err(fault);
        }
        let held = hold(&mut self.keeper, alloc, &mut self.rows, path, whole);
        self.rows.close(path, false);
        held
    }

    // Another moment of the path's whole body.
    pub(crate) fn stamp(
        &mut self,
        alloc: Global,
        path: &CachePath,
        stamp: Stamp,
    ) -> Result<(), RowFault<SlipOf<K>>>
        ensures plain { OnOk result (self.new.plain ≡
            record self.old.plain { rows = restamped stamp self.old.plain.rows path.now }) }
        ensures there { OnOk result (is_some (whole_at self.old.plain.rows path.now) ≡ true) }
        ensures same { OnErr result (self.new.plain ≡ self.old.plain) }
        ensures stops { K.tells ≡ true → StopsAt S.Site (restamped stamp self.old.plain.rows path.now) self.old self.new }
        ensures exact { OnOk result (K.tells ≡ true → IsFound self.old → IsFound self.new) }
        ensures later { Later self.old.faults self.new.faults }
        ensures cause { IfErr result (λ e. RowRose e (whole_at self.old.plain.rows path.now) self.old.faults self.new.faults) }
    {
        restamp(&mut self.keeper, alloc, &mut self.rows, path, stamp)
    }
}
