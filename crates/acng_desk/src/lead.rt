//! Giving a ticket out.
//!
//! All copies and all room are taken first, then the new body is created. From then on nothing can fail: the row says that
//! the ticket is out, and the ticket takes the partial body and sixteen tries.
ghost use Rattle.std.specs.Prelude.{◌≡◌, ◌<◌, ◌≤◌, ◌-◌, ◌^◌, true, false, All, length, is_some, Option, None, Some, option_map};
ghost use Rattle.std.specs.Prelude.{IfOk, IfErr, OnOk, OnErr, IfSome};
ghost use Rattle.std.specs.FinMap as map;
ghost use Rattle.acng_keeper.specs.Slips.{SlipRose, Later};
ghost use Rattle.acng_keeper.specs.Handles.{fresh};
ghost use Rattle.acng_keeper.specs.Kept.{Kept, stored};
ghost use Rattle.acng_rows.specs.declared.row.Whole.{Whole};
ghost use Rattle.acng_rows.specs.Rows.{whole_at, out_at};
ghost use Rattle.acng_desk.specs.House.{parked_of, spot_at};
ghost use Rattle.acng_desk.specs.Tickets.{old_of as old_of_whole, file_of};
ghost use Rattle.acng_desk.specs.Begins.{is_full, is_worn, led, load_of, info_of, entry_of, TicketAs, OldBodyAs, HasRested};
ghost use Rattle.acng_desk.specs.Settles.{load_in};

use crate::begin::entry;
use crate::desk::Desk;
use crate::entry::Entry;
use crate::facts::old_of;
use crate::joint::Joint;
use crate::part::inner;
use crate::ticket::{Info, OldFile, PartFile, Ticket};
use acng_base::{CachePath, Moment, NoMemory, Texts};
use acng_grow::PartialBody;
use acng_head::Label;
use acng_keeper::{BodyFile, BodyId, KeepFault, Keeper, SlipOf};
use acng_rows::Out;
use acng_site::{Site, Tries};
use std::alloc::Global;

fn copy(alloc: Global, texts: &Texts) -> Result<Texts, NoMemory>
    ensures { IfOk result (λ copy. copy ≡ texts.now) }
{
    let mut copy = Texts::new(alloc);
    for i in 0..texts.len() {
        copy.push(alloc, texts.get(i))?;
    }
    Ok(copy)
}

fn label_of(was: &Option<OldFile>) -> Option<Label>
    ensures { result ≡ option_map (λ w. w.label) was.now }
{
    match was {
        Some(was) => Some(was.label),
        None => None,
    }
}

impl<S: Site, K: Keeper, T: Joint> Desk<S, K, T> {
    // What a ticket says of the whole body of a path.
    fn old_file(&self, path: &CachePath) -> Option<OldFile>
        ensures { result ≡ option_map old_of_whole (whole_at self.now.plain.rows path.now) }
    {
        let row = self.rows.get(path)?;
        match &row.whole {
            Some(whole) => Some(old_of(whole)),
            None => None,
        }
    }

    // What a ticket says of the partial body of a path.
    fn part_file(&self, alloc: Global, path: &CachePath) -> Result<Option<PartFile>, NoMemory>
        ensures { IfOk result (λ p. p ≡ option_map file_of (map.get self.now.plain.parts path.now)) }
    {
        match self.parts.get(path) {
            Some(part) => Ok(Some(part.file(alloc)?)),
            None => Ok(None),
        }
    }

    // What the ticket says that is given out now.
    fn info(
        &self,
        alloc: Global,
        path: &CachePath,
        origins: &Texts,
        now: Moment,
    ) -> Result<Info, NoMemory>
        ensures { IfOk result (λ info. info ≡ info_of path.now origins.now now (spot_at self.now.plain path.now)) }
    {
        Ok(Info {
            path: path.again(alloc)?,
            moment: now,
            first: self.right.next(),
            origins: copy(alloc, origins)?,
            redir_max: self.rules.redir_max(),
            fresh: self.keeper.next_id(),
            was: self.old_file(path),
            part: self.part_file(alloc, path)?,
        })
    }

    // A handle of the whole body of a path.
    fn fetch_old(
        &mut self,
        alloc: Global,
        path: &CachePath,
        was: &Option<OldFile>,
    ) -> Result<Option<K::Body>, KeepFault<SlipOf<K>>>
        requires was { was.now ≡ option_map old_of_whole (whole_at self.old.plain.rows path.now) }
        ensures body { IfOk result (λ b. OldBodyAs K.tells self.old.kept (whole_at self.old.plain.rows path.now)
            (option_map K.Body.handle b)) }
        ensures plain { self.new.plain ≡ self.old.plain }
        ensures rests { K.tells ≡ true → HasRested self.old.kept self.new.kept }
        ensures loose { K.tells ≡ true → self.new.kept.loose ≡ self.old.kept.loose }
        ensures later { Later self.old.faults self.new.faults }
        ensures cause { IfErr result (λ e. SlipRose e self.old.faults self.new.faults) }
    {
        let Some(was) = was else {
            return Ok(None);
        };
        let body = self.keeper.fetch_body(alloc, BodyId(was.id))?;
        if body.len() != was.size {
            return Err(KeepFault::NoMemory);
        }
        Ok(Some(body))
    }
}

// What the row of a path says of a ticket.
fn out<T>(info: &Info, token: T) -> Out<T>
    ensures { result ≡ load_in info.now }
{
    Out {
        first: info.first,
        fresh: info.fresh,
        part: info.part_id(),
        was: label_of(&info.was),
        token,
    }
}

// What a ticket takes out of the desk.
struct Given<S: Site, F: BodyFile> {
    tries: Tries<S>,
    fresh: F,
    part_body: Option<PartialBody<F>>,
}

impl<S: Site, K: Keeper, T: Joint> Desk<S, K, T> {
    // The row says that the ticket is out, which takes a new body, the partial body and sixteen tries.
    fn give_out(
        &mut self,
        alloc: Global,
        path: &CachePath,
        info: &Info,
        token: T,
    ) -> Result<Given<S, K::Body>, KeepFault<SlipOf<K>>>
        requires load { load_in info.now ≡ load_of (spot_at self.old.plain path.now) }
        requires room { is_full (spot_at self.old.plain path.now) ≡ false }
        requires numbers { is_worn (spot_at self.old.plain path.now) ≡ false }
        ensures tries { IfOk result (λ given. (given.tries.next ≡ self.old.plain.next_try) × (given.tries.left ≡ 16)) }
        ensures body { IfOk result (λ given. K.Body.handle given.fresh ≡ fresh self.old.plain.next_id) }
        ensures part { IfOk result (λ given. option_map (parked_of K.Body.handle) given.part_body ≡ map.get self.old.plain.parts path.now) }
        ensures led { OnOk result (self.new.plain ≡ led path.now self.old.plain) }
        ensures same { OnErr result (self.new.plain ≡ self.old.plain) }
        ensures rests { K.tells ≡ true → HasRested self.old.kept self.new.kept }
        ensures later { Later self.old.faults self.new.faults }
        ensures cause { IfErr result (λ e. SlipRose e self.old.faults self.new.faults) }
    {
        let Ok(out) = Box::new(alloc, out(info, token)) else {
            return Err(KeepFault::NoMemory);
        };
        let Ok(made) = self.rows.reserve(alloc, path) else {
            return Err(KeepFault::NoMemory);
        };
        let (_, fresh) = match self.keeper.create(alloc) {
            Ok(body) => body,
            Err(fault) => {
                self.rows.release(path, made);
                return Err(fault);
            }
        };
        self.rows.set_out(path, Some(out));
        let part_body = inner(self.parts.remove(path));
        let tries = self.right.draw_sixteen();
        Ok(Given {
            tries,
            fresh,
            part_body,
        })
    }

    // Gives the path's ticket out.
    pub(crate) fn lead(
        &mut self,
        alloc: Global,
        own: CachePath,
        path: &CachePath,
        origins: &Texts,
        now: Moment,
        token: T,
    ) -> Result<(Ticket<S, K::Body>, Entry), KeepFault<SlipOf<K>>>
        requires own { own ≡ path.now }
        requires free { out_at self.old.plain.rows path.now ≡ None }
        requires room { is_full (spot_at self.old.plain path.now) ≡ false }
        requires numbers { is_worn (spot_at self.old.plain path.now) ≡ false }
        requires origins { 0 < length origins.now }
        requires serve { S.tells ≡ true → All (λ u. S.serves u path.now ≡ true) origins.now }
        ensures ticket { IfOk result (λ p. TicketAs K.tells self.old.kept (spot_at self.old.plain path.now) path.now origins.now now p.0) }
        ensures entry { IfOk result (λ p. p.1 ≡ entry_of path.now self.old.plain.next_try
            (option_map (λ (w : Whole). w.label) (whole_at self.old.plain.rows path.now)) false now) }
        ensures led { OnOk result (self.new.plain ≡ led path.now self.old.plain) }

        // A refusal, and what it leaves.
        ensures same { OnErr result (self.new.plain ≡ self.old.plain) }
        ensures rests { K.tells ≡ true → HasRested self.old.kept self.new.kept }
        ensures later { Later self.old.faults self.new.faults }
        ensures cause { IfErr result (λ e. SlipRose e self.old.faults self.new.faults) }
    {
        self.keeps();
        let Ok(info) = self.info(alloc, path, origins, now) else {
            return Err(KeepFault::NoMemory);
        };
        let old_body = self.fetch_old(alloc, path, &info.was)?;
        let given = self.give_out(alloc, path, &info, token)?;
        let Given {
            tries,
            fresh,
            part_body,
        } = given;
        let entry = entry(own, info.first, label_of(&info.was), false, now);
        let ticket = Ticket::new(info, tries, fresh, old_body, part_body);
        Ok((ticket, entry))
    }
}
