//! Letting a call in.
//!
//! The first case that fits answers: a path whose ticket is out is joined, a whole body that is solid or fresh is handed
//! out, and else a ticket is given out, unless the desk is offline, full or worn.
ghost use Rattle.std.specs.Prelude.{◌≡◌, ◌≢◌, ◌<◌, true, false, All, length, is_some, option_copied, IfOk, IfErr};
ghost use Rattle.acng_class.specs.declared.class.Class.TheVariants.{Forbidden};
ghost use Rattle.acng_keeper.specs.Kept.{with_taken};
ghost use Rattle.acng_keeper.specs.Slips.{SlipRose, Later, none_yet};
ghost use Rattle.acng_rows.specs.Rows.{whole_at, out_at, whole_in, out_in};
ghost use Rattle.acng_desk.specs.House.{spot_at};
ghost use Rattle.acng_desk.specs.Begins.{begin_case, is_solid, is_fresh, keeps, let_in, entry_of, BegunAs, KeptAs, JoinedAs, HasRested};
ghost use Rattle.acng_desk.specs.Begins.{IfAnswered, IfKept, IsHeld};
ghost use Rattle.acng_desk.specs.Calls.{HoldsRow};
ghost use Rattle.acng_desk.specs.Commands.{Begin, step};

use crate::case::Case;
use crate::desk::Desk;
use crate::entry::{Brim, BrimKind, Entry, Held};
use crate::facts::facts_of;
use crate::joint::Joint;
use crate::ticket::Ticket;
use acng_base::{CachePath, Moment, NoMemory, Texts};
use acng_class::Class;
use acng_conf::Rules;
use acng_grow::Asked;
use acng_head::Label;
use acng_keeper::{BodyFile, BodyId, KeepFault, Keeper, SlipOf};
use acng_rows::{Out, Row};
use acng_site::Site;
use std::alloc::Global;

/// How a desk lets a call in.
pub enum Begun<S: Site, F: BodyFile, P, T> {
    /// The whole body that is held.
    Kept(Held<F>, Entry),
    /// A holder of what is loaded.
    Join(T, Entry),
    /// The right to load.
    Lead(Ticket<S, F>, Entry),
    Offline(Brim),
    Full(Brim),
    Worn(Brim),
    /// A call of the keeper failed.
    KeeperFault(P),
    /// Memory was refused.
    NoMemory,
}

// ---- which case fits

fn is_solid(class: Class) -> bool
    ensures { result ≡ is_solid class }
{
    match class {
        Class::Solid => true,
        _ => false,
    }
}

fn is_fresh(age: u64, checked: u64, now: u64) -> bool
    ensures { result ≡ is_fresh age checked now }
{
    checked <= now && now - checked <= age
}

// Whether a row's whole body is served as it is held.
fn keeps_row<T>(rules: &Rules, class: Class, now: Moment, row: Option<&Row<T>>) -> bool
    ensures { result ≡ keeps rules.now class now.0 (whole_in (option_copied row.entry)) }
{
    let Some(row) = row else {
        return false;
    };
    match &row.whole {
        Some(whole) => {
            is_solid(class)
                || rules.offline()
                || is_fresh(rules.fresh_age(), whole.checked.0, now.0)
        }
        None => false,
    }
}

// Whether a ticket of the row is out.
fn is_out<T>(row: Option<&Row<T>>) -> bool
    ensures { result ≡ is_some (out_in (option_copied row.entry)) }
{
    match row {
        Some(row) => row.out.is_some(),
        None => false,
    }
}

impl<S: Site, K: Keeper, T: Joint> Desk<S, K, T> {
    // The first case that fits.
    fn case(&self, path: &CachePath, class: Class, now: Moment) -> Case
        ensures { result ≡ begin_case (spot_at self.now.plain path.now) class now.0 }
    {
        let row = self.rows.get(path);
        if is_out(row) {
            return Case::Join;
        }
        if keeps_row(&self.rules, class, now, row) {
            return Case::Keep;
        }
        if self.rules.offline() {
            return Case::Offline;
        }
        if row.is_none() && self.rows.len() >= self.limit as usize {
            return Case::Full;
        }
        if self.right.next() > (1 << 63) - 16 || self.keeper.next_id() >= 1 << 63 {
            return Case::Worn;
        }
        Case::Lead
    }
}

// ---- the answers

pub(crate) fn entry(
    path: CachePath,
    first_try: u64,
    old: Option<Label>,
    kept: bool,
    now: Moment,
) -> Entry
    ensures { result ≡ entry_of path first_try old kept now }
{
    let asked = Asked {
        path,
        first_try,
        old,
    };
    Entry::new(asked, kept, now)
}

fn joined<T>(own: CachePath, now: Moment, out: &Out<T>) -> Entry
    ensures { result ≡ entry_of own out.now.first out.now.was false now }
{
    entry(own, out.first, out.was, false, now)
}

impl<S: Site, K: Keeper, T: Joint> Desk<S, K, T> {
    // Another holder of what the ticket that is out has.
    fn join(&self, own: CachePath, path: &CachePath, now: Moment) -> Result<(T, Entry), NoMemory>
        requires out { is_some (out_at self.now.plain.rows path.now) ≡ true }
        requires own { own ≡ path.now }
        ensures { IfOk result (λ p. JoinedAs path.now now (out_at self.now.plain.rows path.now) p.1) }
    {
        let Some(row) = self.rows.get(path) else {
            unreachable!();
        };
        let Some(out) = &row.out else {
            unreachable!();
        };
        let token = out.token.again()?;
        Ok((token, joined(own, now, out)))
    }

    // A handle of a path's whole body, with what is known of it. Over a keeper that doesn't tell, a body of another size
    // than its row's may come, and counts as want of memory.
    pub(crate) fn held(
        &mut self,
        alloc: Global,
        path: &CachePath,
    ) -> Result<Held<K::Body>, KeepFault<SlipOf<K>>>
        requires held { is_some (whole_at self.old.plain.rows path.now) ≡ true }
        ensures holds { IfOk result (λ held. HoldsRow K.Body.handle K.tells self.old.kept (whole_at self.old.plain.rows path.now) held) }
        ensures stands { IfOk result (λ held. IsHeld S.Site K.Body.handle K.tells path.now held) }
        ensures taken { IfOk result (λ held. K.tells ≡ true → self.new.kept ≡ with_taken held.size self.old.kept) }
        ensures unfailed { IfOk result (λ held. K.Body.faults held.body ≡ none_yet self.old.faults.may_fail) }
        ensures plain { self.new.plain ≡ self.old.plain }
        ensures rests { K.tells ≡ true → HasRested self.old.kept self.new.kept }
        ensures cause { IfErr result (λ e. SlipRose e self.old.faults self.new.faults) }
        ensures later { Later self.old.faults self.new.faults }
    {
        let Some(row) = self.rows.get(path) else {
            unreachable!();
        };
        let Some(whole) = &row.whole else {
            unreachable!();
        };
        let id = BodyId(whole.id);
        let label = whole.label;
        let size = whole.size;
        let facts = facts_of(whole);
        let body = self.keeper.fetch_body(alloc, id)?;
        if body.len() != size {
            return Err(KeepFault::NoMemory);
        }
        Ok(Held {
            id,
            body,
            label,
            facts,
            size,
        })
    }

    // The whole body of a row.
    fn keep(
        &mut self,
        alloc: Global,
        own: CachePath,
        path: &CachePath,
        now: Moment,
    ) -> Result<(Held<K::Body>, Entry), KeepFault<SlipOf<K>>>
        requires held { is_some (whole_at self.old.plain.rows path.now) ≡ true }
        requires own { own ≡ path.now }
        ensures kept { IfOk result (λ p. KeptAs K.Body.handle K.tells self.old.kept path.now self.old.plain.next_try now
            (whole_at self.old.plain.rows path.now) p.0 p.1) }
        ensures stands { IfOk result (λ p. IsHeld S.Site K.Body.handle K.tells path.now p.0) }
        ensures plain { self.new.plain ≡ self.old.plain }
        ensures rests { K.tells ≡ true → HasRested self.old.kept self.new.kept }
        ensures cause { IfErr result (λ e. SlipRose e self.old.faults self.new.faults) }
        ensures later { Later self.old.faults self.new.faults }
    {
        let held = self.held(alloc, path)?;
        let label = held.label;
        Ok((held, entry(own, self.right.next(), Some(label), true, now)))
    }
}

impl<S: Site, K: Keeper, T: Joint> Desk<S, K, T> {
    /// Lets a call in, by the first case that fits. The class isn't Forbidden, and each origin serves the path.
    pub fn begin(
        &mut self,
        alloc: Global,
        path: &CachePath,
        class: Class,
        origins: &Texts,
        now: Moment,
        token: T,
    ) -> Begun<S, K::Body, SlipOf<K>, T>
        requires class { class ≢ Forbidden }
        requires origins { 0 < length origins.now }
        requires serve { S.tells ≡ true → All (λ u. S.serves u path.now ≡ true) origins.now }
        ensures begun { BegunAs K.Body.handle K.tells path.now class origins.now now self.old self.new result }
        ensures held { IfKept result (λ held. IsHeld S.Site K.Body.handle K.tells path.now held) }

        // What it leaves: a refusal, the same.
        ensures plain { IfAnswered result (self.new.plain ≡ step (Begin path.now class now) self.old.plain)
            (self.new.plain ≡ self.old.plain) }
        ensures rests { K.tells ≡ true → HasRested self.old.kept self.new.kept }
        ensures later { Later self.old.faults self.new.faults }
    {
        let Ok(own) = path.again(alloc) else {
            return Begun::NoMemory;
        };
        match self.case(path, class, now) {
            Case::Join => match self.join(own, path, now) {
                Ok((token, entry)) => Begun::Join(token, entry),
                Err(NoMemory) => Begun::NoMemory,
            },
            Case::Keep => match self.keep(alloc, own, path, now) {
                Ok((held, entry)) => Begun::Kept(held, entry),
                Err(KeepFault::Slip(slip)) => Begun::KeeperFault(slip),
                Err(KeepFault::NoMemory) => Begun::NoMemory,
            },
            Case::Offline => Begun::Offline(Brim::new(BrimKind::Offline, own)),
            Case::Full => Begun::Full(Brim::new(BrimKind::Full, own)),
            Case::Worn => Begun::Worn(Brim::new(BrimKind::Worn, own)),
            Case::Lead => match self.lead(alloc, own, path, origins, now, token) {
                Ok((ticket, entry)) => Begun::Lead(ticket, entry),
                Err(KeepFault::Slip(slip)) => Begun::KeeperFault(slip),
                Err(KeepFault::NoMemory) => Begun::NoMemory,
            },
        }
    }
}
