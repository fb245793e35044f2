//! The two rounds of a run: all marks are put first, and then what is due is removed.
ghost use Rattle.std.specs.Prelude.{◌≡◌, ◌≤◌, ◌<◌, ◌+◌, List, ℕ, true, [], IfOk, IfErr, OnOk, OnErr, is_some, length, take, slice_index_or};
ghost use Rattle.acng_rows.specs.Rows.{whole_at};
ghost use Rattle.acng_desk.specs.Commands.{SetMark, Remove, step};
ghost use Rattle.acng_desk.specs.Stops.{IsFound};
ghost use Rattle.acng_reach.specs.Bodies.{MaySlip};
ghost use Rattle.acng_expire.specs.Places.{place_at, remarked_place, cleared};
ghost use Rattle.acng_expire.specs.Rounds.{HasPlaces, AreApart, HasLost, run_of, limit_of, with_marks, with_removals, changed_at};
ghost use Rattle.acng_expire.specs.Rounds.{how_many, one, is_due_at, is_marked_at};

use crate::mark::{is_over, is_same, new_mark};
use acng_base::{CachePath, Moment};
use acng_desk::{Desk, Joint, RowFault};
use acng_keeper::{KeepFault, Keeper, SlipOf};
use acng_reach::Reach;
use acng_site::Site;
use std::alloc::Global;

/// How many seconds a day has.
const DAY: u64 = 86_400;

/// That a removal was refused, and how many bodies went before.
#[derive(Drop)]
pub(crate) struct Cut<P> {
    pub(crate) fault: KeepFault<P>,
    pub(crate) removed: u64,
}

/// For how many seconds a body stays that no index reaches.
pub(crate) fn limit_of<S: Site, K: Keeper, T: Joint>(desk: &Desk<S, K, T>) -> u64
    ensures { result ≡ limit_of desk.now.plain }
{
    DAY * u64::from(desk.rules().threshold_days())
}

// ---- marks

// Gives the whole body of a path another mark.
fn put_mark<S: Site, K: Keeper, T: Joint>(
    alloc: Global,
    desk: &mut Desk<S, K, T>,
    path: &CachePath,
    mark: Option<Moment>,
) -> Result<(), KeepFault<SlipOf<K>>>
    requires { is_some (whole_at desk.old.plain.rows path.now) ≡ true }
    ensures plain { OnOk result (desk.new.plain ≡ step (SetMark path.now mark) desk.old.plain) }
    ensures exact { OnOk result (K.tells ≡ true → IsFound desk.old → IsFound desk.new) }
    ensures same { OnErr result (desk.new.plain ≡ desk.old.plain) }
    ensures cause { IfErr result (MaySlip desk.old.faults.may_fail) }
    ensures may_fail { desk.new.faults.may_fail ≡ desk.old.faults.may_fail }
{
    match desk.set_mark(alloc, path, mark) {
        Ok(()) => Ok(()),
        Err(RowFault::NotHeld) => unreachable!(),
        Err(RowFault::KeeperFault(slip)) => Err(KeepFault::Slip(slip)),
        Err(RowFault::NoMemory) => Err(KeepFault::NoMemory),
    }
}

// A path gets or loses its mark. A head is put only where the mark changes.
fn mark_one<S: Site, K: Keeper, T: Joint>(
    alloc: Global,
    desk: &mut Desk<S, K, T>,
    path: &CachePath,
    reached: bool,
    now: Moment,
) -> Result<(), KeepFault<SlipOf<K>>>
    ensures places { OnOk result (HasPlaces
        (changed_at (remarked_place now.0 reached) path.now desk.old.plain) desk.old.plain desk.new.plain) }
    ensures exact { OnOk result (K.tells ≡ true → IsFound desk.old → IsFound desk.new) }
    ensures same { OnErr result (desk.new.plain ≡ desk.old.plain) }
    ensures cause { IfErr result (MaySlip desk.old.faults.may_fail) }
    ensures may_fail { desk.new.faults.may_fail ≡ desk.old.faults.may_fail }
{
    let Some(row) = desk.row(path) else {
        return Ok(());
    };
    let mark = new_mark(reached, now, row.mark);
    if is_same(mark, row.mark) {
        return Ok(());
    }
    put_mark(alloc, desk, path, mark)
}

/// Each held path gets or loses its mark; after a refusal those before it did.
pub(crate) fn mark_all<S: Site, K: Keeper, T: Joint>(
    alloc: Global,
    desk: &mut Desk<S, K, T>,
    reach: &Reach,
    now: Moment,
) -> Result<(), KeepFault<SlipOf<K>>>
    ensures places { OnOk result (HasPlaces
        (with_marks (run_of desk.old.plain now.0 reach.now) (place_at desk.old.plain) reach.now.held) desk.old.plain desk.new.plain) }
    ensures exact { OnOk result (K.tells ≡ true → IsFound desk.old → IsFound desk.new) }
    ensures cut { OnErr result ((at : ℕ) × (at < length reach.now.held) × HasPlaces
        (with_marks (run_of desk.old.plain now.0 reach.now) (place_at desk.old.plain) (take at reach.now.held))
        desk.old.plain desk.new.plain) }
    ensures cause { IfErr result (MaySlip desk.old.faults.may_fail) }
    ensures may_fail { desk.new.faults.may_fail ≡ desk.old.faults.may_fail }
{
    let paths = reach.held();
    for i in 0..paths.len() {
        let path = &paths[i];
        if let Err(fault) = mark_one(alloc, desk, path, reach.reached(path), now) {
            return Err(fault);
        }
    }
    Ok(())
}

// ---- removals

// Removes the whole body of a path.
fn take_away<S: Site, K: Keeper, T: Joint>(
    alloc: Global,
    desk: &mut Desk<S, K, T>,
    path: &CachePath,
) -> Result<(), KeepFault<SlipOf<K>>>
    requires { is_some (whole_at desk.old.plain.rows path.now) ≡ true }
    ensures plain { desk.new.plain ≡ step (Remove path.now) desk.old.plain }
    ensures exact { OnOk result (K.tells ≡ true → IsFound desk.old → IsFound desk.new) }
    ensures cause { IfErr result (MaySlip desk.old.faults.may_fail) }
    ensures may_fail { desk.new.faults.may_fail ≡ desk.old.faults.may_fail }
{
    match desk.remove(alloc, path) {
        Ok(()) => Ok(()),
        Err(RowFault::NotHeld) => unreachable!(),
        Err(RowFault::KeeperFault(slip)) => Err(KeepFault::Slip(slip)),
        Err(RowFault::NoMemory) => Err(KeepFault::NoMemory),
    }
}

// A path that is due goes; 1 where it did.
fn remove_one<S: Site, K: Keeper, T: Joint>(
    alloc: Global,
    desk: &mut Desk<S, K, T>,
    path: &CachePath,
    limit: u64,
    now: Moment,
) -> Result<u64, KeepFault<SlipOf<K>>>
    ensures places { HasPlaces (changed_at (cleared limit now.0) path.now desk.old.plain) desk.old.plain desk.new.plain }
    ensures count { IfOk result (λ n. n ≡ one (is_due_at limit now.0 desk.old.plain path.now)) }
    ensures exact { OnOk result (K.tells ≡ true → IsFound desk.old → IsFound desk.new) }
    ensures due { OnErr result (is_due_at limit now.0 desk.old.plain path.now ≡ true) }
    ensures cause { IfErr result (MaySlip desk.old.faults.may_fail) }
    ensures may_fail { desk.new.faults.may_fail ≡ desk.old.faults.may_fail }
{
    let Some(row) = desk.row(path) else {
        return Ok(0);
    };
    if !is_over(limit, now, row.mark) {
        return Ok(0);
    }
    match take_away(alloc, desk, path) {
        Ok(()) => Ok(1),
        Err(fault) => Err(fault),
    }
}

/// Those of these paths that are due go, in their order; how many.
pub(crate) fn remove_all<S: Site, K: Keeper, T: Joint>(
    alloc: Global,
    desk: &mut Desk<S, K, T>,
    paths: &[CachePath],
    limit: u64,
    now: Moment,
) -> Result<u64, Cut<SlipOf<K>>>
    requires { AreApart paths.now }
    ensures places { OnOk result (HasPlaces (with_removals limit now.0 (place_at desk.old.plain) paths.now) desk.old.plain desk.new.plain) }
    ensures count { IfOk result (λ n. n ≡ how_many (is_due_at limit now.0 desk.old.plain) paths.now) }
    ensures exact { OnOk result (K.tells ≡ true → IsFound desk.old → IsFound desk.new) }
    ensures cut { IfErr result (λ c. HasLost limit now.0 paths.now desk.old.plain desk.new.plain c.removed) }
    ensures cause { IfErr result (λ c. MaySlip desk.old.faults.may_fail c.fault) }
    ensures may_fail { desk.new.faults.may_fail ≡ desk.old.faults.may_fail }
{
    let mut removed = 0;
    for i in 0..paths.len() {
        match remove_one(alloc, desk, &paths[i], limit, now) {
            Ok(n) => removed += n,
            Err(fault) => return Err(Cut { fault, removed }),
        }
    }
    Ok(removed)
}

// ---- numbers

// 1 where the path has a mark.
fn count_mark<S: Site, K: Keeper, T: Joint>(desk: &Desk<S, K, T>, path: &CachePath) -> u64
    ensures value { result ≡ one (is_marked_at desk.now.plain path.now) }
    ensures most { result ≤ 1 }
{
    match desk.row(path) {
        Some(row) => is_mark(row.mark),
        None => 0,
    }
}

fn is_mark(mark: Option<Moment>) -> u64
    ensures { result ≡ one (is_some mark) }
{
    match mark {
        Some(_) => 1,
        None => 0,
    }
}

/// How many of these paths have a mark.
pub(crate) fn count_marks<S: Site, K: Keeper, T: Joint>(
    desk: &Desk<S, K, T>,
    paths: &[CachePath],
) -> u64
    ensures { result ≡ how_many (is_marked_at desk.now.plain) paths.now }
{
    let mut count = 0;
    for i in 0..paths.len() {
        count += count_mark(desk, &paths[i]);
    }
    count
}
