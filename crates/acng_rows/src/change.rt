//! Changes of a row together with its head and body: another moment, a new whole body in place of the old, and none.
//!
//! The order is so that a stop between two calls of the keeper leaves the old row or the new one: a new head is put
//! before the old one goes, and a head goes before its body. The row changes where nothing can fail any more.
ghost use Rattle.std.specs.Prelude.{◌≡◌, ◌⊎◌, ◌<◌, true, is_some, OnOk, OnErr, IfErr, Some};
ghost use Rattle.std.specs.FinMap as map;
ghost use Rattle.acng_head.specs.Records.{IsHead};
ghost use Rattle.acng_keeper.specs.Kept.{stored};
ghost use Rattle.acng_keeper.specs.Images.{changed, IsAlong, LeavesOnly};
ghost use Rattle.acng_keeper.specs.Slips.{SlipRose, Later};
ghost use Rattle.acng_rows.specs.Calls.{RowRose, LeavesRow, stamp_plan, hold_plan, go_plan};
ghost use Rattle.acng_rows.specs.Goods.{AreHeld, AreSealed, HasBody, IsBetween, IsExact, IsUnnamed, none_comes, whole_comes};
ghost use Rattle.acng_rows.specs.Removals.{KeepsLoose, effects_of, both_of};
ghost use Rattle.acng_rows.specs.Rows.{head_of, whole_at, id_in_whole, with_whole, restamped, without_whole};

use crate::fault::RowFault;
use crate::path_map::PathMap;
use crate::put::{put_stamped, put_whole};
use crate::removal::{Removal, remove_all};
use crate::row::{Row, Whole};
use crate::row_map::whole_id;
use crate::stamp::Stamp;
use acng_base::CachePath;
use acng_keeper::{KeepFault, Keeper, SlipOf};
use std::alloc::Global;

/// Gives the whole body of a path another moment: its head is put, and then the row changes. After a refusal the row is as
/// it was, and the keeper has the old head or the new one.
pub fn restamp<K: Keeper, T: Drop>(
    keeper: &mut K,
    alloc: Global,
    rows: &mut PathMap<Row<T>>,
    path: &CachePath,
    stamp: Stamp,
) -> Result<(), RowFault<SlipOf<K>>>
    requires held { AreHeld K.tells (K.next keeper.old) rows.old (K.kept keeper.old) }
    ensures rows { OnOk result (rows.new ≡ restamped stamp rows.old path.now) }
    ensures there { OnOk result (is_some (whole_at rows.old path.now) ≡ true) }
    ensures stored { OnOk result (K.tells ≡ true → stored (K.kept keeper.new) ≡
        changed (stamp_plan stamp path.now (whole_at rows.old path.now)) (stored (K.kept keeper.old))) }

    // A refusal, and what it leaves.
    ensures cause { IfErr result (λ e. RowRose e (whole_at rows.old path.now) (K.faults keeper.old) (K.faults keeper.new)) }
    ensures same { OnErr result (rows.new ≡ rows.old) }

    // What always holds then.
    ensures held { AreHeld K.tells (K.next keeper.new) rows.new (K.kept keeper.new) }
    ensures stops { K.tells ≡ true →
        LeavesOnly (IsBetween none_comes rows.old (restamped stamp rows.old path.now) (stored (K.kept keeper.old)))
        (K.kept keeper.old) (K.kept keeper.new) }
    ensures exact { OnOk result (K.tells ≡ true → IsExact rows.old (stored (K.kept keeper.old)) →
        IsExact rows.new (stored (K.kept keeper.new))) }
    ensures sealed { K.tells ≡ true → AreSealed (K.kept keeper.old) → AreSealed (K.kept keeper.new) }
    ensures loose { K.tells ≡ true → (K.kept keeper.new).loose ≡ (K.kept keeper.old).loose }
    ensures same_next { K.next keeper.new ≡ K.next keeper.old }
    ensures later { Later (K.faults keeper.old) (K.faults keeper.new) }
{
    let Some(row) = rows.get(path) else {
        return Err(RowFault::NotHeld);
    };
    let Some(whole) = &row.whole else {
        return Err(RowFault::NotHeld);
    };
    if let Err(fault) = put_stamped(keeper, alloc, path, whole, stamp) {
        return Err(RowFault::of(fault));
    }
    rows.stamp(path, stamp);
    Ok(())
}

// Removes the head and the body of this id, if there is one.
fn remove_old<K: Keeper>(
    keeper: &mut K,
    alloc: Global,
    old: Option<u64>,
) -> Result<(), KeepFault<SlipOf<K>>>
    ensures stored { OnOk result (K.tells ≡ true →
        stored (K.kept keeper.new) ≡ changed (effects_of (both_of old)) (stored (K.kept keeper.old))) }
    ensures stops { K.tells ≡ true →
        LeavesOnly (IsAlong (effects_of (both_of old)) (stored (K.kept keeper.old))) (K.kept keeper.old) (K.kept keeper.new) }
    ensures others { K.tells ≡ true → KeepsLoose (both_of old) (K.kept keeper.old) (K.kept keeper.new) }
    ensures same_next { K.next keeper.new ≡ K.next keeper.old }
    ensures cause { IfErr result (λ e. SlipRose e (K.faults keeper.old) (K.faults keeper.new)) }
    ensures later { Later (K.faults keeper.old) (K.faults keeper.new) }
{
    match old {
        Some(id) => remove_all(keeper, alloc, &[Removal::Head(id), Removal::Body(id)]),
        None => remove_all(keeper, alloc, &[]),
    }
}

/// Gives a path this whole body, whose body is sealed, in place of what it had: its head is put, the row changes, and the
/// old head and body are removed. After a refusal the row is the old one or the new one, as the keeper has it by its head.
pub fn hold<K: Keeper, T: Drop>(
    keeper: &mut K,
    alloc: Global,
    rows: &mut PathMap<Row<T>>,
    path: &CachePath,
    whole: Whole,
) -> Result<(), KeepFault<SlipOf<K>>>
    requires held { AreHeld K.tells (K.next keeper.old) rows.old (K.kept keeper.old) }
    requires row { map.contains_key rows.old path.now ≡ true }
    requires head { IsHead (head_of path.now whole) }
    requires below { whole.id < K.next keeper.old }
    requires own { IsUnnamed rows.old whole.id }
    requires body { K.tells ≡ true → HasBody (K.kept keeper.old) whole }
    ensures rows { OnOk result (rows.new ≡ with_whole rows.old path.now (Some whole)) }
    ensures stored { OnOk result (K.tells ≡ true → stored (K.kept keeper.new) ≡
        changed (hold_plan path.now whole (whole_at rows.old path.now)) (stored (K.kept keeper.old))) }

    // A refusal, and what it leaves.
    ensures cause { IfErr result (λ e. SlipRose e (K.faults keeper.old) (K.faults keeper.new)) }
    ensures either { OnErr result ((rows.new ≡ rows.old) ⊎ (rows.new ≡ with_whole rows.old path.now (Some whole))) }

    // What always holds then.
    ensures held { AreHeld K.tells (K.next keeper.new) rows.new (K.kept keeper.new) }
    ensures stops { K.tells ≡ true →
        LeavesOnly (IsBetween (whole_comes path.now whole (K.kept keeper.old)) rows.old (with_whole rows.old path.now (Some whole))
        (stored (K.kept keeper.old))) (K.kept keeper.old) (K.kept keeper.new) }
    ensures exact { OnOk result (K.tells ≡ true → IsExact rows.old (stored (K.kept keeper.old)) →
        IsExact rows.new (stored (K.kept keeper.new))) }
    ensures sealed { K.tells ≡ true → AreSealed (K.kept keeper.old) → AreSealed (K.kept keeper.new) }
    ensures loose { K.tells ≡ true →
        KeepsLoose (both_of (id_in_whole (whole_at rows.old path.now))) (K.kept keeper.old) (K.kept keeper.new) }
    ensures same_next { K.next keeper.new ≡ K.next keeper.old }
    ensures later { Later (K.faults keeper.old) (K.faults keeper.new) }
{
    put_whole(keeper, alloc, path, &whole)?;
    let old = rows.swap_whole(path, whole);
    remove_old(keeper, alloc, old)
}

/// Takes the whole body of a path away: from the row, and then its head and its body from the keeper. After a refusal of
/// the keeper the row is as after Ok, and the head or the body may be left.
pub fn let_go<K: Keeper, T: Drop>(
    keeper: &mut K,
    alloc: Global,
    rows: &mut PathMap<Row<T>>,
    path: &CachePath,
) -> Result<(), RowFault<SlipOf<K>>>
    requires held { AreHeld K.tells (K.next keeper.old) rows.old (K.kept keeper.old) }
    ensures rows { OnOk result (rows.new ≡ without_whole rows.old path.now) }
    ensures there { OnOk result (is_some (whole_at rows.old path.now) ≡ true) }
    ensures stored { OnOk result (K.tells ≡ true → stored (K.kept keeper.new) ≡
        changed (go_plan (whole_at rows.old path.now)) (stored (K.kept keeper.old))) }

    // A refusal, and what it leaves.
    ensures cause { IfErr result (λ e. RowRose e (whole_at rows.old path.now) (K.faults keeper.old) (K.faults keeper.new)) }
    ensures left { IfErr result (λ e. LeavesRow e rows.old (without_whole rows.old path.now) rows.new) }

    // What always holds then.
    ensures held { AreHeld K.tells (K.next keeper.new) rows.new (K.kept keeper.new) }
    ensures stops { K.tells ≡ true →
        LeavesOnly (IsBetween none_comes rows.old (without_whole rows.old path.now) (stored (K.kept keeper.old)))
        (K.kept keeper.old) (K.kept keeper.new) }
    ensures exact { OnOk result (K.tells ≡ true → IsExact rows.old (stored (K.kept keeper.old)) →
        IsExact rows.new (stored (K.kept keeper.new))) }
    ensures sealed { K.tells ≡ true → AreSealed (K.kept keeper.old) → AreSealed (K.kept keeper.new) }
    ensures loose { K.tells ≡ true →
        KeepsLoose (both_of (id_in_whole (whole_at rows.old path.now))) (K.kept keeper.old) (K.kept keeper.new) }
    ensures same_next { K.next keeper.new ≡ K.next keeper.old }
    ensures later { Later (K.faults keeper.old) (K.faults keeper.new) }
{
    let old = whole_id(rows.get(path));
    if old.is_none() {
        return Err(RowFault::NotHeld);
    }
    rows.drop_whole(path);
    match remove_old(keeper, alloc, old) {
        Ok(()) => Ok(()),
        Err(fault) => Err(RowFault::of(fault)),
    }
}
