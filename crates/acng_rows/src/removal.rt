//! Removals from a keeper, in order: what settling, a start, an import and an expiration have in common.
ghost use Rattle.std.specs.Prelude.{◌≡◌, true, OnOk, IfErr};
ghost use Rattle.acng_keeper.specs.Kept.{stored, MayCome};
ghost use Rattle.acng_keeper.specs.Images.{changed, IsAlong, LeavesOnly};
ghost use Rattle.acng_keeper.specs.Slips.{SlipRose, Later};
ghost use Rattle.acng_rows.specs.Removals.{effect_of, effects_of, loose_by, Went, KeepsLoose};

use acng_keeper::{BodyId, KeepFault, Keeper, SlipOf};
use std::alloc::Global;

/// A head or a body that is to go, by its id.
#[derive(Clone, Copy, Debug, PartialEq, Eq)]
pub enum Removal {
    Head(u64),
    Body(u64),
}

fn remove_one<K: Keeper>(
    keeper: &mut K,
    alloc: Global,
    removal: Removal,
) -> Result<(), KeepFault<SlipOf<K>>>
    ensures went { OnOk result (K.tells ≡ true → Went (effect_of removal) (K.kept keeper.old) (K.kept keeper.new)) }
    ensures either { K.tells ≡ true → MayCome (effect_of removal) (K.kept keeper.old) (K.kept keeper.new) }
    ensures same_next { K.next keeper.new ≡ K.next keeper.old }
    ensures cause { IfErr result (λ e. SlipRose e (K.faults keeper.old) (K.faults keeper.new)) }
    ensures later { Later (K.faults keeper.old) (K.faults keeper.new) }
{
    match removal {
        Removal::Head(id) => keeper.remove_head(alloc, BodyId(id)),
        Removal::Body(id) => keeper.remove_body(alloc, BodyId(id)),
    }
}

/// Removes in order, up to the first refusal. What isn't there is gone already.
pub fn remove_all<K: Keeper>(
    keeper: &mut K,
    alloc: Global,
    list: &[Removal],
) -> Result<(), KeepFault<SlipOf<K>>>
    ensures stored { OnOk result (K.tells ≡ true →
        stored (K.kept keeper.new) ≡ changed (effects_of list.now) (stored (K.kept keeper.old))) }
    ensures loose { OnOk result (K.tells ≡ true →
        (K.kept keeper.new).loose ≡ loose_by (effects_of list.now) (K.kept keeper.old).loose) }

    // What it leaves at any stop, and at a refusal.
    ensures stops { K.tells ≡ true →
        LeavesOnly (IsAlong (effects_of list.now) (stored (K.kept keeper.old))) (K.kept keeper.old) (K.kept keeper.new) }
    ensures others { K.tells ≡ true → KeepsLoose list.now (K.kept keeper.old) (K.kept keeper.new) }
    ensures same_next { K.next keeper.new ≡ K.next keeper.old }
    ensures cause { IfErr result (λ e. SlipRose e (K.faults keeper.old) (K.faults keeper.new)) }
    ensures later { Later (K.faults keeper.old) (K.faults keeper.new) }
{
    for i in 0..list.len() {
        remove_one(keeper, alloc, list[i])?;
    }
    Ok(())
}
