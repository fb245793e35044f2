//! What keeps heads and bodies by id.
//!
//! A body is created, filled and sealed, and then its head is put: a stop between leaves no head without a body. The
//! calls `seal`, `put_head`, `remove_head` and `remove_body` have an effect; it comes whole or not at all, whether the
//! call was refused or not, and the trail has it exactly if it came. So what a stop may leave is a front of the trail,
//! and some of the unsealed bodies.
//!
//! A keeper over the real outside, as a folder, tells nothing of what it has. Ids, sizes and faults are known anyway.
ghost use Rattle.std.specs.Prelude.{◌≡◌, ◌+◌, ◌^◌, ◌<◌, ◌≤◌, Bool, true, false, ℕ, IfOk, OnOk, IfErr, OnErr, Some};
ghost use Rattle.std.specs.FinMap as map;
ghost use Rattle.std.specs.Map.{keys_of};
ghost use Rattle.std.specs.Ordering.{nat_cmp};
ghost use Rattle.std.specs.List.Sorted.{IsStrictlySortedBy};
ghost use Rattle.acng_keeper.specs.Kept.{Kept, Comes, MayCome, Removes, has_head, has_body, with_loose, with_taken, IsSound};
ghost use Rattle.acng_keeper.specs.Handles.{Handle, fresh, closed};
ghost use Rattle.acng_keeper.specs.Lists.{AllBelow, ListsBodies};
ghost use Rattle.acng_keeper.specs.Slips.{Faults, Later, SlipRose, none_yet};
ghost use Rattle.acng_keeper.specs.declared.effect.Effect.TheVariants.{Sealed, HeadPut, HeadRemoved, BodyRemoved};

use crate::body::{BodyFile, BodyId};
use crate::lists::{Heads, Ids};
use crate::slip::KeepFault;
use std::alloc::Global;

/// That a call of the keeper, or of one of its bodies, failed.
pub type SlipOf<K> = <<K as Keeper>::Body as BodyFile>::Slip;

/// Heads and bodies by id.
pub trait Keeper: Drop {
    type Body: BodyFile;

    /// Whether such a keeper tells what it has.
    ghost tells: { Bool };

    ghost kept: { Self → Kept };

    /// The id of the next body.
    ghost next: { Self → ℕ };

    ghost faults: { Self → Faults };

    fn next_id(&self) -> u64
        ensures id { result ≡ next self.now }
        ensures bound { next self.now ≤ 2 ^ 63 };

    /// A new body, empty and unsealed.
    fn create(&mut self, alloc: Global) -> Result<(BodyId, Self::Body), KeepFault<SlipOf<Self>>>
        requires { next self.old < 2 ^ 63 }
        ensures id { IfOk result (λ r. r.0.0 ≡ next self.old) }
        ensures body { IfOk result (λ r. Self.Body.handle r.1 ≡ fresh (next self.old)) }
        ensures sound { IfOk result (λ r. Self.Body.lost r.1 ≡ false) }
        ensures unfailed { IfOk result (λ r. Self.Body.faults r.1 ≡ none_yet (faults self.old).may_fail) }
        ensures next { OnOk result (next self.new ≡ next self.old + 1) }
        ensures loose { OnOk result (tells ≡ true → kept self.new ≡ with_loose (next self.old) (kept self.old)) }

        // A refusal, and what it leaves.
        ensures cause { IfErr result (λ e. SlipRose e (faults self.old) (faults self.new)) }
        ensures same_next { OnErr result (next self.new ≡ next self.old) }
        ensures same { OnErr result (kept self.new ≡ kept self.old) }
        ensures later { Later (faults self.old) (faults self.new) };

    /// Enters the body's bytes among the sealed bodies, and gives the handle back. It may be called again after a
    /// refusal. A body that is lost is refused.
    fn seal(
        &mut self,
        alloc: Global,
        id: BodyId,
        body: Self::Body,
    ) -> Result<Self::Body, (KeepFault<SlipOf<Self>>, Self::Body)>
        requires id { (Self.Body.handle body).number ≡ id.0 }
        requires below { id.0 < next self.old }
        ensures comes { OnOk result (tells ≡ true →
            Comes (Sealed id.0 (Self.Body.handle body).bytes) (kept self.old) (kept self.new)) }
        ensures body { IfOk result (λ b. Self.Body.handle b ≡ closed (Self.Body.handle body)) }
        ensures body_faults { IfOk result (λ b. Self.Body.faults b ≡ Self.Body.faults body) }
        ensures sound { OnOk result ((faults self.old).may_fail ≡ true → Self.Body.lost body ≡ false) }

        // A refusal, and what it leaves.
        ensures cause { IfErr result (λ e. SlipRose e.0 (faults self.old) (faults self.new)) }
        ensures back { IfErr result (λ e. Self.Body.handle e.1 ≡ closed (Self.Body.handle body)) }
        ensures back_faults { IfErr result (λ e. Self.Body.faults e.1 ≡ Self.Body.faults body) }
        ensures still_lost { IfErr result (λ e. Self.Body.lost body ≡ true → Self.Body.lost e.1 ≡ true) }
        ensures either { tells ≡ true →
            MayCome (Sealed id.0 (Self.Body.handle body).bytes) (kept self.old) (kept self.new) }
        ensures same_next { next self.new ≡ next self.old }
        ensures later { Later (faults self.old) (faults self.new) };

    /// A handle of a sealed body.
    fn fetch_body(
        &mut self,
        alloc: Global,
        id: BodyId,
    ) -> Result<Self::Body, KeepFault<SlipOf<Self>>>
        requires { tells ≡ true → map.contains_key (kept self.old).bodies id.0 ≡ true }
        ensures bytes { IfOk result (λ b. tells ≡ true →
            map.get (kept self.old).bodies id.0 ≡ Some (Self.Body.handle b).bytes) }
        ensures id { IfOk result (λ b. (Self.Body.handle b).number ≡ id.0) }
        ensures sealed { IfOk result (λ b. (Self.Body.handle b).writable ≡ false) }
        ensures sound { IfOk result (λ b. Self.Body.lost b ≡ false) }
        ensures unfailed { IfOk result (λ b. Self.Body.faults b ≡ none_yet (faults self.old).may_fail) }
        ensures taken { IfOk result (λ b. tells ≡ true →
            kept self.new ≡ with_taken (Self.Body.handle b).size (kept self.old)) }

        // A refusal, and what it leaves.
        ensures cause { IfErr result (λ e. SlipRose e (faults self.old) (faults self.new)) }
        ensures same { OnErr result (kept self.new ≡ kept self.old) }
        ensures same_next { next self.new ≡ next self.old }
        ensures later { Later (faults self.old) (faults self.new) };

    /// Writes or replaces the whole head.
    fn put_head(
        &mut self,
        alloc: Global,
        id: BodyId,
        bytes: &[u8],
    ) -> Result<(), KeepFault<SlipOf<Self>>>
        requires { id.0 < next self.old }
        ensures comes { OnOk result (tells ≡ true → Comes (HeadPut id.0 bytes.now) (kept self.old) (kept self.new)) }

        // A refusal, and what it leaves.
        ensures cause { IfErr result (λ e. SlipRose e (faults self.old) (faults self.new)) }
        ensures either { tells ≡ true → MayCome (HeadPut id.0 bytes.now) (kept self.old) (kept self.new) }
        ensures same_next { next self.new ≡ next self.old }
        ensures later { Later (faults self.old) (faults self.new) };

    /// All heads.
    fn list_heads(&mut self, alloc: Global) -> Result<Heads, KeepFault<SlipOf<Self>>>
        ensures listed { IfOk result (λ heads. tells ≡ true → map.from_entries {R = nat_cmp} heads ≡ (kept self.old).heads) }
        ensures ordered { IfOk result (λ heads. IsStrictlySortedBy nat_cmp (keys_of heads)) }
        ensures below { IfOk result (λ heads. AllBelow (next self.old) (keys_of heads)) }

        // A refusal, and what it leaves.
        ensures cause { IfErr result (λ e. SlipRose e (faults self.old) (faults self.new)) }
        ensures same { kept self.new ≡ kept self.old }
        ensures same_next { next self.new ≡ next self.old }
        ensures later { Later (faults self.old) (faults self.new) };

    /// The ids of all bodies, sealed or not.
    fn list_bodies(&mut self, alloc: Global) -> Result<Ids, KeepFault<SlipOf<Self>>>
        ensures listed { IfOk result (λ ids. tells ≡ true → ListsBodies (kept self.old).bodies (kept self.old).loose ids) }
        ensures ordered { IfOk result (λ ids. IsStrictlySortedBy nat_cmp ids) }
        ensures below { IfOk result (λ ids. AllBelow (next self.old) ids) }

        // A refusal, and what it leaves.
        ensures cause { IfErr result (λ e. SlipRose e (faults self.old) (faults self.new)) }
        ensures same { kept self.new ≡ kept self.old }
        ensures same_next { next self.new ≡ next self.old }
        ensures later { Later (faults self.old) (faults self.new) };

    /// Removes the head, if it is there.
    fn remove_head(&mut self, alloc: Global, id: BodyId) -> Result<(), KeepFault<SlipOf<Self>>>
        ensures removes { OnOk result (tells ≡ true →
            Removes (HeadRemoved id.0) (has_head (kept self.old) id.0) (kept self.old) (kept self.new)) }

        // A refusal, and what it leaves.
        ensures cause { IfErr result (λ e. SlipRose e (faults self.old) (faults self.new)) }
        ensures either { tells ≡ true → MayCome (HeadRemoved id.0) (kept self.old) (kept self.new) }
        ensures absent { tells ≡ true → has_head (kept self.old) id.0 ≡ false → kept self.new ≡ kept self.old }
        ensures same_next { next self.new ≡ next self.old }
        ensures later { Later (faults self.old) (faults self.new) };

    /// Removes the body, sealed or not, if it is there.
    fn remove_body(&mut self, alloc: Global, id: BodyId) -> Result<(), KeepFault<SlipOf<Self>>>
        ensures removes { OnOk result (tells ≡ true →
            Removes (BodyRemoved id.0) (has_body (kept self.old) id.0) (kept self.old) (kept self.new)) }

        // A refusal, and what it leaves.
        ensures cause { IfErr result (λ e. SlipRose e (faults self.old) (faults self.new)) }
        ensures either { tells ≡ true → MayCome (BodyRemoved id.0) (kept self.old) (kept self.new) }
        ensures absent { tells ≡ true → has_body (kept self.old) id.0 ≡ false → kept self.new ≡ kept self.old }
        ensures same_next { next self.new ≡ next self.old }
        ensures later { Later (faults self.old) (faults self.new) };

    /// A keeper tells exactly where its bodies do.
    ghost body_tells: { Self.Body.tells ≡ tells };

    /// No id reaches 2^63.
    ghost bounded: { (k : Self) → next k ≤ 2 ^ 63 };

    /// Each id is below the next, and no body is both sealed and unsealed.
    ghost sound: { (k : Self) → tells ≡ true → IsSound (next k) (kept k) };
}
