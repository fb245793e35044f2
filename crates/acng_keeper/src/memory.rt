//! A keeper over memory, for tests: it tells what it has, and its calls fail on demand.
//!
//! A call that fails has done nothing. A call with an effect takes all its memory before it changes anything, so that
//! want of memory leaves everything as it was too.
#![tactic(auto, using(crate::proofs::Below::below))]

ghost use Rattle.std.specs.Prelude.{◌≡◌, ◌||◌, ◌+◌, ◌<◌, ◌≤◌, ◌-◌, ◌^◌, ◌++◌, Bool, true, false, List, ℕ, [], ◌∷◌};
ghost use Rattle.std.specs.Prelude.{length, nat_lt, min, take, drop, IfOk, OnOk, OnErr, IfErr, Some, None, refl};
ghost use Rattle.std.specs.Prelude.{is_some};
ghost use Rattle.std.specs.Io.{ReadsAtMost};
ghost use Rattle.std.specs.FinMap as map;
ghost use Rattle.std.specs.List.Sorted.{IsStrictlySortedBy};
ghost use Rattle.std.specs.Ordering.{nat_cmp};
ghost use Rattle.acng_keeper.specs.Images.{IsImage};
ghost use Rattle.acng_keeper.specs.Kept.{Comes, IdsBelow, AreApart, IsSound, nothing, without_loose};
ghost use Rattle.acng_keeper.specs.Lists.{ListsBodies};
ghost use Rattle.acng_keeper.specs.Slips.{HasFailed, Later, SlipRose, none_yet};
ghost use Rattle.acng_keeper.specs.declared.effect.Effect.TheVariants.{Sealed, HeadPut, HeadRemoved, BodyRemoved};

use crate::body::{BodyFile, BodyId};
use crate::calls::{CallSlip, FailPlan};
use crate::effect::Effect;
use crate::id_map::IdMap;
use crate::keeper::Keeper;
use crate::lists::{Heads, Ids};
use crate::slip::{KeepFault, KeeperSlip};
use acng_base::{NoMemory, Text};
use std::alloc::Global;

/// A body in memory. Its handle owns the bytes.
#[derive(Drop)]
pub struct MemoryBody {
    number: u64,
    bytes: Vec<u8>,
    writable: bool,
    // The number of the flush that failed.
    lost: Option<u64>,
    calls: FailPlan,
    ghost lossy: { is_some lost ≡ true → calls.faults.may_fail ≡ true },
}

impl BodyFile for MemoryBody {
    type Slip = CallSlip;

    ghost tells = { true };

    ghost handle = { λ b. record { number = b.number; size = length b.bytes.items; bytes = b.bytes.items; writable = b.writable } };

    ghost lost = { λ b. is_some b.lost };

    ghost faults = { λ b. b.calls.faults };

    ghost sized = { λ b t. refl };

    ghost lossy = { λ b. b.lossy };

    fn append(&mut self, _alloc: Global, piece: &[u8]) -> Result<(), KeepFault<CallSlip>> {
        self.calls.begin()?;
        self.bytes.extend_from_slice(piece)?;
        Ok(())
    }

    fn flush(&mut self) -> Result<(), CallSlip> {
        if let Err(slip) = self.calls.begin() {
            self.lost = Some(slip.call());
            return Err(slip);
        }
        match self.lost {
            Some(number) => Err(self.calls.fail(number)),
            None => Ok(()),
        }
    }

    fn read_at(&mut self, from: u64, buf: &mut [u8]) -> Result<usize, CallSlip>
        ensures bytes { IfOk result (λ n. take n buf.new ≡ take n (drop from (⟦<MemoryBody as BodyFile>⟧.handle self.old).bytes)) }
        ensures fits { ReadsAtMost result buf.new }
        ensures there { IfOk result (λ n. n ≤ (⟦<MemoryBody as BodyFile>⟧.handle self.old).size - from) }
        ensures some { IfOk result (λ n.
            from < (⟦<MemoryBody as BodyFile>⟧.handle self.old).size → 0 < length buf.new → 0 < n) }
        ensures cause { OnErr result
            (HasFailed (⟦<MemoryBody as BodyFile>⟧.faults self.old) (⟦<MemoryBody as BodyFile>⟧.faults self.new)) }
        ensures same { ⟦<MemoryBody as BodyFile>⟧.handle self.new ≡ ⟦<MemoryBody as BodyFile>⟧.handle self.old }
        ensures as_lost { ⟦<MemoryBody as BodyFile>⟧.lost self.new ≡ ⟦<MemoryBody as BodyFile>⟧.lost self.old }
        ensures later { Later (⟦<MemoryBody as BodyFile>⟧.faults self.old) (⟦<MemoryBody as BodyFile>⟧.faults self.new) }

        // As many bytes as are there and fit.
        ensures exact { IfOk result (λ n.
            n ≡ min ((⟦<MemoryBody as BodyFile>⟧.handle self.old).size - from) (length buf.old)) }
    {
        self.calls.begin()?;
        Ok(copy_from(self.bytes.as_slice(), from, buf))
    }

    fn len(&self) -> u64 {
        self.bytes.len() as u64
    }

    fn id(&self) -> BodyId {
        BodyId(self.number)
    }
}

// Copies from a place on, as many bytes as are there and fit.
fn copy_from(bytes: &[u8], from: u64, buf: &mut [u8]) -> usize
    ensures count { result ≡ min (length bytes.now - from) (length buf.old) }
    ensures len { length buf.new ≡ length buf.old }
    ensures bytes { take result buf.new ≡ take result (drop from bytes.now) }
{
    if from >= bytes.len() as u64 {
        return 0;
    }
    let rest = &bytes[from as usize..];
    let count = rest.len().min(buf.len());
    buf[..count].copy_from_slice(&rest[..count]);
    count
}

/// A keeper in memory.
#[derive(Drop)]
pub struct MemoryKeeper {
    heads: IdMap<Text>,
    bodies: IdMap<Text>,
    loose: IdMap<()>,
    next: u64,
    taken: u64,
    trail: Vec<Effect>,
    calls: FailPlan,
    ghost heads_below: { IdsBelow next heads },
    ghost bodies_below: { IdsBelow next bodies },
    ghost loose_below: { IdsBelow next loose },
    ghost apart: { AreApart bodies loose },
    ghost bounded: { next ≤ 2 ^ 63 },
}

impl MemoryKeeper {
    /// An empty keeper. Its calls and those of its bodies are numbered together from 0, and those with a number in
    /// `fail` fail; `next_id`, `len` and `id` don't count.
    pub fn new(alloc: Global, fail: &[u64]) -> Result<MemoryKeeper, NoMemory>
        ensures empty { IfOk result (λ keeper. ⟦<MemoryKeeper as Keeper>⟧.kept keeper ≡ nothing) }
        ensures first { IfOk result (λ keeper. ⟦<MemoryKeeper as Keeper>⟧.next keeper ≡ 0) }
        ensures faults { IfOk result (λ keeper.
            ⟦<MemoryKeeper as Keeper>⟧.faults keeper ≡ none_yet (nat_lt 0 (length fail.now))) }
    {
        let calls = FailPlan::new(alloc, fail)?;
        Ok(MemoryKeeper {
            heads: IdMap::new(alloc),
            bodies: IdMap::new(alloc),
            loose: IdMap::new(alloc),
            next: 0,
            taken: 0,
            trail: Vec::new(alloc),
            calls,
        })
    }

    /// The keeper as a start after a stop finds it: without its unsealed bodies. No call of it fails.
    pub fn after_stop(self) -> MemoryKeeper
        ensures kept { ⟦<MemoryKeeper as Keeper>⟧.kept result ≡ without_loose (⟦<MemoryKeeper as Keeper>⟧.kept self) }
        ensures next { ⟦<MemoryKeeper as Keeper>⟧.next result ≡ ⟦<MemoryKeeper as Keeper>⟧.next self }
        ensures faults { ⟦<MemoryKeeper as Keeper>⟧.faults result ≡ none_yet false }
        ensures image { IsImage (⟦<MemoryKeeper as Keeper>⟧.kept self) (⟦<MemoryKeeper as Keeper>⟧.kept self)
            (⟦<MemoryKeeper as Keeper>⟧.next self) (⟦<MemoryKeeper as Keeper>⟧.next self) (⟦<MemoryKeeper as Keeper>⟧.kept result) }
    {
        let MemoryKeeper {
            heads,
            bodies,
            mut loose,
            next,
            taken,
            trail,
            calls,
        } = self;
        loose.clear();
        MemoryKeeper {
            heads,
            bodies,
            loose,
            next,
            taken,
            trail,
            calls: calls.without_failures(),
        }
    }
}

impl Keeper for MemoryKeeper {
    type Body = MemoryBody;

    ghost tells = { true };

    ghost kept = { λ k. record { heads = k.heads; bodies = k.bodies; loose = k.loose; taken = k.taken; trail = k.trail.items } };

    ghost next = { λ k. k.next };

    ghost faults = { λ k. k.calls.faults };

    ghost body_tells = { refl };

    ghost bounded = { λ k. k.bounded };

    ghost sound = { λ k t. record { heads = k.heads_below; bodies = k.bodies_below; loose = k.loose_below; apart = k.apart } };

    fn next_id(&self) -> u64 {
        self.next
    }

    fn create(&mut self, alloc: Global) -> Result<(BodyId, MemoryBody), KeepFault<CallSlip>> {
        self.calls.begin()?;
        let calls = self.calls.share()?;
        let number = self.next;
        self.loose.put(number, ())?;
        self.next = number + 1;
        let body = MemoryBody {
            number,
            bytes: Vec::new(alloc),
            writable: true,
            lost: None,
            calls,
        };
        Ok((BodyId(number), body))
    }

    fn seal(
        &mut self,
        alloc: Global,
        id: BodyId,
        mut body: MemoryBody,
    ) -> Result<MemoryBody, (KeepFault<CallSlip>, MemoryBody)> {
        body.writable = false;
        match self.enter(alloc, id.0, &body) {
            Ok(()) => Ok(body),
            Err(fault) => Err((fault, body)),
        }
    }

    fn fetch_body(&mut self, alloc: Global, id: BodyId) -> Result<MemoryBody, KeepFault<CallSlip>> {
        self.calls.begin()?;
        let calls = self.calls.share()?;
        let Some(text) = self.bodies.get(id.0) else {
            unreachable!();
        };
        let bytes = Vec::from_slice(alloc, text.as_bytes())?;
        let Some(taken) = self.taken.checked_add(bytes.len() as u64) else {
            return Err(KeepFault::NoMemory);
        };
        self.taken = taken;
        Ok(MemoryBody {
            number: id.0,
            bytes,
            writable: false,
            lost: None,
            calls,
        })
    }

    fn put_head(
        &mut self,
        alloc: Global,
        id: BodyId,
        bytes: &[u8],
    ) -> Result<(), KeepFault<CallSlip>> {
        self.calls.begin()?;
        let told = Text::copy(alloc, bytes)?;
        let own = Text::copy(alloc, bytes)?;
        self.trail.reserve(1)?;
        self.heads.put(id.0, own)?;
        self.trail.push_reserved(Effect::HeadPut(id.0, told));
        Ok(())
    }

    fn list_heads(&mut self, alloc: Global) -> Result<Heads, KeepFault<CallSlip>> {
        self.calls.begin()?;
        let list = self.heads.list(alloc)?;
        Ok(Heads::of(list))
    }

    fn list_bodies(&mut self, alloc: Global) -> Result<Ids, KeepFault<CallSlip>> {
        self.calls.begin()?;
        let list = all_ids(alloc, &self.bodies, &self.loose)?;
        Ok(Ids::of(list))
    }

    fn remove_head(&mut self, _alloc: Global, id: BodyId) -> Result<(), KeepFault<CallSlip>> {
        self.calls.begin()?;
        self.trail.reserve(1)?;
        if self.heads.has(id.0) {
            let _ = self.heads.remove(id.0);
            self.trail.push_reserved(Effect::HeadRemoved(id.0));
        }
        Ok(())
    }

    fn remove_body(&mut self, _alloc: Global, id: BodyId) -> Result<(), KeepFault<CallSlip>> {
        self.calls.begin()?;
        self.trail.reserve(1)?;
        if self.bodies.has(id.0) || self.loose.has(id.0) {
            let _ = self.bodies.remove(id.0);
            let _ = self.loose.remove(id.0);
            self.trail.push_reserved(Effect::BodyRemoved(id.0));
        }
        Ok(())
    }
}

impl MemoryKeeper {
    // Enters the body's bytes among the sealed bodies.
    fn enter(
        &mut self,
        alloc: Global,
        id: u64,
        body: &MemoryBody,
    ) -> Result<(), KeepFault<CallSlip>>
        requires { id < self.old.next }
        ensures comes { OnOk result (Comes (Sealed id body.now.bytes.items)
            (⟦<MemoryKeeper as Keeper>⟧.kept self.old) (⟦<MemoryKeeper as Keeper>⟧.kept self.new)) }
        ensures sound { OnOk result (self.old.calls.faults.may_fail ≡ true → is_some body.now.lost ≡ false) }

        // A refusal, and what it leaves.
        ensures cause { IfErr result (λ e. SlipRose e self.old.calls.faults self.new.calls.faults) }
        ensures same { OnErr result (⟦<MemoryKeeper as Keeper>⟧.kept self.new ≡ ⟦<MemoryKeeper as Keeper>⟧.kept self.old) }
        ensures same_next { self.new.next ≡ self.old.next }
        ensures later { Later self.old.calls.faults self.new.calls.faults }
    {
        self.calls.begin()?;
        self.calls.pass(body.lost)?;
        let told = Text::copy(alloc, body.bytes.as_slice())?;
        let own = Text::copy(alloc, body.bytes.as_slice())?;
        self.trail.reserve(1)?;
        self.bodies.put(id, own)?;
        let _ = self.loose.remove(id);
        self.trail.push_reserved(Effect::Sealed(id, told));
        Ok(())
    }
}

// The ids of all bodies, in rising order.
fn all_ids(alloc: Global, bodies: &IdMap<Text>, loose: &IdMap<()>) -> Result<Vec<u64>, NoMemory>
    ensures listed { IfOk result (λ ids. ListsBodies bodies.now loose.now ids.items) }
    ensures ordered { IfOk result (λ ids. IsStrictlySortedBy nat_cmp ids.items) }
{
    let mut all = IdMap::new(alloc);
    bodies.add_ids(&mut all)?;
    loose.add_ids(&mut all)?;
    let ids = all.into_ids(alloc)?;
    Ok(ids)
}
