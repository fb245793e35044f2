//! The calls of a keeper and of its bodies, numbered together from 0, and the slip of a call that failed.
ghost use Rattle.std.specs.Prelude.{◌≡◌, ◌<◌, ℕ, nat_lt, length, Contains, IfOk, IfErr, OnOk, OnErr, Ok, is_some, true, false};
ghost use Rattle.acng_keeper.specs.Slips.{Faults, Plan, HasFailed, Later, SlipRose, none_yet};

use crate::slip::{KeepFault, KeeperSlip};
use acng_base::{FileFault, NoMemory};
use std::alloc::Global;
use std::marker::Model;
use std::sync::Arc;
use std::sync::atomic::{AtomicU64, Ordering};

/// That a call failed. The keepers of this crate and their bodies hand it out.
#[derive(Debug, Drop)]
pub struct CallSlip {
    number: u64,
}

impl KeeperSlip for CallSlip {
    ghost number = { λ s. s.number };

    fn call(&self) -> u64 {
        self.number
    }
}

impl From<CallSlip> for KeepFault<CallSlip> {
    ghost use Rattle.acng_keeper.specs.declared.slip.KeepFault.TheVariants.{Slip};

    ghost from_gives = { λ slip fault. fault ≡ Slip slip };

    fn from(slip: CallSlip) -> KeepFault<CallSlip> {
        KeepFault::Slip(slip)
    }
}

/// The number of the next call, which a keeper shares with its bodies.
#[derive(Drop)]
pub(crate) struct Numbers {
    next: Arc<AtomicU64>,
}

impl Numbers {
    pub(crate) fn new(alloc: Global) -> Result<Numbers, NoMemory> {
        Ok(Numbers {
            next: Arc::new(alloc, AtomicU64::new(0))?,
        })
    }

    pub(crate) fn share(&self) -> Result<Numbers, NoMemory> {
        Ok(Numbers {
            next: Arc::try_clone(&self.next)?,
        })
    }

    // The number of the call that begins. At its last value it stands still.
    fn draw(&self) -> u64 {
        let next = |number: u64| number.checked_add(1);
        match self
            .next
            .fetch_update(Ordering::SeqCst, Ordering::SeqCst, next)
        {
            Ok(number) => number,
            Err(number) => number,
        }
    }
}

/// The calls of one object over the real outside, any of which may fail, and how often one did. Contracts see the
/// faults.
#[derive(Drop)]
pub(crate) struct FaultCount {
    numbers: Numbers,
    faults: u64,
}

impl Model for FaultCount {
    ghost use Rattle.std.specs.Prelude.{true};
    ghost use Rattle.acng_keeper.specs.Slips.{Faults};

    ghost Value = { Faults };

    ghost view = { λ a. record { count = a.faults; may_fail = true } };
}

impl FaultCount {
    pub(crate) fn new(alloc: Global) -> Result<FaultCount, NoMemory>
        ensures { IfOk result (λ calls. calls ≡ none_yet true) }
    {
        Ok(FaultCount {
            numbers: Numbers::new(alloc)?,
            faults: 0,
        })
    }

    /// That of a body of this keeper.
    pub(crate) fn share(&self) -> Result<FaultCount, NoMemory>
        ensures calls { IfOk result (λ calls. calls ≡ none_yet self.now.may_fail) }
        ensures may_fail { IfOk result (λ calls. calls.may_fail ≡ true) }
    {
        Ok(FaultCount {
            numbers: self.numbers.share()?,
            faults: 0,
        })
    }

    /// The number of the call that begins.
    pub(crate) fn begin(&self) -> u64 {
        self.numbers.draw()
    }

    /// The slip of the call with this number, which failed.
    pub(crate) fn fail(&mut self, number: u64) -> CallSlip
        ensures failed { HasFailed self.old self.new }
        ensures later { Later self.old self.new }
    {
        self.faults = self.faults.saturating_add(1);
        CallSlip { number }
    }

    /// What the call with this number answers, its work having ended so.
    pub(crate) fn answer<T: Drop>(
        &mut self,
        number: u64,
        done: Result<T, FileFault>,
    ) -> Result<T, KeepFault<CallSlip>>
        ensures done { IfOk result (λ v. done ≡ Ok v) }
        ensures cause { IfErr result (λ e. SlipRose e self.old self.new) }
        ensures later { Later self.old self.new }
    {
        match done {
            Ok(value) => Ok(value),
            Err(FileFault::Failed) => Err(KeepFault::Slip(self.fail(number))),
            Err(FileFault::NoMemory) => Err(KeepFault::NoMemory),
        }
    }
}

/// The calls of one object over memory: the numbers of those that fail, and how often one of its own failed. Contracts
/// see the list and the faults.
#[derive(Drop)]
pub(crate) struct FailPlan {
    numbers: Numbers,
    list: Arc<Vec<u64>>,
    may_fail: bool,
    faults: u64,
}

impl Model for FailPlan {
    ghost use Rattle.acng_keeper.specs.Slips.{Plan};

    ghost Value = { Plan };

    ghost view = { λ p. record { list = p.list.value.items; faults = record { count = p.faults; may_fail = p.may_fail } } };
}

impl FailPlan {
    /// The calls of a keeper whose calls with these numbers fail.
    pub(crate) fn new(alloc: Global, list: &[u64]) -> Result<FailPlan, NoMemory>
        ensures list { IfOk result (λ plan. plan.list ≡ list.now) }
        ensures faults { IfOk result (λ plan. plan.faults ≡ none_yet (nat_lt 0 (length list.now))) }
    {
        let own = Vec::from_slice(alloc, list)?;
        Ok(FailPlan {
            numbers: Numbers::new(alloc)?,
            list: Arc::new(alloc, own)?,
            may_fail: !list.is_empty(),
            faults: 0,
        })
    }

    /// The calls of a body of this keeper.
    pub(crate) fn share(&self) -> Result<FailPlan, NoMemory>
        ensures list { IfOk result (λ plan. plan.list ≡ self.now.list) }
        ensures faults { IfOk result (λ plan. plan.faults ≡ none_yet self.now.faults.may_fail) }
    {
        Ok(FailPlan {
            numbers: self.numbers.share()?,
            list: Arc::try_clone(&self.list)?,
            may_fail: self.may_fail,
            faults: 0,
        })
    }

    /// The same, but no further call fails.
    pub(crate) fn without_failures(self) -> FailPlan
        ensures { result.faults ≡ none_yet false }
    {
        FailPlan {
            numbers: self.numbers,
            list: self.list,
            may_fail: false,
            faults: 0,
        }
    }

    /// Begins a call. It fails where its number is one of those that fail.
    pub(crate) fn begin(&mut self) -> Result<(), CallSlip>
        ensures failed { OnErr result (HasFailed self.old.faults self.new.faults) }
        ensures named { IfErr result (λ slip. Contains self.old.list slip.number) }
        ensures same { OnOk result (self.new ≡ self.old) }
        ensures list { self.new.list ≡ self.old.list }
        ensures later { Later self.old.faults self.new.faults }
    {
        if !self.may_fail {
            return Ok(());
        }
        let number = self.numbers.draw();
        if !self.list.contains(&number) {
            return Ok(());
        }
        Err(self.fail(number))
    }

    /// Refuses what an earlier call with this number spoiled, unless no call fails.
    pub(crate) fn pass(&mut self, spoiled: Option<u64>) -> Result<(), CallSlip>
        ensures passed { OnOk result (self.old.faults.may_fail ≡ true → is_some spoiled ≡ false) }
        ensures failed { OnErr result (HasFailed self.old.faults self.new.faults) }
        ensures same { OnOk result (self.new ≡ self.old) }
        ensures later { Later self.old.faults self.new.faults }
    {
        match spoiled {
            Some(number) if self.may_fail => Err(self.fail(number)),
            _ => Ok(()),
        }
    }

    /// The slip of a call that fails since the call with this number did.
    pub(crate) fn fail(&mut self, number: u64) -> CallSlip
        requires { self.old.faults.may_fail ≡ true }
        ensures number { result.number ≡ number }
        ensures failed { HasFailed self.old.faults self.new.faults }
        ensures list { self.new.list ≡ self.old.list }
        ensures later { Later self.old.faults self.new.faults }
    {
        self.faults = self.faults.saturating_add(1);
        CallSlip { number }
    }
}
