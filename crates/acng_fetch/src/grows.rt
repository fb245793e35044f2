//! What a loader changes: a body that one owner has, or one behind a lock, with what there is to make it of.
//!
//! Each method from `start` to `cut` is one effect of a download. A loader keeps a plan of what is to be seen of the body,
//! and gives it with each call. Where one owner has the body, the plan is what is to be seen; behind a lock the method looks
//! whether it is, and waits where it isn't.
ghost use Rattle.std.specs.Prelude.{◌≡◌, ◌+◌, ◌≤◌, ℕ, Bool, true, Option, Some, IfSome, IsSomeAnd, OnOk, OnErr, length, option_map};
ghost use Rattle.acng_grow.specs.declared.facts.Seen.{Seen};
ghost use Rattle.acng_grow.specs.declared.facts.Stage.TheVariants as stage;
ghost use Rattle.acng_grow.specs.Causes.{shown_of};
ghost use Rattle.acng_grow.specs.Effects.{from_part, kept_same, last_of, started, with_last};
ghost use Rattle.acng_grow.specs.Allowed.{MayStart, MayGoOn, MayResume, MayAdd, MayFinish, MayKeep, MayRefuse, MayCut};
ghost use Rattle.acng_fetch.specs.Stocks.{Stock};

use crate::order::OldOrder;
use acng_base::Text;
use acng_grow::{Facts, Seen, Shown, Why};
use acng_keeper::{BodyFile, KeepFault};
use acng_site::{OriginSlip, Site, Try};
use std::alloc::Global;

/// A body as a loader changes it.
pub trait Grows {
    type Site: Site;

    type File: BodyFile;

    type Slip: OriginSlip;

    /// The path, what the download is for, and the attempts that are left.
    ghost stock: { Self → Stock };

    /// Whether no file was taken yet, so that the body may open.
    ghost full: { Self → Bool };

    /// What is to be seen of the body, where one owner has it.
    ghost seen: { Self → Option Seen };

    /// How many attempts are left.
    fn tries_left(&self) -> u32
        ensures { result ≡ (stock self.now).left };

    /// The right to the next attempt.
    fn next_try(&mut self) -> Try<Self::Site>
        requires { 1 ≤ (stock self.old).left }
        ensures number { result.number ≡ (stock self.old).next }
        ensures stock { stock self.new ≡ record (stock self.old) { next = (stock self.new).next; left = (stock self.new).left } }
        ensures next { (stock self.new).next ≡ (stock self.old).next + 1 }
        ensures left { (stock self.new).left + 1 ≡ (stock self.old).left }
        ensures full { full self.new ≡ full self.old }
        ensures seen { seen self.new ≡ seen self.old };

    fn start(&mut self, plan: &Seen, attempt: u64, url: Text, facts: Facts)
        requires may { MayStart Self.Site.Site (stock self.old).path plan.now attempt url facts }
        requires full { full self.old ≡ true }
        requires agrees { IfSome (seen self.old) (λ s. s ≡ plan.now) }
        ensures seen { IfSome (seen self.new) (λ s. s ≡ started attempt url facts) }
        ensures stock { stock self.new ≡ stock self.old };

    fn go_on(&mut self, plan: &Seen, attempt: u64)
        requires may { IsSomeAnd (stock self.old).errand.part (MayGoOn Self.Site.Site (stock self.old).path plan.now attempt) }
        requires full { full self.old ≡ true }
        requires agrees { IfSome (seen self.old) (λ s. s ≡ plan.now) }
        ensures seen { IfSome (seen self.new) (λ s. s ≡ from_part attempt (stock self.old).errand.part plan.now) }
        ensures stock { stock self.new ≡ stock self.old };

    fn resume(&mut self, plan: &Seen, attempt: u64)
        requires may { MayResume plan.now attempt }
        requires agrees { IfSome (seen self.old) (λ s. s ≡ plan.now) }
        ensures seen { IfSome (seen self.new) (λ s. s ≡ record plan.now { label = option_map (with_last attempt) plan.now.label }) }
        ensures stock { stock self.new ≡ stock self.old };

    fn add(
        &mut self,
        alloc: Global,
        plan: &Seen,
        piece: &[u8],
    ) -> Result<(), KeepFault<<Self::File as BodyFile>::Slip>>
        requires may { MayAdd Self.Site.Site (stock self.old).path plan.now piece.now }
        requires agrees { IfSome (seen self.old) (λ s. s ≡ plan.now) }
        ensures added { OnOk result (IfSome (seen self.new) (λ s. s ≡ record plan.now { size = plan.now.size + length piece.now })) }
        ensures refused { OnErr result (IfSome (seen self.new) (λ s. s ≡ plan.now)) }
        ensures stock { stock self.new ≡ stock self.old };

    fn finish(&mut self, plan: &Seen)
        requires may { MayFinish Self.Site.Site (stock self.old).path plan.now }
        requires agrees { IfSome (seen self.old) (λ s. s ≡ plan.now) }
        ensures seen { IfSome (seen self.new) (λ s. s ≡ record plan.now { stage = stage.Whole }) }
        ensures stock { stock self.new ≡ stock self.old };

    fn same(&mut self, plan: &Seen, old: &OldOrder)
        requires old { (stock self.old).errand.old ≡ Some old.now }
        requires may { MayKeep Self.Site.Site (stock self.old).path plan.now old.now }
        requires full { full self.old ≡ true }
        requires agrees { IfSome (seen self.old) (λ s. s ≡ plan.now) }
        ensures seen { IfSome (seen self.new) (λ s. s ≡ kept_same old.now) }
        ensures stock { stock self.new ≡ stock self.old };

    /// Gives the cause as it is shown.
    fn refuse(
        &mut self,
        plan: &Seen,
        why: Why<Self::Slip, <Self::File as BodyFile>::Slip>,
    ) -> Option<Shown>
        requires may { MayRefuse Self.Site.Site (stock self.old).path plan.now
            (shown_of Self.Slip.number Self.File.Slip.number (last_of plan.now.label) why) }
        requires agrees { IfSome (seen self.old) (λ s. s ≡ plan.now) }
        ensures shown { result ≡ Some (shown_of Self.Slip.number Self.File.Slip.number (last_of plan.now.label) why) }
        ensures seen { IfSome (seen self.new) (λ s. s ≡ record plan.now { stage = stage.Refused; shown = result }) }
        ensures stock { stock self.new ≡ stock self.old };

    /// Gives the cause as it is shown.
    fn cut(
        &mut self,
        plan: &Seen,
        why: Why<Self::Slip, <Self::File as BodyFile>::Slip>,
    ) -> Option<Shown>
        requires may { MayCut Self.Site.Site (stock self.old).path plan.now
            (shown_of Self.Slip.number Self.File.Slip.number (last_of plan.now.label) why) }
        requires agrees { IfSome (seen self.old) (λ s. s ≡ plan.now) }
        ensures shown { result ≡ Some (shown_of Self.Slip.number Self.File.Slip.number (last_of plan.now.label) why) }
        ensures seen { IfSome (seen self.new) (λ s. s ≡ record plan.now { stage = stage.Cut; shown = result }) }
        ensures stock { stock self.new ≡ stock self.old };
}
