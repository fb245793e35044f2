//! The end of a body: its file is made durable and sealed, or is moved out to be gone on with later.
ghost use Rattle.std.specs.Prelude.{◌≡◌, ◌<◌, true, None, Some, IfOk, OnOk, IfErr, OnErr, IfSome, IfNone, OnSome, is_some};
ghost use Rattle.acng_keeper.specs.Slips.{SlipRose, Later};
ghost use Rattle.acng_keeper.specs.Kept.{Comes, MayCome};
ghost use Rattle.acng_keeper.specs.declared.effect.Effect.TheVariants.{Sealed};
ghost use Rattle.acng_grow.specs.declared.facts.Stage.TheVariants as stage;
ghost use Rattle.acng_grow.specs.Grown.{closed_file};
ghost use Rattle.acng_grow.specs.Takes.{Rests, FileFailed};

use crate::facts::Facts;
use crate::growing::Growing;
use acng_base::Text;
use acng_head::Label;
use acng_keeper::{BodyFile, KeepFault, Keeper};
use acng_site::{OriginSlip, Site};
use std::alloc::Global;

/// What is left of a body that was cut.
#[derive(Drop)]
pub struct PartialBody<F> {
    pub body: F,
    /// The URL of its first attempt.
    pub url: Text,
    pub label: Label,
    pub facts: Facts,
}

impl<S: Site, F: BodyFile, P: OriginSlip> Growing<S, F, P> {
    /// Makes the bytes durable without sealing the file, so that `seal` has nothing left to write. It takes as long as the
    /// disk does, so it is called before a lock is taken that others wait for. Where it is refused, the body is as it was,
    /// and `seal` is refused.
    pub fn flush(&mut self) -> Result<(), F::Slip>
        ensures rests { Rests self.old self.new }
        ensures cause { OnErr result (FileFailed self.old.file self.new.file) }
    {
        let Some(file) = &mut self.file else {
            return Ok(());
        };
        match file.flush() {
            Ok(()) => Ok(()),
            Err(slip) => Err(slip),
        }
    }

    /// Seals the file of a whole body and keeps the handle.
    pub fn seal<K: Keeper<Body = F>>(
        &mut self,
        alloc: Global,
        keeper: &mut K,
    ) -> Result<(), KeepFault<F::Slip>>
        requires whole { self.old.seen.stage ≡ stage.Whole }
        requires below { IfSome self.old.file (λ f. f.0.number < K.next keeper.old) }
        ensures kept { self.new ≡ closed_file self.old }
        ensures comes { OnOk result (K.tells ≡ true →
            IfSome self.old.file (λ f. Comes (Sealed f.0.number f.0.bytes) (K.kept keeper.old) (K.kept keeper.new))) }

        // A refusal, and what it leaves.
        ensures cause { IfErr result (λ e. SlipRose e (K.faults keeper.old) (K.faults keeper.new)) }
        ensures either { K.tells ≡ true →
            IfSome self.old.file (λ f. MayCome (Sealed f.0.number f.0.bytes) (K.kept keeper.old) (K.kept keeper.new)) }
        ensures same_next { K.next keeper.new ≡ K.next keeper.old }
        ensures later { Later (K.faults keeper.old) (K.faults keeper.new) }
    {
        let Some(body) = self.file.take() else {
            unreachable!();
        };
        match keeper.seal(alloc, body.id(), body) {
            Ok(body) => {
                self.file = Some(body);
                Ok(())
            }
            Err((fault, body)) => {
                self.file = Some(body);
                Err(fault)
            }
        }
    }

    /// What is left of a body that was cut: its file with URL, label and facts. From then on the body has no byte to give
    /// and no URL; stage, label, facts and cause stay.
    pub fn move_out(&mut self) -> Option<PartialBody<F>>
        requires cut { self.old.seen.stage ≡ stage.Cut }
        ensures file { IfSome result (λ p. self.old.file ≡ Some (F.handle p.body, F.faults p.body)) }
        ensures url { IfSome result (λ p. self.old.seen.url ≡ Some p.url) }
        ensures label { IfSome result (λ p. self.old.seen.label ≡ Some p.label) }
        ensures facts { IfSome result (λ p. self.old.seen.facts ≡ p.facts) }
        ensures some { is_some result ≡ is_some self.old.file }

        // What it leaves.
        ensures left { OnSome result (self.new ≡
            record self.old { seen = record self.old.seen { url = None; size = 0 }; file = None }) }
        ensures same { IfNone result (self.new ≡ self.old) }
    {
        let Some(body) = self.file.take() else {
            return None;
        };
        let (Some(url), Some(label)) = (self.url.take(), self.label) else {
            unreachable!();
        };
        Some(PartialBody {
            body,
            url,
            label,
            facts: self.facts.again(),
        })
    }
}
