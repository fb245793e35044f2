//! A loader: the plan of what is to be seen of a body, and the body.
//!
//! Each method is one effect, on both.
ghost use Rattle.std.specs.Prelude.{◌≡◌, ◌+◌, true, Some, OnOk, OnErr, length, option_map};
ghost use Rattle.acng_grow.specs.declared.facts.Stage.TheVariants as stage;
ghost use Rattle.acng_grow.specs.Causes.{shown_of};
ghost use Rattle.acng_grow.specs.Effects.{kept_same, last_of, opening, started, went_on, with_last};
ghost use Rattle.acng_grow.specs.Allowed.{MayStart, MayGoOn, MayResume, MayAdd, MayFinish, MayKeep, MayRefuse, MayCut};
ghost use Rattle.acng_fetch.specs.Stocks.{Agrees};

use crate::grows::Grows;
use crate::order::{OldOrder, PartOrder};
use acng_base::{NoMemory, Text};
use acng_grow::{Facts, Seen, Stage, Why};
use acng_head::Label;
use acng_keeper::{BodyFile, KeepFault};
use std::alloc::Global;

/// The plan and the body, which is as the plan says where one owner has it.
#[derive(Drop)]
pub struct Loader<B> {
    pub plan: Seen,
    pub body: B,
}

/// Why a call of the body's file was refused.
pub type FaultOf<B> = KeepFault<<<B as Grows>::File as BodyFile>::Slip>;

/// A slip of the body's file.
pub type SlipIn<B> = <<B as Grows>::File as BodyFile>::Slip;

/// Why a body ends.
pub type WhyOf<B> = Why<<B as Grows>::Slip, <<B as Grows>::File as BodyFile>::Slip>;

/// What is to be seen of a body that opens.
pub(crate) fn opening_plan() -> Seen
    ensures { result ≡ opening }
{
    Seen {
        url: None,
        stage: Stage::Opening,
        label: None,
        facts: Facts::none(),
        size: 0,
        shown: None,
    }
}

impl<B: Grows> Loader<B> {
    /// The loader of a body that opens.
    pub fn new(body: B) -> Loader<B>
        requires opening { Agrees (B.seen body) opening }
        ensures plan { result.plan ≡ opening }
        ensures body { result.body ≡ body }
    {
        Loader {
            plan: opening_plan(),
            body,
        }
    }

    pub(crate) fn start(
        &mut self,
        alloc: Global,
        attempt: u64,
        url: Text,
        facts: Facts,
    ) -> Result<(), NoMemory>
        requires may { MayStart B.Site.Site (B.stock self.old.body).path self.old.plan attempt url facts }
        requires full { B.full self.old.body ≡ true }
        requires agrees { Agrees (B.seen self.old.body) self.old.plan }
        ensures plan { OnOk result (self.new.plan ≡ started attempt url facts) }
        ensures refused { OnErr result (self.new.plan ≡ self.old.plan) }
        ensures agrees { Agrees (B.seen self.new.body) self.new.plan }
        ensures stock { B.stock self.new.body ≡ B.stock self.old.body }
    {
        let planned = Text::copy(alloc, url.as_bytes())?;
        self.body.start(&self.plan, attempt, url, facts.again());
        self.plan = Seen {
            url: Some(planned),
            stage: Stage::Running,
            label: Some(Label::Fetched {
                first: attempt,
                last: attempt,
            }),
            facts,
            size: 0,
            shown: None,
        };
        Ok(())
    }

    pub(crate) fn go_on(
        &mut self,
        alloc: Global,
        attempt: u64,
        part: &PartOrder,
    ) -> Result<(), NoMemory>
        requires part { (B.stock self.old.body).errand.part ≡ Some part.now }
        requires may { MayGoOn B.Site.Site (B.stock self.old.body).path self.old.plan attempt part.now }
        requires full { B.full self.old.body ≡ true }
        requires agrees { Agrees (B.seen self.old.body) self.old.plan }
        ensures plan { OnOk result (self.new.plan ≡ went_on attempt part.now) }
        ensures refused { OnErr result (self.new.plan ≡ self.old.plan) }
        ensures agrees { Agrees (B.seen self.new.body) self.new.plan }
        ensures stock { B.stock self.new.body ≡ B.stock self.old.body }
    {
        let url = Text::copy(alloc, part.url.as_bytes())?;
        self.body.go_on(&self.plan, attempt);
        self.plan = Seen {
            url: Some(url),
            stage: Stage::Running,
            label: Some(Label::Fetched {
                first: part.first,
                last: attempt,
            }),
            facts: part.facts.again(),
            size: part.size,
            shown: None,
        };
        Ok(())
    }

    pub(crate) fn resume(&mut self, attempt: u64)
        requires may { MayResume self.old.plan attempt }
        requires agrees { Agrees (B.seen self.old.body) self.old.plan }
        ensures plan { self.new.plan ≡ record self.old.plan { label = option_map (with_last attempt) self.old.plan.label } }
        ensures agrees { Agrees (B.seen self.new.body) self.new.plan }
        ensures stock { B.stock self.new.body ≡ B.stock self.old.body }
    {
        self.body.resume(&self.plan, attempt);
        self.plan.label = label_with(self.plan.label, attempt);
    }

    pub(crate) fn add(&mut self, alloc: Global, piece: &[u8]) -> Result<(), FaultOf<B>>
        requires may { MayAdd B.Site.Site (B.stock self.old.body).path self.old.plan piece.now }
        requires agrees { Agrees (B.seen self.old.body) self.old.plan }
        ensures plan { OnOk result (self.new.plan ≡ record self.old.plan { size = self.old.plan.size + length piece.now }) }
        ensures refused { OnErr result (self.new.plan ≡ self.old.plan) }
        ensures agrees { Agrees (B.seen self.new.body) self.new.plan }
        ensures stock { B.stock self.new.body ≡ B.stock self.old.body }
    {
        if let Err(fault) = self.body.add(alloc, &self.plan, piece) {
            return Err(fault);
        }
        self.plan.size += piece.len() as u64;
        Ok(())
    }

    pub(crate) fn finish(&mut self)
        requires may { MayFinish B.Site.Site (B.stock self.old.body).path self.old.plan }
        requires agrees { Agrees (B.seen self.old.body) self.old.plan }
        ensures plan { self.new.plan ≡ record self.old.plan { stage = stage.Whole } }
        ensures agrees { Agrees (B.seen self.new.body) self.new.plan }
        ensures stock { B.stock self.new.body ≡ B.stock self.old.body }
    {
        self.body.finish(&self.plan);
        self.plan.stage = Stage::Whole;
    }

    pub(crate) fn same(&mut self, old: &OldOrder)
        requires old { (B.stock self.old.body).errand.old ≡ Some old.now }
        requires may { MayKeep B.Site.Site (B.stock self.old.body).path self.old.plan old.now }
        requires full { B.full self.old.body ≡ true }
        requires agrees { Agrees (B.seen self.old.body) self.old.plan }
        ensures plan { self.new.plan ≡ kept_same old.now }
        ensures agrees { Agrees (B.seen self.new.body) self.new.plan }
        ensures stock { B.stock self.new.body ≡ B.stock self.old.body }
    {
        self.body.same(&self.plan, old);
        self.plan = Seen {
            url: None,
            stage: Stage::Same,
            label: Some(old.label),
            facts: old.facts.again(),
            size: old.size,
            shown: None,
        };
    }

    pub(crate) fn refuse(&mut self, why: WhyOf<B>)
        requires may { MayRefuse B.Site.Site (B.stock self.old.body).path self.old.plan
            (shown_of B.Slip.number B.File.Slip.number (last_of self.old.plan.label) why) }
        requires agrees { Agrees (B.seen self.old.body) self.old.plan }
        ensures plan { self.new.plan ≡ record self.old.plan {
          stage = stage.Refused;
          shown = Some (shown_of B.Slip.number B.File.Slip.number (last_of self.old.plan.label) why);
        } }
        ensures agrees { Agrees (B.seen self.new.body) self.new.plan }
        ensures stock { B.stock self.new.body ≡ B.stock self.old.body }
    {
        let shown = self.body.refuse(&self.plan, why);
        self.plan.stage = Stage::Refused;
        self.plan.shown = shown;
    }

    pub(crate) fn cut(&mut self, why: WhyOf<B>)
        requires may { MayCut B.Site.Site (B.stock self.old.body).path self.old.plan
            (shown_of B.Slip.number B.File.Slip.number (last_of self.old.plan.label) why) }
        requires agrees { Agrees (B.seen self.old.body) self.old.plan }
        ensures plan { self.new.plan ≡ record self.old.plan {
          stage = stage.Cut;
          shown = Some (shown_of B.Slip.number B.File.Slip.number (last_of self.old.plan.label) why);
        } }
        ensures agrees { Agrees (B.seen self.new.body) self.new.plan }
        ensures stock { B.stock self.new.body ≡ B.stock self.old.body }
    {
        let shown = self.body.cut(&self.plan, why);
        self.plan.stage = Stage::Cut;
        self.plan.shown = shown;
    }
}

// The label whose last attempt is this one.
fn label_with(label: Option<Label>, attempt: u64) -> Option<Label>
    ensures { result ≡ option_map (with_last attempt) label }
{
    match label {
        Some(Label::Fetched { first, last: _ }) => Some(Label::Fetched {
            first,
            last: attempt,
        }),
        label => label,
    }
}
