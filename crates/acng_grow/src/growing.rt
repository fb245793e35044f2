//! A body that grows.
//!
//! Each method from `begin_body` to `cut` is one effect of a download. Its condition names the path and what is to be seen
//! of the body, never its bytes, so that it holds of bodies in a folder too, and behind a lock.
ghost use Rattle.std.specs.Prelude.{◌≡◌, ◌+◌, ◌≤◌, ◌++◌, ℕ, List, [], true, length, option_map, option_copied, is_some};
ghost use Rattle.std.specs.Prelude.{None, Some, IfOk, OnOk, IfErr, OnErr, IfSome};
ghost use Rattle.acng_head.specs.declared.head.Label.TheVariants.{Fetched};
ghost use Rattle.acng_grow.specs.declared.facts.Stage.TheVariants as stage;
ghost use Rattle.acng_grow.specs.Causes.{IsLawful, shown_of};
ghost use Rattle.acng_grow.specs.Stands.{StandsFor, StandsWhole, FactsStand};
ghost use Rattle.acng_grow.specs.Effects.{Errand, Start, GoOn, Resume, Bytes, Finish, Same, Refuse, Cut};
ghost use Rattle.acng_grow.specs.Effects.{after, has_ended, kept_same, last_of, opening as opening_seen, started, went_on, with_last};
ghost use Rattle.acng_grow.specs.Grown.{text_of, number_of};
ghost use Rattle.acng_grow.specs.Allowed.{MayStart, MayGoOn, MayResume, MayAdd, MayFinish, MayKeep, MayRefuse, MayCut};
ghost use Rattle.acng_grow.specs.Keeps.{IsSound, most_bytes};
ghost use Rattle.acng_grow.specs.Takes.{Rests, SlipsIn};

use crate::facts::{Facts, Stage};
use crate::why::{Shown, Why};
use acng_base::{CachePath, Text};
use acng_head::Label;
use acng_keeper::{BodyFile, BodyId, KeepFault};
use acng_site::{OriginSlip, Site};
use std::alloc::Global;
use std::marker::{Model, PhantomData};

/// The body of a download for one path, over a site, a body's file and an origin's slip. Contracts see it as a `Grown`.
#[derive(Drop)]
pub struct Growing<S: Site, F: BodyFile, P: OriginSlip> {
    pub(crate) path: CachePath,
    pub(crate) url: Option<Text>,
    pub(crate) stage: Stage,
    pub(crate) label: Option<Label>,
    pub(crate) facts: Facts,
    pub(crate) file: Option<F>,
    pub(crate) why: Option<Why<P, F::Slip>>,
    of: PhantomData<S>,
}

impl<S: Site, F: BodyFile, P: OriginSlip> Model for Growing<S, F, P> {
    ghost use Rattle.acng_grow.specs.Grown.{Grown, grown_of};
    ghost use Rattle.acng_grow.specs.Keeps.{IsSound};

    ghost Value = { Grown };

    ghost view = { λ g. grown_of F.handle F.faults P.number F.Slip.number g.path g.url g.stage g.label g.facts g.file g.why };

    ghost invariant = { λ g. IsSound S.Site F.tells
        (grown_of F.handle F.faults P.number F.Slip.number g.path g.url g.stage g.label g.facts g.file g.why) };
}

// ---- what is to be seen

impl<S: Site, F: BodyFile, P: OriginSlip> Growing<S, F, P> {
    /// A body that opens, for the path.
    pub fn new(path: CachePath) -> Growing<S, F, P>
        ensures { result ≡ record { path = path; seen = opening_seen; file = None } }
    {
        Growing {
            path,
            url: None,
            stage: Stage::Opening,
            label: None,
            facts: Facts::none(),
            file: None,
            why: None,
            of: PhantomData,
        }
    }

    /// Does nothing; its clause is all that a body keeps.
    pub fn keeps(&self)
        ensures { IsSound S.Site F.tells self.now }
    {
        let _ = &self.path;
    }

    pub fn path(&self) -> &CachePath
        ensures { result.now ≡ self.now.path }
    {
        &self.path
    }

    /// The URL of the first attempt, once there is one and until `move_out` gave the file away.
    pub fn url(&self) -> Option<&[u8]>
        ensures { option_copied result ≡ self.now.seen.url }
    {
        match &self.url {
            Some(url) => Some(url.as_bytes()),
            None => None,
        }
    }

    pub fn stage(&self) -> Stage
        ensures { result ≡ self.now.seen.stage }
    {
        self.stage
    }

    pub fn facts(&self) -> Facts
        ensures { result ≡ self.now.seen.facts }
    {
        self.facts.again()
    }

    /// The attempts that the bytes came by, for which they and the facts stand.
    pub fn label(&self) -> Option<Label>
        ensures label { result ≡ self.now.seen.label }
        ensures stands { F.tells ≡ true → IfSome result (λ l. StandsFor S.Site self.now.path l (text_of self.now)) }
        ensures facts { IfSome result (λ l. FactsStand S.Site self.now.path self.now.seen.url l self.now.seen.facts) }
    {
        self.label
    }

    /// How many bytes it has, at most 2^41.
    pub fn len(&self) -> u64
        ensures size { result ≡ self.now.seen.size }
        ensures small { result ≤ most_bytes }
        ensures told { F.tells ≡ true → result ≡ length (text_of self.now) }
    {
        match &self.file {
            Some(file) => file.len(),
            None => 0,
        }
    }

    /// Why it ended: Some exactly where it was cut or refused.
    pub fn shown(&self) -> Option<Shown>
        ensures shown { result ≡ self.now.seen.shown }
        ensures some { is_some result ≡ has_ended self.now.seen.stage }
        ensures lawful { S.tells ≡ true → IfSome result (λ c. IsLawful S.Site self.now.path c) }
    {
        match &self.why {
            Some(why) => Some(why.shown(last_attempt(self.label))),
            None => None,
        }
    }

    /// The id of the file that is there.
    pub fn file_id(&self) -> Option<BodyId>
        ensures { option_map (λ id. id.0) result ≡ number_of self.now }
    {
        match &self.file {
            Some(file) => Some(file.id()),
            None => None,
        }
    }
}

// ---- the effects of a download

impl<S: Site, F: BodyFile, P: OriginSlip> Growing<S, F, P> {
    /// Opens the body with an empty file, by an attempt at a URL.
    pub fn begin_body(&mut self, body: F, url: Text, first: u64, facts: Facts)
        requires may { MayStart S.Site self.old.path self.old.seen first url facts }
        requires empty { (F.handle body).size ≡ 0 }
        requires no_bytes { F.tells ≡ true → (F.handle body).bytes ≡ [] }
        requires writable { (F.handle body).writable ≡ true }
        ensures grown { self.new ≡
            record { path = self.old.path; seen = started first url facts; file = Some (F.handle body, F.faults body) } }
        ensures event { (e : Errand) → self.new.seen ≡ after e self.old.seen (Start first url facts) }
    {
        self.stage = Stage::Running;
        self.url = Some(url);
        self.label = Some(Label::Fetched { first, last: first });
        self.facts = facts;
        self.file = Some(body);
        self.why = None;
    }

    /// Opens the body with a partial body, whose first attempt was at the URL, and with which an attempt goes on.
    pub fn go_on(&mut self, body: F, url: Text, first: u64, attempt: u64, facts: Facts)
        requires may { MayGoOn S.Site self.old.path self.old.seen attempt
            (record { url = url; first = first; last = attempt; facts = facts; size = (F.handle body).size }) }
        requires stands { F.tells ≡ true → StandsFor S.Site self.old.path (Fetched first attempt) (F.handle body).bytes }
        requires writable { (F.handle body).writable ≡ true }
        ensures grown { self.new ≡ record {
          path = self.old.path;
          seen = went_on attempt (record { url = url; first = first; last = attempt; facts = facts; size = (F.handle body).size });
          file = Some (F.handle body, F.faults body);
        } }
        ensures event { (e : Errand) (last : ℕ)
            → e.part ≡ Some (record { url = url; first = first; last = last; facts = facts; size = (F.handle body).size })
            → self.new.seen ≡ after e self.old.seen (GoOn attempt) }
    {
        self.stage = Stage::Running;
        self.url = Some(url);
        self.label = Some(Label::Fetched {
            first,
            last: attempt,
        });
        self.facts = facts;
        self.file = Some(body);
        self.why = None;
    }

    /// A further attempt gives the rest.
    pub fn resume(&mut self, attempt: u64)
        requires may { MayResume self.old.seen attempt }
        ensures grown { self.new ≡
            record self.old { seen = record self.old.seen { label = option_map (with_last attempt) self.old.seen.label } } }
        ensures event { (e : Errand) → self.new.seen ≡ after e self.old.seen (Resume attempt) }
    {
        self.label = match self.label {
            Some(Label::Fetched { first, .. }) => Some(Label::Fetched {
                first,
                last: attempt,
            }),
            label => label,
        };
    }

    /// Puts bytes at the end, by one append of the file. A refusal leaves the bytes as they were.
    pub fn add(&mut self, alloc: Global, piece: &[u8]) -> Result<(), KeepFault<F::Slip>>
        requires may { MayAdd S.Site self.old.path self.old.seen piece.now }
        ensures path { self.new.path ≡ self.old.path }
        ensures seen { OnOk result (self.new.seen ≡ record self.old.seen { size = self.old.seen.size + length piece.now }) }
        ensures event { OnOk result ((e : Errand) → self.new.seen ≡ after e self.old.seen (Bytes piece.now)) }
        ensures text { OnOk result (F.tells ≡ true → text_of self.new ≡ text_of self.old ++ piece.now) }
        ensures file { number_of self.new ≡ number_of self.old }

        // A refusal, and what it leaves.
        ensures cause { IfErr result (λ e. SlipsIn e self.old.file self.new.file) }
        ensures same { OnErr result (Rests self.old self.new) }
    {
        let Some(file) = &mut self.file else {
            unreachable!();
        };
        if let Err(fault) = file.append(alloc, piece) {
            return Err(fault);
        }
        Ok(())
    }

    /// All bytes are there.
    pub fn finish(&mut self)
        requires may { MayFinish S.Site self.old.path self.old.seen }
        ensures grown { self.new ≡ record self.old { seen = record self.old.seen { stage = stage.Whole } } }
        ensures event { (e : Errand) → self.new.seen ≡ after e self.old.seen Finish }
    {
        self.stage = Stage::Whole;
    }

    /// Opens and ends the body with a held one, which is still the file.
    pub fn same(&mut self, body: F, label: Label, facts: Facts)
        requires may { MayKeep S.Site self.old.path self.old.seen
            (record { label = label; facts = facts; size = (F.handle body).size }) }
        requires stands { F.tells ≡ true → StandsWhole S.Site self.old.path label (F.handle body).bytes }
        ensures grown { self.new ≡ record {
          path = self.old.path;
          seen = kept_same (record { label = label; facts = facts; size = (F.handle body).size });
          file = Some (F.handle body, F.faults body);
        } }
        ensures event { (e : Errand) → e.old ≡ Some (record { label = label; facts = facts; size = (F.handle body).size })
            → self.new.seen ≡ after e self.old.seen Same }
    {
        self.stage = Stage::Same;
        self.url = None;
        self.label = Some(label);
        self.facts = facts;
        self.file = Some(body);
        self.why = None;
    }

    /// Closes a body that didn't open.
    pub fn refuse(&mut self, why: Why<P, F::Slip>)
        requires may { MayRefuse S.Site self.old.path self.old.seen
            (shown_of P.number F.Slip.number (last_of self.old.seen.label) why) }
        ensures grown { self.new ≡ record self.old {
          seen = record self.old.seen {
            stage = stage.Refused;
            shown = Some (shown_of P.number F.Slip.number (last_of self.old.seen.label) why);
          };
        } }
        ensures event { (e : Errand) → self.new.seen
            ≡ after e self.old.seen (Refuse (shown_of P.number F.Slip.number (last_of self.old.seen.label) why)) }
    {
        self.stage = Stage::Refused;
        self.why = Some(why);
    }

    /// Breaks off a body that runs. It keeps its bytes.
    pub fn cut(&mut self, why: Why<P, F::Slip>)
        requires may { MayCut S.Site self.old.path self.old.seen
            (shown_of P.number F.Slip.number (last_of self.old.seen.label) why) }
        ensures grown { self.new ≡ record self.old {
          seen = record self.old.seen {
            stage = stage.Cut;
            shown = Some (shown_of P.number F.Slip.number (last_of self.old.seen.label) why);
          };
        } }
        ensures event { (e : Errand) → self.new.seen
            ≡ after e self.old.seen (Cut (shown_of P.number F.Slip.number (last_of self.old.seen.label) why)) }
    {
        self.stage = Stage::Cut;
        self.why = Some(why);
    }
}

// The last attempt of a label.
fn last_attempt(label: Option<Label>) -> u64
    ensures { result ≡ last_of label }
{
    match label {
        Some(Label::Fetched { last, .. }) => last,
        _ => 0,
    }
}
