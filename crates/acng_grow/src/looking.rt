//! What others see of a body: a look for those that wait for it, and a comparison with the plan of the one that changes
//! it.
ghost use Rattle.std.specs.Prelude.{◌≡◌, ◌≢◌, ◌⊎◌, true, false, option_map, IfSome, IfNone, OnSome};
ghost use Rattle.acng_grow.specs.declared.facts.Stage.TheVariants as stage;
ghost use Rattle.acng_grow.specs.Agrees.{agrees as agrees_of, LooksAt};
ghost use Rattle.acng_grow.specs.Grown.{number_of};

use crate::asked::{Asked, Look};
use crate::facts::{Seen, Stage};
use crate::growing::Growing;
use crate::why::Shown;
use acng_base::{CachePath, Text};
use acng_head::Label;
use acng_keeper::{BodyFile, BodyId};
use acng_site::{OriginSlip, Site};

impl<S: Site, F: BodyFile, P: OriginSlip> Growing<S, F, P> {
    /// What is to be seen of the body, where it is the asked one and has opened or was refused.
    pub fn look(&self, asked: &Asked) -> Option<Look>
        ensures told { IfSome result (LooksAt self.now) }
        ensures opened { OnSome result (self.now.seen.stage ≢ stage.Opening) }
        ensures asked { OnSome result (agrees_of asked.now self.now ≡ true) }
        ensures none { IfNone result ((self.now.seen.stage ≡ stage.Opening) ⊎ (agrees_of asked.now self.now ≡ false)) }
    {
        if !self.agrees(asked) {
            return None;
        }
        match self.stage {
            Stage::Opening => None,
            stage => Some(Look {
                stage,
                facts: self.facts.again(),
                label: self.label,
                shown: self.shown(),
            }),
        }
    }

    pub(crate) fn agrees(&self, asked: &Asked) -> bool
        ensures { result ≡ agrees_of asked.now self.now }
    {
        self.path.as_bytes() == asked.path.as_bytes()
            && asked.takes(self.label)
            && asked.names(&self.shown())
    }

    /// Whether the body has this path and file and is to be seen so.
    pub fn shows(&self, path: &CachePath, file: Option<BodyId>, seen: &Seen) -> bool
        ensures path { result ≡ true → self.now.path ≡ path.now }
        ensures file { result ≡ true → number_of self.now ≡ option_map (λ id. id.0) file }
        ensures seen { result ≡ true → self.now.seen ≡ seen.now }
        ensures found { self.now.path ≡ path.now → number_of self.now ≡ option_map (λ id. id.0) file
            → self.now.seen ≡ seen.now → result ≡ true }
    {
        if self.path.as_bytes() != path.as_bytes() {
            return false;
        }
        if !same_id(self.file_id(), file) {
            return false;
        }
        if !same_stage(self.stage, seen.stage) {
            return false;
        }
        if !same_url(&self.url, &seen.url) {
            return false;
        }
        if !same_label(self.label, seen.label) {
            return false;
        }
        if !self.facts.same(&seen.facts) {
            return false;
        }
        if self.len() != seen.size {
            return false;
        }
        let same = same_shown(&self.shown(), &seen.shown);
        same
    }
}

fn same_id(a: Option<BodyId>, b: Option<BodyId>) -> bool
    ensures same { result ≡ true → option_map (λ id. id.0) a ≡ option_map (λ id. id.0) b }
    ensures found { option_map (λ id. id.0) a ≡ option_map (λ id. id.0) b → result ≡ true }
{
    match (a, b) {
        (Some(a), Some(b)) => a.0 == b.0,
        (None, None) => true,
        _ => false,
    }
}

fn same_stage(a: Stage, b: Stage) -> bool
    ensures same { result ≡ true → a ≡ b }
    ensures found { a ≡ b → result ≡ true }
{
    a == b
}

fn same_url(a: &Option<Text>, b: &Option<Text>) -> bool
    ensures same { result ≡ true → a.now ≡ b.now }
    ensures found { a.now ≡ b.now → result ≡ true }
{
    match (a, b) {
        (Some(a), Some(b)) => a.as_bytes() == b.as_bytes(),
        (None, None) => true,
        _ => false,
    }
}

fn same_label(a: Option<Label>, b: Option<Label>) -> bool
    ensures same { result ≡ true → a ≡ b }
    ensures found { a ≡ b → result ≡ true }
{
    a == b
}

fn same_shown(a: &Option<Shown>, b: &Option<Shown>) -> bool
    ensures same { result ≡ true → a.now ≡ b.now }
    ensures found { a.now ≡ b.now → result ≡ true }
{
    match (a, b) {
        (Some(a), Some(b)) => a.same(b),
        (None, None) => true,
        _ => false,
    }
}
