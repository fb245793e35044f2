//! A set of texts, in byte order.
//!
//! A look-up goes down a tree once and copies nothing.
ghost use Rattle.std.specs.Prelude.{◌≡◌, ◌||◌, [], List, ℕ, OnOk, IfOk};
ghost use Rattle.acng_reach.specs.Sets.{same, among, Rises};

use acng_base::{NoMemory, Text, Texts};
use std::alloc::Global;
use std::collections::BTreeSet;
use std::marker::Model;

/// A set of texts. Contracts see it as the list of them in byte order.
#[derive(Drop)]
pub struct TextSet {
    items: BTreeSet<Vec<u8>>,
}

impl Model for TextSet {
    ghost use Rattle.std.specs.Prelude.{List, ℕ, map};

    ghost Value = { List (List ℕ) };

    ghost view = { λ s. map (λ v. v.items) s.items.keys };
}

impl TextSet {
    pub fn new(alloc: Global) -> TextSet
        ensures { result ≡ [] }
    {
        TextSet {
            items: BTreeSet::new(alloc),
        }
    }

    pub fn has(&self, text: &[u8]) -> bool
        ensures { result ≡ among text.now self.now }
    {
        self.items.contains(text)
    }

    /// Puts the text in, if it isn't there.
    pub fn put(&mut self, text: Vec<u8>) -> Result<(), NoMemory>
        ensures { OnOk result ((q : List ℕ) → among q self.new ≡ (same q text.items || among q self.old)) }
    {
        let Ok(_) = self.items.insert(text) else {
            return Err(NoMemory);
        };
        Ok(())
    }

    /// The texts in byte order.
    pub fn into_texts(self, alloc: Global) -> Result<Texts, NoMemory>
        ensures texts { IfOk result (λ texts. texts ≡ self) }
        ensures rises { Rises self }
    {
        let mut items = self.items;
        let mut texts = Texts::new(alloc);
        let _count = items.len();
        while let Some(text) = items.pop_first() {
            texts.push_text(Text::of(text))?;
        }
        Ok(texts)
    }
}
