//! The one stanza of a Release.
ghost use Rattle.std.specs.Prelude.{◌≡◌, None, false, []};
ghost use Rattle.acng_index.specs.Makes.{one_of};
ghost use Rattle.acng_index.specs.Gives.{Gives};

use crate::drive::Takes;
use crate::fault::IndexFault;
use crate::release::{Release, release_of};
use acng_base::NoMemory;
use acng_stanza::Stanza;
use std::alloc::Global;

/// The first stanza, and whether there were several.
#[derive(Drop)]
pub struct OneTaker {
    first: Option<Stanza>,
    several: bool,
}

impl Takes for OneTaker {
    ghost use Rattle.acng_index.specs.Makes.{Release, one_of};

    ghost makes = { λ t ss. Release (one_of t.first t.several ss) };

    fn take(&mut self, _alloc: Global, stanza: Stanza) -> Result<(), NoMemory> {
        if self.first.is_none() {
            self.first = Some(stanza);
        } else {
            self.several = true;
        }
        Ok(())
    }
}

impl OneTaker {
    pub fn new() -> OneTaker
        ensures first { result.first ≡ None }
        ensures several { result.several ≡ false }
    {
        OneTaker {
            first: None,
            several: false,
        }
    }

    pub fn finish(self, alloc: Global) -> Result<Release, IndexFault>
        ensures { Gives (one_of self.first self.several []) result }
    {
        if self.several {
            return Err(IndexFault::NotOneStanza);
        }
        match &self.first {
            Some(stanza) => release_of(alloc, stanza),
            None => Err(IndexFault::NotOneStanza),
        }
    }
}
