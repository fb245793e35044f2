//! What a Release lists.
ghost use Rattle.std.specs.Prelude.{◌≡◌};
ghost use Rattle.std.specs.Option.{option_copied};
ghost use Rattle.acng_index.specs.Releases.{is_yes, release_of};
ghost use Rattle.acng_index.specs.Gives.{Gives};

use crate::entry::{IndexEntry, read_entries};
use crate::fault::IndexFault;
use acng_stanza::Stanza;
use std::alloc::Global;
use std::marker::Model;

/// The files that a Release lists, in its order. Contracts see the list and the mark.
#[derive(Debug, Drop)]
pub struct Release {
    entries: Vec<IndexEntry>,
    by_hash: bool,
}

impl Model for Release {
    ghost use Rattle.acng_index.specs.Releases.{Listed};

    ghost Value = { Listed };

    ghost view = { λ r. record { entries = r.entries.items; by_hash = r.by_hash } };
}

impl Release {
    pub fn entries(&self) -> &[IndexEntry]
        ensures { result.now ≡ self.now.entries }
    {
        self.entries.as_slice()
    }

    /// Whether each file can be had by its hash too.
    pub fn by_hash(&self) -> bool
        ensures { result ≡ self.now.by_hash }
    {
        self.by_hash
    }
}

/// What the one stanza of a Release lists.
pub fn release_of(alloc: Global, stanza: &Stanza) -> Result<Release, IndexFault>
    ensures { Gives (release_of stanza.now) result }
{
    let Some(i) = stanza.place_of(b"SHA256") else {
        return Err(IndexFault::NoList);
    };
    let by_hash = is_yes(stanza.find(b"Acquire-By-Hash"));
    match read_entries(alloc, stanza.value(i), stanza.line(i)) {
        Ok(entries) => Ok(Release { entries, by_hash }),
        Err(fault) => Err(fault),
    }
}

fn is_yes(value: Option<&[u8]>) -> bool
    ensures { result ≡ is_yes (option_copied value.entry) }
{
    match value {
        Some(value) => value == b"yes".as_slice(),
        None => false,
    }
}
