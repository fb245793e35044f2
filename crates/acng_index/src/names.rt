//! The names of a list of packages, taken stanza by stanza.
ghost use Rattle.std.specs.Prelude.{◌≡◌, [], Ok, Err};
ghost use Rattle.acng_index.specs.Makes.{so_far};

use crate::drive::Takes;
use crate::fault::IndexFault;
use crate::name::{Named, named_of};
use acng_base::NoMemory;
use acng_stanza::Stanza;
use std::alloc::Global;
use std::marker::Model;

/// The files that a list of packages names, in its order. Contracts see it as the list.
#[derive(Debug, Drop)]
pub struct Names {
    list: Vec<Named>,
}

impl Model for Names {
    ghost use Rattle.std.specs.Prelude.{List};
    ghost use Rattle.acng_index.specs.declared.name.Named.{Named};

    ghost Value = { List Named };

    ghost view = { λ n. n.list.items };
}

impl Names {
    pub fn list(&self) -> &[Named]
        ensures { result.now ≡ self.now }
    {
        self.list.as_slice()
    }
}

/// The names so far, or the first refusal; after that the stanzas are only passed over.
#[derive(Drop)]
pub struct NameTaker {
    list: Vec<Named>,
    refused: Option<IndexFault>,
}

impl Takes for NameTaker {
    ghost use Rattle.acng_index.specs.Makes.{Names, more_names, so_far};

    ghost makes = { λ n ss. Names (more_names (so_far n.list.items n.refused) ss) };

    fn take(&mut self, alloc: Global, stanza: Stanza) -> Result<(), NoMemory> {
        if self.refused.is_some() {
            return Ok(());
        }
        match named_of(alloc, &stanza) {
            Ok(named) => {
                let Ok(()) = self.list.push(named) else {
                    return Err(NoMemory);
                };
                Ok(())
            }
            Err(IndexFault::NoMemory) => Err(NoMemory),
            Err(fault) => {
                self.refused = Some(fault);
                Ok(())
            }
        }
    }
}

impl NameTaker {
    pub fn new(alloc: Global) -> NameTaker
        ensures { so_far result.list.items result.refused ≡ Ok [] }
    {
        NameTaker {
            list: Vec::new(alloc),
            refused: None,
        }
    }

    pub fn finish(self) -> Result<Names, IndexFault>
        ensures { result ≡ so_far self.list.items self.refused }
    {
        match self.refused {
            None => Ok(Names { list: self.list }),
            Some(fault) => Err(fault),
        }
    }
}
