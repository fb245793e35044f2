//! A set of ids. Contracts see a finite map of nothing.
ghost use Rattle.std.specs.Prelude.{◌≡◌, OnOk, OnErr};
ghost use Rattle.std.specs.FinMap as map;

use acng_base::NoMemory;
use std::alloc::Global;
use std::collections::BTreeMap;
use std::marker::Model;

/// A set of ids.
#[derive(Drop)]
pub struct IdSet {
    list: BTreeMap<u64, ()>,
}

impl Model for IdSet {
    ghost use Rattle.std.specs.Coded.{coded_ℕ};
    ghost use base.Stored.{coded_unit};
    ghost use Rattle.std.specs.FinMap as map;
    ghost use Rattle.std.specs.Ordering.{nat_cmp};

    ghost Value = { map.FinMap nat_cmp (Unit {0}) };

    ghost coded = { map.code coded_ℕ coded_unit };

    ghost view = { λ s. map.from_entries s.list.entries };
}

impl IdSet {
    pub fn new(alloc: Global) -> IdSet
        ensures { result ≡ map.empty }
    {
        IdSet {
            list: BTreeMap::new(alloc),
        }
    }

    pub fn has(&self, id: u64) -> bool
        ensures { result ≡ map.contains_key self.now id }
    {
        self.list.get(&id).is_some()
    }

    pub fn put(&mut self, id: u64) -> Result<(), NoMemory>
        ensures ok { OnOk result (self.new ≡ map.insert self.old id tt) }
        ensures err { OnErr result (self.new ≡ self.old) }
    {
        let Ok(_) = self.list.insert(id, ()) else {
            return Err(NoMemory);
        };
        Ok(())
    }
}
