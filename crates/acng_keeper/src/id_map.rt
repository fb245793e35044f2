//! A map from ids, in the order of the ids. Contracts see a finite map, so nothing above knows the tree.
ghost use Rattle.std.specs.Prelude.{◌≡◌, ◌==◌, ◌||◌, ℕ, List, OnOk, OnErr, IfOk};
ghost use Rattle.std.specs.Option.{option_copied};
ghost use Rattle.std.specs.FinMap as map;
ghost use Rattle.std.specs.Ordering.{nat_cmp};
ghost use Rattle.std.specs.Map.{keys_of};
ghost use Rattle.std.specs.List.{list_any};
ghost use Rattle.std.specs.List.Sorted.{IsStrictlySortedBy};

use acng_base::{NoMemory, Text};
use std::alloc::Global;
use std::collections::BTreeMap;
use std::marker::Model;

/// A map from ids.
#[derive(Drop)]
pub struct IdMap<V> {
    rows: BTreeMap<u64, V>,
}

impl<V> Model for IdMap<V> {
    ghost use Rattle.std.specs.Coded.{coded_ℕ};
    ghost use Rattle.std.specs.FinMap as map;
    ghost use Rattle.std.specs.Ordering.{nat_cmp};

    ghost Value = { map.FinMap nat_cmp V };

    ghost coded = { map.code coded_ℕ V.code };

    ghost view = { λ s. map.from_entries s.rows.entries };
}

impl<V: Drop> IdMap<V> {
    pub fn new(alloc: Global) -> IdMap<V>
        ensures { result ≡ map.empty }
    {
        IdMap {
            rows: BTreeMap::new(alloc),
        }
    }

    pub fn get(&self, id: u64) -> Option<&V>
        ensures { option_copied result ≡ map.get self.now id }
    {
        self.rows.get(&id)
    }

    pub fn has(&self, id: u64) -> bool
        ensures { result ≡ map.contains_key self.now id }
    {
        self.get(id).is_some()
    }

    /// Puts a value in the place of what the id had.
    pub fn put(&mut self, id: u64, value: V) -> Result<(), NoMemory>
        ensures ok { OnOk result (self.new ≡ map.insert self.old id value) }
        ensures err { OnErr result (self.new ≡ self.old) }
    {
        let Ok(_) = self.rows.insert(id, value) else {
            return Err(NoMemory);
        };
        Ok(())
    }

    pub fn remove(&mut self, id: u64) -> Option<V>
        ensures value { result ≡ map.get self.old id }
        ensures removed { self.new ≡ map.remove self.old id }
    {
        self.rows.remove(&id)
    }

    pub fn clear(&mut self)
        ensures { self.new ≡ map.empty }
    {
        self.rows.clear();
    }

    /// Puts each id of this map into the other.
    pub fn add_ids(&self, all: &mut IdMap<()>) -> Result<(), NoMemory>
        ensures { OnOk result ((id : ℕ) → map.contains_key all.new id ≡ (map.contains_key all.old id || map.contains_key self.now id)) }
    {
        for entry in self.rows.iter() {
            all.put(*entry.0, ())?;
        }
        Ok(())
    }

    /// All entries, in rising order of ids.
    pub fn into_list(self, alloc: Global) -> Result<Vec<(u64, V)>, NoMemory>
        ensures same { IfOk result (λ list. map.from_entries {R = nat_cmp} list.items ≡ self) }
        ensures ordered { IfOk result (λ list. IsStrictlySortedBy nat_cmp (keys_of list.items)) }
    {
        let list = entries(alloc, self.rows)?;
        Ok(list)
    }

    /// All ids, in rising order.
    pub fn into_ids(self, alloc: Global) -> Result<Vec<u64>, NoMemory>
        ensures same { IfOk result (λ ids. (id : ℕ) → list_any (λ i. id == i) ids.items ≡ map.contains_key self id) }
        ensures ordered { IfOk result (λ ids. IsStrictlySortedBy nat_cmp ids.items) }
    {
        let ids = keys(alloc, self.rows)?;
        Ok(ids)
    }
}

// The keys of a tree, in its order.
fn keys<V: Drop>(alloc: Global, rows: BTreeMap<u64, V>) -> Result<Vec<u64>, NoMemory>
    ensures same { IfOk result (λ ids. ids.items ≡ keys_of rows.entries) }
    ensures ordered { IfOk result (λ ids. IsStrictlySortedBy nat_cmp ids.items) }
{
    Ok(rows.into_keys().collect(alloc)?)
}

// The entries of a tree, in its order.
fn entries<V: Drop>(alloc: Global, rows: BTreeMap<u64, V>) -> Result<Vec<(u64, V)>, NoMemory>
    ensures same { IfOk result (λ list. list.items ≡ rows.entries) }
    ensures ordered { IfOk result (λ list. IsStrictlySortedBy nat_cmp (keys_of list.items)) }
{
    Ok(rows.into_iter().collect(alloc)?)
}

impl IdMap<Text> {
    /// A copy of all entries, in rising order of ids.
    pub fn list(&self, alloc: Global) -> Result<Vec<(u64, Text)>, NoMemory>
        ensures same { IfOk result (λ list. map.from_entries {R = nat_cmp} list.items ≡ self.now) }
        ensures ordered { IfOk result (λ list. IsStrictlySortedBy nat_cmp (keys_of list.items)) }
    {
        let mut list = Vec::new(alloc);
        for entry in &self.rows {
            let (id, text) = entry;
            let own = Text::copy(alloc, text.as_bytes())?;
            let Ok(()) = list.push((*id, own)) else {
                return Err(NoMemory);
            };
        }
        Ok(list)
    }
}
