//! A map from paths, in byte order. Contracts see a finite map, so nothing above knows the tree.
//!
//! A look-up goes down the tree once and copies nothing.
ghost use Rattle.std.specs.Prelude.{◌≡◌, ◌==◌, [], ◌<◌, ◌^◌, OnOk, OnErr, IfNone, IfSome, None, Some, true, false, List, ℕ, IsSome};
ghost use Rattle.std.specs.Option.{option_copied};
ghost use Rattle.std.specs.FinMap as map;
ghost use Rattle.std.specs.BTreeMap.{get};
ghost use Rattle.std.specs.Ordering.{nat_cmp, is_gt};
ghost use Rattle.std.specs.Cmp.Lexicographic.{slice_cmp};
ghost use Rattle.std.specs.declared.cmp.Ordering.TheVariants.{Less};

use acng_base::{CachePath, NoMemory};
use std::alloc::Global;
use std::collections::BTreeMap;
use std::marker::Model;
use std::mem::replace;
use std::ops::Bound;

/// A map from paths.
#[derive(Drop)]
pub struct PathMap<V> {
    pub(crate) list: BTreeMap<CachePath, V>,
}

impl<V> Model for PathMap<V> {
    ghost use Rattle.std.specs.Coded.{coded_ℕ, coded_list};
    ghost use Rattle.std.specs.FinMap as map;
    ghost use Rattle.std.specs.Ordering.{nat_cmp};
    ghost use Rattle.std.specs.Cmp.Lexicographic.{slice_cmp};

    ghost Value = { map.FinMap (slice_cmp nat_cmp) V };

    ghost coded = { map.code (coded_list coded_ℕ) V.code };

    ghost view = { λ m. map.from_entries m.list.entries };
}

impl<V: Drop> PathMap<V> {
    pub fn new(alloc: Global) -> PathMap<V>
        ensures { result ≡ map.empty }
    {
        PathMap {
            list: BTreeMap::new(alloc),
        }
    }

    pub fn len(&self) -> usize
        ensures len { result ≡ map.len self.now }
        ensures small { result < 2 ^ 63 }
    {
        self.list.len()
    }

    pub fn is_empty(&self) -> bool
        ensures { result ≡ (map.len self.now == 0) }
    {
        self.len() == 0
    }

    pub fn get(&self, path: &CachePath) -> Option<&V>
        ensures { option_copied result ≡ map.get self.now path.now }
    {
        self.list.get(path)
    }

    pub fn has(&self, path: &CachePath) -> bool
        ensures { result ≡ map.contains_key self.now path.now }
    {
        self.get(path).is_some()
    }

    /// Puts a value in the place of what the path had. A refusal comes only where it had nothing.
    pub fn put(&mut self, path: CachePath, value: V) -> Result<(), NoMemory>
        ensures ok { OnOk result (self.new ≡ map.insert self.old path value) }
        ensures err { OnErr result (self.new ≡ self.old) }
        ensures absent { OnErr result (map.get self.old path ≡ None) }
    {
        let Ok(_) = self.list.insert(path, value) else {
            return Err(NoMemory);
        };
        Ok(())
    }

    /// Puts a value in the place of another, and gives that one. Takes no memory.
    pub fn swap(&mut self, path: &CachePath, value: V) -> V
        requires { map.contains_key self.old path.now ≡ true }
        ensures new { self.new ≡ map.insert self.old path.now value }
        ensures old { map.get self.old path.now ≡ Some result }
    {
        match self.list.get_mut(path) {
            Some(place) => replace(place, value),
            None => unreachable!(),
        }
    }

    /// Takes a path out. Takes no memory.
    pub fn remove(&mut self, path: &CachePath) -> Option<V>
        ensures value { result ≡ map.get self.old path.now }
        ensures removed { self.new ≡ map.remove self.old path.now }
    {
        self.list.remove(path)
    }

    /// The least path, with its value.
    pub fn first(&self) -> Option<(&CachePath, &V)>
        ensures there { IfSome result (λ p. map.get self.now p.0.now ≡ Some p.1.now) }
        ensures least { IfSome result (λ p. (q : List ℕ) → map.contains_key self.now q ≡ true →
            is_gt (slice_cmp nat_cmp p.0.now q) ≡ false) }
        ensures none { IfNone result (self.now ≡ map.empty) }
    {
        first_in(&self.list)
    }

    /// The least path above another, with its value.
    pub fn after(&self, path: &CachePath) -> Option<(&CachePath, &V)>
        ensures there { IfSome result (λ p. map.get self.now p.0.now ≡ Some p.1.now) }
        ensures above { IfSome result (λ p. slice_cmp nat_cmp path.now p.0.now ≡ Less) }
        ensures least { IfSome result (λ p. (q : List ℕ) → slice_cmp nat_cmp path.now q ≡ Less →
            map.contains_key self.now q ≡ true → is_gt (slice_cmp nat_cmp p.0.now q) ≡ false) }
        ensures none { IfNone result ((q : List ℕ) → slice_cmp nat_cmp path.now q ≡ Less → map.get self.now q ≡ None) }
    {
        next_in(&self.list, path)
    }
}

// The least path of a tree, with its value.
fn first_in<V>(list: &BTreeMap<CachePath, V>) -> Option<(&CachePath, &V)>
    ensures there { IfSome result (λ p. get (slice_cmp nat_cmp) list.now p.0.now ≡ Some p.1.now) }
    ensures least { IfSome result (λ p. (q : List ℕ) → IsSome (get (slice_cmp nat_cmp) list.now q) →
        is_gt (slice_cmp nat_cmp p.0.now q) ≡ false) }
    ensures none { IfNone result (list.now.entries ≡ []) }
{
    list.first_key_value()
}

// The least path above another in a tree, with its value.
fn next_in<'a, V>(
    list: &'a BTreeMap<CachePath, V>,
    path: &CachePath,
) -> Option<(&'a CachePath, &'a V)>
    ensures there { IfSome result (λ p. get (slice_cmp nat_cmp) list.now p.0.now ≡ Some p.1.now) }
    ensures above { IfSome result (λ p. slice_cmp nat_cmp path.now p.0.now ≡ Less) }
    ensures least { IfSome result (λ p. (q : List ℕ) → slice_cmp nat_cmp path.now q ≡ Less →
        IsSome (get (slice_cmp nat_cmp) list.now q) → is_gt (slice_cmp nat_cmp p.0.now q) ≡ false) }
    ensures none { IfNone result ((q : List ℕ) → slice_cmp nat_cmp path.now q ≡ Less →
        get (slice_cmp nat_cmp) list.now q ≡ None) }
{
    list.range((Bound::Excluded(path), Bound::Unbounded)).next()
}
