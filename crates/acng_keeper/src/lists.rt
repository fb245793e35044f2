//! The heads and the ids that a keeper lists, in rising order of ids.
ghost use Rattle.std.specs.Prelude.{◌≡◌, ◌==◌, ◌<◌, [], length, slice_index, slice_index_or};
ghost use Rattle.std.specs.Ordering.{nat_cmp};
ghost use Rattle.std.specs.Map.{keys_of};
ghost use Rattle.std.specs.List.Sorted.{IsStrictlySortedBy};

use crate::body::BodyId;
use acng_base::Text;
use std::marker::Model;

/// Heads in rising order of ids. Contracts see the list of ids and bytes.
#[derive(Debug, Drop)]
pub struct Heads {
    list: Vec<(u64, Text)>,
}

impl Model for Heads {
    ghost use Rattle.std.specs.Prelude.{List, ℕ};
    ghost use Rattle.std.specs.Ordering.{nat_cmp};
    ghost use Rattle.std.specs.Map.{keys_of};
    ghost use Rattle.std.specs.List.Sorted.{IsStrictlySortedBy};

    ghost Value = { List (ℕ × List ℕ) };

    ghost view = { λ h. h.list.items };

    ghost invariant = { λ h. IsStrictlySortedBy nat_cmp (keys_of h.list.items) };
}

impl Heads {
    pub(crate) fn of(list: Vec<(u64, Text)>) -> Heads
        requires { IsStrictlySortedBy nat_cmp (keys_of list.items) }
        ensures { result ≡ list.items }
    {
        Heads { list }
    }

    pub fn len(&self) -> usize
        ensures count { result ≡ length self.now }
        ensures ordered { IsStrictlySortedBy nat_cmp (keys_of self.now) }
    {
        self.list.len()
    }

    pub fn is_empty(&self) -> bool
        ensures { result ≡ (length self.now == 0) }
    {
        self.list.is_empty()
    }

    /// The head at a place below the length.
    pub fn get(&self, i: usize) -> (BodyId, &[u8])
        requires { i < length self.now }
        ensures entry { (result.0.0, result.1.now) ≡ slice_index_or self.now i (0, []) }
        ensures id { result.0.0 ≡ slice_index (keys_of self.now) i }
    {
        let (id, bytes) = &self.list[i];
        (BodyId(*id), bytes.as_bytes())
    }
}

/// Ids in rising order. Contracts see the list.
#[derive(Debug, Drop)]
pub struct Ids {
    list: Vec<u64>,
}

impl Model for Ids {
    ghost use Rattle.std.specs.Prelude.{List, ℕ};
    ghost use Rattle.std.specs.Ordering.{nat_cmp};
    ghost use Rattle.std.specs.List.Sorted.{IsStrictlySortedBy};

    ghost Value = { List ℕ };

    ghost view = { λ i. i.list.items };

    ghost invariant = { λ i. IsStrictlySortedBy nat_cmp i.list.items };
}

impl Ids {
    pub(crate) fn of(list: Vec<u64>) -> Ids
        requires { IsStrictlySortedBy nat_cmp list.items }
        ensures { result ≡ list.items }
    {
        Ids { list }
    }

    pub fn len(&self) -> usize
        ensures count { result ≡ length self.now }
        ensures ordered { IsStrictlySortedBy nat_cmp self.now }
    {
        self.list.len()
    }

    pub fn is_empty(&self) -> bool
        ensures { result ≡ (length self.now == 0) }
    {
        self.list.is_empty()
    }

    /// The id at a place below the length.
    pub fn get(&self, i: usize) -> BodyId
        requires { i < length self.now }
        ensures { result.0 ≡ slice_index self.now i }
    {
        BodyId(self.list[i])
    }
}
