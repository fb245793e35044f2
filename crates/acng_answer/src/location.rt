//! The `Location` of a head, kept past the head's bytes.
//!
//! There is room for the longest one from the start on, since a field is shorter than its head.
ghost use Rattle.std.specs.Prelude.{◌≡◌, ◌≤◌, Some, None, IfOk, IfSome, IfNone, length};

use acng_base::NoMemory;
use std::alloc::Global;
use std::marker::Model;

/// The most bytes of a head, and so of a Location.
pub const ROOM: usize = 16_384;

/// The bytes of a Location, where the head has one. Contracts see them as an optional list.
#[derive(Debug, Drop)]
pub struct Location {
    bytes: Vec<u8>,
    stands: bool,
}

impl Model for Location {
    ghost use Rattle.std.specs.Prelude.{◌≤◌, Option, Some, None, List, ℕ, vec_capacity, cond};

    ghost Value = { Option (List ℕ) };

    ghost view = { λ l. cond l.stands (Some l.bytes.items) None };

    ghost invariant = { λ l. 16384 ≤ vec_capacity l.bytes };
}

impl Location {
    /// None, with room for one.
    pub fn new(alloc: Global) -> Result<Location, NoMemory>
        ensures { IfOk result (λ location. location ≡ None) }
    {
        Ok(Location {
            bytes: Vec::with_capacity(alloc, ROOM)?,
            stands: false,
        })
    }

    /// Keeps these bytes.
    pub fn set(&mut self, text: &[u8])
        requires { length text.now ≤ 16384 }
        ensures { self.new ≡ Some text.now }
    {
        self.bytes.clear();
        self.bytes.extend_from_slice(text).unwrap();
        self.stands = true;
    }

    pub fn get(&self) -> Option<&[u8]>
        ensures some { IfSome result (λ bytes. self.now ≡ Some bytes.now) }
        ensures none { IfNone result (self.now ≡ None) }
    {
        if self.stands { Some(&self.bytes) } else { None }
    }
}
