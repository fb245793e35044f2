//! A stanza: a list of fields (Debian Policy, section 5.1).
//!
//! Names and values stand one after another in one buffer, without anything between them; a place tells where a name
//! begins, where its value begins, and the line. A value ends where the next name begins, or with the buffer. So a
//! field takes no memory of its own, and the last value goes on by what is written behind it.
ghost use Rattle.std.specs.Prelude.{◌≡◌, ◌==◌, ◌<◌, ◌≤◌, [], ◌∷◌, ◌++◌, List, OnOk, Some, IfSome, option_map, length};
ghost use Rattle.std.specs.Option.{option_copied};
ghost use Rattle.acng_stanza.specs.Stanzas.{Field, go_on, field, nth, value_of, is_named};
ghost use Rattle.acng_stanza.specs.Places.{part, stop_of};

use acng_base::NoMemory;
use std::alloc::Global;
use std::marker::Model;

/// Where a field stands in the buffer.
#[derive(Clone, Copy)]
struct Place {
    /// The name's first byte.
    start: usize,
    /// The value's first byte, behind the name's last one.
    value: usize,
    /// The number of the field's first line.
    line: u64,
}

/// A stanza. Contracts see it as its fields, each with a name, a value and the number of its first line.
#[derive(Drop)]
pub struct Stanza {
    bytes: Vec<u8>,
    places: Vec<Place>,
}

impl Model for Stanza {
    ghost use Rattle.std.specs.Prelude.{List};
    ghost use Rattle.acng_stanza.specs.Stanzas.{Field};
    ghost use Rattle.acng_stanza.specs.Codes.{coded_field};
    ghost use Rattle.std.specs.Coded.{coded_list};

    ghost Value = { List Field };

    ghost coded = { coded_list coded_field };

    ghost use Rattle.std.specs.Prelude.{length};
    ghost use Rattle.acng_stanza.specs.Places.{fields_in, AreInOrder};

    ghost view = { λ s. fields_in s.bytes.items s.places.items };

    ghost invariant = { λ s. AreInOrder (length s.bytes.items) s.places.items };
}

impl Stanza {
    /// No field.
    pub(crate) fn new(alloc: Global) -> Stanza
        ensures { result ≡ [] }
    {
        Stanza {
            bytes: Vec::new(alloc),
            places: Vec::new(alloc),
        }
    }

    /// No field, with about as much room as this stanza took, where memory is there: those of a text are alike.
    pub(crate) fn successor(&self, alloc: Global) -> Stanza
        ensures { result ≡ [] }
    {
        Stanza {
            bytes: room(alloc, self.bytes.len()),
            places: room(alloc, self.places.len()),
        }
    }

    /// Adds a field at the end.
    pub(crate) fn add(&mut self, line: u64, name: &[u8], value: &[u8]) -> Result<(), NoMemory>
        ensures { OnOk result (self.new ≡ self.old ++ record { name = name.now; value = value.now; line = line } ∷ []) }
    {
        let start = self.bytes.len();
        self.bytes.extend_from_slice(name)?;
        let at = self.bytes.len();
        self.bytes.extend_from_slice(value)?;
        self.places.push(Place {
            start,
            value: at,
            line,
        })?;
        Ok(())
    }

    /// The value of the last field goes on with a line feed and the text.
    pub(crate) fn go_on(&mut self, text: &[u8]) -> Result<(), NoMemory>
        requires { 0 < length self.old }
        ensures { OnOk result (go_on text.now self.old ≡ Some self.new) }
    {
        self.bytes.push(b'\n')?;
        self.bytes.extend_from_slice(text)?;
        Ok(())
    }

    /// How many fields there are.
    pub fn len(&self) -> usize
        ensures { result ≡ length self.now }
    {
        self.places.len()
    }

    pub fn is_empty(&self) -> bool
        ensures { result ≡ (length self.now == 0) }
    {
        self.places.is_empty()
    }

    /// The name of a field, as it is written.
    pub fn name(&self, i: usize) -> &[u8]
        requires { i < length self.now }
        ensures { result.now ≡ (nth self.now i).name }
    {
        let place = self.places[i];
        span(&self.bytes, place.start, place.value)
    }

    /// The value of a field; its lines are joined by line feeds.
    pub fn value(&self, i: usize) -> &[u8]
        requires { i < length self.now }
        ensures { result.now ≡ (nth self.now i).value }
    {
        let stop = stop(&self.places, i, self.bytes.len());
        span(&self.bytes, self.places[i].value, stop)
    }

    /// The number of a field's first line, counted from 1.
    pub fn line(&self, i: usize) -> u64
        requires { i < length self.now }
        ensures { result ≡ (nth self.now i).line }
    {
        self.places[i].line
    }

    /// The value of the first field of this name, letters' case aside.
    pub fn find(&self, name: &[u8]) -> Option<&[u8]>
        ensures { option_copied result ≡ option_map value_of (field name.now self.now) }
    {
        match self.place_of(name) {
            Some(i) => Some(self.value(i)),
            None => None,
        }
    }

    /// Which field is the first one of this name, letters' case aside.
    pub fn place_of(&self, name: &[u8]) -> Option<usize>
        ensures field { option_map (nth self.now) result ≡ field name.now self.now }
        ensures within { IfSome result (λ i. i < length self.now) }
    {
        for i in 0..self.places.len() {
            if is_named(self.name(i), name) {
                return Some(i);
            }
        }
        None
    }
}

// No item, with room for so many and a few more, or none where memory was refused.
fn room<T: Drop>(alloc: Global, count: usize) -> Vec<T>
    ensures { result.items ≡ [] }
{
    match Vec::with_capacity(alloc, count.saturating_add(count / 16)) {
        Ok(items) => items,
        Err(_) => Vec::new(alloc),
    }
}

// The bytes from a place up to another one.
fn span(bytes: &[u8], start: usize, stop: usize) -> &[u8]
    requires ordered { start ≤ stop }
    requires within { stop ≤ length bytes.now }
    ensures { result.now ≡ part bytes.now start stop }
{
    &bytes[start..stop]
}

// Where the value of a field ends.
fn stop(places: &[Place], i: usize, len: usize) -> usize
    requires { i < length places.now }
    ensures { result ≡ stop_of places.now i len }
{
    if i + 1 < places.len() {
        places[i + 1].start
    } else {
        len
    }
}

fn is_named(text: &[u8], name: &[u8]) -> bool
    ensures { result ≡ is_named name.now text.now }
{
    text.eq_ignore_ascii_case(name)
}
