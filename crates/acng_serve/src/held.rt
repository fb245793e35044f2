//! A link that holds the head of a reply back until the body's first piece, so that both go out in one write.
//!
//! What was written to it is what the link below it was given, and behind that what is held. So no byte is lost, sent twice
//! or out of its place, whatever the link below takes. At most 1,024 bytes are held, and none while a read waits: a read
//! sends them first. Whoever ends the connection calls `flush`.
ghost use Rattle.std.specs.Prelude.{◌≡◌, ◌⊎◌, ◌-◌, ◌<◌, ◌≤◌, [], true, drop, length, vec_capacity, vec_len, IfOk, OnOk};
ghost use Rattle.std.specs.Io.{ReadsAtMost, WritesAtMost};
ghost use Rattle.std.specs.Io.KnownBytes.{append_known, Appends, Keeps, ReadConsumes, WriteAppends};
ghost use Rattle.acng_base.specs.Causes.{HasCause};

use acng_base::{Failed, Link, NoMemory, first_bytes};
use std::alloc::Global;

/// The most bytes that are held.
const MOST_HELD: usize = 1024;

/// The most bytes that go out in one write with what was held.
const ROOM: usize = 16_384;

/// A link that holds a head back.
#[derive(Drop)]
pub(crate) struct HeldLink<L: Link + Drop> {
    link: L,
    held: Vec<u8>,
    ghost small: { length held.items ≤ 1024 },
    ghost room: { 16384 ≤ vec_capacity held },
}

impl<L: Link + Drop> HeldLink<L> {
    /// A link over another one, of which nothing is held.
    pub(crate) fn new(alloc: Global, link: L) -> Result<HeldLink<L>, NoMemory>
        ensures { IfOk result (λ it. (it.link ≡ link) × (it.held.items ≡ [])) }
    {
        Ok(HeldLink {
            link,
            held: Vec::with_capacity(alloc, ROOM)?,
        })
    }

    /// Sends what is held.
    pub(crate) fn flush(&mut self) -> Result<(), Failed>
        ensures sent { OnOk result (self.new.held.items ≡ []) }
        ensures bytes { Keeps (append_known (L.written self.old.link) self.old.held.items)
            (append_known (L.written self.new.link) self.new.held.items) }
        ensures others { Keeps (L.left self.old.link) (L.left self.new.link) }
        ensures cause { HasCause (L.faults self.old.link) (L.faults self.new.link) result }
    {
        while !self.held.is_empty() {
            if let Err(fault) = send_both(&mut self.link, &mut self.held, b"") {
                return Err(fault);
            }
        }
        Ok(())
    }

    // Sends what is held, and a front of the piece behind it.
    fn send_behind(&mut self, piece: &[u8]) -> Result<usize, Failed>
        ensures bound { WritesAtMost result piece.now }
        ensures some { 0 < length piece.now → IfOk result (λ n. 0 < n) }
        ensures bytes { WriteAppends (append_known (L.written self.old.link) self.old.held.items)
            (append_known (L.written self.new.link) self.new.held.items) result piece.now }
        ensures others { Keeps (L.left self.old.link) (L.left self.new.link) }
        ensures cause { HasCause (L.faults self.old.link) (L.faults self.new.link) result }
        ensures sent { OnOk result (self.new.held.items ≡ []) }
    {
        while !self.held.is_empty() {
            match send_both(&mut self.link, &mut self.held, piece) {
                Ok(0) => {}
                outcome => return outcome,
            }
        }
        self.link.write(piece)
    }
}

impl<L: Link + Drop> Link for HeldLink<L> {
    ghost left = { λ l. L.left l.link };

    ghost written = { λ l. append_known (L.written l.link) l.held.items };

    ghost faults = { λ l. L.faults l.link };

    fn read(&mut self, buf: &mut [u8]) -> Result<usize, Failed>
        ensures bound { ReadsAtMost result buf.new }
        ensures bytes { ReadConsumes (L.left self.old.link) (L.left self.new.link) result buf.new }
        ensures others { Keeps (append_known (L.written self.old.link) self.old.held.items)
            (append_known (L.written self.new.link) self.new.held.items) }
        ensures cause { HasCause (L.faults self.old.link) (L.faults self.new.link) result }
        ensures sent { OnOk result (self.new.held.items ≡ []) }
    {
        match self.flush() {
            Ok(()) => self.link.read(buf),
            Err(fault) => Err(fault),
        }
    }

    fn write(&mut self, piece: &[u8]) -> Result<usize, Failed>
        ensures bound { WritesAtMost result piece.now }
        ensures some { 0 < length piece.now → IfOk result (λ n. 0 < n) }
        ensures bytes { WriteAppends (append_known (L.written self.old.link) self.old.held.items)
            (append_known (L.written self.new.link) self.new.held.items) result piece.now }
        ensures others { Keeps (L.left self.old.link) (L.left self.new.link) }
        ensures cause { HasCause (L.faults self.old.link) (L.faults self.new.link) result }
        ensures held { OnOk result ((self.new.held.items ≡ []) ⊎ ((self.old.held.items ≡ []) × (self.new.held.items ≡ piece.now))) }
    {
        if self.held.is_empty() && is_head(piece) {
            self.held.extend_from_slice(piece).unwrap();
            return Ok(piece.len());
        }
        self.send_behind(piece)
    }
}

// Whether the piece is a head that may be held: that of a reply which a body may follow.
fn is_head(piece: &[u8]) -> bool
    ensures { result ≡ true → (0 < length piece.now) × (length piece.now ≤ 1024) }
{
    piece.len() <= MOST_HELD
        && (piece.starts_with(b"HTTP/1.1 200 ") || piece.starts_with(b"HTTP/1.1 206 "))
}

// Sends what is held, and in the same write as much of the piece as has room behind it. Says how much of the piece the link
// took. Where it took no more than a front of what is held, the rest stays held.
fn send_both<L: Link>(link: &mut L, held: &mut Vec<u8>, piece: &[u8]) -> Result<usize, Failed>
    requires some { 0 < vec_len held.old }
    requires small { vec_len held.old ≤ 1024 }
    requires room { 16384 ≤ vec_capacity held.old }
    ensures bound { WritesAtMost result piece.now }
    ensures bytes { WriteAppends (append_known (L.written link.old) held.old.items)
        (append_known (L.written link.new) held.new.items) result piece.now }
    ensures fewer { OnOk result (vec_len held.new < vec_len held.old) }
    ensures all { IfOk result (λ n. 0 < n → held.new.items ≡ []) }
    ensures small { vec_len held.new ≤ 1024 }
    ensures room { 16384 ≤ vec_capacity held.new }
    ensures others { Keeps (L.left link.old) (L.left link.new) }
    ensures cause { HasCause (L.faults link.old) (L.faults link.new) result }
{
    let waiting = held.len();
    held.extend_from_slice(first_bytes(piece, ROOM - waiting))
        .unwrap();
    let outcome = link.write(held.as_slice());
    held.truncate(waiting);
    match outcome {
        Ok(count) => Ok(let_go(held, count)),
        Err(fault) => Err(fault),
    }
}

// Of so many bytes that went out, the first were held. Says how many the others are.
fn let_go(held: &mut Vec<u8>, count: usize) -> usize
    ensures others { result ≡ count - length held.old.items }
    ensures rest { held.new.items ≡ drop count held.old.items }
    ensures room { vec_capacity held.new ≡ vec_capacity held.old }
{
    let waiting = held.len();
    if count < waiting {
        held.rotate_left(count);
        held.truncate(waiting - count);
        return 0;
    }
    held.clear();
    count - waiting
}
