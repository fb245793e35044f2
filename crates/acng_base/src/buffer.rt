//! Bytes that were read and aren't used yet.
//!
//! A buffer has room for a fixed count of bytes. What is used is passed over, and nothing is moved while a piece is used
//! whole; what is held moves to the front only where at most half of the room is left behind it.
ghost use Rattle.std.specs.Prelude.{◌≡◌, ◌==◌, ◌-◌, ◌<◌, ◌≤◌, List, ℕ, [], Result, length, take, drop, IfOk};
ghost use Rattle.std.specs.Io.{ReadsAtMost};
ghost use Rattle.std.specs.Io.KnownBytes.{Keeps};
ghost use Rattle.acng_base.specs.Causes.{HasCause};
ghost use Rattle.acng_base.specs.Buffers.{Fills, IsFilled, LinkRead};

use crate::fault::{Failed, NoMemory};
use crate::link::Link;
use std::alloc::Global;
use std::marker::Model;

/// How bytes are read from a connection of a type `C`.
pub trait Reads<C> {
    /// What a read that fails gives.
    type Fault;

    /// What one read did: the connection before and after it, its answer, and the bytes of the room after it.
    ghost did: { C → C → Result ℕ Self.Fault → List ℕ → Type 0 };

    /// Reads some bytes into the front of the room. `Ok(0)` is the end.
    fn read(conn: &mut C, room: &mut [u8]) -> Result<usize, Self::Fault>
        ensures bound { ReadsAtMost result room.new }
        ensures did { did conn.old conn.new result room.new };
}

/// The reading of a link.
#[derive(Clone, Copy, Debug)]
pub struct ByLink;

impl<L: Link> Reads<L> for ByLink {
    type Fault = Failed;

    ghost did = { λ old new result room.
        LinkRead (L.left old) (L.left new) (L.written old) (L.written new) (L.faults old) (L.faults new) result room };

    fn read(link: &mut L, room: &mut [u8]) -> Result<usize, Failed> {
        link.read(room)
    }
}

/// Bytes that were read and aren't used, at most `ROOM`. Contracts see the list of them.
#[derive(Debug, Drop)]
pub struct Unread<const ROOM: usize> {
    bytes: Vec<u8>,
    start: usize,
    stop: usize,
}

impl<const ROOM: usize> Model for Unread<ROOM> {
    ghost Value = { List ℕ };

    ghost view = { λ u. drop u.start (take u.stop u.bytes.items) };

    ghost invariant = { λ u. (u.start ≤ u.stop) × (u.stop ≤ ROOM) × (length u.bytes.items ≡ ROOM) };
}

impl<const ROOM: usize> Unread<ROOM> {
    /// An empty buffer.
    pub fn new(alloc: Global) -> Result<Unread<ROOM>, NoMemory>
        ensures { IfOk result (λ unread. unread ≡ []) }
    {
        Ok(Unread {
            bytes: Vec::from_elem(alloc, 0, ROOM)?,
            start: 0,
            stop: 0,
        })
    }

    /// The bytes held.
    pub fn as_bytes(&self) -> &[u8]
        ensures bytes { result.now ≡ self.now }
        ensures few { length self.now ≤ ROOM }
    {
        &self.bytes[self.start..self.stop]
    }

    pub fn is_empty(&self) -> bool
        ensures { result ≡ (length self.now == 0) }
    {
        self.as_bytes().is_empty()
    }

    /// Whether no room is left.
    pub fn is_full(&self) -> bool
        ensures full { result ≡ (length self.now == ROOM) }
        ensures few { length self.now ≤ ROOM }
    {
        self.as_bytes().len() == ROOM
    }

    /// Passes over so many bytes at the front.
    pub fn use_up(&mut self, count: usize)
        requires { count ≤ length self.old }
        ensures { self.new ≡ drop count self.old }
    {
        self.start += count;
        if self.start == self.stop {
            self.start = 0;
            self.stop = 0;
        }
    }

    /// Reads what comes from a link into the room that is left.
    pub fn fill<L: Link>(&mut self, link: &mut L) -> Result<usize, Failed>
        requires { length self.old < ROOM }
        ensures bytes { Fills self.old self.new (L.left link.old) (L.left link.new) result }
        ensures others { Keeps (L.written link.old) (L.written link.new) }
        ensures cause { HasCause (L.faults link.old) (L.faults link.new) result }
    {
        self.fill_from::<L, ByLink>(link)
    }

    /// Reads what comes from a connection into the room that is left.
    pub fn fill_from<C, R: Reads<C>>(&mut self, conn: &mut C) -> Result<usize, R::Fault>
        requires { length self.old < ROOM }
        ensures { IsFilled (R.did conn.old conn.new) self.old self.new result }
    {
        let (start, stop) = make_room(self.bytes.as_mut_slice(), self.start, self.stop);
        self.start = start;
        self.stop = stop;
        match read_past::<C, R>(conn, self.bytes.as_mut_slice(), stop) {
            Ok(count) => {
                self.stop += count;
                Ok(count)
            }
            Err(fault) => Err(fault),
        }
    }
}

// Moves what is held to the front, unless it stands there or more than half of the room is left behind it. Says where
// it then begins and ends.
fn make_room(bytes: &mut [u8], start: usize, stop: usize) -> (usize, usize)
    requires ordered { start ≤ stop }
    requires within { stop ≤ length bytes.old }
    requires few { stop - start < length bytes.old }
    ensures ordered { result.0 ≤ result.1 }
    ensures room { result.1 < length bytes.new }
    ensures held { drop result.0 (take result.1 bytes.new) ≡ drop start (take stop bytes.old) }
{
    if start == 0 || bytes.len() - stop > bytes.len() / 2 {
        return (start, stop);
    }
    bytes.copy_within(start..stop, 0);
    (0, stop - start)
}

// Reads into the room from an offset on.
fn read_past<C, R: Reads<C>>(conn: &mut C, bytes: &mut [u8], at: usize) -> Result<usize, R::Fault>
    requires { at < length bytes.old }
    ensures kept { take at bytes.new ≡ take at bytes.old }
    ensures bound { ReadsAtMost result (drop at bytes.new) }
    ensures did { R.did conn.old conn.new result (drop at bytes.new) }
{
    R::read(conn, &mut bytes[at..])
}
