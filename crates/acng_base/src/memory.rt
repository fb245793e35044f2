//! A link over memory, for tests and for replies that another part of the program reads.
//!
//! It moves at most `cut` bytes a call, has room for so many bytes, and fails at the calls that a list names, so that
//! every way a connection can break is run over memory.
ghost use Rattle.std.specs.Prelude.{◌≡◌, ◌+◌, ◌-◌, ◌<◌, ◌≤◌, List, ℕ, [], Some, drop, take, length, min, vec_capacity, IfOk, true};
ghost use Rattle.std.specs.declared.option.Option.{Option};
ghost use Rattle.std.specs.Io.{ReadsAtMost, WritesAtMost};
ghost use Rattle.std.specs.Io.KnownBytes.{ReadConsumes, WriteAppends, Keeps};
ghost use Rattle.acng_base.specs.Causes.{HasCause, one_more};
ghost use Rattle.acng_base.specs.Pipes.{Pipe, fails, fresh, ReadsAs, WritesAs};

use crate::bytes::copy_at_most;
use crate::fault::{Failed, NoMemory};
use crate::link::Link;
use std::alloc::Global;
use std::marker::Model;

/// A link over memory. Contracts see it as a `Pipe`.
#[derive(Debug, Drop)]
pub struct MemoryLink {
    input: Vec<u8>,
    at: usize,
    output: Vec<u8>,
    room: usize,
    cut: usize,
    calls: u64,
    fail: Vec<u64>,
    faults: u64,
}

impl Model for MemoryLink {
    ghost use Rattle.std.specs.Prelude.{◌+◌, ◌≤◌, drop, length, vec_capacity};
    ghost use Rattle.acng_base.specs.Pipes.{Pipe, IsSound};

    ghost Value = { Pipe };

    ghost view = { λ l. record {
      left = drop l.at l.input.items;
      written = l.output.items;
      room = l.room;
      cut = l.cut;
      calls = l.calls;
      fail = l.fail.items;
      faults = l.faults;
    } };

    ghost invariant = { λ l. IsSound l.at (length l.input.items) l.cut (length l.output.items) l.room (vec_capacity l.output) };
}

impl MemoryLink {
    /// A link with these bytes to read, room for so many written ones, at most `cut` bytes a call, and the numbers of
    /// the calls that fail, counted from 0.
    pub fn new(
        alloc: Global,
        input: &[u8],
        room: usize,
        cut: usize,
        fail: &[u64],
    ) -> Result<MemoryLink, NoMemory>
        requires { 1 ≤ cut }
        ensures { IfOk result (λ link. link ≡ fresh input.now room cut fail.now) }
    {
        Ok(MemoryLink {
            input: Vec::from_slice(alloc, input)?,
            at: 0,
            output: Vec::with_capacity(alloc, room)?,
            room,
            cut,
            calls: 0,
            fail: Vec::from_slice(alloc, fail)?,
            faults: 0,
        })
    }

    /// The bytes written so far.
    pub fn written(&self) -> &[u8]
        ensures { result.now ≡ self.now.written }
    {
        self.output.as_slice()
    }

    /// How often a call has failed.
    pub fn faults(&self) -> u64
        ensures { result ≡ self.now.faults }
    {
        self.faults
    }

    // Whether the call that comes is one of those that fail.
    fn fails_now(&self) -> bool
        ensures { result ≡ fails self.now }
    {
        self.fail.contains(&self.calls)
    }
}

impl Link for MemoryLink {
    ghost left = { λ l. Some l.left };

    ghost written = { λ l. Some l.written };

    ghost faults = { λ l. l.faults };

    fn read(&mut self, buf: &mut [u8]) -> Result<usize, Failed>
        ensures bound { ReadsAtMost result buf.new }
        ensures bytes { ReadConsumes (Some self.old.left) (Some self.new.left) result buf.new }
        ensures others { Keeps (Some self.old.written) (Some self.new.written) }
        ensures cause { HasCause self.old.faults self.new.faults result }
        ensures exact { ReadsAs self.old self.new (length buf.old) result }
    {
        let fails = self.fails_now();
        self.calls = self.calls.saturating_add(1);
        if fails {
            self.faults = self.faults.saturating_add(1);
            return Err(Failed);
        }
        let count = copy_at_most(&self.input[self.at..], buf, self.cut);
        self.at += count;
        Ok(count)
    }

    fn write(&mut self, piece: &[u8]) -> Result<usize, Failed>
        ensures bound { WritesAtMost result piece.now }
        ensures some { 0 < length piece.now → IfOk result (λ n. 0 < n) }
        ensures bytes { WriteAppends (Some self.old.written) (Some self.new.written) result piece.now }
        ensures others { Keeps (Some self.old.left) (Some self.new.left) }
        ensures cause { HasCause self.old.faults self.new.faults result }
        ensures exact { WritesAs self.old self.new piece.now result }
    {
        let fails = self.fails_now() || self.room == 0;
        self.calls = self.calls.saturating_add(1);
        if fails {
            self.faults = self.faults.saturating_add(1);
            return Err(Failed);
        }
        let count = piece.len().min(self.cut).min(self.room);
        self.output.extend_from_slice(&piece[..count]).unwrap();
        self.room -= count;
        Ok(count)
    }
}
