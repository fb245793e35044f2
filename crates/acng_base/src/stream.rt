//! Streams of one direction: a source of bytes and a sink for them, with their forms over memory, and the writing of a
//! whole piece to a sink.
ghost use Rattle.std.specs.Prelude.{◌≡◌, ◌<◌, ◌≤◌, List, ℕ, [], Some, length, IfOk};
ghost use Rattle.std.specs.declared.option.Option.{Option};
ghost use Rattle.std.specs.Io.{ReadsAtMost, WritesAtMost};
ghost use Rattle.std.specs.Io.KnownBytes.{ReadConsumes, WriteAppends};
ghost use Rattle.acng_base.specs.Causes.{HasCause, SendsAll};
ghost use Rattle.acng_base.specs.Pipes.{fresh, ReadsAs, WritesAs};

use crate::fault::{Failed, NoMemory};
use crate::link::Link;
use crate::memory::MemoryLink;
use std::alloc::Global;

/// What is read to its end, such as a configuration.
pub trait Source {
    /// The bytes that are left to read, where they are known.
    ghost left: { Self → Option (List ℕ) };

    /// How often a call has failed.
    ghost faults: { Self → ℕ };

    /// Reads some bytes. `Ok(0)` into a buffer that isn't empty is the end.
    fn read(&mut self, buf: &mut [u8]) -> Result<usize, Failed>
        ensures bound { ReadsAtMost result buf.new }
        ensures bytes { ReadConsumes (left self.old) (left self.new) result buf.new }
        ensures cause { HasCause (faults self.old) (faults self.new) result };
}

/// What is written to, such as the program's output.
pub trait Sink {
    /// The bytes written, where they are known.
    ghost written: { Self → Option (List ℕ) };

    /// How often a call has failed.
    ghost faults: { Self → ℕ };

    /// Writes a front of the piece, at least one byte of one that isn't empty.
    fn write(&mut self, piece: &[u8]) -> Result<usize, Failed>
        ensures bound { WritesAtMost result piece.now }
        ensures some { 0 < length piece.now → IfOk result (λ n. 0 < n) }
        ensures bytes { WriteAppends (written self.old) (written self.new) result piece.now }
        ensures cause { HasCause (faults self.old) (faults self.new) result };
}

/// Writes the whole piece, or at a fault a front of it.
pub fn write_all<W: Sink>(sink: &mut W, piece: &[u8]) -> Result<(), Failed>
    ensures bytes { SendsAll (W.written sink.old) (W.written sink.new) piece.now result }
    ensures cause { HasCause (W.faults sink.old) (W.faults sink.new) result }
{
    let mut sent = 0;
    while sent < piece.len() {
        match sink.write(&piece[sent..]) {
            Ok(count) => sent += count,
            Err(fault) => return Err(fault),
        }
    }
    Ok(())
}

/// A source over memory, which reads as a `MemoryLink` reads.
#[derive(Debug, Drop)]
pub struct MemorySource {
    pub link: MemoryLink,
}

impl MemorySource {
    /// A source of these bytes, at most `cut` a call, with the numbers of the calls that fail, counted from 0.
    pub fn new(
        alloc: Global,
        input: &[u8],
        cut: usize,
        fail: &[u64],
    ) -> Result<MemorySource, NoMemory>
        requires { 1 ≤ cut }
        ensures { IfOk result (λ source. source.link ≡ fresh input.now 0 cut fail.now) }
    {
        Ok(MemorySource {
            link: MemoryLink::new(alloc, input, 0, cut, fail)?,
        })
    }
}

impl Source for MemorySource {
    ghost left = { λ s. Some s.link.left };

    ghost faults = { λ s. s.link.faults };

    fn read(&mut self, buf: &mut [u8]) -> Result<usize, Failed>
        ensures bound { ReadsAtMost result buf.new }
        ensures bytes { ReadConsumes (Some self.old.link.left) (Some self.new.link.left) result buf.new }
        ensures cause { HasCause self.old.link.faults self.new.link.faults result }
        ensures exact { ReadsAs self.old.link self.new.link (length buf.old) result }
    {
        self.link.read(buf)
    }
}

/// A sink over memory, which writes as a `MemoryLink` writes.
#[derive(Debug, Drop)]
pub struct MemorySink {
    pub link: MemoryLink,
}

impl MemorySink {
    /// A sink with room for so many bytes, at most `cut` a call, with the numbers of the calls that fail, counted
    /// from 0.
    pub fn new(alloc: Global, room: usize, cut: usize, fail: &[u64]) -> Result<MemorySink, NoMemory>
        requires { 1 ≤ cut }
        ensures { IfOk result (λ sink. sink.link ≡ fresh [] room cut fail.now) }
    {
        Ok(MemorySink {
            link: MemoryLink::new(alloc, &[], room, cut, fail)?,
        })
    }

    /// The bytes written so far.
    pub fn written(&self) -> &[u8]
        ensures { result.now ≡ self.now.link.written }
    {
        self.link.written()
    }
}

impl Sink for MemorySink {
    ghost written = { λ s. Some s.link.written };

    ghost faults = { λ s. s.link.faults };

    fn write(&mut self, piece: &[u8]) -> Result<usize, Failed>
        ensures bound { WritesAtMost result piece.now }
        ensures some { 0 < length piece.now → IfOk result (λ n. 0 < n) }
        ensures bytes { WriteAppends (Some self.old.link.written) (Some self.new.link.written) result piece.now }
        ensures cause { HasCause self.old.link.faults self.new.link.faults result }
        ensures exact { WritesAs self.old.link self.new.link piece.now result }
    {
        self.link.write(piece)
    }
}
