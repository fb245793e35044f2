//! The adapters of std's streams: the trusted edge of links, sources and sinks.
//!
//! Each tells what std's reader or writer tells, and counts each error of std as one fault. A write of std that takes no
//! byte of a piece which isn't empty counts as a fault too, since a link takes at least one. An interrupted call is made
//! again, as std's own loops do.
ghost use Rattle.std.specs.Prelude.{◌≡◌, ◌<◌, ◌≤◌, ◌+◌, List, ℕ, None, length, IfOk, IfErr, OnErr};
ghost use Rattle.std.specs.Io.{ReadsAtMost, WritesAtMost};
ghost use Rattle.std.specs.Io.KnownBytes.{ReadConsumes, WriteAppends};
ghost use Rattle.acng_base.specs.Causes.{HasCause, one_more};

use crate::fault::Failed;
use crate::link::Link;
use crate::stream::{Sink, Source};
use std::io::{ErrorKind, Read, Write};

/// A connection over a reader and a writer of std, as standard input and output, or a TCP stream twice.
#[derive(Debug, Drop)]
pub struct StdLink<R: Read + Drop, W: Write + Drop> {
    input: R,
    output: W,
    faults: u64,
}

impl<R: Read + Drop, W: Write + Drop> StdLink<R, W> {
    pub fn new(input: R, output: W) -> StdLink<R, W>
        ensures { result.faults ≡ 0 }
    {
        StdLink {
            input,
            output,
            faults: 0,
        }
    }
}

impl<R: Read + Drop, W: Write + Drop> Link for StdLink<R, W> {
    ghost left = { λ l. R.remaining l.input };

    ghost written = { λ l. W.contents l.output };

    ghost faults = { λ l. l.faults };

    fn read(&mut self, buf: &mut [u8]) -> Result<usize, Failed> {
        read_some(&mut self.input, &mut self.faults, buf)
    }

    fn write(&mut self, piece: &[u8]) -> Result<usize, Failed> {
        write_some(&mut self.output, &mut self.faults, piece)
    }
}

/// A source over a reader of std.
#[derive(Debug, Drop)]
pub struct StdSource<R: Read + Drop> {
    input: R,
    faults: u64,
}

impl<R: Read + Drop> StdSource<R> {
    pub fn new(input: R) -> StdSource<R>
        ensures { result.faults ≡ 0 }
    {
        StdSource { input, faults: 0 }
    }
}

impl<R: Read + Drop> Source for StdSource<R> {
    ghost left = { λ s. R.remaining s.input };

    ghost faults = { λ s. s.faults };

    fn read(&mut self, buf: &mut [u8]) -> Result<usize, Failed> {
        read_some(&mut self.input, &mut self.faults, buf)
    }
}

/// A sink over a writer of std.
#[derive(Debug, Drop)]
pub struct StdSink<W: Write + Drop> {
    output: W,
    faults: u64,
}

impl<W: Write + Drop> StdSink<W> {
    pub fn new(output: W) -> StdSink<W>
        ensures { result.faults ≡ 0 }
    {
        StdSink { output, faults: 0 }
    }
}

impl<W: Write + Drop> Sink for StdSink<W> {
    ghost written = { λ s. W.contents s.output };

    ghost faults = { λ s. s.faults };

    fn write(&mut self, piece: &[u8]) -> Result<usize, Failed> {
        write_some(&mut self.output, &mut self.faults, piece)
    }
}

// One read, whose error is counted.
fn read_some<R: Read>(input: &mut R, faults: &mut u64, buf: &mut [u8]) -> Result<usize, Failed>
    ensures bound { ReadsAtMost result buf.new }
    ensures bytes { ReadConsumes (R.remaining input.old) (R.remaining input.new) result buf.new }
    ensures cause { HasCause faults.old faults.new result }
{
    for _ in 0..u64::MAX {
        match input.read(buf) {
            Err(fault) if fault.kind() == ErrorKind::Interrupted => {}
            Ok(count) => return Ok(count),
            Err(_) => return Err(count_fault(faults)),
        }
    }
    Err(count_fault(faults))
}

// One write, whose error is counted, and an answer of no byte too.
fn write_some<W: Write>(output: &mut W, faults: &mut u64, piece: &[u8]) -> Result<usize, Failed>
    ensures bound { WritesAtMost result piece.now }
    ensures some { 0 < length piece.now → IfOk result (λ n. 0 < n) }
    ensures bytes { WriteAppends (W.contents output.old) (W.contents output.new) result piece.now }
    ensures cause { HasCause faults.old faults.new result }
{
    for _ in 0..u64::MAX {
        match output.write(piece) {
            Err(fault) if fault.kind() == ErrorKind::Interrupted => {}
            Ok(count) if count > 0 || piece.is_empty() => return Ok(count),
            _ => return Err(count_fault(faults)),
        }
    }
    Err(count_fault(faults))
}

// Counts one more fault. The count stands still at its last value.
fn count_fault(faults: &mut u64) -> Failed
    ensures count { faults.new ≡ one_more faults.old }
    ensures later { faults.old ≤ faults.new }
{
    *faults = faults.saturating_add(1);
    Failed
}
