//! A client's link over memory, whose reads are counted.
ghost use Rattle.std.specs.Prelude.{Some};

use crate::fault::Fault;
use crate::script::{Client, NEVER};
use acng_base::{Failed, FixedClock, Link, MemoryLink};
use std::alloc::Global;

/// A link that counts its reads.
#[derive(Drop)]
pub struct Tap {
    link: MemoryLink,
    reads: u64,
}

impl Link for Tap {
    ghost left = { λ t. Some t.link.left };

    ghost written = { λ t. Some t.link.written };

    ghost faults = { λ t. t.link.faults };

    fn read(&mut self, buf: &mut [u8]) -> Result<usize, Failed> {
        self.reads = self.reads.saturating_add(1);
        self.link.read(buf)
    }

    fn write(&mut self, piece: &[u8]) -> Result<usize, Failed> {
        self.link.write(piece)
    }
}

impl Tap {
    /// The link of a client. A call of it may fail.
    pub fn new(alloc: Global, client: &Client, fails: Option<u64>) -> Result<Tap, Fault> {
        let ways = client.ways;
        let fails = fails.unwrap_or(ways.fails);
        let cut = ways.cut.max(1);
        let plan = [fails];
        let plan = if fails == NEVER { &[] } else { plan.as_slice() };
        let link = MemoryLink::new(alloc, client.bytes.as_slice(), ways.room, cut, plan)?;
        Ok(Tap { link, reads: 0 })
    }

    pub fn reads(&self) -> u64 {
        self.reads
    }

    pub fn written(&self) -> &[u8] {
        self.link.written()
    }
}

/// The clock of a client's requests.
pub fn clock_of(alloc: Global, client: &Client) -> Result<FixedClock, Fault> {
    let moments = client.moments.as_slice();
    if moments.is_empty() {
        return Err(Fault::NotAScript);
    }
    Ok(FixedClock::new(alloc, moments)?)
}
