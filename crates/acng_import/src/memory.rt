//! Found files in memory, for tests: they tell their bytes, and reads fail on demand.
ghost use Rattle.std.specs.Prelude.{◌≡◌, ◌-◌, List, ℕ, length, min, take, drop, true, IfOk};

use crate::finder::Finder;
use acng_base::{Failed, NoMemory, Texts, copy_front};
use std::alloc::Global;

/// Found files in memory. The reads with a number in `fail`, counted from 0, fail.
#[derive(Drop)]
pub struct MemoryFinder {
    names: Texts,
    bodies: Texts,
    calls: u64,
    fail: Vec<u64>,
    faults: u64,
    ghost paired: { length names ≡ length bodies },
}

impl MemoryFinder {
    /// Files with these names and bodies, in this order, and the numbers of the reads that fail.
    pub fn new(
        alloc: Global,
        names: &Texts,
        bodies: &Texts,
        fail: &[u64],
    ) -> Result<MemoryFinder, NoMemory>
        requires { length names.now ≡ length bodies.now }
        ensures names { IfOk result (λ f. ⟦<MemoryFinder as Finder>⟧.names f ≡ names.now) }
        ensures bodies { IfOk result (λ f. ⟦<MemoryFinder as Finder>⟧.bodies f ≡ bodies.now) }
        ensures faults { IfOk result (λ f. ⟦<MemoryFinder as Finder>⟧.faults f ≡ 0) }
    {
        Ok(MemoryFinder {
            names: again(alloc, names)?,
            bodies: again(alloc, bodies)?,
            calls: 0,
            fail: Vec::from_slice(alloc, fail)?,
            faults: 0,
        })
    }

    // Whether the read that comes is one of those that fail.
    fn fails_now(&self) -> bool {
        self.fail.iter().any(|k| *k == self.calls)
    }
}

// A copy of the texts.
fn again(alloc: Global, texts: &Texts) -> Result<Texts, NoMemory>
    ensures { IfOk result (λ copy. copy ≡ texts.now) }
{
    let mut copy = Texts::new(alloc);
    for i in 0..texts.len() {
        copy.push(alloc, texts.get(i))?;
    }
    Ok(copy)
}

// Copies from an offset on, as many bytes as are there and fit.
fn copy_from(bytes: &[u8], from: u64, buf: &mut [u8]) -> usize
    ensures count { result ≡ min (length bytes.now - from) (length buf.new) }
    ensures bytes { take result buf.new ≡ take result (drop from bytes.now) }
{
    if from >= bytes.len() as u64 {
        return 0;
    }
    copy_front(&bytes[from as usize..], buf)
}

impl Finder for MemoryFinder {
    ghost tells = { true };

    ghost names = { λ f. f.names };

    ghost bodies = { λ f. f.bodies };

    ghost faults = { λ f. f.faults };

    fn count(&self) -> usize {
        self.names.len()
    }

    fn name(&self, i: usize) -> &[u8] {
        self.names.get(i)
    }

    fn read_at(&mut self, i: usize, from: u64, buf: &mut [u8]) -> Result<usize, Failed> {
        let fails = self.fails_now();
        self.calls = self.calls.saturating_add(1);
        if fails {
            self.faults = self.faults.saturating_add(1);
            return Err(Failed);
        }
        Ok(copy_from(self.bodies.get(i), from, buf))
    }
}
