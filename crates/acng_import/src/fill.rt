//! Copying a found file into a new body.
//!
//! The file is read once, from its front to its end, and hashed as it is appended. One buffer of it is in memory.
ghost use Rattle.std.specs.Prelude.{◌≡◌, ◌<◌, ◌≤◌, ◌^◌, true, [], length, IfOk, IfErr};
ghost use Rattle.acng_keeper.specs.Handles.{fresh};
ghost use Rattle.acng_reach.specs.Bodies.{MaySlip};
ghost use Rattle.acng_import.specs.Files.{file_at};
ghost use Rattle.acng_import.specs.Fills.{FilledAs};

use crate::finder::Finder;
use acng_base::{Failed, Hash, HashSoFar, MOST_BYTES};
use acng_keeper::{BodyFile, KeepFault};
use std::alloc::Global;

// How many bytes are read at once.
const PIECE: usize = 65536;

/// What came of copying a found file.
#[derive(Clone, Copy, Debug)]
pub enum Filled {
    /// All of it was copied.
    Whole(Hash),
    /// It is longer than a body may be.
    TooLong,
    /// A read of it failed.
    Fault,
}

/// Copies the file at a place into a new body.
pub fn fill<F: Finder, B: BodyFile>(
    alloc: Global,
    finder: &mut F,
    i: usize,
    body: &mut B,
) -> Result<Filled, KeepFault<B::Slip>>
    requires place { i < length (F.names finder.old) }
    requires empty { B.handle body.old ≡ fresh (B.handle body.old).number }
    ensures filled { IfOk result (λ f. FilledAs F.tells B.tells (file_at (F.bodies finder.old) i) (B.handle body.new)
        (F.faults finder.old) (F.faults finder.new) f) }
    ensures number { (B.handle body.new).number ≡ (B.handle body.old).number }
    ensures later { F.faults finder.old ≤ F.faults finder.new }
    ensures same_names { F.names finder.new ≡ F.names finder.old }
    ensures same_bodies { F.bodies finder.new ≡ F.bodies finder.old }
    ensures cause { IfErr result (MaySlip (B.faults body.old).may_fail) }
{
    let mut piece = [0u8; PIECE];
    let mut hash = HashSoFar::new();
    let mut at: u64 = 0;
    loop {
        let count = match finder.read_at(i, at, &mut piece) {
            Ok(count) => count,
            Err(Failed) => return Ok(Filled::Fault),
        };
        if count == 0 {
            return Ok(Filled::Whole(hash.end()));
        }
        if count as u64 > MOST_BYTES - at {
            return Ok(Filled::TooLong);
        }
        hash.add(&piece[..count]);
        if let Err(fault) = body.append(alloc, &piece[..count]) {
            return Err(fault);
        }
        at += count as u64;
    }
}
