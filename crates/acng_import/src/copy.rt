//! Reading a sealed body: its hash, and a copy of it in a new body.
ghost use Rattle.std.specs.Prelude.{◌≡◌, ◌≤◌, ◌^◌, true, IfOk, OnOk, OnErr, IfErr};
ghost use Rattle.sha2.specs.Sha256.{sha256};
ghost use Rattle.acng_keeper.specs.Handles.{fresh};
ghost use Rattle.acng_reach.specs.Bodies.{MaySlip};

use acng_base::{Hash, HashSoFar};
use acng_keeper::{BodyFile, KeepFault};
use std::alloc::Global;

// How many bytes are read at once.
const PIECE: usize = 65536;

/// The hash of a body of at most 2^41 bytes.
pub fn hash_of<B: BodyFile>(body: &mut B) -> Result<Hash, B::Slip>
    requires { (B.handle body.old).size ≤ 2 ^ 41 }
    ensures hash { IfOk result (λ hash. B.tells ≡ true → sha256 (B.handle body.old).bytes ≡ hash.0) }
    ensures cause { OnErr result ((B.faults body.old).may_fail ≡ true) }
{
    let mut piece = [0u8; PIECE];
    let mut hash = HashSoFar::new();
    let size = body.len();
    let mut at: u64 = 0;
    while at < size {
        let count = match body.read_at(at, &mut piece) {
            Ok(count) => count,
            Err(slip) => return Err(slip),
        };
        hash.add(&piece[..count]);
        at += count as u64;
    }
    Ok(hash.end())
}

/// Copies all of a body into a new one.
pub fn copy<B: BodyFile>(alloc: Global, from: &mut B, to: &mut B) -> Result<(), KeepFault<B::Slip>>
    requires empty { B.handle to.old ≡ fresh (B.handle to.old).number }
    requires alike { (B.faults to.old).may_fail ≡ (B.faults from.old).may_fail }
    ensures size { OnOk result ((B.handle to.new).size ≡ (B.handle from.old).size) }
    ensures bytes { OnOk result (B.tells ≡ true → (B.handle to.new).bytes ≡ (B.handle from.old).bytes) }
    ensures number { (B.handle to.new).number ≡ (B.handle to.old).number }
    ensures cause { IfErr result (MaySlip (B.faults from.old).may_fail) }
{
    let mut piece = [0u8; PIECE];
    let size = from.len();
    let mut at: u64 = 0;
    while at < size {
        let count = match from.read_at(at, &mut piece) {
            Ok(count) => count,
            Err(slip) => return Err(KeepFault::Slip(slip)),
        };
        if let Err(fault) = to.append(alloc, &piece[..count]) {
            return Err(fault);
        }
        at += count as u64;
    }
    Ok(())
}
