//! A desk's whole bodies, as reach reads them.
//!
//! A body is read through one buffer into the memory that the caller lends, and its handle goes with the call.
ghost use Rattle.std.specs.Prelude.{◌≡◌, true, List, ℕ, OnOk, IfErr};
ghost use Rattle.acng_keeper.specs.Slips.{Later};
ghost use Rattle.acng_reach.specs.Bodies.{MaySlip};
ghost use Rattle.acng_reach.specs.Desks.{cache_of, rest_of};

use crate::bodies::Bodies;
use acng_base::CachePath;
use acng_desk::{Desk, Joint, RowFault};
use acng_keeper::{BodyFile, KeepFault, Keeper, SlipOf};
use acng_site::Site;
use std::alloc::Global;

// How many bytes are read at once.
const PIECE: usize = 32768;

impl<S: Site, K: Keeper, T: Joint> Bodies for Desk<S, K, T> {
    type Slip = SlipOf<K>;

    ghost tells = { K.tells };

    ghost cache = { cache_of K.tells };

    ghost rest = { rest_of K.tells };

    fn next_path(&self, after: Option<&CachePath>) -> Option<&CachePath> {
        self.next_path(after)
    }

    fn holds(&self, path: &CachePath) -> bool {
        self.row(path).is_some()
    }

    fn read(
        &mut self,
        alloc: Global,
        path: &CachePath,
        text: &mut Vec<u8>,
    ) -> Result<(), KeepFault<SlipOf<K>>> {
        match self.fetch(alloc, path) {
            Ok(held) => {
                let mut held = held;
                read_all(&mut held.body, text)
            }
            Err(RowFault::NotHeld) => unreachable!(),
            Err(RowFault::KeeperFault(slip)) => Err(KeepFault::Slip(slip)),
            Err(RowFault::NoMemory) => Err(KeepFault::NoMemory),
        }
    }
}

/// Reads a body into a buffer, in the place of what that had.
fn read_all<F: BodyFile>(body: &mut F, text: &mut Vec<u8>) -> Result<(), KeepFault<F::Slip>>
    ensures text { OnOk result (F.tells ≡ true → text.new.items ≡ (F.handle body.old).bytes) }
    ensures cause { IfErr result (MaySlip (F.faults body.old).may_fail) }
{
    let mut piece = [0u8; PIECE];
    let size = body.len();
    text.clear();
    while (text.len() as u64) < size {
        let count = match body.read_at(text.len() as u64, &mut piece) {
            Ok(count) => count,
            Err(slip) => return Err(KeepFault::Slip(slip)),
        };
        let Ok(()) = text.extend_from_slice(&piece[..count]) else {
            return Err(KeepFault::NoMemory);
        };
    }
    Ok(())
}
