//! A stored body: bytes that are put at the end until it is sealed, and that never change from then on.
ghost use Rattle.std.specs.Prelude.{◌≡◌, ◌-◌, ◌<◌, ◌≤◌, Bool, true, false, length, take, drop, IfOk, OnOk, IfErr, OnErr};
ghost use Rattle.std.specs.Io.{ReadsAtMost};
ghost use Rattle.acng_keeper.specs.Handles.{Handle, Appended};
ghost use Rattle.acng_keeper.specs.Slips.{Faults, HasFailed, Later, SlipRose};

use crate::slip::{KeepFault, KeeperSlip};
use std::alloc::Global;

/// The id of a body and of its head.
#[derive(Clone, Copy, Debug, PartialEq, Eq, PartialOrd, Ord)]
pub struct BodyId(pub u64);

/// A body's handle. It keeps its bytes even where the keeper drops the body.
pub trait BodyFile: Drop {
    type Slip: KeeperSlip;

    /// Whether such a body tells its bytes.
    ghost tells: { Bool };

    ghost handle: { Self → Handle };

    /// A flush of it was refused, so its keeper never seals it.
    ghost lost: { Self → Bool };

    ghost faults: { Self → Faults };

    /// Puts the piece at the end. After a refusal a later append goes on from the same place.
    fn append(&mut self, alloc: Global, piece: &[u8]) -> Result<(), KeepFault<Self::Slip>>
        requires { (handle self.old).writable ≡ true }
        ensures appended { OnOk result (Appended tells piece.now (handle self.old) (handle self.new)) }

        // A refusal, and what it leaves.
        ensures cause { IfErr result (λ e. SlipRose e (faults self.old) (faults self.new)) }
        ensures same { OnErr result (handle self.new ≡ handle self.old) }
        ensures as_lost { lost self.new ≡ lost self.old }
        ensures later { Later (faults self.old) (faults self.new) };

    /// Makes the bytes durable without sealing the body, so that `seal` has nothing left to write: it takes as long as
    /// the disk does, and is called before a lock is taken. A refusal means that the system may have dropped bytes
    /// unseen, so the body is lost.
    fn flush(&mut self) -> Result<(), Self::Slip>
        ensures sound { OnOk result (lost self.new ≡ false) }

        // A refusal, and what it leaves.
        ensures cause { OnErr result (HasFailed (faults self.old) (faults self.new)) }
        ensures refused { OnErr result (lost self.new ≡ true) }
        ensures still_lost { lost self.old ≡ true → lost self.new ≡ true }
        ensures same { handle self.new ≡ handle self.old }
        ensures later { Later (faults self.old) (faults self.new) };

    /// Reads from a place on, at least one byte where one is there and fits.
    fn read_at(&mut self, from: u64, buf: &mut [u8]) -> Result<usize, Self::Slip>
        ensures bytes { IfOk result (λ n. tells ≡ true → take n buf.new ≡ take n (drop from (handle self.old).bytes)) }
        ensures fits { ReadsAtMost result buf.new }
        ensures there { IfOk result (λ n. n ≤ (handle self.old).size - from) }
        ensures some { IfOk result (λ n. from < (handle self.old).size → 0 < length buf.new → 0 < n) }

        // A refusal, and what it leaves.
        ensures cause { OnErr result (HasFailed (faults self.old) (faults self.new)) }
        ensures same { handle self.new ≡ handle self.old }
        ensures as_lost { lost self.new ≡ lost self.old }
        ensures later { Later (faults self.old) (faults self.new) };

    /// How many bytes it has.
    fn len(&self) -> u64
        ensures size { result ≡ (handle self.now).size }
        ensures known { tells ≡ true → (handle self.now).size ≡ length (handle self.now).bytes };

    fn id(&self) -> BodyId
        ensures { result.0 ≡ (handle self.now).number };

    /// The size is that of the bytes.
    ghost sized: { (b : Self) → tells ≡ true → (handle b).size ≡ length (handle b).bytes };

    /// A body is lost only where its calls may fail.
    ghost lossy: { (b : Self) → lost b ≡ true → (faults b).may_fail ≡ true };
}
