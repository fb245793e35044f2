//! Why a call of a keeper or of one of its bodies was refused.
//!
//! A slip says that the call failed. Only a failed call hands it out: it has no public constructor, and generic code
//! can neither copy it nor raise the count that it comes with, so an answer with a slip always has a failed call.
ghost use Rattle.std.specs.Prelude.{◌≡◌, ℕ};
ghost use Rattle.acng_keeper.specs.declared.slip.KeepFault.TheVariants.{NoMemory as no_memory};

use acng_base::NoMemory;
use std::alloc::AllocError;

/// That a call failed.
pub trait KeeperSlip: Drop {
    /// The number of the call.
    ghost number: { Self → ℕ };

    /// The number of the call that failed, counted from 0.
    fn call(&self) -> u64
        ensures { result ≡ number self.now };
}

/// Why a call was refused.
#[derive(Debug, Drop)]
pub enum KeepFault<P> {
    /// The call failed.
    Slip(P),
    /// Memory was refused.
    NoMemory,
}

impl<P> From<NoMemory> for KeepFault<P> {
    ghost from_gives = { λ _ fault. fault ≡ no_memory };

    fn from(_: NoMemory) -> KeepFault<P> {
        KeepFault::NoMemory
    }
}

impl<P> From<AllocError> for KeepFault<P> {
    ghost from_gives = { λ _ fault. fault ≡ no_memory };

    fn from(_: AllocError) -> KeepFault<P> {
        KeepFault::NoMemory
    }
}
