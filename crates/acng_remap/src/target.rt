//! What a request asks for, and why it is refused.
ghost use Rattle.std.specs.Prelude.{◌≡◌};
ghost use Rattle.acng_remap.specs.declared.target.TargetFault.TheVariants.{NoMemory};

use acng_base::{CachePath, NoMemory, PathFault, Text, Texts};
use std::alloc::{AllocError, AllocFailed};

/// What a request asks for.
#[derive(Debug, Drop)]
pub enum Target {
    /// A file: its path in the cache, and the URLs from which it may come, at least one.
    File { path: CachePath, origins: Texts },
    /// The report page, with its query.
    Page(Text),
}

/// Why a target is refused, in the order of the tests.
#[derive(Clone, Copy, Debug, PartialEq, Eq)]
pub enum TargetFault {
    /// Memory was refused.
    NoMemory,
    /// A tunnel is asked for.
    Connect,
    /// An origin is asked for over TLS.
    Tls,
    /// The target names no place, or a group without a target.
    BadTarget,
    /// The target has a query.
    Query,
    /// The place's path isn't one of the cache.
    BadPath(PathFault),
}

impl From<NoMemory> for TargetFault {
    ghost from_gives = { λ _ fault. fault ≡ NoMemory };

    fn from(_: NoMemory) -> TargetFault {
        TargetFault::NoMemory
    }
}

impl From<AllocError> for TargetFault {
    ghost from_gives = { λ _ fault. fault ≡ NoMemory };

    fn from(_: AllocError) -> TargetFault {
        TargetFault::NoMemory
    }
}

impl<T: Drop> From<AllocFailed<T>> for TargetFault {
    ghost from_gives = { λ _ fault. fault ≡ NoMemory };

    fn from(_: AllocFailed<T>) -> TargetFault {
        TargetFault::NoMemory
    }
}
