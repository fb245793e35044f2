//! Files of the outside: why work on them ended early, and which names of a folder are passed over.
ghost use Rattle.std.specs.Prelude.{◌≡◌, Ok, Err, Some, IfOk, IfErr};
ghost use Rattle.acng_base.specs.declared.files.FileFault.TheVariants.{Failed as failed, NoMemory as no_memory};

use crate::fault::{Failed, NoMemory};
use std::alloc::AllocError;
use std::io;
use std::io::ErrorKind;

/// Why work on the outside ended early, where nothing further is told.
#[derive(Clone, Copy, Debug, PartialEq, Eq)]
pub enum FileFault {
    /// The system refused a call.
    Failed,
    /// Memory was refused.
    NoMemory,
}

impl From<io::Error> for FileFault {
    fn from(error: io::Error) -> FileFault {
        match error.kind() {
            ErrorKind::OutOfMemory => FileFault::NoMemory,
            _ => FileFault::Failed,
        }
    }
}

impl From<Failed> for FileFault {
    ghost from_gives = { λ _ fault. fault ≡ failed };

    fn from(_: Failed) -> FileFault {
        FileFault::Failed
    }
}

impl From<NoMemory> for FileFault {
    ghost from_gives = { λ _ fault. fault ≡ no_memory };

    fn from(_: NoMemory) -> FileFault {
        FileFault::NoMemory
    }
}

impl From<AllocError> for FileFault {
    ghost from_gives = { λ _ fault. fault ≡ no_memory };

    fn from(_: AllocError) -> FileFault {
        FileFault::NoMemory
    }
}

/// An entry of a folder, as the standard library hands it out. None where its name isn't UTF-8: no file of this program
/// has such a name, so it is foreign and passed over.
pub fn named<T: Drop>(entry: io::Result<T>) -> io::Result<Option<T>>
    ensures found { IfOk entry (λ e. result ≡ Ok (Some e)) }

    // A refusal is passed on.
    ensures refused { IfErr result (λ e. entry ≡ Err e) }
{
    match entry {
        Ok(entry) => Ok(Some(entry)),
        Err(error) if error.kind() == ErrorKind::InvalidFilename => Ok(None),
        Err(error) => Err(error),
    }
}
