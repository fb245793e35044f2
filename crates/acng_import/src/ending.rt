//! How the import of found files ends.
ghost use Rattle.std.specs.Prelude.{◌≡◌, ◌<◌, ◌++◌, ◌∷◌, [], length, slice_get, Some, OnOk};
ghost use Rattle.acng_import.specs.Ends.{is_fault, is_left_out, has_fault, has_left_out};
ghost use Rattle.acng_import.specs.Halts.{halt_of};

use acng_base::{Hash, NoMemory, Texts};
use acng_keeper::KeepFault;
use std::alloc::Global;
use std::marker::Model;

/// What became of a found file, in the order of the tests.
#[derive(Debug, Drop)]
pub enum FileEnd {
    /// A read of it failed.
    FindFault,
    /// It has more than 2^41 bytes.
    TooLong,
    /// No current index names its hash and size.
    Unknown { hash: Hash },
    /// Each path that may be served has it already.
    Held,
    /// There was room for no further path. Paths before that one have the file.
    Full,
    /// These paths have it now.
    Kept { paths: Texts },
}

/// What became of found files, in their order. Contracts see the list.
#[derive(Debug, Drop)]
pub struct FileEnds {
    items: Vec<FileEnd>,
}

impl Model for FileEnds {
    ghost use Rattle.std.specs.Prelude.{List};
    ghost use Rattle.acng_import.specs.declared.ending.FileEnd.{FileEnd};

    ghost Value = { List FileEnd };

    ghost view = { λ e. e.items.items };
}

impl FileEnds {
    pub(crate) fn new(alloc: Global) -> FileEnds
        ensures { result ≡ [] }
    {
        FileEnds {
            items: Vec::new(alloc),
        }
    }

    pub(crate) fn push(&mut self, end: FileEnd) -> Result<(), NoMemory>
        ensures added { OnOk result (self.new ≡ self.old ++ end ∷ []) }
    {
        self.items.push(end)?;
        Ok(())
    }

    pub fn len(&self) -> usize
        ensures { result ≡ length self.now }
    {
        self.items.len()
    }

    /// The end of the file at a place below the length.
    pub fn get(&self, i: usize) -> &FileEnd
        requires { i < length self.now }
        ensures { slice_get self.now i ≡ Some result.now }
    {
        &self.items[i]
    }

    /// Whether a read of a found file failed.
    pub fn has_fault(&self) -> bool
        ensures { result ≡ has_fault self.now }
    {
        self.items.iter().any(|end| is_fault(end))
    }

    /// Whether a file was too long, or had room for no further path.
    pub fn has_left_out(&self) -> bool
        ensures { result ≡ has_left_out self.now }
    {
        self.items.iter().any(|end| is_left_out(end))
    }
}

fn is_fault(end: &FileEnd) -> bool
    ensures { result ≡ is_fault end.now }
{
    matches!(end, FileEnd::FindFault)
}

fn is_left_out(end: &FileEnd) -> bool
    ensures { result ≡ is_left_out end.now }
{
    matches!(end, FileEnd::TooLong | FileEnd::Full)
}

/// How an import ends.
#[derive(Debug, Drop)]
pub enum Imported<P> {
    /// Each file came to its end.
    Done(FileEnds),
    /// A call of the keeper failed. The ends are those of the files before.
    Stopped { slip: P, ends: FileEnds },
    /// No id was left for a new body. The ends are those of the files before.
    Worn(FileEnds),
    /// Memory was refused.
    NoMemory,
}

/// Why work on one file stopped.
#[derive(Debug, Drop)]
pub enum Halt<P> {
    /// No id is left.
    Worn,
    /// A call of the keeper failed.
    Slip(P),
    /// Memory was refused.
    NoMemory,
}

/// A call of the keeper that failed, as what stops the work on a file.
pub fn halt_of<P>(fault: KeepFault<P>) -> Halt<P>
    ensures { result ≡ halt_of fault }
{
    match fault {
        KeepFault::Slip(slip) => Halt::Slip(slip),
        KeepFault::NoMemory => Halt::NoMemory,
    }
}
