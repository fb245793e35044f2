//! What a configuration is refused for, and what it is warned of.
ghost use Rattle.std.specs.Prelude.{◌≡◌};
ghost use Rattle.acng_conf.specs.declared.fault.ConfCause.TheVariants.{NoMemory};

use acng_base::{NoMemory, Text};
use std::alloc::AllocError;

/// A file beside the configuration, which a `file:` word may name.
#[derive(Debug, Drop)]
pub struct ListFile {
    pub name: Text,
    pub bytes: Text,
}

/// The first refusal of a text. Lines count from 1.
#[derive(Clone, Copy, Debug, PartialEq, Eq)]
pub struct ConfFault {
    pub line: u32,
    pub cause: ConfCause,
}

/// Why a line is refused. The variants after the first stand in the order of the tests, but that `TooLong` goes first.
#[derive(Clone, Copy, Debug, PartialEq, Eq)]
pub enum ConfCause {
    /// Memory was refused.
    NoMemory,
    /// There is no key and colon, or a name or a word that none is.
    NotALine,
    /// A number isn't one, or isn't within its bounds.
    BadNumber,
    /// An entry of the line doesn't read.
    BadUrl,
    /// A pattern isn't one of `regex`.
    BadPattern,
    /// The first section of a group has no words.
    NoMerge,
    /// An entry merges into two groups.
    TwiceMerged,
    /// The line has more than 8,192 bytes, or the text more than 4,194,304.
    TooLong,
    /// There are more than 256 groups, or more than 20,000 merging entries.
    TooMany,
}

/// What the reading went past. Lines count from 1.
#[derive(Clone, Copy, Debug, PartialEq, Eq)]
pub struct Warning {
    pub line: u32,
    pub cause: WarnCause,
}

/// What is warned of.
#[derive(Clone, Copy, Debug, PartialEq, Eq)]
pub enum WarnCause {
    /// The key has no meaning.
    Unused,
    /// A pattern names compressed files, which aren't read.
    GzList,
    /// No file fits a pattern.
    NoList,
    /// A line of a file doesn't read as a URL; it is skipped.
    BadListLine,
    /// A group has a prefix and no target.
    NoTarget,
    /// A target beyond the 64th of its group; it is dropped.
    ExtraTarget,
    /// A group has flags; they mean nothing.
    Flags,
    /// There are words after the first of an address.
    ExtraBind,
}

impl From<NoMemory> for ConfCause {
    ghost from_gives = { λ _ cause. cause ≡ NoMemory };

    fn from(_: NoMemory) -> ConfCause {
        ConfCause::NoMemory
    }
}

impl From<AllocError> for ConfCause {
    ghost from_gives = { λ _ cause. cause ≡ NoMemory };

    fn from(_: AllocError) -> ConfCause {
        ConfCause::NoMemory
    }
}
