//! What `begin` hands out: a body that is held, and that a call was let in or why it wasn't.
//!
//! Only `begin` makes an `Entry` or a `Brim`, and neither is copied: who has one was let in, or was refused, for its path.
ghost use Rattle.std.specs.Prelude.{◌≡◌};

use acng_base::{CachePath, Moment};
use acng_grow::{Asked, Facts};
use acng_head::Label;
use acng_keeper::BodyId;

/// A whole body that a desk holds, of `size` bytes.
#[derive(Drop)]
pub struct Held<F> {
    pub id: BodyId,
    pub body: F,
    pub label: Label,
    pub facts: Facts,
    pub size: u64,
}

/// At which limit a desk is.
#[derive(Clone, Copy, Debug, PartialEq, Eq)]
pub enum BrimKind {
    /// No origin is asked.
    Offline,
    /// There is room for no further path.
    Full,
    /// No numbers are left.
    Worn,
}

/// That a desk was at a limit, for a path.
#[derive(Debug, Drop)]
pub struct Brim {
    kind: BrimKind,
    path: CachePath,
}

/// That a desk let a call in: for which body, whether that was held, and when.
#[derive(Debug, Drop)]
pub struct Entry {
    asked: Asked,
    kept: bool,
    moment: Moment,
}

impl Brim {
    pub(crate) fn new(kind: BrimKind, path: CachePath) -> Brim
        ensures { result ≡ record { kind = kind; path = path } }
    {
        Brim { kind, path }
    }

    pub fn kind(&self) -> BrimKind
        ensures { result ≡ self.now.kind }
    {
        self.kind
    }

    pub fn path(&self) -> &CachePath
        ensures { result.now ≡ self.now.path }
    {
        &self.path
    }
}

impl Entry {
    pub(crate) fn new(asked: Asked, kept: bool, moment: Moment) -> Entry
        ensures { result ≡ record { asked = asked; kept = kept; moment = moment } }
    {
        Entry {
            asked,
            kept,
            moment,
        }
    }

    /// The body that is waited for, or that was held.
    pub fn asked(&self) -> &Asked
        ensures { result.now ≡ self.now.asked }
    {
        &self.asked
    }

    /// Whether the body was held.
    pub fn kept(&self) -> bool
        ensures { result ≡ self.now.kept }
    {
        self.kept
    }

    /// The moment of the call.
    pub fn moment(&self) -> Moment
        ensures { result ≡ self.now.moment }
    {
        self.moment
    }
}
