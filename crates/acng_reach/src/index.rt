//! A current index, with what its list says.
ghost use Rattle.std.specs.Prelude.{◌≡◌};

use acng_base::CachePath;
use acng_index::{IndexEntry, Names};
use std::marker::Model;

/// An entry of an index, with the names in its file where that is a list of packages that is held and read.
#[derive(Debug, Drop)]
pub struct Listed {
    pub entry: IndexEntry,
    pub names: Option<Names>,
}

/// The list of an index, in its order. Contracts see it as the list.
#[derive(Debug, Drop)]
pub struct Lists {
    pub items: Vec<Listed>,
}

impl Model for Lists {
    ghost use Rattle.std.specs.Prelude.{List};
    ghost use Rattle.acng_reach.specs.declared.index.Listed.{Listed};

    ghost Value = { List Listed };

    ghost view = { λ l. l.items.items };
}

/// A current index: an `InRelease`, or a `Release` without one beside it.
#[derive(Debug, Drop)]
pub struct Index {
    pub place: CachePath,
    /// None where it doesn't read.
    pub list: Option<Lists>,
}
