//! What a download is for.
//!
//! It says which origins are asked in what order, how many redirects are followed, what partial body may be gone on with,
//! and what held body may be kept. The bodies themselves aren't in it.
ghost use Rattle.std.specs.Prelude.{◌≡◌};
ghost use Rattle.acng_grow.specs.Download.{since_of};

use acng_base::{Moment, Text, Texts};
use acng_grow::Facts;
use acng_head::Label;
use std::marker::Model;

/// A body that an earlier download broke off. Contracts see it as a `Part`.
#[derive(Debug, Drop)]
pub struct PartOrder {
    pub url: Text,
    pub first: u64,
    pub last: u64,
    pub facts: Facts,
    pub size: u64,
}

impl Model for PartOrder {
    ghost use Rattle.acng_grow.specs.Effects.{Part};

    ghost Value = { Part };

    ghost view = { λ p. record { url = p.url; first = p.first; last = p.last; facts = p.facts; size = p.size } };
}

/// A whole body that is held. Contracts see it as an `Old`.
#[derive(Debug, Drop)]
pub struct OldOrder {
    pub label: Label,
    pub facts: Facts,
    pub size: u64,
}

impl Model for OldOrder {
    ghost use Rattle.acng_grow.specs.Effects.{Old};

    ghost Value = { Old };

    ghost view = { λ o. record { label = o.label; facts = o.facts; size = o.size } };
}

/// What a download is for. Contracts see it as an `Errand`.
#[derive(Debug, Drop)]
pub struct Order {
    pub origins: Texts,
    pub redir_max: u32,
    pub part: Option<PartOrder>,
    pub old: Option<OldOrder>,
}

impl Model for Order {
    ghost use Rattle.acng_grow.specs.Effects.{Errand};

    ghost Value = { Errand };

    ghost view = { λ o. record { origins = o.origins; redir_max = o.redir_max; part = o.part; old = o.old } };
}

impl Order {
    /// The moment at which the held body was changed.
    pub fn since(&self) -> Option<Moment>
        ensures { result ≡ since_of self.now }
    {
        match &self.old {
            Some(old) => old.facts.modified,
            None => None,
        }
    }
}
