//! What a cache knows of a path.
use acng_base::{Moment, Text};
use acng_head::Label;
use std::marker::Model;

/// A whole body: what its head says but for the path. The tag is kept as a text of its own size, since a million rows
/// have one.
#[derive(Debug, Drop)]
pub struct Whole {
    pub id: u64,
    pub label: Label,
    pub size: u64,
    pub tag: Option<Text>,
    pub modified: Option<Moment>,
    pub checked: Moment,
    pub mark: Option<Moment>,
}

/// That a ticket is out, with what its joiners get. Contracts don't see the token.
#[derive(Drop)]
pub struct Out<T> {
    /// The first try of the ticket.
    pub first: u64,
    /// The id of its new body.
    pub fresh: u64,
    /// The id of its partial body.
    pub part: Option<u64>,
    /// The label of its old body.
    pub was: Option<Label>,
    pub token: T,
}

impl<T> Model for Out<T> {
    ghost use Rattle.acng_rows.specs.Rows.{Load};

    ghost Value = { Load };

    ghost view = { λ o. record { first = o.first; fresh = o.fresh; part = o.part; was = o.was } };
}

/// What a path has: a whole body, and a ticket that is out.
#[derive(Drop)]
pub struct Row<T> {
    pub whole: Option<Whole>,
    pub out: Option<Box<Out<T>>>,
}

impl<T> Model for Row<T> {
    ghost use Rattle.std.specs.Prelude.{option_map};
    ghost use Rattle.acng_rows.specs.Rows.{Row as TheRow};

    ghost Value = { TheRow };

    ghost view = { λ r. record { whole = r.whole; out = option_map (λ b. b.value) r.out } };
}
