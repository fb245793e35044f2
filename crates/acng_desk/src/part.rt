//! A partial body at rest: what is left of a download that was broken off, for a later one to go on with.
ghost use Rattle.std.specs.Prelude.{◌≡◌, IfOk, Option};
ghost use Rattle.std.specs.Option.{option_map};
ghost use Rattle.acng_desk.specs.House.{parked_of};
ghost use Rattle.acng_desk.specs.Tickets.{file_of};

use crate::ticket::PartFile;
use acng_base::{NoMemory, Text};
use acng_grow::PartialBody;
use acng_keeper::BodyFile;
use std::alloc::Global;
use std::marker::Model;

/// A partial body at rest.
#[derive(Drop)]
pub struct Part<F: BodyFile> {
    pub(crate) inner: PartialBody<F>,
}

impl<F: BodyFile> Model for Part<F> {
    ghost use Rattle.acng_desk.specs.House.{Parked, parked_of};
    ghost use Rattle.acng_desk.specs.Codes.{coded_parked};

    ghost Value = { Parked };

    ghost coded = { coded_parked };

    ghost view = { λ p. parked_of F.handle p.inner };
}

impl<F: BodyFile> Part<F> {
    // What a ticket says of it.
    pub(crate) fn file(&self, alloc: Global) -> Result<PartFile, NoMemory>
        ensures { IfOk result (λ file. file ≡ file_of self.now) }
    {
        let inner = &self.inner;
        let url = Text::copy(alloc, inner.url.as_bytes())?;
        Ok(PartFile {
            id: inner.body.id().0,
            url,
            label: inner.label,
            facts: inner.facts.again(),
            len: inner.body.len(),
        })
    }
}

// What is taken out of the desk again.
pub(crate) fn inner<F: BodyFile>(part: Option<Part<F>>) -> Option<PartialBody<F>>
    ensures { option_map (parked_of F.handle) result ≡ part }
{
    match part {
        Some(Part { inner }) => Some(inner),
        None => None,
    }
}
