//! The right to load a path.
//!
//! A desk gives out one ticket a path at a time. It holds what a download is for, sixteen tries, a new empty body, and the
//! whole and the partial body that the path had. A loader takes tries and bodies from it, and `settle` spends it.
ghost use Rattle.std.specs.Prelude.{◌≡◌, ◌+◌, ◌-◌, ◌<◌, ◌≤◌, ◌^◌, true, None, Some, option_map, option_copied, IfSome, IsSomeAnd};
ghost use Rattle.std.specs.Prelude.{All, length};
ghost use Rattle.acng_rows.specs.Starts.{NamesBelow};
ghost use Rattle.acng_desk.specs.House.{parked_of};
ghost use Rattle.acng_desk.specs.Tickets.{IsFresh, IsOld, IsOldBody, IsPart, IsPartBody, IsTicket, ticketed};

use acng_base::{CachePath, Moment, Text, Texts};
use acng_grow::{Facts, PartialBody};
use acng_head::Label;
use acng_keeper::BodyFile;
use acng_site::{Site, Tries, Try};
use std::marker::Model;

/// What a ticket says of the whole body that the path had.
#[derive(Debug, Drop)]
pub struct OldFile {
    pub id: u64,
    pub label: Label,
    pub facts: Facts,
    pub size: u64,
}

/// What a ticket says of the partial body that the path had.
#[derive(Debug, Drop)]
pub struct PartFile {
    pub id: u64,
    pub url: Text,
    pub label: Label,
    pub facts: Facts,
    pub len: u64,
}

/// What a ticket says and no call changes: a download is a function of this and of the site.
#[derive(Debug, Drop)]
pub struct Info {
    pub path: CachePath,
    pub moment: Moment,
    /// The number of the first try.
    pub first: u64,
    pub origins: Texts,
    pub redir_max: u32,
    /// The id of the new body.
    pub fresh: u64,
    pub was: Option<OldFile>,
    pub part: Option<PartFile>,
}

/// The right to load a path, which has to be spent by `settle`.
pub struct Ticket<S: Site, F: BodyFile> {
    pub(crate) info: Info,
    pub(crate) tries: Tries<S>,
    pub(crate) fresh: Option<F>,
    pub(crate) old_body: Option<F>,
    pub(crate) part_body: Option<PartialBody<F>>,
}

impl<S: Site, F: BodyFile> Model for Ticket<S, F> {
    ghost use Rattle.std.specs.Prelude.{◌≡◌, ◌+◌};
    ghost use Rattle.acng_desk.specs.Tickets.{Ticketed, ticketed, IsTicket};

    ghost Value = { Ticketed };

    ghost view = { λ t. ticketed F.handle t.info t.tries.left t.fresh t.old_body t.part_body };

    ghost invariant = { λ t. IsTicket S.Site F.tells (ticketed F.handle t.info t.tries.left t.fresh t.old_body t.part_body)
        × (t.tries.next + t.tries.left ≡ t.info.first + 16) };
}

impl<S: Site, F: BodyFile> Ticket<S, F> {
    // A ticket with what `begin` puts in.
    pub(crate) fn new(
        info: Info,
        tries: Tries<S>,
        fresh: F,
        old_body: Option<F>,
        part_body: Option<PartialBody<F>>,
    ) -> Ticket<S, F>
        requires keeps { IsTicket S.Site F.tells (ticketed F.handle info 16 (Some fresh) old_body part_body) }
        requires next { tries.next ≡ info.first }
        requires left { tries.left ≡ 16 }
        ensures { result ≡ ticketed F.handle info 16 (Some fresh) old_body part_body }
    {
        Ticket {
            info,
            tries,
            fresh: Some(fresh),
            old_body,
            part_body,
        }
    }

    /// Does nothing; its clause is all that a ticket keeps.
    pub fn keeps(&self)
        ensures { IsTicket S.Site F.tells self.now }
    {
        let _ = &self.info;
    }

    /// What `begin` put in and no call changes.
    pub fn info(&self) -> &Info
        ensures { result.now ≡ self.now.info }
    {
        &self.info
    }

    pub fn path(&self) -> &CachePath
        ensures { result.now ≡ self.now.info.path }
    {
        &self.info.path
    }

    /// The moment of `begin`.
    pub fn moment(&self) -> Moment
        ensures { result ≡ self.now.info.moment }
    {
        self.info.moment
    }

    /// The number of the first of the sixteen tries.
    pub fn first_try(&self) -> u64
        ensures first { result ≡ self.now.info.first }
        ensures small { result ≤ 2 ^ 63 - 16 }
    {
        self.info.first
    }

    /// Where the file is asked for, in order; at least one.
    pub fn origins(&self) -> &Texts
        ensures origins { result.now ≡ self.now.info.origins }
        ensures some { 0 < length self.now.info.origins }
        ensures serve { S.tells ≡ true → All (λ u. S.serves u self.now.info.path ≡ true) self.now.info.origins }
    {
        &self.info.origins
    }

    /// How many redirects are followed in a row.
    pub fn redir_max(&self) -> u32
        ensures { result ≡ self.now.info.redir_max }
    {
        self.info.redir_max
    }
}

// ---- the bodies that the path had

impl<S: Site, F: BodyFile> Ticket<S, F> {
    pub fn old_label(&self) -> Option<Label>
        ensures { result ≡ option_map (λ o. o.label) self.now.info.was }
    {
        match &self.info.was {
            Some(was) => Some(was.label),
            None => None,
        }
    }

    pub fn old_facts(&self) -> Option<Facts>
        ensures { result ≡ option_map (λ o. o.facts) self.now.info.was }
    {
        match &self.info.was {
            Some(was) => Some(was.facts.again()),
            None => None,
        }
    }

    pub fn old_len(&self) -> Option<u64>
        ensures { result ≡ option_map (λ o. o.size) self.now.info.was }
    {
        match &self.info.was {
            Some(was) => Some(was.size),
            None => None,
        }
    }

    pub fn partial_url(&self) -> Option<&[u8]>
        ensures { option_copied result ≡ option_map (λ p. p.url) self.now.info.part }
    {
        match &self.info.part {
            Some(part) => Some(part.url.as_bytes()),
            None => None,
        }
    }

    pub fn partial_len(&self) -> Option<u64>
        ensures { result ≡ option_map (λ p. p.len) self.now.info.part }
    {
        match &self.info.part {
            Some(part) => Some(part.len),
            None => None,
        }
    }

    pub fn partial_label(&self) -> Option<Label>
        ensures { result ≡ option_map (λ p. p.label) self.now.info.part }
    {
        match &self.info.part {
            Some(part) => Some(part.label),
            None => None,
        }
    }

    pub fn partial_facts(&self) -> Option<Facts>
        ensures { result ≡ option_map (λ p. p.facts) self.now.info.part }
    {
        match &self.info.part {
            Some(part) => Some(part.facts.again()),
            None => None,
        }
    }
}

// ---- what a loader takes

impl<S: Site, F: BodyFile> Ticket<S, F> {
    pub fn tries_left(&self) -> u32
        ensures left { result ≡ self.now.left }
        ensures few { result ≤ 16 }
    {
        self.tries.left()
    }

    /// The try with the least number that is left.
    pub fn next_try(&mut self) -> Try<S>
        requires { 1 ≤ self.old.left }
        ensures number { result.number + self.old.left ≡ self.old.info.first + 16 }
        ensures left { self.new.left + 1 ≡ self.old.left }
        ensures same { self.new ≡ record self.old { left = self.new.left } }
    {
        self.tries.draw()
    }

    /// The new body, empty and unsealed, where it is still there.
    pub fn take_new(&mut self) -> Option<F>
        ensures given { option_map F.handle result ≡ self.old.fresh }
        ensures is_new { IfSome result (λ f. IsFresh F.tells self.old.info.fresh (F.handle f)) }
        ensures same { self.new ≡ record self.old { fresh = None } }
    {
        self.fresh.take()
    }

    /// The whole body that the path had, where it is still there.
    pub fn take_old(&mut self) -> Option<F>
        ensures given { option_map F.handle result ≡ self.old.old_body }
        ensures is_old { IfSome result (λ f. IsSomeAnd self.old.info.was
            (λ o. IsOldBody S.Site F.tells self.old.info.path o (F.handle f))) }
        ensures same { self.new ≡ record self.old { old_body = None } }
    {
        self.old_body.take()
    }

    /// The partial body that the path had, where it is still there.
    pub fn take_partial(&mut self) -> Option<PartialBody<F>>
        ensures given { option_map (parked_of F.handle) result ≡ self.old.part_body }
        ensures is_part { IfSome result (λ p. IsSomeAnd self.old.info.part
            (λ q. IsPartBody S.Site F.tells self.old.info.path q (parked_of F.handle p))) }
        ensures same { self.new ≡ record self.old { part_body = None } }
    {
        self.part_body.take()
    }
}
