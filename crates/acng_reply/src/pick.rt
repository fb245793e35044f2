//! What a reply sends of a file (RFC 9110, sections 13 and 14).
//!
//! 304 goes before 416, 206 and 200. A part is sent to GET alone, only where the length of the file is known, and where an
//! `If-Range` stands there only if it names the file by its tag or its date. Places are bytes from 0.
ghost use Rattle.std.specs.Prelude.{◌≡◌, ◌<◌, ◌≤◌, ◌+◌, ◌-◌, ℕ, List, true, Some, None};
ghost use Rattle.httpdate.specs.Date.{parse_secs};
ghost use Rattle.acng_reply.specs.Picks.{pick, names_held as names_held_in, lawful_range as lawful_range_of, not_later as not_later_of};
ghost use Rattle.acng_reply.specs.Picks.{is_get as is_get_of, same_tag as same_tag_of, same_secs as same_secs_of, stop_at as stop_at_of};
ghost use Rattle.acng_reply.specs.Picks.{by_range as by_range_of, is_kept as is_kept_of, is_unmodified as is_unmodified_of};
ghost use Rattle.acng_reply.specs.Picks.{IsPicked, status_of, range_of, part_in};

use acng_base::{Moment, Tag, Text};
use acng_grow::{Facts, Stage};
use acng_request::{Part, Request};
use httpdate::HttpDate;

/// What a reply sends of a file.
#[derive(Clone, Copy, Debug, PartialEq, Eq)]
pub enum Pick {
    /// Nothing: the client has the file (304).
    Unmodified,
    /// Nothing: the range begins at the end of the file or past it (416).
    NoPart { from: u64, total: u64 },
    /// The bytes from one place up to and without another one (206).
    Section { from: u64, stop: u64, total: u64 },
    /// All (200).
    All,
}

impl Pick {
    /// What the reply to a request sends of a body in a stage with these facts. A held body counts as `Same`.
    pub fn of(request: &Request, stage: Stage, facts: &Facts) -> Pick
        ensures pick { result ≡ pick request.now (is_kept_of stage) facts.now }
        ensures within { IsPicked facts.now result }
    {
        if is_unmodified(request, stage, facts) {
            return Pick::Unmodified;
        }
        by_range(lawful_range(request, facts))
    }

    /// The status of the reply.
    pub fn status(self) -> u16
        ensures { result ≡ status_of self }
    {
        match self {
            Pick::Unmodified => 304,
            Pick::NoPart { .. } => 416,
            Pick::Section { .. } => 206,
            Pick::All => 200,
        }
    }

    /// The place where the bytes that are sent begin, and the place where they stop, if it isn't the end.
    pub fn range(self) -> (u64, Option<u64>)
        ensures { result ≡ range_of self }
    {
        match self {
            Pick::Section { from, stop, .. } => (from, Some(stop)),
            Pick::All => (0, None),
            Pick::Unmodified | Pick::NoPart { .. } => (0, Some(0)),
        }
    }

    /// The first and the last place of the part that is sent, as `Content-Range` tells them.
    pub fn part(self) -> Option<(u64, u64)>
        ensures { result ≡ part_in self }
    {
        match self {
            Pick::Section { from, stop, .. } => Some((from, stop.saturating_sub(1))),
            _ => None,
        }
    }
}

// The client has the file (RFC 9110, section 15.4.5). Of a body that comes with an unknown length nothing is said.
fn is_unmodified(request: &Request, stage: Stage, facts: &Facts) -> bool
    ensures { result ≡ is_unmodified_of request.now (is_kept_of stage) facts.now }
{
    (facts.total.is_some() || is_kept(stage)) && not_later(facts.modified, request.since)
}

fn is_kept(stage: Stage) -> bool
    ensures { result ≡ is_kept_of stage }
{
    matches!(stage, Stage::Same)
}

fn not_later(modified: Option<Moment>, since: Option<Moment>) -> bool
    ensures { result ≡ not_later_of modified since }
{
    match (modified, since) {
        (Some(modified), Some(since)) => modified.0 <= since.0,
        _ => false,
    }
}

// ---- ranges

fn by_range(range: Option<(Part, u64)>) -> Pick
    ensures { result ≡ by_range_of range }
{
    let Some((part, total)) = range else {
        return Pick::All;
    };
    if total <= part.from {
        return Pick::NoPart {
            from: part.from,
            total,
        };
    }
    Pick::Section {
        from: part.from,
        stop: stop_at(total, part.to),
        total,
    }
}

// The place after the last one that was asked for, or the end.
fn stop_at(total: u64, to: Option<u64>) -> u64
    ensures { result ≡ stop_at_of total to }
{
    match to {
        Some(last) if last < total => last + 1,
        _ => total,
    }
}

// The range that is sent, and the length of the whole.
fn lawful_range(request: &Request, facts: &Facts) -> Option<(Part, u64)>
    ensures { result ≡ lawful_range_of request.now facts.now }
{
    if !(is_get(request) && names_held(facts, &request.if_range)) {
        return None;
    }
    match (request.part, facts.total) {
        (Some(part), Some(total)) => Some((part, total)),
        _ => None,
    }
}

fn is_get(request: &Request) -> bool
    ensures { result ≡ is_get_of request.now }
{
    request.method.as_bytes() == b"GET".as_slice()
}

// ---- If-Range

fn names_held(facts: &Facts, if_range: &Option<Text>) -> bool
    ensures { result ≡ names_held_in facts.now if_range.now }
{
    match if_range {
        Some(text) => {
            same_tag(text.as_bytes(), &facts.tag)
                || same_secs(secs_of(text.as_bytes()), facts.modified)
        }
        None => true,
    }
}

fn same_tag(text: &[u8], tag: &Option<Tag>) -> bool
    ensures { result ≡ same_tag_of text.now tag.now }
{
    match tag {
        Some(tag) => text == tag.as_bytes(),
        None => false,
    }
}

fn same_secs(secs: Option<u64>, moment: Option<Moment>) -> bool
    ensures { result ≡ same_secs_of secs moment }
{
    match (secs, moment) {
        (Some(secs), Some(moment)) => secs == moment.0,
        _ => false,
    }
}

// The seconds of a date.
fn secs_of(text: &[u8]) -> Option<u64>
    ensures { result ≡ parse_secs text.now }
{
    match HttpDate::parse_ascii(text) {
        Ok(date) => Some(date.unix_secs()),
        Err(_) => None,
    }
}
