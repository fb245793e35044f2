//! The origins: what they answer in which attempt, where they are held, and how they were asked.
ghost use Rattle.std.specs.Prelude.{◌≡◌, ◌<◌, ◌≤◌, IfSome};
ghost use Rattle.acng_base.specs.Moments.{moment_limit};
ghost use Rattle.acng_site.specs.Dials.{DialsFor};

use crate::door::Stop;
use acng_base::{NoMemory, Text};
use acng_site::{
    Ask, Conn, Dial, MemoryOrigin, Origin, OriginSlip, Request, Right, Rule, Site, Try, Untold,
};
use std::alloc::Global;
use std::sync::atomic::{AtomicU64, Ordering};

/// The end of a request for a whole file.
const FOR_ALL: &[u8] = b"\r\nConnection: close\r\n\r\n";

/// The end of a request for the rest from byte 2 on of a file with the tag "x".
const FOR_REST: &[u8] = b"\r\nConnection: close\r\nRange: bytes=2-\r\nIf-Range: \"x\"\r\n\r\n";

/// The origins of a test.
pub type Mirror = Counted<MemoryOrigin<Untold, Stop>>;

/// An origin, of which the asks are counted.
#[derive(Drop)]
pub struct Counted<O> {
    origin: O,
    all: AtomicU64,
    rest: AtomicU64,
}

impl<S: Site, O: Origin<S>> Origin<S> for Counted<O> {
    type Slip = O::Slip;

    type Conn = O::Conn;

    fn dial(&self, alloc: Global, attempt: Try<S>, ask: &Ask) -> Dial<O::Conn, O::Slip>
        requires since { IfSome ask.now.since (λ moment. moment.0 < moment_limit) }
        ensures answer { DialsFor S.Site ⟦<O::Conn as Conn>⟧ ⟦<O::Slip as OriginSlip>⟧ attempt.number ask.now result }
    {
        count(alloc, &self.all, &self.rest, ask);
        self.origin.dial(alloc, attempt, ask)
    }
}

// Counts an ask by the end of its request.
fn count(alloc: Global, all: &AtomicU64, rest: &AtomicU64, ask: &Ask)
    requires since { IfSome ask.now.since (λ moment. moment.0 < moment_limit) }
{
    let Ok(request) = Request::of(alloc, ask) else {
        return;
    };
    let text = request.text.as_bytes();
    if text.ends_with(FOR_ALL) {
        all.fetch_add(1, Ordering::SeqCst);
    }
    if text.ends_with(FOR_REST) {
        rest.fetch_add(1, Ordering::SeqCst);
    }
}

impl<O> Counted<O> {
    /// How many asks were for a whole file.
    pub fn asked_all(&self) -> u64 {
        self.all.load(Ordering::SeqCst)
    }

    /// How many asks were for the rest from byte 2 on of a file with the tag "x".
    pub fn asked_rest(&self) -> u64 {
        self.rest.load(Ordering::SeqCst)
    }
}

/// What one attempt gets that asks at a URL from a place: a head, bytes, and then a fault or the end.
#[derive(Clone, Copy)]
pub struct Answer<'a> {
    pub url: &'a [u8],
    pub attempt: u64,
    pub from: u64,
    pub head: &'a [u8],
    pub bytes: &'a [u8],
    pub fault: bool,
}

pub fn rule(alloc: Global, answer: Answer<'_>) -> Result<Rule, NoMemory> {
    let mut bytes = Vec::from_slice(alloc, answer.head)?;
    bytes.extend_from_slice(answer.bytes)?;
    Ok(Rule {
        url: Text::copy(alloc, answer.url)?,
        from: answer.from,
        first: answer.attempt,
        last: answer.attempt,
        bytes: Text::of(bytes),
        fault: answer.fault,
    })
}

/// Origins that give so many bytes at a time, and the right to their attempts.
pub fn start(
    alloc: Global,
    rules: &[Rule],
    cut: usize,
    stop: Stop,
) -> Result<(Mirror, Right<Untold>), NoMemory>
    requires { 1 ≤ cut }
{
    let (origin, right) = MemoryOrigin::<Untold, Stop>::start(alloc, rules, cut, stop)?;
    let mirror = Counted {
        origin,
        all: AtomicU64::new(0),
        rest: AtomicU64::new(0),
    };
    Ok((mirror, right))
}
