//! A client's visit: what it asks for, what it is to get, and what others see of it meanwhile.
ghost use Rattle.std.specs.Prelude.{◌≡◌, true};
ghost use Rattle.acng_site.specs.Honest.{IsHonest};
ghost use Rattle.acng_remap.specs.Origins.{ServesTargets};

use crate::client::{Client, Halt};
use crate::door::Door;
use acng_base::{FixedClock, NoMemory};
use acng_desk::Entry;
use acng_fetch::Pool;
use acng_grow::Shown;
use acng_head::Label;
use acng_keeper::Keeper;
use acng_serve::{Cause, House, Note, SessionEnd, SessionStop, session};
use acng_site::{Origin, OriginSlip, Site};
use std::alloc::Global;
use std::sync::Wait;
use std::sync::atomic::{AtomicBool, AtomicU64, Ordering};

/// Why a reply is as it is.
#[derive(Clone, Copy, Debug, PartialEq, Eq)]
pub enum Why {
    Served,
    Page,
    /// This attempt failed behind the head.
    Broken { attempt: u64 },
    Other,
}

/// What is told of a connection with one reply.
#[derive(Clone, Copy, Debug, PartialEq, Eq)]
pub struct Told {
    pub why: Why,
    pub label: Option<Label>,
    /// The first try of whoever loads or loaded the file, where there is an entry.
    pub first_try: Option<u64>,
    pub kept: bool,
    pub sent: u64,
    pub whole: bool,
    pub stop: SessionStop,
}

/// What a client asks for and when, what it is to get and to be told, and how many bytes of that before a door is opened.
#[derive(Clone, Copy)]
pub struct Plan<'a> {
    pub request: &'a [u8],
    pub moment: u64,
    pub reply: &'a [u8],
    pub front: usize,
    pub told: Told,
}

/// A client's visit.
#[derive(Drop)]
pub struct Visit {
    request: Vec<u8>,
    moment: u64,
    reply: Vec<u8>,
    front: usize,
    told: Told,
    got: AtomicU64,
    right: AtomicBool,
    returned: AtomicBool,
}

impl Visit {
    pub fn new(alloc: Global, plan: Plan<'_>) -> Result<Visit, NoMemory> {
        Ok(Visit {
            request: Vec::from_slice(alloc, plan.request)?,
            moment: plan.moment,
            reply: Vec::from_slice(alloc, plan.reply)?,
            front: plan.front,
            told: plan.told,
            got: AtomicU64::new(0),
            right: AtomicBool::new(false),
            returned: AtomicBool::new(false),
        })
    }

    /// How many bytes the client has got.
    pub fn got(&self) -> u64 {
        self.got.load(Ordering::SeqCst)
    }

    /// Whether the client has what it is to have before the door is opened.
    pub fn has_front(&self) -> bool {
        self.got() == self.front as u64
    }

    /// Whether the session has returned.
    pub fn has_returned(&self) -> bool {
        self.returned.load(Ordering::SeqCst)
    }

    /// Whether the client got what it was to get, byte for byte, and the session was told what it was to be.
    pub fn went_right(&self) -> bool {
        self.right.load(Ordering::SeqCst)
    }

    // Notes the end of the session, as the last of all.
    fn end(&self, right: bool) {
        self.right.store(right, Ordering::SeqCst);
        self.returned.store(true, Ordering::SeqCst);
    }
}

/// Serves a client by a session. Its link comes to the door once it has its front, where one is given.
pub fn serve<R, S, K, P, O>(
    rt: &R,
    alloc: Global,
    house: &House<S, K, P>,
    origin: &O,
    pool: &Pool<&R, S, K, P>,
    visit: &Visit,
    door: Option<&Door>,
)
where
    R: Wait,
    S: Site,
    K: Keeper,
    P: OriginSlip,
    O: Origin<S, Slip = P>,
    requires serves { S.tells ≡ true → ServesTargets house.now S.serves }
    requires honest { S.tells ≡ true → IsHonest S.Site }
{
    let halt = match door {
        Some(door) => Some(Halt {
            door,
            front: visit.front,
        }),
        None => None,
    };
    let room = visit.reply.len().saturating_add(1000);
    let Ok(mut client) = Client::new(alloc, visit.request.as_slice(), room, &visit.got, halt) else {
        return visit.end(false);
    };
    let told = serve_link::<R, S, K, P, O>(
        rt,
        alloc,
        house,
        origin,
        pool,
        visit.moment,
        &mut client,
    );
    visit.end(client.written() == visit.reply.as_slice() && told == Some(visit.told));
}

// Runs the session, and says what is told of it.
fn serve_link<R, S, K, P, O>(
    rt: &R,
    alloc: Global,
    house: &House<S, K, P>,
    origin: &O,
    pool: &Pool<&R, S, K, P>,
    moment: u64,
    client: &mut Client<'_>,
) -> Option<Told>
where
    R: Wait,
    S: Site,
    K: Keeper,
    P: OriginSlip,
    O: Origin<S, Slip = P>,
    requires serves { S.tells ≡ true → ServesTargets house.now S.serves }
    requires honest { S.tells ≡ true → IsHonest S.Site }
{
    let Ok(mut clock) = FixedClock::new(alloc, &[moment]) else {
        return None;
    };
    let end = session(rt, alloc, house, origin, pool, &mut clock, client);
    told_of(&end)
}

// What is told of a connection with one reply.
fn told_of<Q>(end: &SessionEnd<Q>) -> Option<Told> {
    if end.notes.len() != 1 {
        return None;
    }
    Some(told_by(end.notes.get(0), end.stop))
}

fn told_by<Q>(note: &Note<Q>, stop: SessionStop) -> Told {
    Told {
        why: why_of(&note.cause),
        label: note.label,
        first_try: first_try_of(&note.entry),
        kept: is_kept(&note.entry),
        sent: note.sent,
        whole: note.whole,
        stop,
    }
}

fn first_try_of(entry: &Option<Entry>) -> Option<u64> {
    match entry {
        Some(entry) => Some(entry.asked().first_try),
        None => None,
    }
}

fn is_kept(entry: &Option<Entry>) -> bool {
    match entry {
        Some(entry) => entry.kept(),
        None => false,
    }
}

fn why_of<Q>(cause: &Cause<Q>) -> Why {
    match cause {
        Cause::Served => Why::Served,
        Cause::Page { .. } => Why::Page,
        Cause::Load(Shown::Origin { attempt }) => Why::Broken { attempt: *attempt },
        _ => Why::Other,
    }
}
