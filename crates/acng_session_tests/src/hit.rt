//! What a request for a held file calls: while the desk is held `fetch_body` of the keeper, once, and nothing else; behind it a
//! read of the body. The keeper numbers all calls, those of its bodies too. So each is let fail in turn, over the same requests:
//! which request has its slip says whose call it was, and the numbers leave no room for a further one.
use crate::crowd::converse;
use crate::mirror::{Mirror, Unmade, start};
use crate::tests::{Shared, housed};
use acng_base::{FixedClock, MemoryLink};
use acng_fetch::NoLoaders;
use acng_keeper::{CallSlip, KeeperSlip};
use acng_serve::{Cause, Note, SessionEnd};
use std::alloc::Global;
use std::process::Abort;
use std::sync::Wait;
use std::test::Fail;

/// The first call of the keeper that may fail, behind those that start a desk, and one past the last one that is tried: a load
/// and the hits behind it make fewer.
const FIRST_CALL: u64 = 4;

const MOST_CALLS: u64 = 60;

const MISS: &str = "GET /h/pool/a/a_1_all.deb HTTP/1.1\r\n\r\n";

const HEADS: &str =
    "HEAD /h/pool/a/a_1_all.deb HTTP/1.1\r\n\r\nHEAD /h/pool/a/a_1_all.deb HTTP/1.1\r\n\r\nHEAD /h/pool/a/a_1_all.deb HTTP/1.1\r\n\r\n";

const GETS: &str =
    "GET /h/pool/a/a_1_all.deb HTTP/1.1\r\n\r\nGET /h/pool/a/a_1_all.deb HTTP/1.1\r\n\r\nGET /h/pool/a/a_1_all.deb HTTP/1.1\r\n\r\n";

/// That a call failed in the reply of this number, and whether the desk had let its request in before.
#[derive(Clone, Copy, Debug, PartialEq, Eq)]
struct Slipped {
    call: u64,
    reply: usize,
    entered: bool,
}

// A connection over a house.
fn connect<R: Wait>(
    rt: &R,
    alloc: Global,
    house: &Shared,
    mirror: &Mirror,
    input: &str,
) -> Result<SessionEnd<CallSlip>, Unmade> {
    let mut clock = FixedClock::new(alloc, &[1_000])?;
    let mut link = MemoryLink::new(alloc, input.as_bytes(), 4_096, 4_096, &[])?;
    Ok(converse(rt, alloc, house, mirror, &NoLoaders, &mut clock, &mut link))
}

fn slip_in(note: &Note<CallSlip>, reply: usize) -> Option<Slipped> {
    match &note.cause {
        Cause::KeeperSlip(slip) => Some(Slipped {
            call: slip.call(),
            reply,
            entered: note.entry.is_some(),
        }),
        _ => None,
    }
}

// The first reply in which a call failed.
fn slip_of(end: &SessionEnd<CallSlip>) -> Option<Slipped> {
    for i in 0..end.notes.len() {
        if let Some(slipped) = slip_in(end.notes.get(i), i) {
            return Some(slipped);
        }
    }
    None
}

// Where a call fails, of which requests for a file that was loaded before.
fn failing<R: Wait>(
    rt: &R,
    alloc: Global,
    input: &str,
    call: u64,
) -> Result<Option<Slipped>, Unmade> {
    let (mirror, right) = start(alloc)?;
    let house = housed(alloc, right, &[call])?;
    let _ = connect(rt, alloc, &house, &mirror, MISS)?;
    let end = connect(rt, alloc, &house, &mirror, input)?;
    Ok(slip_of(&end))
}

// All such places, by rising calls.
fn all_slipped<R: Wait>(rt: &R, alloc: Global, input: &str) -> Result<Vec<Slipped>, Unmade> {
    let mut all = Vec::new(alloc);
    for call in FIRST_CALL..MOST_CALLS {
        if let Some(slipped) = failing(rt, alloc, input, call)? {
            all.push(slipped)?;
        }
    }
    Ok(all)
}

// Each reply has so many calls, one behind another, of which the first comes before its request is let in.
fn are_apart(rt: &impl Abort, all: &[Slipped], calls: usize) {
    assert_eq!(rt; all.len(), calls.saturating_mul(3));
    let first = all.first().map_or(0, |slipped| slipped.call);
    for (i, slipped) in all.iter().enumerate() {
        let due = Slipped {
            call: first.saturating_add(i as u64),
            reply: i / calls.max(1),
            entered: i % calls.max(1) > 0,
        };
        assert_eq!(rt; *slipped, due);
    }
}

#[test]
fn a_hit_calls_the_keeper_once_while_the_desk_is_held(rt: HostRuntime) -> Result<(), Fail> {
    let alloc = rt.alloc();
    let all = all_slipped(&rt, alloc, HEADS)?;
    are_apart(&rt, all.as_slice(), 1);
    Ok(())
}

#[test]
fn a_hit_reads_its_body_behind_that(rt: HostRuntime) -> Result<(), Fail> {
    let alloc = rt.alloc();
    let all = all_slipped(&rt, alloc, GETS)?;
    are_apart(&rt, all.as_slice(), 2);
    Ok(())
}
