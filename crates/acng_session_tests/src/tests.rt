//! Eight clients of two hundred requests each, over twenty places, with runs of expiration between: each reply is lawful.
use crate::crowd::{converse, drive};
use crate::judge::Plan;
use crate::mirror::{Mirror, Unmade, start};
use crate::tally::Tally;
use crate::wishes::{CLIENTS, PAGES, REQUESTS, drawn};
use acng_base::{FixedClock, MemoryLink};
use acng_conf::{Conf, read_conf};
use acng_desk::Desk;
use acng_fetch::{Joined, NoLoaders};
use acng_keeper::{MemoryBody, MemoryKeeper};
use acng_serve::House;
use acng_site::{AttemptSlip, Right, Untold};
use std::alloc::Global;
use std::process::Abort;
use std::sync::{Mutex, Wait};
use std::test::Fail;
use std::thread::Threads;

/// A desk and a house over memory.
pub type Bare = Desk<Untold, MemoryKeeper, Joined<Untold, MemoryBody, AttemptSlip>>;

pub type Shared = House<Untold, MemoryKeeper, AttemptSlip>;

/// Runs are made over HTTP, whatever problems there are, and remove what no index named in the run before.
const CONF: &[u8] = b"MaintOverHttp: 1\nExAbortOnProblems: 0\nExThreshold: 0\n";

/// The calls of the keeper that start a desk, none of which may fail.
const STARTS: u64 = 4;

/// One past the last call that may fail; a crowd makes some thousands.
const LAST_CALL: u64 = 10_000;

/// What is asked for before the clients come.
const FIRST_ASKS: &[u8] =
    b"GET /h/pool/a/a_1_all.deb HTTP/1.1\r\n\r\nGET /h/pool/a/c_1_all.deb HTTP/1.1\r\n\r\nGET /h/dists/t/Release HTTP/1.1\r\n\r\n";

// A desk over an empty keeper, of which the calls with these numbers fail.
#[tactic(auto, using(crate::proofs::Empty::nothing_faithful))]
fn desk(alloc: Global, right: Right<Untold>, conf: &Conf, fail: &[u64]) -> Result<Bare, Unmade> {
    let keeper = MemoryKeeper::new(alloc, fail)?;
    match Desk::start(alloc, keeper, right, conf, 64) {
        Ok(desk) => Ok(desk),
        Err(_) => Err(Unmade),
    }
}

/// A house over an empty keeper, of which the calls with these numbers fail.
pub fn housed(alloc: Global, right: Right<Untold>, fail: &[u64]) -> Result<Shared, Unmade> {
    let Ok(conf) = read_conf(alloc, CONF, &[]) else {
        return Err(Unmade);
    };
    let desk = desk(alloc, right, &conf, fail)?;
    Ok(House::new(conf, desk))
}

// Lets some files be held before the clients come.
fn stock<R: Wait>(rt: &R, alloc: Global, house: &Shared, mirror: &Mirror) -> Result<(), Unmade> {
    let mut clock = FixedClock::new(alloc, &[99_000])?;
    let mut link = MemoryLink::new(alloc, FIRST_ASKS, 65_536, 4_096, &[])?;
    let _ = converse(rt, alloc, house, mirror, &NoLoaders, &mut clock, &mut link);
    Ok(())
}

// Lets a crowd loose, over a keeper of which the calls with these numbers fail.
fn crowd<R: Threads + Wait + Sync>(
    rt: &R,
    alloc: Global,
    seed: u64,
    fail: &[u64],
) -> Result<Tally, Unmade> {
    let (mirror, right) = start(alloc)?;
    let house = housed(alloc, right, fail)?;
    stock(rt, alloc, &house, &mirror)?;
    let plan = Plan {
        seed,
        fails: !fail.is_empty(),
    };
    let tally = Mutex::new(Tally::new());
    drive::<R, Untold, MemoryKeeper, AttemptSlip, Mirror>(
        rt, alloc, &house, &mirror, plan, &tally,
    )?;
    Ok(tally.into_inner())
}

// Whether each reply was right.
fn is_right(tally: Tally) -> bool {
    tally.blame.is_none() && tally.replies() == CLIENTS * REQUESTS && tally.pages == PAGES
}

// Runs a crowd, and checks what is told of it.
fn all_right<R: Threads + Wait + Abort + Sync>(
    rt: &R,
    alloc: Global,
    seed: u64,
    fail: &[u64],
) -> Result<Tally, Unmade> {
    let tally = crowd(rt, alloc, seed, fail)?;
    let fails = fail.len();
    assert!(rt;
        is_right(tally),
        "seed {seed}, with {fails} calls that fail: {tally:?}"
    );
    Ok(tally)
}

#[test]
fn each_of_many_requests_gets_a_lawful_reply(rt: HostRuntime) -> Result<(), Fail> {
    let tally = all_right(&rt, rt.alloc(), 1, &[])?;
    assert!(rt; tally.removed > 0, "{tally:?}");
    Ok(())
}

// Each so manieth call fails, behind those that start a desk.
fn each(alloc: Global, step: u64) -> Result<Vec<u64>, Unmade> {
    let mut fail = Vec::new(alloc);
    for call in STARTS..LAST_CALL {
        if call % step.max(1) == 0 {
            fail.push(call)?;
        }
    }
    Ok(fail)
}

// About one call in so many fails, by chance.
fn some(alloc: Global, seed: u64, among: u64) -> Result<Vec<u64>, Unmade> {
    let mut fail = Vec::new(alloc);
    for call in STARTS..LAST_CALL {
        if drawn(seed, CLIENTS, call) % among.max(1) == 0 {
            fail.push(call)?;
        }
    }
    Ok(fail)
}

#[test]
fn so_it_is_while_each_third_call_of_the_keeper_fails(rt: HostRuntime) -> Result<(), Fail> {
    let alloc = rt.alloc();
    let fail = each(alloc, 3)?;
    all_right(&rt, alloc, 2, fail.as_slice())?;
    Ok(())
}

#[test]
fn so_it_is_while_each_seventh_call_of_the_keeper_fails(rt: HostRuntime) -> Result<(), Fail> {
    let alloc = rt.alloc();
    let fail = each(alloc, 7)?;
    all_right(&rt, alloc, 3, fail.as_slice())?;
    Ok(())
}

#[test]
fn so_it_is_while_some_calls_of_the_keeper_fail(rt: HostRuntime) -> Result<(), Fail> {
    let alloc = rt.alloc();
    let fail = some(alloc, 4, 12)?;
    all_right(&rt, alloc, 4, fail.as_slice())?;
    Ok(())
}
