//! Calls that fail, one in each run: no wrong byte goes out, the status says whose fault it was, and the next run is right.
use crate::cache::{Around, Cache, NEVER, Outcome, run};
use crate::requests::rules;
use acng_site::Rule;
use std::alloc::Global;
use std::process::Abort;
use std::test::Fail;

const REQUEST: &[u8] = b"GET http://a/x.deb HTTP/1.1\r\n\r\n";

const REPLY: &[u8] =
    b"HTTP/1.1 200 OK\r\nContent-Type: application/octet-stream\r\nContent-Length: 3\r\nConnection: close\r\n\r\nabc";

const REFUSED: &[u8] =
    b"HTTP/1.1 500 Internal Server Error\r\nContent-Type: text/plain\r\nContent-Length: 11\r\nConnection: close\r\n\r\n500 Keeper\n";

fn around<'a>(rules: &'a [Rule], cut: usize, link_fails: u64, conf_fails: u64) -> Around<'a> {
    Around {
        conf: "Port: 80",
        moment: 1000,
        rules,
        cut,
        link_fails,
        conf_fails,
    }
}

// One run for the package.
fn ask(alloc: Global, cache: Cache, around: Around<'_>) -> Result<(Outcome, Cache), Fail> {
    let ran = run(alloc, "once", cache, around, REQUEST);
    Ok(ran.ok().ok_or("memory")?)
}

// The package comes whole.
fn is_right(outcome: &Outcome) -> bool {
    outcome.status == 0 && outcome.written.as_slice() == REPLY
}

// A call of the keeper failed: nothing went out, or a line that says so, or a front of the package.
fn says_so(outcome: &Outcome) -> bool {
    let written = outcome.written.as_slice();
    outcome.status == 5 && (written == REFUSED || REPLY.starts_with(written))
}

// Whichever call of the keeper fails, in the miss or in the hits behind it: a run is right or says so, and never twice.
#[test]
fn a_keeper_that_fails_is_said_to(rt: HostRuntime) -> Result<(), Fail> {
    let alloc = rt.alloc();
    let rules = rules(alloc).ok().ok_or("memory")?;
    let mut said = 0u64;
    for fail in 0..32u64 {
        let mut cache = Cache::new(alloc, &[fail]).ok().ok_or("memory")?;
        let mut failed = 0u64;
        for _ in 0..3 {
            let outcome: Outcome;
            (outcome, cache) = ask(alloc, cache, around(&rules, 4096, NEVER, NEVER))?;
            if !is_right(&outcome) {
                assert!(rt; says_so(&outcome), "call {fail}");
                failed = failed.saturating_add(1);
            }
        }
        assert!(rt; failed <= 1, "call {fail}");
        said = said.saturating_add(failed);
    }
    assert!(rt; 5 < said);
    Ok(())
}

// The client's link fails at each call in turn, in the miss and in the hit: a front of the reply went out, and status 4.
#[test]
fn a_link_that_fails_is_said_to(rt: HostRuntime) -> Result<(), Fail> {
    let alloc = rt.alloc();
    let rules = rules(alloc).ok().ok_or("memory")?;
    let mut said = 0u64;
    for fail in 0..24u64 {
        let mut cache = Cache::new(alloc, &[]).ok().ok_or("memory")?;
        for _ in 0..2 {
            let outcome: Outcome;
            (outcome, cache) = ask(alloc, cache, around(&rules, 7, fail, NEVER))?;
            assert!(rt; outcome.status == 4 || is_right(&outcome), "call {fail}");
            assert!(rt;
                REPLY.starts_with(outcome.written.as_slice()),
                "call {fail}"
            );
            said = said.saturating_add(u64::from(outcome.status == 4));
        }
        let (outcome, _) = ask(alloc, cache, around(&rules, 7, NEVER, NEVER))?;
        assert!(rt; is_right(&outcome), "after call {fail}");
    }
    // The request takes 5 reads of 7 bytes, and the reply more than 14 writes.
    assert!(rt; 38 <= said);
    Ok(())
}

// The client ends inside its request; the configuration can't be read.
#[test]
fn an_end_before_the_request_is_said(rt: HostRuntime) -> Result<(), Fail> {
    let alloc = rt.alloc();
    let rules = rules(alloc).ok().ok_or("memory")?;
    for front in 0..REQUEST.len() {
        let cache = Cache::new(alloc, &[]).ok().ok_or("memory")?;
        let ran = run(
            alloc,
            "once",
            cache,
            around(&rules, 5, NEVER, NEVER),
            &REQUEST[..front],
        );
        let (outcome, _) = ran.ok().ok_or("memory")?;
        assert!(rt;
            outcome.status == 7 && outcome.written.is_empty(),
            "{front}"
        );
    }
    for fail in 0..2u64 {
        let cache = Cache::new(alloc, &[]).ok().ok_or("memory")?;
        let (outcome, _) = ask(alloc, cache, around(&rules, 5, NEVER, fail))?;
        assert!(rt; outcome.status == 4 && outcome.written.is_empty(), "{fail}");
    }
    Ok(())
}
