//! A download that breaks off and goes on, or meets another version, while a session follows it.
use crate::mirror::{Answer, rule};
use crate::shop::{Place, Shop, Unmade, open_shop};
use crate::visit::{Plan, Told, Visit, Why};
use acng_base::NoMemory;
use acng_head::Label;
use acng_serve::SessionStop;
use acng_site::Rule;
use std::alloc::Global;
use std::process::Abort;
use std::sync::Wait;
use std::test::Fail;
use std::thread::Threads;
use std::time::Clock as TimeSource;

/// What attempt 0 sends before two of the file's three bytes.
const HEAD: &[u8] = b"HTTP/1.1 200 OK\r\nContent-Length: 3\r\nETag: \"x\"\r\n\r\n";

/// What a client gets of that file, and of the version that comes later.
const REPLY: &[u8] =
    b"HTTP/1.1 200 OK\r\nContent-Type: application/octet-stream\r\nContent-Length: 3\r\nETag: \"x\"\r\n\
    Connection: keep-alive\r\n\r\nabc";

const OTHER_REPLY: &[u8] =
    b"HTTP/1.1 200 OK\r\nContent-Type: application/octet-stream\r\nContent-Length: 3\r\n\
    Connection: keep-alive\r\n\r\nxyz";

/// The answers to an ask for the third byte: that byte, or the whole of another version.
const THIRD: &[u8] =
    b"HTTP/1.1 206 Partial Content\r\nContent-Range: bytes 2-2/3\r\nContent-Length: 1\r\n\r\n";

const OTHER: &[u8] = b"HTTP/1.1 200 OK\r\nContent-Length: 3\r\n\r\n";

fn broken(alloc: Global) -> Result<Rule, NoMemory> {
    rule(
        alloc,
        Answer {
            url: b"http://h/a.deb",
            attempt: 0,
            from: 0,
            head: HEAD,
            bytes: b"ab",
            fault: true,
        },
    )
}

// What an attempt gets that asks for the third byte.
fn rest(alloc: Global, attempt: u64, head: &[u8], bytes: &[u8]) -> Result<Rule, NoMemory> {
    rule(
        alloc,
        Answer {
            url: b"http://h/a.deb",
            attempt,
            from: 2,
            head,
            bytes,
            fault: false,
        },
    )
}

// Origins that are held before attempt 0 fails.
fn shop(alloc: Global, rules: &[Rule]) -> Result<Shop, Unmade> {
    let place = Place {
        attempt: 0,
        given: HEAD.len() + 2,
    };
    open_shop(alloc, b"", rules, 1, place)
}

fn visit(alloc: Global, reply: &[u8], front: usize, told: Told) -> Result<Visit, NoMemory> {
    Visit::new(
        alloc,
        Plan {
            request: b"GET /h/a.deb HTTP/1.1\r\n\r\n",
            moment: 1000,
            reply,
            front,
            told,
        },
    )
}

fn whole_by(first: u64, last: u64) -> Told {
    Told {
        why: Why::Served,
        label: Some(Label::Fetched { first, last }),
        first_try: Some(first),
        kept: false,
        sent: 3,
        whole: true,
        stop: SessionStop::ClientEnded,
    }
}

// One follows the download, and gets the whole file.
fn mended_in<R: Threads + Wait + TimeSource + Abort + Sync>(
    rt: &R,
    alloc: Global,
    shop: &Shop,
) -> Result<bool, Unmade> {
    let one = [visit(alloc, REPLY, REPLY.len() - 1, whole_by(0, 1))?];
    Ok(
        shop.serve_beside(rt, alloc, &one, &[])
            && shop.mirror.asked_all() == 1
            && shop.mirror.asked_rest() == 1,
    )
}

// The same in a shop whose origin gives the third byte where it is asked for it.
fn mended<R: Threads + Wait + TimeSource + Abort + Sync>(
    rt: &R,
    alloc: Global,
) -> Result<bool, Unmade> {
    let rules = [broken(alloc)?, rest(alloc, 1, THIRD, b"c")?];
    let shop = shop(alloc, &rules)?;
    mended_in(rt, alloc, &shop)
}

// One follows the download until it is cut. The next request has the tries from 16 on, and gets the other version.
fn replaced_in<R: Threads + Wait + TimeSource + Abort + Sync>(
    rt: &R,
    alloc: Global,
    shop: &Shop,
) -> Result<bool, Unmade> {
    let cut = REPLY.get(..REPLY.len() - 1).unwrap_or(REPLY);
    let told = Told {
        why: Why::Broken { attempt: 0 },
        label: Some(Label::Fetched { first: 0, last: 0 }),
        first_try: Some(0),
        kept: false,
        sent: 2,
        whole: false,
        stop: SessionStop::Closed,
    };
    let one = [visit(alloc, cut, cut.len(), told)?];
    if !shop.serve_beside(rt, alloc, &one, &[]) || shop.mirror.asked_rest() != 1 {
        return Ok(false);
    }
    let next = visit(alloc, OTHER_REPLY, 0, whole_by(16, 16))?;
    Ok(
        shop.serve_one(rt, alloc, next)
            && shop.mirror.asked_all() == 1
            && shop.mirror.asked_rest() == 2,
    )
}

// The same in a shop whose origin gives another version where it is asked for the third byte.
fn replaced<R: Threads + Wait + TimeSource + Abort + Sync>(
    rt: &R,
    alloc: Global,
) -> Result<bool, Unmade> {
    let rules = [
        broken(alloc)?,
        rest(alloc, 1, OTHER, b"xyz")?,
        rest(alloc, 16, OTHER, b"xyz")?,
    ];
    let shop = shop(alloc, &rules)?;
    replaced_in(rt, alloc, &shop)
}

#[test]
fn a_break_is_mended_while_a_session_follows(rt: HostRuntime) -> Result<(), Fail> {
    assert!(rt; mended(&rt, rt.alloc())?);
    Ok(())
}

#[test]
fn a_break_that_meets_another_version_ends_the_connection(rt: HostRuntime) -> Result<(), Fail> {
    assert!(rt; replaced(&rt, rt.alloc())?);
    Ok(())
}
