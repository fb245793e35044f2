//! Two sessions follow one download while it is held, beside a third one.
use crate::mirror::{Answer, rule};
use crate::shop::{Place, Shop, Unmade, open_shop};
use crate::visit::{Plan, Told, Visit, Why};
use acng_base::NoMemory;
use acng_head::Label;
use acng_serve::SessionStop;
use std::alloc::Global;
use std::process::Abort;
use std::sync::Wait;
use std::test::Fail;
use std::thread::Threads;
use std::time::Clock as TimeSource;

/// What the origin sends before the eight bytes, which have no tag.
const HEAD: &[u8] = b"HTTP/1.1 200 OK\r\nContent-Length: 8\r\n\r\n";

/// What a client gets of the file of eight bytes, and of the one that is held.
const REPLY: &[u8] =
    b"HTTP/1.1 200 OK\r\nContent-Type: application/octet-stream\r\nContent-Length: 8\r\n\
    Connection: keep-alive\r\n\r\nabcdefgh";

const HELD_REPLY: &[u8] =
    b"HTTP/1.1 200 OK\r\nContent-Type: application/octet-stream\r\nContent-Length: 3\r\n\
    Connection: keep-alive\r\n\r\nxyz";

// The one that is held came by attempt 0, and the tries of the eight bytes' download are 16 to 31.
fn held_told(first_try: u64, kept: bool) -> Told {
    Told {
        why: Why::Served,
        label: Some(Label::Fetched { first: 0, last: 0 }),
        first_try: Some(first_try),
        kept,
        sent: 3,
        whole: true,
        stop: SessionStop::ClientEnded,
    }
}

fn held_visit(alloc: Global, told: Told) -> Result<Visit, NoMemory> {
    Visit::new(
        alloc,
        Plan {
            request: b"GET /h/b.deb HTTP/1.1\r\n\r\n",
            moment: 1000,
            reply: HELD_REPLY,
            front: 0,
            told,
        },
    )
}

// One of two that ask for the eight bytes, and are to get so many of them.
fn visit(alloc: Global, len: usize) -> Result<Visit, NoMemory> {
    let head = REPLY.len() - 8;
    let whole = len >= 8;
    let told = Told {
        why: if whole {
            Why::Served
        } else {
            Why::Broken { attempt: 16 }
        },
        label: Some(Label::Fetched {
            first: 16,
            last: 16,
        }),
        first_try: Some(16),
        kept: false,
        sent: len as u64,
        whole,
        stop: if whole {
            SessionStop::ClientEnded
        } else {
            SessionStop::Closed
        },
    };
    Visit::new(
        alloc,
        Plan {
            request: b"GET /h/a.deb HTTP/1.1\r\n\r\n",
            moment: 1000,
            reply: REPLY.get(..head.saturating_add(len)).unwrap_or(REPLY),
            front: head + 4,
            told,
        },
    )
}

// Origins that are held after four of the eight bytes, and give the others or a fault behind that.
fn shop(alloc: Global, bytes: &[u8], fault: bool) -> Result<Shop, Unmade> {
    let rules = [
        rule(
            alloc,
            Answer {
                url: b"http://h/b.deb",
                attempt: 0,
                from: 0,
                head: b"HTTP/1.1 200 OK\r\nContent-Length: 3\r\n\r\n",
                bytes: b"xyz",
                fault: false,
            },
        )?,
        rule(
            alloc,
            Answer {
                url: b"http://h/a.deb",
                attempt: 16,
                from: 0,
                head: HEAD,
                bytes,
                fault,
            },
        )?,
    ];
    let place = Place {
        attempt: 16,
        given: HEAD.len() + 4,
    };
    open_shop(alloc, b"", &rules, 1, place)
}

// Lets one fetch the file that is held. Then two ask for the eight bytes, of which they are to get so many, and a third one for the
// held file while the origin is held after four. Says whether all went right, by one ask for each file.
fn both_in<R: Threads + Wait + TimeSource + Abort + Sync>(
    rt: &R,
    alloc: Global,
    shop: &Shop,
    len: usize,
) -> Result<bool, Unmade> {
    let fetched = shop.serve_one(rt, alloc, held_visit(alloc, held_told(0, false))?);
    let two = [visit(alloc, len)?, visit(alloc, len)?];
    let third = [held_visit(alloc, held_told(32, true))?];
    Ok(
        fetched
            && shop.serve_beside(rt, alloc, &two, &third)
            && shop.mirror.asked_all() == 2
            && shop.mirror.asked_rest() == 0,
    )
}

// The same in a shop whose origin gives these of the eight bytes.
fn both<R: Threads + Wait + TimeSource + Abort + Sync>(
    rt: &R,
    alloc: Global,
    bytes: &[u8],
) -> Result<bool, Unmade> {
    let shop = shop(alloc, bytes, bytes.len() < 8)?;
    both_in(rt, alloc, &shop, bytes.len())
}

#[test]
fn two_get_what_came_while_the_origin_is_held(rt: HostRuntime) -> Result<(), Fail> {
    assert!(rt; both(&rt, rt.alloc(), b"abcdefgh")?);
    Ok(())
}

#[test]
fn two_get_what_came_before_the_origin_failed(rt: HostRuntime) -> Result<(), Fail> {
    assert!(rt; both(&rt, rt.alloc(), b"abcd")?);
    Ok(())
}
