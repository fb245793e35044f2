//! A reader of a file gets all of it, while a run of expiration that a client asks for removes the file's row.
use crate::mirror::{Answer, rule};
use crate::shop::{Place, Shop, Unmade, open_shop};
use crate::visit::{Plan, Told, Visit, Why};
use acng_base::NoMemory;
use acng_head::Label;
use acng_serve::SessionStop;
use std::alloc::Global;
use std::process::Abort;
use std::sync::Wait;
use std::test::Fail;
use std::thread::Threads;
use std::time::Clock as TimeSource;

const CONF: &[u8] = b"MaintOverHttp: 1\n";

/// An index that doesn't name the file.
const INDEX: &[u8] = b"-----BEGIN PGP SIGNED MESSAGE-----\n\nSHA256:\n \
    abababababababababababababababababababababababababababababababab 3 x/a.deb\n\
    -----BEGIN PGP SIGNATURE-----\n";

/// The length of the file, which is read in several pieces.
const LEN: usize = 100_000;

/// How much of it a client takes at once.
const PIECE: usize = 1000;

/// The pages of the run that finds the file without an index that names it, and of the one four days and a second later.
const MARKED: &[u8] =
    b"<!DOCTYPE html><html><head><title>acng report</title></head><body><pre>\ndone removed 0 marked 1\n\
    h/debian/b.deb 100000 solid 2000\nh/debian/dists/s/InRelease 150 volatile -\nrows 2 bytes 100150\n\
    </pre></body></html>\n";

const REMOVED: &[u8] =
    b"<!DOCTYPE html><html><head><title>acng report</title></head><body><pre>\ndone removed 1 marked 0\n\
    h/debian/dists/s/InRelease 150 volatile -\nrows 1 bytes 150\n</pre></body></html>\n";

/// The heads of the replies.
const INDEX_HEAD: &[u8] =
    b"HTTP/1.1 200 OK\r\nContent-Type: application/octet-stream\r\nContent-Length: 150\r\n\
    Connection: keep-alive\r\n\r\n";

const FILE_HEAD: &[u8] =
    b"HTTP/1.1 200 OK\r\nContent-Type: application/octet-stream\r\nContent-Length: 100000\r\n\
    Connection: keep-alive\r\n\r\n";

const MARKED_HEAD: &[u8] =
    b"HTTP/1.1 200 OK\r\nContent-Type: text/html\r\nContent-Length: 212\r\nConnection: close\r\n\r\n";

const REMOVED_HEAD: &[u8] =
    b"HTTP/1.1 200 OK\r\nContent-Type: text/html\r\nContent-Length: 176\r\nConnection: close\r\n\r\n";

/// What the clients ask for.
const GET_INDEX: &[u8] = b"GET /h/debian/dists/s/InRelease HTTP/1.1\r\n\r\n";

const GET_FILE: &[u8] = b"GET /h/debian/b.deb HTTP/1.1\r\n\r\n";

const RUN: &[u8] = b"GET /acng-report.html?run=expire HTTP/1.1\r\n\r\n";

// A head, and behind it a text.
fn behind(alloc: Global, head: &[u8], text: &[u8]) -> Result<Vec<u8>, NoMemory> {
    let mut bytes = Vec::from_slice(alloc, head)?;
    bytes.extend_from_slice(text)?;
    Ok(bytes)
}

// The file.
fn file(alloc: Global) -> Result<Vec<u8>, NoMemory> {
    let mut text = Vec::with_capacity(alloc, LEN)?;
    for at in 0..LEN {
        text.push((at % 251) as u8)?;
    }
    Ok(text)
}

// Origins of the index and of the file, of which none is held.
fn shop(alloc: Global, file: &[u8]) -> Result<Shop, Unmade> {
    let index = rule(
        alloc,
        Answer {
            url: b"http://h/debian/dists/s/InRelease",
            attempt: 0,
            from: 0,
            head: b"HTTP/1.1 200 OK\r\nContent-Length: 150\r\n\r\n",
            bytes: INDEX,
            fault: false,
        },
    )?;
    let file = rule(
        alloc,
        Answer {
            url: b"http://h/debian/b.deb",
            attempt: 16,
            from: 0,
            head: b"HTTP/1.1 200 OK\r\nContent-Length: 100000\r\n\r\n",
            bytes: file,
            fault: false,
        },
    )?;
    let nowhere = Place {
        attempt: u64::MAX,
        given: 0,
    };
    open_shop(alloc, CONF, &[index, file], 4096, nowhere)
}

// A client that gets a file of so many bytes, which came by this attempt.
fn reader(
    alloc: Global,
    request: &[u8],
    head: &[u8],
    text: &[u8],
    attempt: u64,
    first_try: u64,
) -> Result<Visit, NoMemory> {
    let reply = behind(alloc, head, text)?;
    let told = Told {
        why: Why::Served,
        label: Some(Label::Fetched {
            first: attempt,
            last: attempt,
        }),
        first_try: Some(first_try),
        kept: first_try != attempt,
        sent: text.len() as u64,
        whole: true,
        stop: SessionStop::ClientEnded,
    };
    Visit::new(
        alloc,
        Plan {
            request,
            moment: 3000,
            reply: reply.as_slice(),
            front: head.len().saturating_add(PIECE),
            told,
        },
    )
}

// A client that asks for a run at a moment, and gets its page.
fn run(alloc: Global, moment: u64, head: &[u8], page: &[u8]) -> Result<Visit, NoMemory> {
    let reply = behind(alloc, head, page)?;
    let told = Told {
        why: Why::Page,
        label: None,
        first_try: None,
        kept: false,
        sent: page.len() as u64,
        whole: true,
        stop: SessionStop::Closed,
    };
    Visit::new(
        alloc,
        Plan {
            request: RUN,
            moment,
            reply: reply.as_slice(),
            front: 0,
            told,
        },
    )
}

// Lets index and file be fetched, and a run mark the file. Then a reader of it takes one piece, a run removes the row, and the
// reader takes the rest. Says whether all went right.
fn removed_in<R: Threads + Wait + TimeSource + Abort + Sync>(
    rt: &R,
    alloc: Global,
    shop: &Shop,
    file: &[u8],
) -> Result<bool, Unmade> {
    let index = reader(alloc, GET_INDEX, INDEX_HEAD, INDEX, 0, 0)?;
    let indexed = shop.serve_one(rt, alloc, index);
    let first = reader(alloc, GET_FILE, FILE_HEAD, file, 16, 16)?;
    let fetched = shop.serve_one(rt, alloc, first);
    let marks = run(alloc, 2000, MARKED_HEAD, MARKED)?;
    let marked = shop.serve_one(rt, alloc, marks);
    let second = [reader(alloc, GET_FILE, FILE_HEAD, file, 16, 32)?];
    let removes = [run(alloc, 347_601, REMOVED_HEAD, REMOVED)?];
    Ok(indexed && fetched && marked && shop.serve_halted(rt, alloc, &second, &removes))
}

// The same in a shop of its own.
fn removed<R: Threads + Wait + TimeSource + Abort + Sync>(
    rt: &R,
    alloc: Global,
) -> Result<bool, Unmade> {
    let file = file(alloc)?;
    let shop = shop(alloc, file.as_slice())?;
    removed_in(rt, alloc, &shop, file.as_slice())
}

#[test]
fn a_reader_gets_a_whole_file_while_a_run_removes_it(rt: HostRuntime) -> Result<(), Fail> {
    assert!(rt; removed(&rt, rt.alloc())?);
    Ok(())
}
