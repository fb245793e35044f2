//! Requests for parts of files and with conditions, and the reply to each, byte for byte.
//!
//! What is wanted is written by hand from RFC 9110, sections 8, 13.1, 14 and 15.4.5, and RFC 9112, sections 6, 7.1 and 9.6.
//! A row is a request and its reply in short, with `^` between them, and how the sending ended: `w` whole, `c` cut. In a
//! request `G` stands for GET and `H` for HEAD, and `<`, `~`, `>` for the second before the date of the file, that one and
//! the one after it. A reply is its status, the letters of its lines, and behind `=` its body.
ghost use Rattle.std.specs.Prelude.{◌≤◌};

use crate::bodies::{Body, Unmade, Which, body_of};
use acng_base::MemoryLink;
use acng_grow::FollowStop;
use acng_reply::{Manner, Pick, send_part};
use acng_request::{Got, HeadBuf, Request, read_request};
use std::alloc::Global;
use std::process::Abort;
use std::test::Fail;

const PARTS: &str = "\
G1^w^200 F L3 M T K=abc|\
G0^w^200 F L3 M T X=abc|\
H1^w^200 F L3 M T K=|\
H0^w^200 F L3 M T X=|\
G1;Connection: close^w^200 F L3 M T X=abc|\
G1;Range: bytes=0-^w^206 F L3 R0-2/3 M T K=abc|\
G1;Range: bytes=0-0^w^206 F L1 R0-0/3 M T K=a|\
G1;Range: bytes=1-1^w^206 F L1 R1-1/3 M T K=b|\
G1;Range: bytes=2-^w^206 F L1 R2-2/3 M T K=c|\
G1;Range: bytes=2-2^w^206 F L1 R2-2/3 M T K=c|\
G1;Range: bytes=1-9^w^206 F L2 R1-2/3 M T K=bc|\
G1;Range: bytes=0-99^w^206 F L3 R0-2/3 M T K=abc|\
G1;Range: bytes=3-^w^416 P L11 R*/3 K=416 NoPart;|\
G1;Range: bytes=3-3^w^416 P L11 R*/3 K=416 NoPart;|\
G0;Range: bytes=99-^w^416 P L11 R*/3 X=416 NoPart;|\
G1;Range: bytes=-1^w^200 F L3 M T K=abc|\
G1;Range: bytes=1-0^w^200 F L3 M T K=abc|\
G1;Range: bytes=0-0,2-2^w^200 F L3 M T K=abc|\
G0;Range: bytes=1-1^w^206 F L1 R1-1/3 M T X=b|\
H1;Range: bytes=2-^w^200 F L3 M T K=|\
H1;Range: bytes=3-^w^200 F L3 M T K=";

const CONDITIONS: &str = "\
G1;Range: bytes=1-;If-Range: \"x\"^w^206 F L2 R1-2/3 M T K=bc|\
G1;Range: bytes=1-;If-Range: \"y\"^w^200 F L3 M T K=abc|\
G1;Range: bytes=1-;If-Range: W/\"x\"^w^200 F L3 M T K=abc|\
G1;Range: bytes=1-;If-Range: ~^w^206 F L2 R1-2/3 M T K=bc|\
G1;Range: bytes=1-;If-Range: >^w^200 F L3 M T K=abc|\
G1;Range: bytes=3-;If-Range: \"y\"^w^200 F L3 M T K=abc|\
G1;Range: bytes=3-;If-Range: \"x\"^w^416 P L11 R*/3 K=416 NoPart;|\
G1;If-Range: \"y\"^w^200 F L3 M T K=abc|\
G1;If-Modified-Since: ~^w^304 M T K=|\
G1;If-Modified-Since: >^w^304 M T K=|\
G1;If-Modified-Since: <^w^200 F L3 M T K=abc|\
G1;If-Modified-Since: yesterday^w^200 F L3 M T K=abc|\
G0;If-Modified-Since: ~^w^304 M T X=|\
H1;If-Modified-Since: ~^w^304 M T K=|\
G1;If-Modified-Since: ~;Range: bytes=0-^w^304 M T K=|\
G1;If-Modified-Since: ~;Range: bytes=3-^w^304 M T K=|\
G1;If-Modified-Since: <;Range: bytes=1-1^w^206 F L1 R1-1/3 M T K=b|\
G1;If-Modified-Since: <;Range: bytes=3-^w^416 P L11 R*/3 K=416 NoPart;|\
G1;If-Modified-Since: ~;If-None-Match: \"x\"^w^200 F L3 M T K=abc|\
G1;If-Modified-Since: ~;If-None-Match: \"x\";Range: bytes=0-0^w^206 F L1 R0-0/3 M T K=a";

const EMPTY: &str = "\
G1^w^200 F L0 K=|\
H1^w^200 F L0 K=|\
G1;Range: bytes=0-^w^416 P L11 R*/0 K=416 NoPart;|\
G1;Range: bytes=0-;If-Range: \"x\"^w^200 F L0 K=|\
G1;If-Modified-Since: ~^w^200 F L0 K=";

const UNKNOWN: &str = "\
G1^w^200 F C K=3;abc;0;;|\
G0^w^200 F X=abc|\
H1^w^200 F C K=|\
H0^w^200 F X=|\
G1;Range: bytes=1-^w^200 F C K=3;abc;0;;|\
G1;If-Modified-Since: >^w^200 F C K=3;abc;0;;";

const CUT: &str = "\
G1^c^200 F L5 M T K=abc|\
H1^w^200 F L5 M T K=|\
G1;Range: bytes=1-1^w^206 F L1 R1-1/5 M T K=b|\
G1;Range: bytes=2-4^c^206 F L3 R2-4/5 M T K=c|\
G1;Range: bytes=3-^c^206 F L2 R3-4/5 M T K=|\
G1;Range: bytes=5-^w^416 P L11 R*/5 K=416 NoPart;|\
G1;If-Modified-Since: ~^w^304 M T K=";

const CUT_UNKNOWN: &str = "\
G1^c^200 F C K=3;abc;|\
G0^c^200 F X=abc|\
H1^w^200 F C K=";

// ---- texts in full

fn push(text: &mut Vec<u8>, piece: &str) -> Result<(), Fail> {
    Ok(text.extend_from_slice(piece.as_bytes())?)
}

// The request of a row.
fn request_text(alloc: Global, short: &str) -> Result<Vec<u8>, Fail> {
    let mut text = Vec::new(alloc);
    let (method, minor) = match short.get(..2) {
        Some("G1") => ("GET", "1"),
        Some("G0") => ("GET", "0"),
        Some("H1") => ("HEAD", "1"),
        _ => ("HEAD", "0"),
    };
    push(&mut text, method)?;
    push(&mut text, " / HTTP/1.")?;
    push(&mut text, minor)?;
    for letter in short.bytes().skip(2) {
        match letter {
            b';' => push(&mut text, "\r\n")?,
            b'<' => push(&mut text, "Sun, 06 Nov 1994 08:49:36 GMT")?,
            b'~' => push(&mut text, "Sun, 06 Nov 1994 08:49:37 GMT")?,
            b'>' => push(&mut text, "Sun, 06 Nov 1994 08:49:38 GMT")?,
            other => text.push(other)?,
        }
    }
    push(&mut text, "\r\n\r\n")?;
    Ok(text)
}

// A line of a head by its word.
fn push_line(text: &mut Vec<u8>, word: &str) -> Result<(), Fail> {
    match word {
        "200" => push(text, "HTTP/1.1 200 OK"),
        "206" => push(text, "HTTP/1.1 206 Partial Content"),
        "304" => push(text, "HTTP/1.1 304 Not Modified"),
        "416" => push(text, "HTTP/1.1 416 Range Not Satisfiable"),
        "F" => push(text, "Content-Type: application/octet-stream"),
        "P" => push(text, "Content-Type: text/plain"),
        "C" => push(text, "Transfer-Encoding: chunked"),
        "M" => push(text, "Last-Modified: Sun, 06 Nov 1994 08:49:37 GMT"),
        "T" => push(text, "ETag: \"x\""),
        "K" => push(text, "Connection: keep-alive"),
        "X" => push(text, "Connection: close"),
        word => push_number(text, word),
    }
}

// A length is an `L` and its number, a range an `R` and what its field says of the bytes.
fn push_number(text: &mut Vec<u8>, word: &str) -> Result<(), Fail> {
    match word.strip_prefix('L') {
        Some(length) => {
            push(text, "Content-Length: ")?;
            push(text, length)
        }
        None => {
            push(text, "Content-Range: bytes ")?;
            push(text, word.trim_start_matches('R'))
        }
    }
}

// The reply of a row.
fn reply_text(alloc: Global, short: &str) -> Result<Vec<u8>, Fail> {
    let (head, body) = short.split_once('=').ok_or("a row without a body")?;
    let mut text = Vec::new(alloc);
    for word in head.split(' ') {
        push_line(&mut text, word)?;
        push(&mut text, "\r\n")?;
    }
    push(&mut text, "\r\n")?;
    let (line, last) = match body.strip_prefix("416") {
        Some(rest) => (rest, "\n"),
        None => (body, "\r\n"),
    };
    if line.len() < body.len() {
        push(&mut text, "416")?;
    }
    for letter in line.bytes() {
        if letter == b';' {
            push(&mut text, last)?;
        } else {
            text.push(letter)?;
        }
    }
    Ok(text)
}

// ---- runs

/// What went out, and how it ended: `w` whole, `c` cut, `s` by a slip, `f` by a fault of the client.
#[derive(Drop)]
struct Sent {
    bytes: Vec<u8>,
    end: char,
    count: u64,
}

fn read(alloc: Global, text: &[u8]) -> Result<Request, Fail> {
    let link = MemoryLink::new(alloc, text, 0, 100, &[]);
    let mut link = link.ok().ok_or("memory")?;
    let mut buf = HeadBuf::new(alloc).ok().ok_or("memory")?;
    match read_request(alloc, &mut link, &mut buf) {
        Got::Request(request) => Ok(request),
        _ => Err("the request reads".into()),
    }
}

fn letter<Q>(stop: &FollowStop<Q>) -> char {
    match stop {
        FollowStop::Whole => 'w',
        FollowStop::Cut(_) => 'c',
        FollowStop::Slip(_) => 's',
        FollowStop::ClientFault => 'f',
    }
}

// Replies to a request by a body, over a link that takes so many bytes a call and of which these calls fail.
fn reply(
    alloc: Global,
    request: &Request,
    which: Which,
    cut: usize,
    fail: &[u64],
) -> Result<Sent, Fail>
    requires { 1 ≤ cut }
{
    let Ok(mut body) = body_of(alloc, which) else {
        return Err("the body is made".into());
    };
    let client = MemoryLink::new(alloc, b"", 4_096, cut, fail);
    let mut client = client.ok().ok_or("memory")?;
    let pick = Pick::of(request, body.stage(), &body.facts());
    let followed = send_part(&mut body, Manner::of(request), pick, &mut client);
    Ok(Sent {
        bytes: Vec::from_slice(alloc, client.written())?,
        end: letter(&followed.stop),
        count: followed.sent,
    })
}

// Compares each reply of a table with its text, and with each call of the link failing in turn.
fn run(rt: &impl Abort, alloc: Global, which: Which, table: &str) -> Result<(), Fail> {
    for row in table.split('|') {
        let mut fields = row.split('^');
        let short = fields.next().ok_or("a row without a request")?;
        let end = fields.next().ok_or("a row without an end")?;
        let wanted = reply_text(alloc, fields.next().ok_or("a row without a reply")?)?;
        let request = read(alloc, request_text(alloc, short)?.as_slice())?;
        let sent = reply(alloc, &request, which, 4_096, &[])?;
        assert_eq!(rt; sent.bytes.as_slice(), wanted.as_slice(), "{row}");
        assert!(rt; end.starts_with(sent.end), "{row}");
        breaks(rt, alloc, &request, which, wanted.as_slice())?;
    }
    Ok(())
}

// A link that takes seven bytes a call, one of which fails: what was written before it is a front of the reply.
fn breaks(
    rt: &impl Abort,
    alloc: Global,
    request: &Request,
    which: Which,
    wanted: &[u8],
) -> Result<(), Fail> {
    for at in 0..3 {
        let sent = reply(alloc, request, which, 7, &[at])?;
        assert!(rt; sent.end == 'f' && sent.count == 0, "call {at}");
        assert_eq!(rt; sent.bytes.len() as u64, at.saturating_mul(7), "call {at}");
        assert!(rt; wanted.starts_with(sent.bytes.as_slice()), "call {at}");
    }
    let sent = reply(alloc, request, which, 7, &[1_000])?;
    assert_eq!(rt; sent.bytes.as_slice(), wanted);
    Ok(())
}

#[test]
fn each_request_gets_its_reply(rt: HostRuntime) -> Result<(), Fail> {
    let alloc = rt.alloc();
    run(&rt, alloc, Which::Held, PARTS)?;
    run(&rt, alloc, Which::Held, CONDITIONS)?;
    run(&rt, alloc, Which::Empty, EMPTY)?;
    run(&rt, alloc, Which::Unknown, UNKNOWN)?;
    run(&rt, alloc, Which::Cut, CUT)?;
    run(&rt, alloc, Which::CutUnknown, CUT_UNKNOWN)
}

// A link that takes one byte a call: its last two calls send the two bytes of the part.
#[test]
fn a_link_that_fails_in_the_body_took_a_part_of_it(rt: HostRuntime) -> Result<(), Fail> {
    let alloc = rt.alloc();
    let request = read(alloc, b"GET / HTTP/1.1\r\nRange: bytes=1-2\r\n\r\n")?;
    let whole = reply(alloc, &request, Which::Held, 1, &[])?;
    assert!(rt; whole.count == 2);
    let len = whole.bytes.len() as u64;
    for back in 1..=2u64 {
        let sent = reply(alloc, &request, Which::Held, 1, &[len.saturating_sub(back)])?;
        assert!(rt;
            sent.end == 'f' && sent.count == 2u64.saturating_sub(back),
            "{back}"
        );
    }
    Ok(())
}
