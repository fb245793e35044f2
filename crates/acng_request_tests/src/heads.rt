//! Heads of requests, each read in pieces of 1, 2, 7 and 4,096 bytes.
//!
//! What is wanted is written from the rules: RFC 9112, sections 2 to 6 and 9.6, RFC 9110, sections 5, 13.1 and 14.1, and
//! the proxy's own limits. A request is told as method, target and minor number, and what its fields say: `part 1-2`,
//! `part 1-`, `if TEXT`, `since SECONDS`, `close`.
//!
//! A table is one text, cut at `|`; a row is a head and what is wanted, with `^` between them.
ghost use Rattle.std.specs.Prelude.{◌≤◌};

use acng_base::{MemoryLink, Moment};
use acng_request::{Got, HeadBuf, HeadFault, Part, Request, read_request};
use std::alloc::Global;
use std::process::Abort;
use std::test::Fail;

const REQUEST_LINES: &str = "\
GET http://h/a HTTP/1.1\r\n\r\n^GET http://h/a 1.1|\
GET http://H.Example:81/a%20b?x#y HTTP/1.1\r\n\r\n^GET http://H.Example:81/a%20b?x#y 1.1|\
GET HTTP://h/a HTTP/1.1\r\n\r\n^GET HTTP://h/a 1.1|\
HEAD /debian/a HTTP/1.1\r\n\r\n^HEAD /debian/a 1.1|\
CONNECT h:443 HTTP/1.1\r\n\r\n^CONNECT h:443 1.1|\
GET * HTTP/1.1\r\n\r\n^GET * 1.1|\
GET / HTTP/1.0\r\n\r\n^GET / 1.0 close|\
GET / HTTP/1.1\n\n^GET / 1.1|\
GET / HTTP/1.1\r\nHost: h\n\r\n^GET / 1.1|\
GET / HTTP/1.1\nHost: h\r\n\n^GET / 1.1|\
\r\n\n\r\nGET / HTTP/1.1\r\n\r\n^GET / 1.1|\
GET /\u{e9} HTTP/1.1\r\n\r\n^GET /\u{e9} 1.1|\
GET / HTTP/1.1\r\n\r\nGET /b HTTP/1.1\r\n\r\n^GET / 1.1|\
GET x HTTP/9.9\r\n\r\n^bad|\
GET / HTTP/2.0\r\n\r\n^bad|\
GET / HTTP/1.2\r\n\r\n^bad|\
GET / http/1.1\r\n\r\n^bad|\
GET /\r\n\r\n^bad|\
GET  / HTTP/1.1\r\n\r\n^bad|\
GET /  HTTP/1.1\r\n\r\n^bad|\
GET /a b HTTP/1.1\r\n\r\n^bad|\
\x20GET / HTTP/1.1\r\n\r\n^bad|\
GET / HTTP/1.1 \r\n\r\n^bad|\
G@T / HTTP/1.1\r\n\r\n^bad|\
hello\r\n\r\n^bad|\
GET /\u{0} HTTP/1.1\r\n\r\n^bad|\
GET /\u{7f} HTTP/1.1\r\n\r\n^bad";

const FIELD_LINES: &str = "\
GET / HTTP/1.1\r\nHost:h\r\nAccept:\t*/* \r\nX:\r\n\r\n^GET / 1.1|\
GET / HTTP/1.1\r\nX: a\u{e9}\tb\r\n\r\n^GET / 1.1|\
GET / HTTP/1.1\r\nX: a\r\n b\r\n\r\n^bad|\
GET / HTTP/1.1\r\nX: a\r\n\tb\r\n\r\n^bad|\
GET / HTTP/1.1\r\nX : a\r\n\r\n^bad|\
GET / HTTP/1.1\r\nX y: a\r\n\r\n^bad|\
GET / HTTP/1.1\r\n: a\r\n\r\n^bad|\
GET / HTTP/1.1\r\nX\r\n\r\n^bad|\
GET / HTTP/1.1\r\nX: a\rb\r\n\r\n^bad|\
GET / HTTP/1.1\r\nX: a\u{0}b\r\n\r\n^bad|\
GET / HTTP/1.1\r\nX: a\u{7f}b\r\n\r\n^bad|\
GET / HTTP/1.1\r\r\n\r\n^bad|\
^ended|\
\r\n\r\n\n^ended|\
GET / HTTP/1.1^ended|\
GET / HTTP/1.1\r\n^ended|\
GET / HTTP/1.1\r\n\r^ended|\
GET / HTTP/1.1\r\nX: a\r\n^ended|\
what is this\r\n^ended";

const METHODS_AND_BODIES: &str = "\
POST / HTTP/1.1\r\n\r\n^method|\
get / HTTP/1.1\r\n\r\n^method|\
OPTIONS * HTTP/1.1\r\n\r\n^method|\
A-METHOD-OF-MORE-THAN-FIFTEEN-BYTES / HTTP/1.1\r\n\r\n^method|\
PUT / HTTP/1.1\r\nContent-Length: 1\r\n\r\n^method|\
PUT / HTTP/9.9\r\nContent-Length: 1\r\n\r\n^bad|\
GET / HTTP/1.1\r\nContent-Length: 0\r\n\r\n^GET / 1.1|\
GET / HTTP/1.1\r\ncontent-length:\t0 \r\nCONTENT-LENGTH: 0\r\n\r\n^GET / 1.1|\
GET / HTTP/1.1\r\nContent-Length: 00\r\n\r\n^GET / 1.1|\
GET / HTTP/1.1\r\nContent-Length: 00000000000000\r\n\r\n^body|\
GET / HTTP/1.1\r\nContent-Length: 1\r\n\r\nx^body|\
GET / HTTP/1.1\r\nContent-Length: 0\r\nContent-Length: 1\r\n\r\n^body|\
GET / HTTP/1.1\r\nContent-Length:\r\n\r\n^body|\
HEAD / HTTP/1.1\r\nContent-Length: +0\r\n\r\n^body|\
GET / HTTP/1.1\r\nTransfer-Encoding: chunked\r\n\r\n^body|\
GET / HTTP/1.1\r\ntransfer-encoding:\r\n\r\n^body|\
CONNECT h:1 HTTP/1.1\r\nTransfer-Encoding: identity\r\n\r\n^body";

const RANGES: &str = "\
GET / HTTP/1.1\r\nRange: bytes=0-0\r\n\r\n^GET / 1.1 part 0-0|\
GET / HTTP/1.1\r\nRANGE:bytes=7-\r\n\r\n^GET / 1.1 part 7-|\
GET / HTTP/1.1\r\nRange: bytes=00-1\r\n\r\n^GET / 1.1 part 0-1|\
GET / HTTP/1.1\r\nRange: bytes=1-0\r\n\r\n^GET / 1.1|\
GET / HTTP/1.1\r\nRange: bytes=-5\r\n\r\n^GET / 1.1|\
GET / HTTP/1.1\r\nRange: bytes=-\r\n\r\n^GET / 1.1|\
GET / HTTP/1.1\r\nRange: bytes=5\r\n\r\n^GET / 1.1|\
GET / HTTP/1.1\r\nRange: bytes=0-1,4-5\r\n\r\n^GET / 1.1|\
GET / HTTP/1.1\r\nRange: bytes= 0-1\r\n\r\n^GET / 1.1|\
GET / HTTP/1.1\r\nRange: Bytes=0-1\r\n\r\n^GET / 1.1|\
GET / HTTP/1.1\r\nRange: lines=0-1\r\n\r\n^GET / 1.1|\
GET / HTTP/1.1\r\nRange: bytes=0-1\r\nRange: bytes=0-1\r\n\r\n^GET / 1.1|\
GET / HTTP/1.1\r\nRange: bytes=9999999999999999998-9999999999999999999\r\n\r\n\
^GET / 1.1 part 9999999999999999998-9999999999999999999|\
GET / HTTP/1.1\r\nRange: bytes=00000000000000000000-\r\n\r\n^GET / 1.1|\
GET / HTTP/1.1\r\nRange: bytes=0-10000000000000000000\r\n\r\n^GET / 1.1|\
GET / HTTP/1.1\r\nRange: bytes=1-2\r\nIf-Range: \"t\"\r\n\r\n^GET / 1.1 part 1-2 if \"t\"|\
GET / HTTP/1.1\r\nIf-Range: W/\"t\"\r\n\r\n^GET / 1.1 if W/\"t\"|\
GET / HTTP/1.1\r\nIf-Range: a\r\nIf-Range: a\r\n\r\n^GET / 1.1";

// The dates are those of RFC 9110, section 5.6.7.
const DATES_AND_CONNECTIONS: &str = "\
GET / HTTP/1.1\r\nIf-Modified-Since: Sun, 06 Nov 1994 08:49:37 GMT\r\n\r\n^GET / 1.1 since 784111777|\
GET / HTTP/1.1\r\nIf-Modified-Since: Sunday, 06-Nov-94 08:49:37 GMT\r\n\r\n^GET / 1.1 since 784111777|\
GET / HTTP/1.1\r\nIf-Modified-Since: Sun Nov  6 08:49:37 1994\r\n\r\n^GET / 1.1 since 784111777|\
GET / HTTP/1.1\r\nIf-Modified-Since: Mon, 06 Nov 1994 08:49:37 GMT\r\n\r\n^GET / 1.1|\
GET / HTTP/1.1\r\nIf-Modified-Since: yesterday\r\n\r\n^GET / 1.1|\
GET / HTTP/1.1\r\nIf-None-Match: \"t\"\r\nIf-Modified-Since: Sun, 06 Nov 1994 08:49:37 GMT\r\n\r\n^GET / 1.1|\
GET / HTTP/1.1\r\nIf-Modified-Since: Sun, 06 Nov 1994 08:49:37 GMT\r\nif-none-match: a\r\nif-none-match: b\r\n\r\n^GET / 1.1|\
GET / HTTP/1.1\r\nConnection: close\r\n\r\n^GET / 1.1 close|\
GET / HTTP/1.1\r\nconnection: keep-alive,\tCLOSE ,x\r\n\r\n^GET / 1.1 close|\
GET / HTTP/1.1\r\nConnection: keep-alive\r\n\r\n^GET / 1.1|\
GET / HTTP/1.1\r\nConnection: closed, not close\r\n\r\n^GET / 1.1|\
GET / HTTP/1.1\r\nConnection: close\r\nConnection: close\r\n\r\n^GET / 1.1|\
GET / HTTP/1.1\r\nConnection:,,close,\r\n\r\n^GET / 1.1 close|\
GET / HTTP/1.0\r\nConnection: keep-alive\r\n\r\n^GET / 1.0 close";

// What was read, in short.
fn told(alloc: Global, got: &Got) -> Result<Vec<u8>, Fail> {
    let word = match got {
        Got::Request(request) => return told_request(alloc, request),
        Got::Ended => b"ended".as_slice(),
        Got::ClientFault => b"fault".as_slice(),
        Got::Refused(HeadFault::BadHead) => b"bad".as_slice(),
        Got::Refused(HeadFault::TooLarge) => b"large".as_slice(),
        Got::Refused(HeadFault::Method) => b"method".as_slice(),
        Got::Refused(HeadFault::HasBody) => b"body".as_slice(),
        Got::NoMemory => b"no memory".as_slice(),
    };
    Ok(Vec::from_slice(alloc, word)?)
}

fn told_request(alloc: Global, request: &Request) -> Result<Vec<u8>, Fail> {
    let mut text = Vec::from_slice(alloc, request.method.as_bytes())?;
    text.extend_from_slice(b" ".as_slice())?;
    text.extend_from_slice(request.target.as_bytes())?;
    put(alloc, &mut text, b" 1.", u64::from(request.minor))?;
    put_part(alloc, &mut text, request.part)?;
    if let Some(tag) = &request.if_range {
        text.extend_from_slice(b" if ".as_slice())?;
        text.extend_from_slice(tag.as_bytes())?;
    }
    if let Some(Moment(since)) = request.since {
        put(alloc, &mut text, b" since ", since)?;
    }
    if request.close {
        text.extend_from_slice(b" close".as_slice())?;
    }
    Ok(text)
}

fn put_part(alloc: Global, text: &mut Vec<u8>, part: Option<Part>) -> Result<(), Fail> {
    let Some(part) = part else {
        return Ok(());
    };
    put(alloc, text, b" part ", part.from)?;
    match part.to {
        Some(to) => put(alloc, text, b"-", to),
        None => Ok(text.extend_from_slice(b"-".as_slice())?),
    }
}

fn put(alloc: Global, text: &mut Vec<u8>, name: &[u8], number: u64) -> Result<(), Fail> {
    let digits = format!(in alloc; "{number}")?;
    text.extend_from_slice(name)?;
    text.extend_from_slice(digits.as_bytes())?;
    Ok(())
}

// Reads each head of a table.
fn run(rt: &impl Abort, alloc: Global, rows: &str) -> Result<(), Fail> {
    for row in rows.split('|') {
        let (input, want) = row.split_once('^').ok_or("a row without its answer")?;
        run_row(rt, alloc, input, want)?;
    }
    Ok(())
}

// Reads a head in each cutting.
fn run_row(rt: &impl Abort, alloc: Global, input: &str, want: &str) -> Result<(), Fail> {
    for cut in [1, 2, 7, 4096] {
        let said = read_in(alloc, input.as_bytes(), cut.max(1))?;
        assert_eq!(rt; said.as_slice(), want.as_bytes(), "{input} in {cut}");
    }
    Ok(())
}

// What is read from a link that gives so many bytes at a time.
fn read_in(alloc: Global, input: &[u8], cut: usize) -> Result<Vec<u8>, Fail>
    requires { 1 ≤ cut }
{
    let link = MemoryLink::new(alloc, input, 0, cut, [].as_slice());
    let mut link = link.ok().ok_or("memory")?;
    let mut buf = HeadBuf::new(alloc).ok().ok_or("memory")?;
    told(alloc, &read_request(alloc, &mut link, &mut buf))
}

#[test]
fn request_lines(rt: HostRuntime) -> Result<(), Fail> {
    run(&rt, rt.alloc(), REQUEST_LINES)
}

#[test]
fn field_lines(rt: HostRuntime) -> Result<(), Fail> {
    run(&rt, rt.alloc(), FIELD_LINES)
}

#[test]
fn methods_and_bodies(rt: HostRuntime) -> Result<(), Fail> {
    run(&rt, rt.alloc(), METHODS_AND_BODIES)
}

#[test]
fn ranges(rt: HostRuntime) -> Result<(), Fail> {
    run(&rt, rt.alloc(), RANGES)
}

#[test]
fn dates_and_connections(rt: HostRuntime) -> Result<(), Fail> {
    run(&rt, rt.alloc(), DATES_AND_CONNECTIONS)
}
