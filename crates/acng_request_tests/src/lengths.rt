//! The most lines and bytes of a head: 64 lines between the request line and the empty one, and 16,384 bytes.
ghost use Rattle.std.specs.Prelude.{◌<◌};

use acng_base::{MOST_HEAD, MemoryLink};
use acng_request::{Got, HeadBuf, HeadFault, read_request};
use std::alloc::Global;
use std::process::Abort;
use std::test::Fail;

// What stands before the request line, how many lines stand behind it, each of them, and what is read.
const HEADS_OF_LINES: &[(&str, u32, &str, &str)] = &[
    ("", 64, "X: a\r\n", "request"),
    ("", 65, "X: a\r\n", "large"),
    ("", 64, "X:\n", "request"),
    ("", 65, "X:\n", "large"),
    ("\n\r\n\n", 64, "X: a\r\n", "request"),
    ("\n\r\n\n", 65, "X: a\r\n", "large"),
    ("", 64, "no field\r\n", "bad"),
    ("", 65, "no field\r\n", "large"),
    ("", 64, " \r\n", "bad"),
    ("", 65, " \r\n", "large"),
    ("", 65, "\rX: a\r\n", "large"),
    ("", 1000, "X: a\r\n", "large"),
];

// How a head begins and ends, how many bytes it has, and what is read.
const HEADS_OF_BYTES: &[(&str, &str, usize, &str)] = &[
    ("GET / HTTP/1.1\r\nX: ", "\r\n\r\n", 16_384, "request"),
    ("GET / HTTP/1.1\r\nX: ", "\r\n\r\n", 16_385, "large"),
    ("GET / HTTP/1.1\r\nX: ", "\n\n", 16_384, "request"),
    ("GET / HTTP/1.1\r\nX: ", "\n\n", 16_385, "large"),
    ("GET / HTTP/1.1\r\nX ", "\r\n\r\n", 16_384, "bad"),
    ("GET / HTTP/1.1\r\nX ", "\r\n\r\n", 16_385, "large"),
    ("POST / HTTP/1.1\r\nX: ", "\r\n\r\n", 16_385, "large"),
    ("GET / HTTP/1.1\r\nX: ", "\r\n", 16_383, "ended"),
    ("GET / HTTP/1.1\r\nX: ", "\r\n", 16_384, "large"),
    ("", "", 16_383, "ended"),
    ("", "", 16_384, "large"),
];

// What was read, in a word.
fn word(got: &Got) -> &'static str {
    match got {
        Got::Request(_) => "request",
        Got::Ended => "ended",
        Got::ClientFault => "fault",
        Got::Refused(HeadFault::BadHead) => "bad",
        Got::Refused(HeadFault::TooLarge) => "large",
        Got::Refused(_) => "refused",
        Got::NoMemory => "no memory",
    }
}

// How many reads give so many bytes, or the most that are held.
fn reads(len: usize, cut: usize) -> u64
    requires { 0 < cut }
{
    let most = len.min(MOST_HEAD);
    let pieces = (most / cut) as u64;
    if most % cut == 0 { pieces } else { pieces + 1 }
}

// What is read from a link that gives so many bytes at a time, and whose read of this number fails.
fn word_in(alloc: Global, head: &[u8], cut: usize, fail: u64) -> Result<&'static str, Fail>
    requires { 0 < cut }
{
    let link = MemoryLink::new(alloc, head, 0, cut, &[fail]);
    let mut link = link.ok().ok_or("memory")?;
    let mut buf = HeadBuf::new(alloc).ok().ok_or("memory")?;
    Ok(word(&read_request(alloc, &mut link, &mut buf)))
}

// Reads the head in each cutting. The read after those that decide fails, so none is made.
fn check(rt: &impl Abort, alloc: Global, head: &[u8], want: &str) -> Result<(), Fail> {
    for cut in [1, 2, 7, 4096] {
        let fail = if want == "ended" {
            u64::MAX
        } else {
            reads(head.len(), cut.max(1))
        };
        let got = word_in(alloc, head, cut.max(1), fail)?;
        assert_eq!(rt; got, want, "{} bytes in {cut}", head.len());
    }
    Ok(())
}

// A request line, so many lines, and an end.
fn head_of(alloc: Global, before: &str, count: u32, line: &str) -> Result<Vec<u8>, Fail> {
    let mut head = Vec::from_slice(alloc, before.as_bytes())?;
    head.extend_from_slice(b"GET / HTTP/1.1\r\n".as_slice())?;
    for _ in 0..count {
        head.extend_from_slice(line.as_bytes())?;
    }
    head.extend_from_slice(b"\r\n".as_slice())?;
    Ok(head)
}

// A head of so many bytes: how it begins, `x` as often as it takes, and how it ends.
fn filled(alloc: Global, start: &str, end: &str, len: usize) -> Result<Vec<u8>, Fail> {
    let mut head = Vec::from_slice(alloc, start.as_bytes())?;
    head.resize(len.saturating_sub(end.len()), b'x')?;
    head.extend_from_slice(end.as_bytes())?;
    Ok(head)
}

#[test]
fn a_head_has_64_lines_at_most(rt: HostRuntime) -> Result<(), Fail> {
    for &(before, count, line, want) in HEADS_OF_LINES {
        let head = head_of(rt.alloc(), before, count, line)?;
        check(&rt, rt.alloc(), head.as_slice(), want)?;
    }
    Ok(())
}

#[test]
fn a_head_has_16384_bytes_at_most(rt: HostRuntime) -> Result<(), Fail> {
    for &(start, end, len, want) in HEADS_OF_BYTES {
        let head = filled(rt.alloc(), start, end, len)?;
        check(&rt, rt.alloc(), head.as_slice(), want)?;
    }
    Ok(())
}
