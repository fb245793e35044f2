//! The heads of replies: each status with each framing, byte for byte, from texts that were written by hand after RFC 9110
//! and RFC 9112.
ghost use Rattle.std.specs.Prelude.{◌≡◌, None, true};
ghost use Rattle.acng_request.specs.ReplyHeads.{is_reply_status, IsWritable};

use acng_base::{Moment, Tag};
use acng_request::{Framing, Kind, ReplyHead, reply_head};
use std::alloc::Global;
use std::process::Abort;
use std::test::Fail;

// The registered phrases of RFC 9110, section 15, RFC 6585, section 5, and RFC 4918, section 11.5.
const STATUSES: &[(u16, &str)] = &[
    (200, "HTTP/1.1 200 OK\r\n"),
    (206, "HTTP/1.1 206 Partial Content\r\n"),
    (304, "HTTP/1.1 304 Not Modified\r\n"),
    (400, "HTTP/1.1 400 Bad Request\r\n"),
    (403, "HTTP/1.1 403 Forbidden\r\n"),
    (404, "HTTP/1.1 404 Not Found\r\n"),
    (405, "HTTP/1.1 405 Method Not Allowed\r\n"),
    (416, "HTTP/1.1 416 Range Not Satisfiable\r\n"),
    (431, "HTTP/1.1 431 Request Header Fields Too Large\r\n"),
    (500, "HTTP/1.1 500 Internal Server Error\r\n"),
    (502, "HTTP/1.1 502 Bad Gateway\r\n"),
    (503, "HTTP/1.1 503 Service Unavailable\r\n"),
    (507, "HTTP/1.1 507 Insufficient Storage\r\n"),
];

// A framing of a line of text, and its lines.
const FRAMINGS: &[(Framing, &str)] = &[
    (
        Framing::Length(0),
        "Content-Type: text/plain\r\nContent-Length: 0\r\n",
    ),
    (
        Framing::Length(u64::MAX),
        "Content-Type: text/plain\r\nContent-Length: 18446744073709551615\r\n",
    ),
    (
        Framing::Chunked,
        "Content-Type: text/plain\r\nTransfer-Encoding: chunked\r\n",
    ),
    (Framing::ToEnd, "Content-Type: text/plain\r\n"),
];

const KINDS: &[(Kind, &str)] = &[
    (Kind::File, "Content-Type: application/octet-stream\r\n"),
    (Kind::Plain, "Content-Type: text/plain\r\n"),
    (Kind::Html, "Content-Type: text/html\r\n"),
];

// A status, its line, and the line that tells of the bytes from 2 through 4 of 9.
const PARTS: &[(u16, &str, &str)] = &[
    (200, "HTTP/1.1 200 OK\r\n", ""),
    (
        206,
        "HTTP/1.1 206 Partial Content\r\n",
        "Content-Range: bytes 2-4/9\r\n",
    ),
    (
        416,
        "HTTP/1.1 416 Range Not Satisfiable\r\n",
        "Content-Range: bytes */9\r\n",
    ),
];

// The date is the example of RFC 9110, section 5.6.7.
const TOLD: &str = "Last-Modified: Sun, 06 Nov 1994 08:49:37 GMT\r\nETag: \"abc\"\r\n";

const OCTETS: &str = "Content-Type: application/octet-stream\r\nContent-Length: 3\r\n";

// A status and a kind, the line of the first, those of the body, and those of the date and the tag.
const DATED: &[(u16, Kind, &str, &str, &str)] = &[
    (200, Kind::File, "HTTP/1.1 200 OK\r\n", OCTETS, TOLD),
    (
        206,
        Kind::File,
        "HTTP/1.1 206 Partial Content\r\n",
        OCTETS,
        TOLD,
    ),
    (304, Kind::File, "HTTP/1.1 304 Not Modified\r\n", "", TOLD),
    (404, Kind::File, "HTTP/1.1 404 Not Found\r\n", OCTETS, ""),
    (
        200,
        Kind::Html,
        "HTTP/1.1 200 OK\r\n",
        "Content-Type: text/html\r\nContent-Length: 3\r\n",
        "",
    ),
    (304, Kind::Plain, "HTTP/1.1 304 Not Modified\r\n", "", ""),
];

// The head of a file of three bytes, after which the connection stays.
fn file(status: u16) -> ReplyHead
    ensures status { result.status ≡ status }
    ensures modified { result.modified ≡ None }
{
    ReplyHead {
        status,
        framing: Framing::Length(3),
        kind: Kind::File,
        part: None,
        total: None,
        modified: None,
        tag: None,
        close: false,
    }
}

// The head of a line of text, after which the connection closes.
fn line(status: u16, framing: Framing) -> ReplyHead
    ensures status { result.status ≡ status }
    ensures modified { result.modified ≡ None }
{
    ReplyHead {
        framing,
        kind: Kind::Plain,
        close: true,
        ..file(status)
    }
}

fn is_known(status: u16) -> bool
    ensures { result ≡ is_reply_status status }
{
    matches!(
        status,
        200 | 206 | 304 | 400 | 403 | 404 | 405 | 416 | 431 | 500 | 502 | 503 | 507
    )
}

// The head is this text.
fn writes(rt: &impl Abort, head: &ReplyHead, want: &[u8]) -> Result<(), Fail>
    requires modified { IsWritable head.now.modified }
{
    let status = head.status;
    assert!(rt; is_known(status), "{status}");
    let mut out = [0; 1024];
    let len = reply_head(head, &mut out);
    assert_eq!(rt; &out[..len], want, "{status}");
    Ok(())
}

// The head is these pieces in a row.
fn writes_pieces(
    rt: &impl Abort,
    alloc: Global,
    head: &ReplyHead,
    pieces: [&str; 4],
) -> Result<(), Fail>
    requires modified { IsWritable head.now.modified }
{
    let mut want = Vec::new(alloc);
    for piece in pieces {
        want.extend_from_slice(piece.as_bytes())?;
    }
    writes(rt, head, want.as_slice())
}

// A head of the line in each framing.
fn writes_framings(rt: &impl Abort, alloc: Global, status: u16, first: &str) -> Result<(), Fail> {
    let allow = if status == 405 {
        "Allow: GET, HEAD\r\n"
    } else {
        ""
    };
    for &(framing, told) in FRAMINGS {
        let told = if status == 304 { "" } else { told };
        let pieces = [first, told, allow, "Connection: close\r\n\r\n"];
        writes_pieces(rt, alloc, &line(status, framing), pieces)?;
    }
    Ok(())
}

#[test]
fn each_status_with_each_framing(rt: HostRuntime) -> Result<(), Fail> {
    for &(status, first) in STATUSES {
        writes_framings(&rt, rt.alloc(), status, first)?;
    }
    Ok(())
}

#[test]
fn a_kind_is_told_and_a_connection_that_stays(rt: HostRuntime) -> Result<(), Fail> {
    for &(kind, told) in KINDS {
        let head = ReplyHead { kind, ..file(200) };
        let pieces = [
            "HTTP/1.1 200 OK\r\n",
            told,
            "Content-Length: 3\r\n",
            "Connection: keep-alive\r\n\r\n",
        ];
        writes_pieces(&rt, rt.alloc(), &head, pieces)?;
    }
    Ok(())
}

// The head of the bytes from 2 through 4 of 9.
fn part(status: u16) -> ReplyHead
    ensures modified { result.modified ≡ None }
{
    ReplyHead {
        part: Some((2, 4, 9)),
        total: Some(9),
        ..file(status)
    }
}

#[test]
fn a_part_is_told_on_206_and_its_want_on_416(rt: HostRuntime) -> Result<(), Fail> {
    for &(status, line, told) in PARTS {
        let pieces = [line, OCTETS, told, "Connection: keep-alive\r\n\r\n"];
        writes_pieces(&rt, rt.alloc(), &part(status), pieces)?;
    }
    Ok(())
}

// The head of a body with a date and a tag.
fn dated(status: u16, kind: Kind) -> ReplyHead
    ensures modified { IsWritable result.modified }
{
    ReplyHead {
        kind,
        modified: Some(Moment(784_111_777)),
        tag: Tag::read(b"\"abc\""),
        ..file(status)
    }
}

#[test]
fn date_and_tag_are_told_of_files_alone(rt: HostRuntime) -> Result<(), Fail> {
    for &(status, kind, line, body, told) in DATED {
        let pieces = [line, body, told, "Connection: keep-alive\r\n\r\n"];
        writes_pieces(&rt, rt.alloc(), &dated(status, kind), pieces)?;
    }
    Ok(())
}

// 30 + 40 + 38 + 85 + 46 + 264 + 24 + 2 bytes of the eight lines that stand on a 206.
#[test]
fn the_longest_head_has_529_bytes(rt: HostRuntime) {
    let mut tag = [b'a'; 256];
    tag[0] = b'"';
    tag[255] = b'"';
    let head = ReplyHead {
        framing: Framing::Length(u64::MAX),
        part: Some((u64::MAX, u64::MAX, u64::MAX)),
        modified: Some(Moment(253_402_300_799)),
        tag: Tag::read(&tag),
        ..file(206)
    };
    let mut out = [0; 1024];
    assert_eq!(rt; reply_head(&head, &mut out), 529);
}
