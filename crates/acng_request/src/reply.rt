//! The head of a reply (RFC 9112, section 4).
//!
//! A head has its lines in one order, each ended by CR and LF, and an empty line after the last. Which lines stand is a
//! matter of the status: a field of a `ReplyHead` that its status has no line for is passed over. So the text is a
//! function of the head, and of the text of its date, for every mix of fields. The text is at most 640 bytes long: the
//! longest tag has 256, a number 20 and a date 29. No memory is taken.
ghost use Rattle.std.specs.Prelude.{◌≡◌, ◌+◌, ◌≤◌, List, ℕ, ◌++◌, [], true, Some, take, length, unwrap_or, codes, decimal};
ghost use Rattle.http.specs.StatusCode.{reason_phrase};
ghost use Rattle.acng_request.specs.ReplyHeads.{is_reply_status, IsWritable, IsDateOf, has_file, status_line, kind_text};
ghost use Rattle.acng_request.specs.ReplyHeads.{type_line, framing_line, part_text, part_line, no_part_line, modified_line};
ghost use Rattle.acng_request.specs.ReplyHeads.{tag_line, allow_line, connection_line, ended, head_text};

use acng_base::{Moment, Tag};
use http::StatusCode;
use httpdate::HttpDate;
use itoa::Buffer;

/// How the end of a body is told (RFC 9112, section 6). None of them is told on 304, which has no body.
#[derive(Clone, Copy, Debug, PartialEq, Eq)]
pub enum Framing {
    /// The body has so many bytes.
    Length(u64),
    /// The body comes in chunks.
    Chunked,
    /// The body ends with the connection.
    ToEnd,
}

/// What a body is. It isn't told on 304.
#[derive(Clone, Copy, Debug, PartialEq, Eq)]
pub enum Kind {
    /// A file: `application/octet-stream`.
    File,
    /// A line of text: `text/plain`.
    Plain,
    /// A page: `text/html`.
    Html,
}

/// What the head of a reply says.
#[derive(Debug, Drop)]
pub struct ReplyHead {
    pub status: u16,
    pub framing: Framing,
    pub kind: Kind,
    /// The first and the last place of the part that is sent, and the length of the whole. It is told on 206 alone.
    pub part: Option<(u64, u64, u64)>,
    /// The length of the whole of which no part was asked. It is told on 416 alone.
    pub total: Option<u64>,
    /// When the file was last changed. It is told of files alone, on 200, 206 and 304.
    pub modified: Option<Moment>,
    /// The entity tag of the file. It is told of files alone, on 200, 206 and 304.
    pub tag: Option<Tag>,
    /// Whether the connection closes after the reply.
    pub close: bool,
}

/// Writes the head at the front of `out`, and answers its length. It always fits. What stands in `out` behind it has no
/// meaning.
pub fn reply_head(head: &ReplyHead, out: &mut [u8; 1024]) -> usize
    requires status { is_reply_status head.now.status ≡ true }
    requires modified { IsWritable head.now.modified }
    ensures text { (date : List ℕ) × IsDateOf head.now.modified date × (take result out.new ≡ head_text head.now date) }
    ensures fits { result ≤ 1024 }
    ensures short { result ≤ 640 }
{
    let date = date_of(head.modified);
    let status = head.status;
    let at = put_status(out, status);
    let at = put_type(out, at, status, head.kind);
    let at = put_framing(out, at, status, head.framing);
    let at = put_part(out, at, status, head.part);
    let at = put_no_part(out, at, status, head.total);
    let of_file = speaks_of_file(status, head.kind);
    let at = put_modified(out, at, of_file, head.modified, &date);
    let at = put_tag(out, at, of_file, &head.tag);
    let at = put_allow(out, at, status);
    let at = put_connection(out, at, head.close);
    put(out, at, b"\r\n")
}

// The text of a moment's date. Where there is no moment, nothing is written of it.
fn date_of(modified: Option<Moment>) -> [u8; 29]
    requires { IsWritable modified }
    ensures { IsDateOf modified result }
{
    let Some(moment) = modified else {
        return [0; 29];
    };
    let Ok(date) = HttpDate::from_unix_secs(moment.0) else {
        return [0; 29];
    };
    date.to_bytes()
}

// ---- the lines

// Each writes its line with its end from the place `at` on, or nothing, and answers the place after it. Their bounds
// add up to less than 640 bytes with the empty line, so each has room.

// The statuses of a file are written at once.
fn put_status(out: &mut [u8; 1024], status: u16) -> usize
    requires { is_reply_status status ≡ true }
    ensures text { take result out.new ≡ ended (status_line status) }
    ensures short { result ≤ 63 }
{
    match status {
        200 => put(out, 0, b"HTTP/1.1 200 OK\r\n"),
        206 => put(out, 0, b"HTTP/1.1 206 Partial Content\r\n"),
        304 => put(out, 0, b"HTTP/1.1 304 Not Modified\r\n"),
        _ => put_other_status(out, status),
    }
}

fn put_other_status(out: &mut [u8; 1024], status: u16) -> usize
    requires { is_reply_status status ≡ true }
    ensures text { take result out.new ≡ ended (status_line status) }
    ensures short { result ≤ 63 }
{
    let named = put(out, 0, b"HTTP/1.1 ");
    let told = put_number(out, named, u64::from(status));
    let spaced = put(out, told, b" ");
    let reasoned = put(out, spaced, reason(status));
    put(out, reasoned, b"\r\n")
}

fn put_type(out: &mut [u8; 1024], at: usize, status: u16, kind: Kind) -> usize
    requires { at ≤ 700 }
    ensures text { take result out.new ≡ take at out.old ++ ended (type_line status kind) }
    ensures short { result ≤ at + 40 }
{
    if status == 304 {
        return at;
    }
    put_kind(out, at, kind)
}

fn put_kind(out: &mut [u8; 1024], at: usize, kind: Kind) -> usize
    requires { at ≤ 700 }
    ensures text { take result out.new ≡ take at out.old ++ ended (Some (codes "Content-Type: " ++ kind_text kind)) }
    ensures short { result ≤ at + 40 }
{
    match kind {
        Kind::File => put(out, at, b"Content-Type: application/octet-stream\r\n"),
        Kind::Plain => put(out, at, b"Content-Type: text/plain\r\n"),
        Kind::Html => put(out, at, b"Content-Type: text/html\r\n"),
    }
}

fn put_framing(out: &mut [u8; 1024], at: usize, status: u16, framing: Framing) -> usize
    requires { at ≤ 700 }
    ensures text { take result out.new ≡ take at out.old ++ ended (framing_line status framing) }
    ensures short { result ≤ at + 38 }
{
    if status == 304 {
        return at;
    }
    match framing {
        Framing::Length(length) => put_number_line(out, at, b"Content-Length: ", length),
        Framing::Chunked => put(out, at, b"Transfer-Encoding: chunked\r\n"),
        Framing::ToEnd => at,
    }
}

fn put_part(out: &mut [u8; 1024], at: usize, status: u16, part: Option<(u64, u64, u64)>) -> usize
    requires { at ≤ 700 }
    ensures text { take result out.new ≡ take at out.old ++ ended (part_line status part) }
    ensures short { result ≤ at + 85 }
{
    if status != 206 {
        return at;
    }
    match part {
        Some((first, last, total)) => put_range(out, at, first, last, total),
        None => at,
    }
}

fn put_range(out: &mut [u8; 1024], at: usize, first: u64, last: u64, total: u64) -> usize
    requires { at ≤ 700 }
    ensures text { take result out.new ≡ take at out.old ++ ended (Some (part_text first last total)) }
    ensures short { result ≤ at + 85 }
{
    let named = put(out, at, b"Content-Range: bytes ");
    let begun = put_number(out, named, first);
    let dashed = put(out, begun, b"-");
    let stopped = put_number(out, dashed, last);
    put_number_line(out, stopped, b"/", total)
}

fn put_no_part(out: &mut [u8; 1024], at: usize, status: u16, total: Option<u64>) -> usize
    requires { at ≤ 700 }
    ensures text { take result out.new ≡ take at out.old ++ ended (no_part_line status total) }
    ensures short { result ≤ at + 45 }
{
    if status != 416 {
        return at;
    }
    match total {
        Some(total) => put_number_line(out, at, b"Content-Range: bytes */", total),
        None => at,
    }
}

fn put_modified(
    out: &mut [u8; 1024],
    at: usize,
    of_file: bool,
    modified: Option<Moment>,
    date: &[u8; 29],
) -> usize
    requires { at ≤ 700 }
    ensures text { take result out.new ≡ take at out.old ++ ended (modified_line of_file modified date.now) }
    ensures short { result ≤ at + 46 }
{
    if !of_file {
        return at;
    }
    match modified {
        Some(_) => put_line(out, at, b"Last-Modified: ", date),
        None => at,
    }
}

fn put_tag(out: &mut [u8; 1024], at: usize, of_file: bool, tag: &Option<Tag>) -> usize
    requires { at ≤ 700 }
    ensures text { take result out.new ≡ take at out.old ++ ended (tag_line of_file tag.now) }
    ensures short { result ≤ at + 264 }
{
    if !of_file {
        return at;
    }
    match tag {
        Some(tag) => put_line(out, at, b"ETag: ", tag.as_bytes()),
        None => at,
    }
}

fn put_allow(out: &mut [u8; 1024], at: usize, status: u16) -> usize
    requires { at ≤ 700 }
    ensures text { take result out.new ≡ take at out.old ++ ended (allow_line status) }
    ensures short { result ≤ at + 18 }
{
    if status != 405 {
        return at;
    }
    put(out, at, b"Allow: GET, HEAD\r\n")
}

fn put_connection(out: &mut [u8; 1024], at: usize, close: bool) -> usize
    requires { at ≤ 700 }
    ensures text { take result out.new ≡ take at out.old ++ ended (connection_line close) }
    ensures short { result ≤ at + 24 }
{
    if close {
        put(out, at, b"Connection: close\r\n")
    } else {
        put(out, at, b"Connection: keep-alive\r\n")
    }
}

// ---- words of the lines

// The reason phrase of a status.
fn reason(status: u16) -> &'static [u8]
    requires { is_reply_status status ≡ true }
    ensures text { result.now ≡ unwrap_or (reason_phrase status) [] }
    ensures short { length result.now ≤ 31 }
{
    let Ok(code) = StatusCode::from_u16(status) else {
        return b"";
    };
    match code.canonical_reason() {
        Some(reason) => reason.as_bytes(),
        None => b"",
    }
}

// Whether the reply speaks of a file at hand.
fn speaks_of_file(status: u16, kind: Kind) -> bool
    ensures { result ≡ has_file status kind }
{
    match kind {
        Kind::File => status == 200 || status == 206 || status == 304,
        Kind::Plain | Kind::Html => false,
    }
}

// ---- pieces of the lines

// A line of a name and a value.
fn put_line(out: &mut [u8; 1024], at: usize, name: &[u8], value: &[u8]) -> usize
    requires { at + length name.now + length value.now + 2 ≤ 1024 }
    ensures text { take result out.new ≡ take at out.old ++ ended (Some (name.now ++ value.now)) }
    ensures count { result ≡ at + length name.now + length value.now + 2 }
{
    let named = put(out, at, name);
    let told = put(out, named, value);
    put(out, told, b"\r\n")
}

// A line of a name and a number.
fn put_number_line(out: &mut [u8; 1024], at: usize, name: &[u8], number: u64) -> usize
    requires { at + length name.now + 22 ≤ 1024 }
    ensures text { take result out.new ≡ take at out.old ++ ended (Some (name.now ++ decimal number)) }
    ensures short { result ≤ at + length name.now + 22 }
{
    let mut digits = Buffer::new();
    put_line(out, at, name, digits.format(number).as_bytes())
}

fn put_number(out: &mut [u8; 1024], at: usize, number: u64) -> usize
    requires { at + 20 ≤ 1024 }
    ensures text { take result out.new ≡ take at out.old ++ decimal number }
    ensures short { result ≤ at + 20 }
{
    let mut digits = Buffer::new();
    put(out, at, digits.format(number).as_bytes())
}

fn put(out: &mut [u8; 1024], at: usize, piece: &[u8]) -> usize
    requires { at + length piece.now ≤ 1024 }
    ensures text { take result out.new ≡ take at out.old ++ piece.now }
    ensures count { result ≡ at + length piece.now }
{
    let stop = at + piece.len();
    out[at..stop].copy_from_slice(piece);
    stop
}
