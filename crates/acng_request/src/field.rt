//! The fields of a request's head (RFC 9110).
//!
//! A field is read only where it stands once; one that doesn't read is as if it weren't there. Names go by letters
//! without case (section 5.1). Nothing is copied: a field is a span of the head's block.
ghost use Rattle.std.specs.Prelude.{◌≡◌, codes, length, map, All, Some, option_map, option_and_then};
ghost use Rattle.std.specs.List.{list_any};
ghost use Rattle.std.specs.Str.{str_to_ascii_lowercase};
ghost use Rattle.httparse.specs.Spans.{IsHeaderWithin, header_bytes};
ghost use Rattle.acng_base.specs.Heads.{values};
ghost use Rattle.acng_request.specs.RequestFields.{value_of, part_of, places_of, part_from, moment_of, since, closes, says_close};
ghost use Rattle.acng_request.specs.RequestFields.{is_close, is_there, is_length, announces, has_body};
ghost use Rattle.acng_base.specs.Fields.{length_of};

use crate::got::Part;
use acng_base::{Moment, Named, find_byte, find_name, is_name, read_digits, read_length, trim};
use httparse::spans::HeaderSpan;
use httpdate::HttpDate;

/// The most digits of a place in a file, leading zeros among them. A number of so many is below 2^64.
const MOST_DIGITS: usize = 19;

/// The value of the field of a name, which is given in small letters, where it stands once.
pub fn value_of<'a>(block: &'a [u8], fields: &[HeaderSpan], name: &[u8]) -> Option<&'a [u8]>
    requires within { All (IsHeaderWithin (length block.now)) fields.now }
    requires small { str_to_ascii_lowercase name.now ≡ name.now }
    ensures { option_map (λ v. v.now) result ≡ value_of name.now (map (header_bytes block.now) fields.now) }
{
    match find_name(block, fields, name) {
        Named::Once(value) => Some(value.of(block)),
        _ => None,
    }
}

// Whether a field of the name stands there.
fn has_name(block: &[u8], fields: &[HeaderSpan], name: &[u8]) -> bool
    requires within { All (IsHeaderWithin (length block.now)) fields.now }
    requires small { str_to_ascii_lowercase name.now ≡ name.now }
    ensures { result ≡ is_there (values name.now (map (header_bytes block.now) fields.now)) }
{
    match find_name(block, fields, name) {
        Named::Absent => false,
        Named::Once(_) | Named::Repeated => true,
    }
}

/// Whether the fields announce a body (RFC 9112, section 6): a `Transfer-Encoding` does, and a `Content-Length` whose
/// value isn't nothing.
pub fn has_body(block: &[u8], fields: &[HeaderSpan]) -> bool
    requires { All (IsHeaderWithin (length block.now)) fields.now }
    ensures { result ≡ has_body (map (header_bytes block.now) fields.now) }
{
    has_name(block, fields, b"transfer-encoding") || has_length(block, fields)
}

// Whether there is a `Content-Length` whose value isn't nothing.
fn has_length(block: &[u8], fields: &[HeaderSpan]) -> bool
    requires { All (IsHeaderWithin (length block.now)) fields.now }
    ensures { result ≡ list_any is_length (map (header_bytes block.now) fields.now) }
{
    for field in fields {
        if is_length(block, field) {
            return true;
        }
    }
    false
}

fn is_length(block: &[u8], field: &HeaderSpan) -> bool
    requires { IsHeaderWithin (length block.now) field.now }
    ensures { result ≡ is_length (header_bytes block.now field.now) }
{
    is_name(field.name.of(block), b"content-length") && announces(field.value.of(block))
}

// Whether the value of a `Content-Length` is another length than nothing, or none.
fn announces(value: &[u8]) -> bool
    ensures { result ≡ announces (length_of value.now) }
{
    match read_length(value) {
        Some(count) => count != 0,
        None => true,
    }
}

/// The part that `Range` asks for (RFC 9110, section 14.1.2): `bytes=K-` or `bytes=K-M`, where K isn't above M.
pub fn part(block: &[u8], fields: &[HeaderSpan]) -> Option<Part>
    requires { All (IsHeaderWithin (length block.now)) fields.now }
    ensures { result ≡ option_and_then part_of (value_of (codes "range") (map (header_bytes block.now) fields.now)) }
{
    match value_of(block, fields, b"range") {
        Some(text) => part_of(text),
        None => None,
    }
}

fn part_of(text: &[u8]) -> Option<Part>
    ensures { result ≡ part_of text.now }
{
    let places = text.strip_prefix(b"bytes=".as_slice())?;
    places_of(places)
}

fn places_of(text: &[u8]) -> Option<Part>
    ensures { result ≡ places_of text.now }
{
    let dash = find_byte(text, b'-')?;
    let first = read_digits(&text[..dash], MOST_DIGITS)?;
    part_from(first, &text[dash + 1..])
}

fn part_from(first: u64, last: &[u8]) -> Option<Part>
    ensures { result ≡ part_from (Some first) last.now }
{
    if last.is_empty() {
        return Some(Part {
            from: first,
            to: None,
        });
    }
    match read_digits(last, MOST_DIGITS) {
        Some(last) if first <= last => Some(Part {
            from: first,
            to: Some(last),
        }),
        _ => None,
    }
}

/// The moment of `If-Modified-Since` (RFC 9110, section 13.1.3). It isn't read where there is an `If-None-Match`.
pub fn since(block: &[u8], fields: &[HeaderSpan]) -> Option<Moment>
    requires { All (IsHeaderWithin (length block.now)) fields.now }
    ensures { result ≡ since (map (header_bytes block.now) fields.now) }
{
    if has_name(block, fields, b"if-none-match") {
        return None;
    }
    match value_of(block, fields, b"if-modified-since") {
        Some(text) => moment_of(text),
        None => None,
    }
}

fn moment_of(text: &[u8]) -> Option<Moment>
    ensures { result ≡ moment_of text.now }
{
    match HttpDate::parse_ascii(text) {
        Ok(date) => Some(Moment(date.unix_secs())),
        Err(_) => None,
    }
}

/// Whether one of the words of `Connection` is `close` (RFC 9112, section 9.6).
pub fn closes(block: &[u8], fields: &[HeaderSpan]) -> bool
    requires { All (IsHeaderWithin (length block.now)) fields.now }
    ensures { result ≡ closes (value_of (codes "connection") (map (header_bytes block.now) fields.now)) }
{
    match value_of(block, fields, b"connection") {
        Some(value) => says_close(value),
        None => false,
    }
}

fn says_close(value: &[u8]) -> bool
    ensures { result ≡ says_close value.now }
{
    let mut start = 0;
    while let Some(len) = find_byte(&value[start..], b',') {
        if is_close(&value[start..start + len]) {
            return true;
        }
        start += len + 1;
    }
    is_close(&value[start..])
}

fn is_close(word: &[u8]) -> bool
    ensures { result ≡ is_close word.now }
{
    trim(word).eq_ignore_ascii_case(b"close")
}
