//! A block as the head of an answer (RFC 9112, section 4).
//!
//! A block is a head where `httparse` reads it as a response with at most 64 fields. A head of status 100 to 199 is
//! followed by another one; any other is final, and it is refused where its fields frame no body. `httparse` is asked
//! once a block.
ghost use Rattle.std.specs.Prelude.{◌≡◌, ◌+◌, ◌-◌, ◌<◌, ◌≤◌, ℕ, List, Some, IfSome, IfNone, All, length, map, option_map, cond, ◌==◌, ◌&&◌, nat_le, nat_lt, None};
ghost use Rattle.httparse.specs.Grammar.{ResponseHead, ReadsResponse};
ghost use Rattle.httparse.specs.Spans.{IsResponseWithin, IsResponseOf, IsHeaderWithin, header_bytes};
ghost use Rattle.httpdate.specs.Date.{parse_secs};
ghost use Rattle.acng_base.specs.Heads.{Head, head_of};
ghost use Rattle.acng_base.specs.Fields.{content_range, tag_of, modified_of, location_of};
ghost use Rattle.acng_base.specs.Framings.{stated_length};
ghost use Rattle.acng_answer.specs.Blocks.{IsFramedAs, IsHeadAt, IsJudged, IsRange};

use crate::framing::{Framed, frame};
use crate::location::Location;
use crate::range::read_range;
use crate::step::AnswerHead;
use acng_base::{Moment, Tag, find_only};
use httparse::Status;
use httparse::spans::{EMPTY_HEADER_SPAN, HeaderSpan, ResponseSpans, parse_response};
use httpdate::HttpDate;

/// Room for the most fields of a head.
type Spans = [HeaderSpan; 64];

/// What is made of a block.
#[derive(Debug, Drop)]
pub enum Judged {
    /// It isn't a head, or its fields frame no body.
    Refused,
    /// Another head follows.
    Interim,
    /// The final head: how it frames its body, and what is told of it.
    Final(Framed, AnswerHead),
}

/// Reads a whole block, and keeps the Location of a final head.
pub fn judge(block: &[u8], location: &mut Location) -> Judged
    requires short { length block.now ≤ 16384 }
    requires location { location.old ≡ None }
    ensures { IsJudged location.new result (head_of block.now) }
{
    let mut headers = [EMPTY_HEADER_SPAN; 64];
    match parse_head(block, &mut headers) {
        Some(head) => judge_fields(block, head.code, &headers[..head.headers], location),
        None => Judged::Refused,
    }
}

// The head that a block is, as spans.
fn parse_head(block: &[u8], headers: &mut Spans) -> Option<ResponseSpans>
    ensures some { IfSome result (λ r. IsResponseWithin block.now headers.new r × IsHeadAt block.now headers.new r (head_of block.now)) }
    ensures none { IfNone result (head_of block.now ≡ None) }
{
    find_head(block, headers)
}

// The head that the grammar finds at the front of a block.
fn find_head(block: &[u8], headers: &mut Spans) -> Option<ResponseSpans>
    ensures some { IfSome result (λ r. IsResponseWithin block.now headers.new r × IsResponseOf block.now headers.new r) }
    ensures none { IfNone result ((h : ResponseHead) (rest : List ℕ) → length h.fields ≤ 64 → ReadsResponse block.now h rest → ⊥) }
{
    match parse_response(block, headers) {
        Ok(Status::Complete(head)) => Some(head),
        _ => None,
    }
}

// What status and fields say.
fn judge_fields(block: &[u8], status: u16, fields: &[HeaderSpan], location: &mut Location) -> Judged
    requires short { length block.now ≤ 16384 }
    requires within { All (IsHeaderWithin (length block.now)) fields.now }
    requires status { status < 1000 }
    requires location { location.old ≡ None }
    ensures { IsJudged location.new result (Some (record { status = status; fields = map (header_bytes block.now) fields.now })) }
{
    if is_interim(status) {
        return Judged::Interim;
    }
    let range = find_range(block, fields);
    let Some(framed) = frame(block, fields, status, part_of(status, range)) else {
        return Judged::Refused;
    };
    let told = AnswerHead {
        status,
        length: count_of(framed),
        range,
        tag: find_tag(block, fields),
        modified: find_date(block, fields),
    };
    keep_location(block, fields, location);
    Judged::Final(framed, told)
}

// Keeps the Location, where one stands.
fn keep_location(block: &[u8], fields: &[HeaderSpan], location: &mut Location)
    requires short { length block.now ≤ 16384 }
    requires within { All (IsHeaderWithin (length block.now)) fields.now }
    requires location { location.old ≡ None }
    ensures { (status : ℕ) → location.new ≡ location_of (record { status = status; fields = map (header_bytes block.now) fields.now }) }
{
    if let Some(value) = find_only(block, fields, b"location") {
        location.set(value.of(block));
    }
}

// Whether another head follows one of this status (RFC 9110, section 15.2).
fn is_interim(status: u16) -> bool
    ensures { result ≡ (nat_le 100 status && nat_lt status 200) }
{
    100 <= status && status < 200
}

// How many bytes the body of a 206 with this range has.
fn part_of(status: u16, range: Option<(u64, u64, u64)>) -> Option<u64>
    requires { IfSome range IsRange }
    ensures { result ≡ cond (status == 206) (option_map (λ r. r.1 + 1 - r.0) range) None }
{
    match range {
        Some((first, last, _)) if status == 206 => Some(last + 1 - first),
        _ => None,
    }
}

// The count of a body that is counted.
fn count_of(framed: Framed) -> Option<u64>
    ensures { (h : Head) → IsFramedAs h framed → result ≡ stated_length h }
{
    match framed {
        Framed::Counted(count) => Some(count),
        _ => None,
    }
}

fn find_range(block: &[u8], fields: &[HeaderSpan]) -> Option<(u64, u64, u64)>
    requires { All (IsHeaderWithin (length block.now)) fields.now }
    ensures range { (status : ℕ) → result ≡ content_range (record { status = status; fields = map (header_bytes block.now) fields.now }) }
    ensures within { IfSome result IsRange }
{
    match find_only(block, fields, b"content-range") {
        Some(value) => read_range(value.of(block)),
        None => None,
    }
}

fn find_tag(block: &[u8], fields: &[HeaderSpan]) -> Option<Tag>
    requires { All (IsHeaderWithin (length block.now)) fields.now }
    ensures { (status : ℕ) → result ≡ tag_of (record { status = status; fields = map (header_bytes block.now) fields.now }) }
{
    match find_only(block, fields, b"etag") {
        Some(value) => Tag::read(value.of(block)),
        None => None,
    }
}

fn find_date(block: &[u8], fields: &[HeaderSpan]) -> Option<Moment>
    requires { All (IsHeaderWithin (length block.now)) fields.now }
    ensures date { (status : ℕ) → result ≡ modified_of (record { status = status; fields = map (header_bytes block.now) fields.now }) }
    ensures within { IfSome result (λ m. m.0 < 253402300800) }
{
    match find_only(block, fields, b"last-modified") {
        Some(value) => read_date(value.of(block)),
        None => None,
    }
}

// The moment that a date writes.
fn read_date(text: &[u8]) -> Option<Moment>
    ensures date { result ≡ option_map (λ s. record { 0 = s }) (parse_secs text.now) }
    ensures within { IfSome result (λ m. m.0 < 253402300800) }
{
    match HttpDate::parse_ascii(text) {
        Ok(date) => Some(Moment(date.unix_secs())),
        Err(_) => None,
    }
}
