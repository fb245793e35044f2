//! A whole head block as a request, or why it is none (RFC 9112, sections 2 to 6).
//!
//! `httparse` reads the block. Its lines are counted only where it doesn't: a head that it reads has a field a line, and
//! at most 64 of them. A head of few fields is found at the front of what is held, before a block is looked for.
ghost use Rattle.std.specs.Prelude.{◌≡◌, ◌≤◌, ℕ, List, length, map, take, nat_le, cond, All, Some, IfSome, IfNone, IfOk, codes};
ghost use Rattle.httparse.specs.Grammar.{RequestHead, ReadsRequest};
ghost use Rattle.httparse.specs.Spans.{IsRequestWithin, IsRequestOf, IsHeaderWithin, IsWithin, header_bytes};
ghost use Rattle.acng_base.specs.Lines.{lines};
ghost use Rattle.acng_request.specs.Blocks.{IsHeadBlock};
ghost use Rattle.acng_request.specs.Nexts.{asked, is_served, judged, read_block};
ghost use Rattle.acng_request.specs.RequestFields.{value_of};
ghost use Rattle.acng_request.specs.RequestHeads.{head_of, inner_lines};
ghost use Rattle.acng_request.specs.Spans.{head_at, Judges};

use crate::field::{closes, has_body, part, since, value_of};
use crate::got::{HeadFault, Request};
use crate::line::count_inner_lines;
use acng_base::{MOST_FIELDS, NoMemory, Text};
use http::Method;
use httparse::Status;
use httparse::spans::{EMPTY_HEADER_SPAN, HeaderSpan, RequestSpans, parse_request};
use std::alloc::Global;

/// The most bytes of a method that is looked at: one of so many takes no memory, and those that are served are shorter.
const MOST_METHOD: usize = 15;

/// Why a block gives no request.
#[derive(Clone, Copy, Debug, Drop)]
pub enum Refusal {
    Head(HeadFault),
    NoMemory,
}

impl From<NoMemory> for Refusal {
    ghost use Rattle.acng_request.specs.declared.head.Refusal.{Refusal};

    ghost from_gives = { λ n r. r ≡ Refusal.NoMemory };

    fn from(_: NoMemory) -> Refusal {
        Refusal::NoMemory
    }
}

/// Reads a whole block.
pub fn judge(alloc: Global, block: &[u8]) -> Result<Request, Refusal>
    ensures { Judges (read_block block.now) result }
{
    let mut headers = [EMPTY_HEADER_SPAN; 64];
    match parse_head(block, &mut headers) {
        Some(head) => judge_head(alloc, block, head, &headers[..head.headers]),
        None => Err(Refusal::Head(fault_of(block))),
    }
}

// The head that a block is, as spans.
fn parse_head(block: &[u8], headers: &mut [HeaderSpan; 64]) -> Option<RequestSpans>
    ensures within { IfSome result (IsRequestWithin block.now headers.new) }
    ensures some { IfSome result (λ r. head_of block.now ≡ Some (head_at block.now r (take r.headers headers.new))) }
    ensures few { IfSome result (λ _. inner_lines (lines block.now) ≤ 64) }
    ensures none { IfNone result (inner_lines (lines block.now) ≤ 64 → head_of block.now ≡ None) }
{
    find_head(block, headers)
}

/// The most fields of a head that is found at the front of what is held.
pub const FEW_FIELDS: usize = 16;

/// The head of few fields that stands at the front of the bytes held.
pub fn front_head(bytes: &[u8], headers: &mut [HeaderSpan; FEW_FIELDS]) -> Option<RequestSpans>
    requires { length bytes.now ≤ 16384 }
    ensures { IfSome result (IsHeadBlock bytes.now headers.new) }
{
    find_head(bytes, headers)
}

// The head that the grammar finds at the front of the bytes.
fn find_head(block: &[u8], headers: &mut [HeaderSpan]) -> Option<RequestSpans>
    ensures within { IfSome result (IsRequestWithin block.now headers.new) }
    ensures some { IfSome result (IsRequestOf block.now headers.new) }
    ensures none { IfNone result ((h : RequestHead) (rest : List ℕ) → length h.fields ≤ length headers.old
        → ReadsRequest block.now h rest → ⊥) }
{
    match parse_request(block, headers) {
        Ok(Status::Complete(head)) => Some(head),
        _ => None,
    }
}

// Why a block is no head.
fn fault_of(block: &[u8]) -> HeadFault
    ensures { result ≡ cond (nat_le (inner_lines (lines block.now)) 64) HeadFault.BadHead HeadFault.TooLarge }
{
    if count_inner_lines(block) <= MOST_FIELDS {
        HeadFault::BadHead
    } else {
        HeadFault::TooLarge
    }
}

/// What the parts of a head say.
pub fn judge_head(
    alloc: Global,
    block: &[u8],
    head: RequestSpans,
    fields: &[HeaderSpan],
) -> Result<Request, Refusal>
    requires method { IsWithin (length block.now) head.method }
    requires target { IsWithin (length block.now) head.path }
    requires fields { All (IsHeaderWithin (length block.now)) fields.now }
    ensures { Judges (judged (head_at block.now head fields.now)) result }
{
    if !is_served(alloc, head.method.of(block)) {
        return Err(Refusal::Head(HeadFault::Method));
    }
    if has_body(block, fields) {
        return Err(Refusal::Head(HeadFault::HasBody));
    }
    Ok(request_of(alloc, block, head, fields)?)
}

// Whether the method is one that is taken.
fn is_served(alloc: Global, text: &[u8]) -> bool
    ensures { result ≡ is_served text.now }
{
    if MOST_METHOD < text.len() {
        return false;
    }
    match Method::from_bytes(alloc, text) {
        Ok(method) => method == Method::GET || method == Method::HEAD || method == Method::CONNECT,
        Err(_) => false,
    }
}

// The request that a head makes.
fn request_of(
    alloc: Global,
    block: &[u8],
    head: RequestSpans,
    fields: &[HeaderSpan],
) -> Result<Request, NoMemory>
    requires method { IsWithin (length block.now) head.method }
    requires target { IsWithin (length block.now) head.path }
    requires fields { All (IsHeaderWithin (length block.now)) fields.now }
    ensures { IfOk result (λ r. r ≡ asked (head_at block.now head fields.now)) }
{
    Ok(Request {
        method: Text::copy(alloc, head.method.of(block))?,
        target: Text::copy(alloc, head.path.of(block))?,
        part: part(block, fields),
        if_range: if_range(alloc, block, fields)?,
        since: since(block, fields),
        close: head.version == 0 || closes(block, fields),
        minor: head.version,
    })
}

// The text of `If-Range`.
fn if_range(alloc: Global, block: &[u8], fields: &[HeaderSpan]) -> Result<Option<Text>, NoMemory>
    requires { All (IsHeaderWithin (length block.now)) fields.now }
    ensures { IfOk result (λ text. text ≡ value_of (codes "if-range") (map (header_bytes block.now) fields.now)) }
{
    match value_of(block, fields, b"if-range") {
        Some(text) => Ok(Some(Text::copy(alloc, text)?)),
        None => Ok(None),
    }
}
