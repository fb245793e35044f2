//! The reading of a request's head.
//!
//! A block begins where the request before it ended, and goes through the first empty line after a line that isn't empty.
//! It is judged once it is whole, or 16,384 bytes of it are there; nothing is read from the link beyond that, since a
//! client may wait for its reply. A head of few fields that comes whole is read at once; else each byte is scanned once
//! for the block's end, in any cutting.
ghost use Rattle.std.specs.Prelude.{◌≡◌, ◌≢◌, ◌≤◌, ◌++◌, List, ℕ, Err, length, take, IfSome, IfOk};
ghost use Rattle.std.specs.Io.KnownBytes.{Keeps, IsAtEnd};
ghost use Rattle.acng_base.specs.Buffers.{Moves};
ghost use Rattle.acng_base.specs.Causes.{HasCause, Rose};
ghost use Rattle.acng_request.specs.Gots.{IfRequest, UnlessRequest, UnlessClientFault, OnEnded, OnClientFault, OnNoMemory};
ghost use Rattle.acng_request.specs.Gots.{IfRefused, GivesRequest, IsAsked, AskSome, ReadsWhileUndecided};
ghost use Rattle.acng_request.specs.Nexts.{next, read_block, Refuses, Ends};
ghost use Rattle.acng_request.specs.Spans.{Judges};
ghost use Rattle.acng_request.specs.Blocks.{IsBlock, IsBlockOf, IsHeadBlock, IsUndecidedUnlessOk, OnIncomplete, TakesBlock};

use crate::got::{Got, HeadFault, Request};
use crate::head::{FEW_FIELDS, Refusal, front_head, judge, judge_head};
use acng_base::{Failed, LineState, Link, Scan, Unread, scan_block};
use httparse::spans::{EMPTY_HEADER_SPAN, HeaderSpan, RequestSpans};
use std::alloc::Global;

/// The bytes of a connection that were read and not yet used. It has room for the longest head.
pub type HeadBuf = Unread<16_384>;

/// Reads the next request. The bytes of the link count from those that the buffer holds.
///
/// What the bytes ask is a function of them, `next`. It yields to a fault of the link, and to want of memory.
pub fn read_request<L: Link>(alloc: Global, link: &mut L, buf: &mut HeadBuf) -> Got
    ensures request { IfSome (L.left link.old) (λ bytes. IfRequest result (GivesRequest (buf.old ++ bytes) buf.new (L.left link.new))) }
    ensures form { IfRequest result IsAsked }

    // Each other answer comes only there. So each comes there, unless the link fails or memory is refused.
    ensures refused { IfSome (L.left link.old) (λ bytes. IfRefused result (λ fault. next (buf.old ++ bytes) ≡ Refuses fault)) }
    ensures ended { IfSome (L.left link.old) (λ bytes. OnEnded result (next (buf.old ++ bytes) ≡ Ends)) }
    ensures at_end { OnEnded result (IsAtEnd (L.left link.new)) }
    ensures client_fault { OnClientFault result (Rose (L.faults link.old) (L.faults link.new)) }
    ensures no_memory { IfSome (L.left link.old) (λ bytes. OnNoMemory result (AskSome (buf.old ++ bytes))) }

    // The link is read only while what is held decides nothing.
    ensures still { next buf.old ≢ Ends → link.new ≡ link.old }
    ensures reads { ReadsWhileUndecided L.Link link.old link.new buf.old }
    ensures undecided { OnClientFault result (next buf.new ≡ Ends) }

    // What stays. No byte is lost, and nothing is written.
    ensures moved { UnlessRequest result (Moves buf.old buf.new (L.left link.old) (L.left link.new)) }
    ensures faults { L.faults link.old ≤ L.faults link.new }
    ensures worked { UnlessClientFault result (L.faults link.new ≡ L.faults link.old) }
    ensures written { Keeps (L.written link.old) (L.written link.new) }
{
    let mut headers = [EMPTY_HEADER_SPAN; FEW_FIELDS];
    match read_block(link, buf, &mut headers) {
        Ok(Block::Head(head)) => take_head(alloc, buf, head, &headers),
        Ok(Block::Whole(len)) => take_block(alloc, buf, len),
        Ok(Block::TooLong) => Got::Refused(HeadFault::TooLarge),
        Ok(Block::Incomplete) => Got::Ended,
        Err(Failed) => Got::ClientFault,
    }
}

/// What the bytes held are.
#[derive(Clone, Copy, Debug, Drop)]
enum Block {
    /// The block at the front is this head.
    Head(RequestSpans),
    /// A block of so many bytes stands at the front.
    Whole(usize),
    /// The most bytes that are held have no whole block.
    TooLong,
    /// The link ended inside a block.
    Incomplete,
}

// Reads until a whole block is held, or the most bytes are, or the link has ended.
fn read_block<L: Link>(
    link: &mut L,
    buf: &mut HeadBuf,
    headers: &mut [HeaderSpan; FEW_FIELDS],
) -> Result<Block, Failed>
    ensures block { IfOk result (IsBlockOf buf.new headers.new) }
    ensures undecided { IsUndecidedUnlessOk buf.new result }
    ensures ended { IfOk result (λ block. OnIncomplete block (IsAtEnd (L.left link.new))) }
    ensures reads { ReadsWhileUndecided L.Link link.old link.new buf.old }
    ensures moved { Moves buf.old buf.new (L.left link.old) (L.left link.new) }
    ensures others { Keeps (L.written link.old) (L.written link.new) }
    ensures cause { HasCause (L.faults link.old) (L.faults link.new) result }
{
    let mut state = LineState::Before;
    let mut scanned = 0;
    'pieces: loop {
        if scanned == 0 {
            if let Some(head) = front_head(buf.as_bytes(), headers) {
                return Ok(Block::Head(head));
            }
        }
        match scan_block(state, &buf.as_bytes()[scanned..]) {
            Scan::End(len) => return Ok(Block::Whole(scanned + len)),
            Scan::Incomplete(next) => state = next,
        }
        scanned = buf.as_bytes().len();
        if buf.is_full() {
            return Ok(Block::TooLong);
        }
        if buf.fill(link)? == 0 {
            return Ok(Block::Incomplete);
        }
    }
}

// Takes the request of the head at the front of the buffer, or says why there is none.
fn take_head(
    alloc: Global,
    buf: &mut HeadBuf,
    head: RequestSpans,
    headers: &[HeaderSpan; FEW_FIELDS],
) -> Got
    requires { IsHeadBlock buf.old headers.now head }
    ensures { TakesBlock buf.old head.len buf.new result }
{
    let judged = judge_head(alloc, buf.as_bytes(), head, &headers[..head.headers]);
    take_judged(buf, head.len, judged)
}

// Takes the request of the block at the front of the buffer, or says why there is none.
fn take_block(alloc: Global, buf: &mut HeadBuf, len: usize) -> Got
    requires { IsBlock buf.old len }
    ensures { TakesBlock buf.old len buf.new result }
{
    let judged = judge(alloc, &buf.as_bytes()[..len]);
    take_judged(buf, len, judged)
}

// Takes the block at the front of the buffer, where it is a request.
fn take_judged(buf: &mut HeadBuf, len: usize, judged: Result<Request, Refusal>) -> Got
    requires block { IsBlock buf.old len }
    requires judged { Judges (read_block (take len buf.old)) judged }
    ensures { TakesBlock buf.old len buf.new result }
{
    match judged {
        Ok(request) => {
            buf.use_up(len);
            Got::Request(request)
        }
        Err(refusal) => refused(refusal),
    }
}

// The answer where a block is refused.
fn refused(refusal: Refusal) -> Got
    ensures { (bytes : List ℕ) (n : ℕ) → IsBlock bytes n → Judges (read_block (take n bytes)) (Err refusal)
        → TakesBlock bytes n bytes result }
{
    match refusal {
        Refusal::Head(fault) => Got::Refused(fault),
        Refusal::NoMemory => Got::NoMemory,
    }
}
