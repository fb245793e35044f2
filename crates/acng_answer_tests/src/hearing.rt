//! What all steps of an answer bring together, and the checks that the tables share.
ghost use Rattle.std.specs.Prelude.{◌≤◌, ◌^◌, length, IfOk};

use acng_answer::{AnswerReader, Step};
use std::alloc::Global;
use std::process::Abort;
use std::test::Fail;

/// The limit wherever none is named.
pub const LIMIT: u64 = 1 << 41;

pub const WHOLE: Option<Step> = Some(Step::Whole);

pub const EARLY: Option<Step> = Some(Step::Early);

/// An answer that goes on.
pub const OPEN: Option<Step> = None;

/// The text, whether the connection ended after it, the limit; and the head's status (0 where none is told), the body
/// and the end.
pub type Row = (&'static [u8], bool, u64, u16, &'static [u8], Option<Step>);

/// The text, the length from which its prefixes are over, and their end there; and the lengths, from the first up to
/// and without the second, at which the connection's end makes them whole.
pub type Prefixes = (&'static [u8], usize, Option<Step>, usize, usize);

/// What was heard of a text.
#[derive(Drop)]
pub struct Heard {
    pub status: u16,
    pub body: Vec<u8>,
    pub end: Option<Step>,
}

// Takes one piece of at most `cut` bytes, and says how many of them were used.
fn take_piece(
    reader: &mut AnswerReader,
    body: &mut Vec<u8>,
    left: &[u8],
    cut: usize,
) -> Result<usize, Fail>
    ensures { IfOk result (λ used. used ≤ length left.now) }
{
    if left.is_empty() || cut == 0 {
        return Ok(0);
    }
    let piece = if cut < left.len() { &left[..cut] } else { left };
    let (used, step) = reader.feed(piece);
    if let Step::Body { start, stop } = step {
        body.extend_from_slice(&piece[start..stop])?;
    }
    Ok(used)
}

/// Feeds the reader with a text in pieces of at most `cut` bytes until its answer is over, and gives the body.
pub fn feed_all(
    alloc: Global,
    reader: &mut AnswerReader,
    text: &[u8],
    cut: usize,
) -> Result<Vec<u8>, Fail> {
    let mut body = Vec::new(alloc);
    let mut left = text;
    for _ in 0..text.len() {
        if left.is_empty() || reader.over().is_some() {
            break;
        }
        let used = take_piece(reader, &mut body, left, cut)?;
        left = &left[used..];
    }
    Ok(body)
}

/// Hears a text in pieces of at most `cut` bytes.
pub fn hear(alloc: Global, text: &[u8], ended: bool, limit: u64, cut: usize) -> Result<Heard, Fail>
    requires { limit ≤ 2 ^ 41 }
{
    let mut reader = AnswerReader::with_limit(alloc, limit)?;
    let body = feed_all(alloc, &mut reader, text, cut)?;
    let end = if ended {
        Some(reader.stop())
    } else {
        reader.over()
    };
    let status = match reader.head() {
        Some(head) => head.status,
        None => 0,
    };
    Ok(Heard { status, body, end })
}

/// Hears each row in every cut.
pub fn expect_all(rt: &impl Abort, alloc: Global, rows: &[Row]) -> Result<(), Fail> {
    for row in rows {
        for cut in [1, 2, 7, 4096] {
            expect(rt, alloc, row, cut)?;
        }
    }
    Ok(())
}

fn expect(rt: &impl Abort, alloc: Global, row: &Row, cut: usize) -> Result<(), Fail> {
    let (text, ended, limit, status, body, end) = *row;
    assert!(rt; limit <= LIMIT);
    let heard = hear(alloc, text, ended, limit, cut)?;
    assert_eq!(rt;
        (heard.status, heard.body.as_slice(), heard.end),
        (status, body, end),
        "status, body and end of {text:?} in cuts of {cut}"
    );
    Ok(())
}

/// Hears every prefix of a text, with the connection ended after it and not.
pub fn expect_prefixes(rt: &impl Abort, alloc: Global, row: &Prefixes) -> Result<(), Fail> {
    let (text, over, end, from, to) = *row;
    for len in 0..text.len() + 1 {
        let prefix = &text[..len];
        let (open, ended) = if over <= len {
            (end, end)
        } else if from <= len && len < to {
            (OPEN, WHOLE)
        } else {
            (OPEN, EARLY)
        };
        expect_end(rt, alloc, prefix, false, open)?;
        expect_end(rt, alloc, prefix, true, ended)?;
    }
    Ok(())
}

// Hears a prefix, with the connection ended after it or not.
fn expect_end(
    rt: &impl Abort,
    alloc: Global,
    prefix: &[u8],
    ended: bool,
    end: Option<Step>,
) -> Result<(), Fail> {
    let heard = hear(alloc, prefix, ended, LIMIT, 7)?;
    let then = if ended { "ended" } else { "not ended" };
    assert_eq!(rt; heard.end, end, "{prefix:?}, {then}");
    Ok(())
}
