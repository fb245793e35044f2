//! A body in chunks (RFC 9112, section 7.1).
//!
//! A chunk is a size line that `httparse` reads, so many bytes, and CR LF. After the chunk of size 0 come field lines,
//! which are skipped, and an empty line. Where a part is due, a byte past it is bad, and so is an end before it. Bytes
//! of the body are ranges of the piece; a size line is copied only where it is cut.
ghost use Rattle.std.specs.Prelude.{◌≡◌, ℕ, ◌+◌, ◌⊎◌, ◌^◌, ◌<◌, ◌≤◌, ◌++◌, [], List, Option, Some, None, IfSome, IfNone, length, vec_capacity};
ghost use Rattle.httparse.specs.Grammar.{ChunkLine, ReadsChunkLine, HasNoChunkLine, chunk_size};
ghost use Rattle.acng_base.specs.SizeLines.{first_line_len, size_of};
ghost use Rattle.acng_base.specs.Answers.{is_due, part_after};
ghost use Rattle.acng_answer.specs.Sizes.{IsSized};
ghost use Rattle.acng_answer.specs.Stages.{Fits, due_at, staged};
ghost use Rattle.acng_answer.specs.Reader.{Counts, HasRoom, KeepsTold, Progresses, TellsOn};
ghost use Rattle.acng_answer.specs.declared.step.AnswerHead.{AnswerHead};

use crate::body::{body, fewer};
use crate::stage::{End, Stage, bad, hold};
use crate::step::Step;
use acng_base::{LineState, Scan, first_bytes, next_line_feed, scan_block};
use httparse::{Status, parse_chunk_size};

/// The most bytes of a size line.
const MOST_LINE: usize = 1024;

/// The most bytes of the lines after the last chunk.
const MOST_LINES: usize = 16_384;

/// The next bytes of a chunk of which so many are left, or the CR after them.
pub fn chunk_step(part: Option<u64>, left: u64, at: u64, piece: &[u8]) -> (usize, Step, Stage)
    requires { 0 < length piece.now }
    ensures used { result.0 ≤ length piece.now }
    ensures progress { Progresses result.0 result.1 }
    ensures tells { TellsOn result.1 result.0 piece.now
        (staged (Stage.Chunk part left) [] at) (staged result.2 [] (at + result.0)) }

    ensures due { (told : Option AnswerHead) → Counts result.1 told part (due_at result.2) }
    ensures fits { Fits result.2 [] (at + result.0) }
    ensures told { KeepsTold result.1 result.2 }
{
    if left == 0 {
        return cr_step(part, at, piece);
    }
    let count = allowed(part, left, piece.len());
    if count == 0 {
        return bad(0, at);
    }
    let left = left - count as u64;
    let part = less(part, count as u64);
    body(count, Stage::Chunk { part, left })
}

// The CR after a chunk's bytes.
fn cr_step(part: Option<u64>, at: u64, piece: &[u8]) -> (usize, Step, Stage)
    requires { 0 < length piece.now }
    ensures used { result.0 ≤ length piece.now }
    ensures progress { Progresses result.0 result.1 }
    ensures tells { TellsOn result.1 result.0 piece.now
        (staged (Stage.Chunk part 0) [] at) (staged result.2 [] (at + result.0)) }

    ensures due { (told : Option AnswerHead) → Counts result.1 told part (due_at result.2) }
    ensures fits { Fits result.2 [] (at + result.0) }
    ensures told { KeepsTold result.1 result.2 }
{
    if piece[0] == b'\r' {
        (1, Step::More, Stage::ChunkLf { part, start: at })
    } else {
        bad(0, at)
    }
}

/// The LF after a chunk's bytes; its CR has the place `start`.
pub fn lf_step(part: Option<u64>, start: u64, piece: &[u8]) -> (usize, Step, Stage)
    requires piece { 0 < length piece.now }
    requires place { start + 1 < 2 ^ 63 }
    ensures used { result.0 ≤ length piece.now }
    ensures progress { Progresses result.0 result.1 }
    ensures tells { TellsOn result.1 result.0 piece.now
        (staged (Stage.ChunkLf part start) [] (start + 1)) (staged result.2 [] (start + 1 + result.0)) }

    ensures due { (told : Option AnswerHead) → Counts result.1 told part (due_at result.2) }
    ensures fits { Fits result.2 [] (start + 1 + result.0) }
    ensures told { KeepsTold result.1 result.2 }
{
    if piece[0] == b'\n' {
        let start = start + 2;
        (1, Step::More, Stage::SizeLine { part, start })
    } else {
        bad(0, start + 1)
    }
}

// How many bytes of a piece are within the chunk and the part.
fn allowed(part: Option<u64>, left: u64, len: usize) -> usize
    requires left { 0 < left }
    requires len { 0 < len }
    ensures within { (result ≤ left) × (result ≤ len) × HasRoom part result }
    ensures some { (part ≡ Some 0) ⊎ (0 < result) }
{
    let count = fewer(left, len);
    match part {
        None => count,
        Some(most) => fewer(most, count),
    }
}

// What is left of a part.
fn less(part: Option<u64>, count: u64) -> Option<u64>
    requires { HasRoom part count }
    ensures { result ≡ part_after part count }
{
    match part {
        None => None,
        Some(most) => Some(most - count),
    }
}

/// The next bytes of a size line.
pub fn size_step(
    held: &mut Vec<u8>,
    part: Option<u64>,
    start: u64,
    piece: &[u8],
) -> (usize, Step, Stage)
    requires room { 16384 ≤ vec_capacity held.old }
    requires fits { Fits (Stage.SizeLine part start) held.old.items (start + length held.old.items) }
    requires piece { 0 < length piece.now }
    requires place { start + length held.old.items + length piece.now < 2 ^ 63 }
    ensures used { result.0 ≤ length piece.now }
    ensures progress { Progresses result.0 result.1 }
    ensures tells { let at = start + length held.old.items in TellsOn result.1 result.0 piece.now
        (staged (Stage.SizeLine part start) held.old.items at) (staged result.2 held.new.items (at + result.0)) }

    ensures due { (told : Option AnswerHead) → Counts result.1 told part (due_at result.2) }
    ensures room { vec_capacity held.old ≤ vec_capacity held.new }
    ensures fits { Fits result.2 held.new.items (start + length held.old.items + result.0) }
    ensures told { KeepsTold result.1 result.2 }
{
    let mine = first_bytes(piece, MOST_LINE - held.len());
    match line_end(mine) {
        Some(count) => {
            let next = start + (held.len() + count) as u64;
            let (step, stage) = sized(part, start, next, join_size(held, &mine[..count]));
            (count, step, stage)
        }
        None => {
            hold(held, mine);
            if held.len() < MOST_LINE {
                (mine.len(), Step::More, Stage::SizeLine { part, start })
            } else {
                bad(mine.len(), start)
            }
        }
    }
}

// How many bytes the first line has.
fn line_end(text: &[u8]) -> Option<usize>
    ensures len { result ≡ first_line_len text.now }
    ensures within { IfSome result (λ n. (0 < n) × (n ≤ length text.now)) }
{
    match next_line_feed(text) {
        Some(at) => Some(at + 1),
        None => None,
    }
}

// The size that a line gives of which these are the last bytes; nothing of it is held any more.
fn join_size(held: &mut Vec<u8>, last: &[u8]) -> Option<u64>
    requires { length held.old.items + length last.now ≤ vec_capacity held.old }
    ensures size { result ≡ size_of (held.old.items ++ last.now) }

    ensures clear { held.new.items ≡ [] }
    ensures room { vec_capacity held.old ≤ vec_capacity held.new }
{
    if held.is_empty() {
        return read_size(last);
    }
    hold(held, last);
    let size = read_size(held);
    held.clear();
    size
}

// The size that a line gives.
fn read_size(line: &[u8]) -> Option<u64>
    ensures { result ≡ size_of line.now }
{
    find_size(line)
}

// The size that the grammar finds in a line.
fn find_size(line: &[u8]) -> Option<u64>
    ensures some { IfSome result (λ size. (l : ChunkLine) × (rest : List ℕ) × ReadsChunkLine line.now l rest × (size ≡ chunk_size l)) }
    ensures none { IfNone result (HasNoChunkLine line.now) }
{
    match parse_chunk_size(line) {
        Ok(Status::Complete((_, size))) => Some(size),
        _ => None,
    }
}

// What comes after a size line, whose first byte has the place `start` and the byte after it the place `next`.
fn sized(part: Option<u64>, start: u64, next: u64, size: Option<u64>) -> (Step, Stage)
    ensures sized { IsSized part start next size result.0 result.1 }

    ensures due { (told : Option AnswerHead) → Counts result.0 told part (due_at result.1) }
    ensures told { KeepsTold result.0 result.1 }
{
    match size {
        Some(0) => last_sized(part, start, next),
        Some(left) => (Step::More, Stage::Chunk { part, left }),
        None => bad_size(start),
    }
}

// What comes after the size line of the last chunk: before the end of a part it is bad.
fn last_sized(part: Option<u64>, start: u64, next: u64) -> (Step, Stage)
    ensures sized { IsSized part start next (Some 0) result.0 result.1 }

    ensures due { (told : Option AnswerHead) → Counts result.0 told part (due_at result.1) }
    ensures told { KeepsTold result.0 result.1 }
{
    if has_due(part) {
        return bad_size(start);
    }
    let state = LineState::Between;
    let start = next;
    (Step::More, Stage::Trailer { part, state, start })
}

// Whether bytes of a part are left.
fn has_due(part: Option<u64>) -> bool
    ensures { result ≡ is_due part }
{
    match part {
        None => false,
        Some(left) => 0 < left,
    }
}

// The end at a size line whose first byte has this place.
fn bad_size(start: u64) -> (Step, Stage)
    ensures { result ≡ (Step.Bad start, Stage.Ended (End.Bad start) None) }
{
    let (_, step, stage) = bad(0, start);
    (step, stage)
}

/// The next bytes of the lines after the last chunk, whose first byte has the place `start`. Nothing is copied.
pub fn trailer_step(
    part: Option<u64>,
    state: LineState,
    start: u64,
    at: u64,
    piece: &[u8],
) -> (usize, Step, Stage)
    requires piece { 0 < length piece.now }
    requires fits { Fits (Stage.Trailer part state start) [] at }
    ensures used { result.0 ≤ length piece.now }
    ensures progress { Progresses result.0 result.1 }
    ensures tells { (held : List ℕ) → TellsOn result.1 result.0 piece.now
        (staged (Stage.Trailer part state start) held at) (staged result.2 held (at + result.0)) }

    ensures due { (told : Option AnswerHead) → Counts result.1 told part (due_at result.2) }
    ensures fits { (held : List ℕ) → Fits result.2 held (at + result.0) }
    ensures told { KeepsTold result.1 result.2 }
{
    let room = MOST_LINES - (at - start) as usize;
    let mine = first_bytes(piece, room);
    match scan_block(state, mine) {
        Scan::End(count) => {
            let end = End::Whole;
            (count, Step::Whole, Stage::Ended { end, due: part })
        }
        Scan::Incomplete(state) => {
            if mine.len() < room {
                let stage = Stage::Trailer { part, state, start };
                (mine.len(), Step::More, stage)
            } else {
                bad(mine.len(), start)
            }
        }
    }
}
