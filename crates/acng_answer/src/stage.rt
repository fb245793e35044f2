//! The stages of an answer, and what each makes of the next bytes.
//!
//! ```text
//! Heads --Head--> CountedBody --Body--> Ended(Whole)
//!   |  \--Head--> OpenBody --Body--> OpenBody
//!   |  \--Head--> SizeLine --> Chunk --Body--> Chunk --> ChunkLf --> SizeLine
//!   |                 \------> Trailer --> Ended(Whole)
//!   \--More--> Heads (after a head of status 100 to 199)
//! ```
//!
//! A head of a body of no bytes goes to `Ended(Whole)` at once. The connection's end, a byte or block that no answer has
//! and the limit go from every stage to `Ended`. Bytes of a head are looked at once, and copied only where it is cut.
ghost use Rattle.std.specs.Prelude.{◌≡◌, ℕ, ◌+◌, ◌-◌, ◌^◌, ◌<◌, ◌≤◌, Bool, List, [], ◌++◌, Option, Some, None, IfSome, length, take, true, vec_capacity};
ghost use Rattle.acng_base.specs.Heads.{Head, head_of};
ghost use Rattle.acng_base.specs.Answers.{body as body_read};
ghost use Rattle.acng_base.specs.Framings.{Framing, framing, part_len, due_of};
ghost use Rattle.acng_answer.specs.Blocks.{IsBounded, IsFramedAs, IsJudged};
ghost use Rattle.acng_answer.specs.Stages.{EndsDone, Fits, FitsHead, at_end, due_at, outcome_of, staged};
ghost use Rattle.acng_answer.specs.declared.step.AnswerHead.{AnswerHead};
ghost use Rattle.acng_answer.specs.Reader.{Counts, KeepsHead, KeepsLocation, Progresses, Tells, step_of};

use crate::body::{counted_step, open_step};
use crate::chunked::{chunk_step, lf_step, size_step, trailer_step};
use crate::framing::Framed;
use crate::head::{Judged, judge};
use crate::location::{Location, ROOM};
use crate::step::{AnswerHead, Step};
use acng_base::{LineState, Scan, first_bytes, scan_block};

/// How an answer ended.
#[derive(Clone, Copy, Debug, Drop)]
pub enum End {
    Whole,
    Early,
    Bad { at: u64 },
}

/// What comes next. A part is how many bytes of a 206's range are left; `start` is the place of a block's first byte.
#[derive(Clone, Copy, Debug, Drop)]
pub enum Stage {
    /// The bytes of a head.
    Heads {
        state: LineState,
        start: u64,
    },
    /// So many bytes of the body, at least one.
    CountedBody {
        left: u64,
    },
    /// The body to the connection's end.
    OpenBody {
        part: Option<u64>,
    },
    /// The size line of a chunk.
    SizeLine {
        part: Option<u64>,
        start: u64,
    },
    /// So many bytes of a chunk, and CR LF.
    Chunk {
        part: Option<u64>,
        left: u64,
    },
    /// The LF after a chunk; its CR has the place `start`.
    ChunkLf {
        part: Option<u64>,
        start: u64,
    },
    /// The lines after the last chunk.
    Trailer {
        part: Option<u64>,
        state: LineState,
        start: u64,
    },
    /// Nothing; so many bytes of the body were still due.
    Ended {
        end: End,
        due: Option<u64>,
    },
}

impl End {
    pub fn step(self) -> Step
        ensures { result ≡ step_of self }
    {
        match self {
            End::Whole => Step::Whole,
            End::Early => Step::Early,
            End::Bad { at } => Step::Bad { at },
        }
    }
}

/// What the connection's end means in a stage.
pub fn end_of(stage: Stage) -> End
    ensures outcome { outcome_of result ≡ at_end stage true }
    ensures done { (held : List ℕ) (at : ℕ) → Fits stage held at → EndsDone result (due_at stage) }
{
    match stage {
        Stage::Ended { end, due: _ } => end,
        Stage::OpenBody { part: None } => End::Whole,
        Stage::OpenBody { part: Some(0) } => End::Whole,
        _ => End::Early,
    }
}

/// The bytes of the body that are still due.
pub fn due_in(stage: Stage) -> Option<u64>
    ensures { result ≡ due_at stage }
{
    match stage {
        Stage::Heads { state: _, start: _ } => None,
        Stage::CountedBody { left } => Some(left),
        Stage::OpenBody { part } => part,
        Stage::SizeLine { part, start: _ } => part,
        Stage::Chunk { part, left: _ } => part,
        Stage::ChunkLf { part, start: _ } => part,
        Stage::Trailer {
            part,
            state: _,
            start: _,
        } => part,
        Stage::Ended { end: _, due } => due,
    }
}

/// The next bytes in a stage.
pub fn stage_step(
    stage: Stage,
    held: &mut Vec<u8>,
    head: &mut Option<AnswerHead>,
    location: &mut Location,
    at: u64,
    piece: &[u8],
) -> (usize, Step, Stage)
    requires room { 16384 ≤ vec_capacity held.old }
    requires fits { Fits stage held.old.items at }
    requires told { FitsHead stage head.old location.old }
    requires bounds { IfSome head.old IsBounded }
    requires piece { 0 < length piece.now }
    requires place { at + length piece.now < 2 ^ 63 }
    ensures used { result.0 ≤ length piece.now }
    ensures progress { Progresses result.0 result.1 }
    ensures tells { Tells result.1 result.0 piece.now head.new location.new
        (staged stage held.old.items at) (staged result.2 held.new.items (at + result.0)) }

    ensures due { Counts result.1 head.new (due_at stage) (due_at result.2) }
    ensures head { KeepsHead result.1 head.old head.new }
    ensures location { KeepsLocation result.1 location.old location.new }
    ensures bounds { IfSome head.new IsBounded }
    ensures room { vec_capacity held.old ≤ vec_capacity held.new }
    ensures fits { Fits result.2 held.new.items (at + result.0) }
    ensures told { FitsHead result.2 head.new location.new }
{
    match stage {
        Stage::Heads { state, start } => head_step(held, head, location, state, start, piece),
        Stage::CountedBody { left } => counted_step(left, piece),
        Stage::OpenBody { part } => open_step(part, at, piece),
        Stage::SizeLine { part, start } => size_step(held, part, start, piece),
        Stage::Chunk { part, left } => chunk_step(part, left, at, piece),
        Stage::ChunkLf { part, start } => lf_step(part, start, piece),
        Stage::Trailer { part, state, start } => trailer_step(part, state, start, at, piece),
        Stage::Ended { end, due: _ } => (0, end.step(), stage),
    }
}

// The next bytes of a head.
fn head_step(
    held: &mut Vec<u8>,
    head: &mut Option<AnswerHead>,
    location: &mut Location,
    state: LineState,
    start: u64,
    piece: &[u8],
) -> (usize, Step, Stage)
    requires room { 16384 ≤ vec_capacity held.old }
    requires fits { Fits (Stage.Heads state start) held.old.items (start + length held.old.items) }
    requires told { (head.old ≡ None) × (location.old ≡ None) }
    requires piece { 0 < length piece.now }
    requires place { start + length held.old.items + length piece.now < 2 ^ 63 }
    ensures used { result.0 ≤ length piece.now }
    ensures progress { Progresses result.0 result.1 }
    ensures tells { let at = start + length held.old.items in Tells result.1 result.0 piece.now head.new location.new
        (staged (Stage.Heads state start) held.old.items at) (staged result.2 held.new.items (at + result.0)) }

    ensures due { Counts result.1 head.new None (due_at result.2) }
    ensures head { KeepsHead result.1 head.old head.new }
    ensures location { KeepsLocation result.1 location.old location.new }
    ensures bounds { IfSome head.new IsBounded }
    ensures room { vec_capacity held.old ≤ vec_capacity held.new }
    ensures fits { Fits result.2 held.new.items (start + length held.old.items + result.0) }
    ensures told { FitsHead result.2 head.new location.new }
{
    let part = first_bytes(piece, ROOM - held.len());
    match scan_block(state, part) {
        Scan::End(count) => {
            let next = start + (held.len() + count) as u64;
            match judge_joined(held, location, &part[..count]) {
                Judged::Refused => bad(count, start),
                Judged::Interim => {
                    let state = LineState::Before;
                    (count, Step::More, Stage::Heads { state, start: next })
                }
                Judged::Final(framed, told) => {
                    *head = Some(told);
                    (count, Step::Head, first_stage(framed, next))
                }
            }
        }
        Scan::Incomplete(state) => {
            hold(held, part);
            if held.len() < ROOM {
                (part.len(), Step::More, Stage::Heads { state, start })
            } else {
                bad(part.len(), start)
            }
        }
    }
}

// What is made of the block of which these are the last bytes; nothing of it is held any more.
fn judge_joined(held: &mut Vec<u8>, location: &mut Location, last: &[u8]) -> Judged
    requires room { length held.old.items + length last.now ≤ 16384 }
    requires capacity { 16384 ≤ vec_capacity held.old }
    requires location { location.old ≡ None }
    ensures judged { IsJudged location.new result (head_of (held.old.items ++ last.now)) }

    ensures clear { held.new.items ≡ [] }
    ensures room { vec_capacity held.old ≤ vec_capacity held.new }
{
    if held.is_empty() {
        return judge(last, location);
    }
    hold(held, last);
    let judged = judge(held, location);
    held.clear();
    judged
}

// What comes after a final head; its body begins at this place.
fn first_stage(framed: Framed, at: u64) -> Stage
    ensures reads { (h : Head) (f : Framing) → IsFramedAs h framed → framing h ≡ Some f → (ended : Bool) (text : List ℕ)
        → body_read f (part_len h) at ended text ≡ staged result [] at ended text }
    ensures due { (h : Head) → IsFramedAs h framed → due_at result ≡ due_of h }
    ensures fits { Fits result [] at }
    ensures told { (head : AnswerHead) (location : Option (List ℕ)) → FitsHead result (Some head) location }
{
    match framed {
        Framed::Empty => Stage::Ended {
            end: End::Whole,
            due: None,
        },
        Framed::Counted(0) => Stage::Ended {
            end: End::Whole,
            due: Some(0),
        },
        Framed::Counted(left) => Stage::CountedBody { left },
        Framed::ToEnd(part) => Stage::OpenBody { part },
        Framed::Chunks(part) => Stage::SizeLine { part, start: at },
    }
}

/// The end at a byte, or at a block that begins at the place, that no answer has.
pub fn bad(used: usize, at: u64) -> (usize, Step, Stage)
    ensures { result ≡ (used, Step.Bad at, Stage.Ended (End.Bad at) None) }
{
    let end = End::Bad { at };
    (used, end.step(), Stage::Ended { end, due: None })
}

/// Adds bytes for which there is room.
pub fn hold(held: &mut Vec<u8>, part: &[u8])
    requires { length held.old.items + length part.now ≤ vec_capacity held.old }
    ensures items { held.new.items ≡ held.old.items ++ part.now }
    ensures room { vec_capacity held.old ≤ vec_capacity held.new }
{
    held.extend_from_slice(part).unwrap();
}
