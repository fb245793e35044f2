//! The reader of one answer.
//!
//! What always holds: the place of the next byte is at most the limit, the limit is at most 2^41 bytes, and the bytes
//! that are held are those of a head that hasn't ended, fewer than 16,384, or of a size line that hasn't ended, fewer
//! than 1,024. There is room for them from the start on, so a step takes no memory.
ghost use Rattle.std.specs.Prelude.{◌≡◌, ℕ, ◌+◌, ◌^◌, ◌<◌, ◌≤◌, Bool, List, [], Some, None, IfOk, IfSome, IfNone, length, true, false};
ghost use Rattle.acng_base.specs.Answers.{Open, nothing, reading, answer_limit};
ghost use Rattle.acng_answer.specs.Blocks.{IsBounded};
ghost use Rattle.acng_answer.specs.Stages.{without_interim};
ghost use Rattle.acng_answer.specs.Reader.{Counts, IsOver, KeepsHead, KeepsLocation, Progresses, Stops, Tells};

use crate::location::{Location, ROOM};
use crate::stage::{End, Stage, due_in, end_of, stage_step};
use crate::step::{AnswerHead, Step};
use acng_base::{LineState, MOST_BYTES, NoMemory, first_bytes};
use std::alloc::Global;
use std::marker::Model;

/// Reads an answer that comes in pieces. Contracts see it as a `State`; what it makes of all that may follow is
/// `rest` of that.
#[derive(Debug, Drop)]
pub struct AnswerReader {
    /// What came of a head or of a size line.
    held: Vec<u8>,
    limit: u64,
    /// The place of the next byte.
    at: u64,
    stage: Stage,
    head: Option<AnswerHead>,
    location: Location,
}

impl Model for AnswerReader {
    ghost use Rattle.std.specs.Prelude.{vec_capacity};
    ghost use Rattle.acng_answer.specs.Reader.{State, IsSound};

    ghost Value = { State };

    ghost view = { λ r. record {
      at = r.at;
      limit = r.limit;
      stage = r.stage;
      held = r.held.items;
      head = r.head;
      location = r.location;
    } };

    ghost invariant = { λ r. IsSound (vec_capacity r.held) r.at r.limit r.stage r.held.items r.head r.location };
}

impl AnswerReader {
    ghost use Rattle.acng_answer.specs.Reader.{due, rest};

    /// A reader with the limit 2^41.
    pub fn new(alloc: Global) -> Result<AnswerReader, NoMemory>
        ensures reads { IfOk result (λ r. (ended : Bool) (text : List ℕ)
            → rest r ended text ≡ without_interim (reading text ended answer_limit)) }
        ensures place { IfOk result (λ r. r.at ≡ 0) }
        ensures limit { IfOk result (λ r. r.limit ≡ answer_limit) }
        ensures head { IfOk result (λ r. (r.head ≡ None) × (r.location ≡ None) × (due r ≡ None)) }
    {
        AnswerReader::with_limit(alloc, MOST_BYTES)
    }

    /// A reader with a limit of its own: a byte at that place is bad.
    pub fn with_limit(alloc: Global, limit: u64) -> Result<AnswerReader, NoMemory>
        requires { limit ≤ answer_limit }
        ensures reads { IfOk result (λ r. (ended : Bool) (text : List ℕ)
            → rest r ended text ≡ without_interim (reading text ended limit)) }
        ensures place { IfOk result (λ r. r.at ≡ 0) }
        ensures limit { IfOk result (λ r. r.limit ≡ limit) }
        ensures head { IfOk result (λ r. (r.head ≡ None) × (r.location ≡ None) × (due r ≡ None)) }
    {
        Ok(AnswerReader {
            held: Vec::with_capacity(alloc, ROOM)?,
            limit,
            at: 0,
            stage: Stage::Heads {
                state: LineState::Before,
                start: 0,
            },
            head: None,
            location: Location::new(alloc)?,
        })
    }

    /// Takes the next piece, and answers how many of its bytes were used, and one step. The caller feeds the bytes that
    /// weren't used again. Once the answer has ended nothing changes any more.
    pub fn feed(&mut self, piece: &[u8]) -> (usize, Step)
        requires { 0 < length piece.now }
        ensures used { result.0 ≤ length piece.now }
        ensures progress { Progresses result.0 result.1 }
        ensures tells { Tells result.1 result.0 piece.now self.new.head self.new.location (rest self.old) (rest self.new) }
        ensures due { Counts result.1 self.new.head (due self.old) (due self.new) }
        ensures over { (step : Step) → IsOver step (rest self.old) → (result ≡ (0, step)) × (self.new ≡ self.old) }

        ensures place { self.new.at ≡ self.old.at + result.0 }
        ensures limit { self.new.limit ≡ self.old.limit }
        ensures within { (self.new.at ≤ self.new.limit) × (self.new.limit ≤ answer_limit) }
        ensures head { KeepsHead result.1 self.old.head self.new.head }
        ensures location { KeepsLocation result.1 self.old.location self.new.location }
    {
        if let Stage::Ended { end, due: _ } = self.stage {
            return (0, end.step());
        }
        let part = first_bytes(piece, (self.limit - self.at) as usize);
        if part.is_empty() {
            self.stage = Stage::Ended {
                end: End::Bad { at: self.limit },
                due: None,
            };
            return (0, Step::Bad { at: self.limit });
        }
        let (used, step, stage) = stage_step(
            self.stage,
            &mut self.held,
            &mut self.head,
            &mut self.location,
            self.at,
            part,
        );
        self.stage = stage;
        self.at += used as u64;
        (used, step)
    }

    /// Takes the connection's end: `Whole` or `Early`, or the `Bad` that came before.
    pub fn stop(&mut self) -> Step
        ensures step { Stops result (rest self.old true []) }
        ensures due { Counts result self.new.head (due self.old) (due self.new) }

        ensures over { IsOver result (rest self.new) }
        ensures place { self.new.at ≡ self.old.at }
        ensures limit { self.new.limit ≡ self.old.limit }
        ensures head { (self.new.head ≡ self.old.head) × (self.new.location ≡ self.old.location) }
    {
        let end = end_of(self.stage);
        self.stage = Stage::Ended {
            end,
            due: due_in(self.stage),
        };
        end.step()
    }

    /// The step that each further call tells; None while the answer hasn't ended. A caller reads no further from a
    /// connection once this is Some, since the other side may keep the connection open: a counted body is over with its
    /// last byte.
    pub fn over(&self) -> Option<Step>
        ensures over { IfSome result (λ step. IsOver step (rest self.now)) }
        ensures goes_on { IfNone result (rest self.now false [] ≡ nothing Open) }
    {
        match self.stage {
            Stage::Ended { end, due: _ } => Some(end.step()),
            _ => None,
        }
    }

    /// How many bytes of the body are still due, where the head said it: those of a 206's range, else the counted ones.
    pub fn due(&self) -> Option<u64>
        ensures { result ≡ due self.now }
    {
        due_in(self.stage)
    }

    /// What is told of the final head, once it is whole.
    pub fn head(&self) -> Option<&AnswerHead>
        ensures some { IfSome result (λ head. self.now.head ≡ Some head.now) }
        ensures none { IfNone result (self.now.head ≡ None) }
        ensures bounds { IfSome self.now.head IsBounded }
    {
        self.head.as_ref()
    }

    /// The bytes of its `Location`, where one stands.
    pub fn location(&self) -> Option<&[u8]>
        ensures some { IfSome result (λ bytes. self.now.location ≡ Some bytes.now) }
        ensures none { IfNone result (self.now.location ≡ None) }
    {
        self.location.get()
    }
}
