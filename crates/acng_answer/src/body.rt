//! Bodies that aren't in chunks: so many bytes, and to the connection's end (RFC 9112, section 6.3).
//!
//! The bytes are a range of the piece; nothing is copied.
ghost use Rattle.std.specs.Prelude.{◌≡◌, ℕ, ◌+◌, ◌⊎◌, ◌<◌, ◌≤◌, List, Option, Some, length};
ghost use Rattle.acng_answer.specs.Stages.{Fits, due_at, staged};
ghost use Rattle.acng_answer.specs.Reader.{Counts, KeepsTold, Progresses, TellsOn};
ghost use Rattle.acng_answer.specs.declared.step.AnswerHead.{AnswerHead};

use crate::stage::{End, Stage, bad};
use crate::step::Step;

/// The next bytes of a counted body, which is over with its last byte.
pub fn counted_step(left: u64, piece: &[u8]) -> (usize, Step, Stage)
    requires some { 0 < left }
    requires piece { 0 < length piece.now }
    ensures used { result.0 ≤ length piece.now }
    ensures progress { Progresses result.0 result.1 }
    ensures tells { (held : List ℕ) (at : ℕ) → TellsOn result.1 result.0 piece.now
        (staged (Stage.CountedBody left) held at) (staged result.2 held (at + result.0)) }

    ensures due { (told : Option AnswerHead) → Counts result.1 told (Some left) (due_at result.2) }
    ensures fits { (held : List ℕ) (at : ℕ) → Fits result.2 held at }
    ensures told { KeepsTold result.1 result.2 }
{
    if (piece.len() as u64) < left {
        let left = left - piece.len() as u64;
        body(piece.len(), Stage::CountedBody { left })
    } else {
        let due = Some(0);
        body(
            left as usize,
            Stage::Ended {
                end: End::Whole,
                due,
            },
        )
    }
}

/// The next bytes of a body to the connection's end; where a part is due, so many bytes of it.
pub fn open_step(part: Option<u64>, at: u64, piece: &[u8]) -> (usize, Step, Stage)
    requires { 0 < length piece.now }
    ensures used { result.0 ≤ length piece.now }
    ensures progress { Progresses result.0 result.1 }
    ensures tells { (held : List ℕ) → TellsOn result.1 result.0 piece.now
        (staged (Stage.OpenBody part) held at) (staged result.2 held (at + result.0)) }

    ensures due { (told : Option AnswerHead) → Counts result.1 told part (due_at result.2) }
    ensures fits { (held : List ℕ) → Fits result.2 held (at + result.0) }
    ensures told { KeepsTold result.1 result.2 }
{
    match part {
        None => body(piece.len(), Stage::OpenBody { part: None }),
        Some(0) => bad(0, at),
        Some(left) => {
            let count = fewer(left, piece.len());
            let part = Some(left - count as u64);
            body(count, Stage::OpenBody { part })
        }
    }
}

/// The lesser of both.
pub fn fewer(left: u64, len: usize) -> usize
    ensures one { (result ≡ left) ⊎ (result ≡ len) }
    ensures below { (result ≤ left) × (result ≤ len) }
{
    if left < len as u64 {
        left as usize
    } else {
        len
    }
}

/// A step that tells the first bytes of the piece.
pub fn body(count: usize, stage: Stage) -> (usize, Step, Stage)
    ensures { result ≡ (count, Step.Body 0 count, stage) }
{
    let step = Step::Body {
        start: 0,
        stop: count,
    };
    (count, step, stage)
}
