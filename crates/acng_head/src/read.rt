//! The reading of a record.
ghost use Rattle.std.specs.Prelude.{◌≡◌, ◌≢◌, ◌<◌, ◌≤◌, ◌^◌, None, Some, true, IsTrue, ◌↔◌, IfOk, IfSome, MatchOption};
ghost use Rattle.acng_base.specs.Moments.{moment_limit};
ghost use Rattle.acng_base.specs.Paths.{path_refusal};
ghost use Rattle.acng_head.specs.declared.head.Head.{Head};
ghost use Rattle.acng_head.specs.Records.{IsHead, IsRecordOf, values_of, cut_values};

use crate::head::Head;
use crate::lines::{Lines, cut};
use crate::values::{label, moment, number, tag};
use acng_base::{CachePath, MOST_BYTES, Moment, NoMemory, PathFault};
use std::alloc::Global;

/// Reads a record; None for every other text. The memory is that of the head's path.
pub fn read_head(alloc: Global, bytes: &[u8]) -> Result<Option<Head>, NoMemory>
    ensures head { IfOk result (λ o. MatchOption o ((h : Head) → IsRecordOf bytes.now h → ⊥) (IsRecordOf bytes.now)) }

    // A head has one record, so what was written is read back.
    ensures same { (h : Head) → IsRecordOf bytes.now h → IfOk result (λ o. o ≡ Some h) }
{
    let Some(lines) = cut(bytes) else {
        return Ok(None);
    };
    match CachePath::read(alloc, lines.path) {
        Ok(path) => Ok(head_of(path, &lines)),
        Err(fault) => match fault {
            PathFault::NoMemory => Err(NoMemory),
            _ => Ok(None),
        },
    }
}

// The head of this path that the lines tell.
fn head_of(path: CachePath, lines: &Lines) -> Option<Head>
    requires path { path_refusal path ≡ None }
    requires same { path ≡ lines.now.path.now }
    ensures { MatchOption result
        ((h : Head) → IsHead h → values_of h ≢ cut_values lines.now)
        (λ h. IsHead h × (values_of h ≡ cut_values lines.now)) }
{
    let size = number(lines.size)?;
    let label = label(lines.origin, size)?;
    let tag = tag(lines.tag)?;
    let modified = moment(lines.modified)?;
    let checked = number(lines.checked)?;
    let mark = moment(lines.mark)?;
    if !is_bounded(size, modified) {
        return None;
    }
    Some(Head {
        path,
        label,
        size,
        tag,
        modified,
        checked: Moment(checked),
        mark,
    })
}

fn is_bounded(size: u64, modified: Option<Moment>) -> bool
    ensures { IsTrue result ↔ ((size ≤ 2 ^ 41) × IfSome modified (λ m. m.0 < moment_limit)) }
{
    match modified {
        Some(Moment(seconds)) => size <= MOST_BYTES && seconds < Moment::LIMIT,
        None => size <= MOST_BYTES,
    }
}
