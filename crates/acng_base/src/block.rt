//! The end of a head block in a text that comes in pieces.
//!
//! A line ends at LF, and a CR directly before it belongs to the end (RFC 9112, section 2.2). A block goes through the
//! first empty line after a line that isn't empty. Line feeds are found by `memchr`, and of the bytes between two of them
//! only a first one matters. A scan goes on from the state where an earlier one stopped, so each byte is looked at once, in
//! any cutting.
ghost use Rattle.std.specs.Prelude.{◌≡◌, Some, None, position};
ghost use Rattle.acng_base.specs.Cuts.{is_lf};
ghost use Rattle.acng_base.specs.Lines.{after_byte, head_block_len, section_len, state_after, FindsEnd, Scans};

use crate::bytes::find_byte;

/// Where a text stands in a block of lines: before its first line that isn't empty, inside a line, or between two
/// lines; and whether a CR stood at the front of the line at hand.
#[derive(Clone, Copy, Debug, PartialEq, Eq)]
pub enum LineState {
    Before,
    BeforeCr,
    Inside,
    Between,
    BetweenCr,
}

/// What a scan found.
#[derive(Clone, Copy, Debug, PartialEq, Eq)]
pub enum Scan {
    /// The block ends after so many bytes, at least one.
    End(usize),
    /// The block goes on past the text.
    Incomplete(LineState),
}

/// Looks for the end of the block in the next bytes of its text: from `Before`, through the first empty line after one
/// that isn't empty; from `Between`, through the first empty line.
#[tactic(auto, using(crate::proofs::BlockLines::head_from, crate::proofs::BlockLines::section_from))]
pub fn scan_block(state: LineState, part: &[u8]) -> Scan
    ensures scans { Scans state part.now result }
    ensures head { state ≡ LineState.Before → FindsEnd (head_block_len part.now) result }
    ensures section { state ≡ LineState.Between → FindsEnd (section_len part.now) result }
{
    scan_lines(state, part)
}

fn scan_lines(state: LineState, part: &[u8]) -> Scan
    ensures { Scans state part.now result }
{
    let mut now = state;
    let mut start = 0;
    while let Some(len) = find_byte(&part[start..], b'\n') {
        match after(after_piece(now, &part[start..start + len]), b'\n') {
            Some(next) => now = next,
            None => return Scan::End(start + len + 1),
        }
        start += len + 1;
    }
    Scan::Incomplete(after_piece(now, &part[start..]))
}

// Where the text stands after a piece without a line feed: two bytes of it are inside a line, whatever they are.
fn after_piece(state: LineState, piece: &[u8]) -> LineState
    requires { position is_lf piece.now ≡ None }
    ensures { state_after state piece.now ≡ Some result }
{
    match piece {
        [] => state,
        [byte] => after(state, *byte).unwrap_or(LineState::Inside),
        _ => LineState::Inside,
    }
}

// Where the text stands after one more byte; None where that byte ends the block.
fn after(state: LineState, byte: u8) -> Option<LineState>
    ensures { result ≡ after_byte state byte }
{
    match (state, byte) {
        (LineState::Before, b'\n') => Some(LineState::Before),
        (LineState::Before, b'\r') => Some(LineState::BeforeCr),
        (LineState::BeforeCr, b'\n') => Some(LineState::Before),
        (LineState::Inside, b'\n') => Some(LineState::Between),
        (LineState::Between, b'\n') => None,
        (LineState::Between, b'\r') => Some(LineState::BetweenCr),
        (LineState::BetweenCr, b'\n') => None,
        _ => Some(LineState::Inside),
    }
}
