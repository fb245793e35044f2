//! How many lines a head block has.
ghost use Rattle.std.specs.Prelude.{◌≡◌, ◌≤◌, ◌==◌, List, ℕ, length};
ghost use Rattle.acng_base.specs.Cuts.{is_empty, without_cr};
ghost use Rattle.acng_base.specs.Lines.{lines};
ghost use Rattle.acng_request.specs.RequestHeads.{before_empty, inner_lines};

use acng_base::{next_line_feed, without_cr};

/// How many lines stand between a block's first line that isn't empty and the empty one that ends it.
pub fn count_inner_lines(block: &[u8]) -> usize
    ensures { result ≡ inner_lines (lines block.now) }
{
    count_lines(behind_first_line(block))
}

// What stands behind the first line that isn't empty.
fn behind_first_line(block: &[u8]) -> &[u8]
    ensures { before_empty (lines result.now) ≡ inner_lines (lines block.now) }
{
    let mut start = 0;
    while let Some(len) = next_line_feed(&block[start..]) {
        let line = &block[start..start + len];
        start += len + 1;
        if !is_empty_line(line) {
            return &block[start..];
        }
    }
    b""
}

// How many lines stand before the first empty one.
fn count_lines(text: &[u8]) -> usize
    ensures { result ≡ before_empty (lines text.now) }
{
    let mut count = 0;
    let mut start = 0;
    while let Some(len) = next_line_feed(&text[start..]) {
        if is_empty_line(&text[start..start + len]) {
            return count;
        }
        count += 1;
        start += len + 1;
    }
    count
}

fn is_empty_line(line: &[u8]) -> bool
    ensures { result ≡ is_empty (without_cr line.now) }
{
    without_cr(line).is_empty()
}
