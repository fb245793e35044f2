//! Lines of a configuration and of list files: what on them is a comment, and what says nothing.
ghost use Rattle.std.specs.Prelude.{◌≡◌, ◌&&◌, length, nat_lt, slice_index};
ghost use Rattle.acng_base.specs.Cuts.{is_blank};
ghost use Rattle.acng_conf.specs.Lines.{first_is, is_skipped, is_text_end, starts_comment, without_comment};

use acng_base::{Blank, Kind};

/// Whether this byte stands first.
pub fn first_is(b: u8, text: &[u8]) -> bool
    ensures { result ≡ first_is b text.now }
{
    !text.is_empty() && text[0] == b
}

/// Up to the first `#` right after a blank.
pub fn without_comment(line: &[u8]) -> &[u8]
    ensures { result.now ≡ without_comment line.now }
{
    let mut end = 0;
    while !is_end(&line[end..]) {
        end += 1;
    }
    &line[..end]
}

// Whether nothing is left, or a blank and a `#` stand first.
fn is_end(rest: &[u8]) -> bool
    ensures { result ≡ is_text_end rest.now }
{
    rest.is_empty() || is_comment(rest)
}

fn is_comment(rest: &[u8]) -> bool
    ensures { result ≡ starts_comment rest.now }
{
    is_blank_at(rest, 0) && first_is(b'#', &rest[1..])
}

fn is_blank_at(text: &[u8], at: usize) -> bool
    ensures { result ≡ (nat_lt at (length text.now) && is_blank (slice_index text.now at)) }
{
    at < text.len() && Blank::has(text[at])
}

/// Whether a line without its blanks says nothing.
pub fn is_skipped(line: &[u8]) -> bool
    ensures { result ≡ is_skipped line.now }
{
    line.is_empty() || first_is(b'#', line)
}
