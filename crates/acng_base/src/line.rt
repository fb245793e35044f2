//! Lines and words: what the ends of a text lose, and where its next line or word ends.
ghost use Rattle.std.specs.Prelude.{◌≡◌, ◌≤◌, ◌<◌, ◌++◌, ◌&&◌, Bool, ℕ, IfOk, OnOk, length, position, nat_lt, slice_index, not};
ghost use Rattle.acng_base.specs.Cuts.{is_blank, is_blank_or_cr, is_cr, is_lf, is_before, drop_end, drop_front, trim, trim_by};
ghost use Rattle.acng_base.specs.Cuts.{some_word, without_cr, words, words_by};

use crate::bytes::find_byte;
use crate::fault::NoMemory;
use crate::text::Text;
use std::alloc::Global;

/// A kind of bytes.
pub trait Kind {
    /// The test that the bytes of the kind pass.
    ghost passes: { ℕ → Bool };

    fn has(byte: u8) -> bool
        ensures { result ≡ passes byte };
}

/// Spaces and tabs.
#[derive(Clone, Copy, Debug)]
pub struct Blank;

impl Kind for Blank {
    ghost passes = { is_blank };

    fn has(byte: u8) -> bool {
        byte == b' ' || byte == b'\t'
    }
}

/// Spaces, tabs and carriage returns.
#[derive(Clone, Copy, Debug)]
pub struct BlankOrCr;

impl Kind for BlankOrCr {
    ghost passes = { is_blank_or_cr };

    fn has(byte: u8) -> bool {
        byte == b' ' || byte == b'\t' || byte == b'\r'
    }
}

/// Without the blanks at both ends.
pub fn trim(text: &[u8]) -> &[u8]
    ensures { result.now ≡ trim text.now }
{
    trim_by::<Blank>(text)
}

/// Without the bytes of a kind at both ends.
pub fn trim_by<K: Kind>(text: &[u8]) -> &[u8]
    ensures { result.now ≡ trim_by K.passes text.now }
{
    trim_end_by::<K>(trim_start_by::<K>(text))
}

/// Without the bytes of a kind at the front.
pub fn trim_start_by<K: Kind>(text: &[u8]) -> &[u8]
    ensures { result.now ≡ drop_front K.passes text.now }
{
    let mut start = 0;
    while has_at::<K>(text, start) {
        start += 1;
    }
    &text[start..]
}

fn has_at<K: Kind>(text: &[u8], at: usize) -> bool
    ensures { result ≡ (nat_lt at (length text.now) && K.passes (slice_index text.now at)) }
{
    at < text.len() && K::has(text[at])
}

/// Without the bytes of a kind at the end.
pub fn trim_end_by<K: Kind>(text: &[u8]) -> &[u8]
    ensures { result.now ≡ drop_end K.passes text.now }
{
    let mut end = text.len();
    while has_before::<K>(text, end) {
        end -= 1;
    }
    &text[..end]
}

fn has_before<K: Kind>(text: &[u8], end: usize) -> bool
    requires { end ≤ length text.now }
    ensures { result ≡ is_before K.passes text.now end }
{
    end > 0 && K::has(text[end - 1])
}

/// Without a carriage return at the end.
pub fn without_cr(line: &[u8]) -> &[u8]
    ensures { result.now ≡ without_cr line.now }
{
    if ends_with_cr(line) {
        &line[..line.len() - 1]
    } else {
        line
    }
}

fn ends_with_cr(line: &[u8]) -> bool
    ensures { result ≡ is_before is_cr line.now (length line.now) }
{
    !line.is_empty() && line[line.len() - 1] == b'\r'
}

/// The offset of the next line feed.
pub fn next_line_feed(text: &[u8]) -> Option<usize>
    ensures { result ≡ position is_lf text.now }
{
    find_byte(text, b'\n')
}

// The offset of the next byte of a kind.
fn next_of<K: Kind>(text: &[u8]) -> Option<usize>
    ensures { result ≡ position K.passes text.now }
{
    text.iter().position(|b| K::has(*b))
}

/// The words between blanks.
pub fn words(alloc: Global, line: &[u8]) -> Result<Vec<Text>, NoMemory>
    ensures { IfOk result (λ found. found.items ≡ words line.now) }
{
    words_by::<Blank>(alloc, line)
}

/// The words between bytes of a kind.
pub fn words_by<K: Kind>(alloc: Global, line: &[u8]) -> Result<Vec<Text>, NoMemory>
    ensures { IfOk result (λ found. found.items ≡ words_by K.passes line.now) }
{
    let mut found = Vec::new(alloc);
    let mut start = 0;
    while let Some(len) = next_of::<K>(&line[start..]) {
        push_word(alloc, &mut found, &line[start..start + len])?;
        start += len + 1;
    }
    push_word(alloc, &mut found, &line[start..])?;
    Ok(found)
}

fn push_word(alloc: Global, found: &mut Vec<Text>, word: &[u8]) -> Result<(), NoMemory>
    ensures { OnOk result (found.new.items ≡ found.old.items ++ some_word word.now) }
{
    if word.is_empty() {
        return Ok(());
    }
    let text = Text::copy(alloc, word)?;
    found.push(text)?;
    Ok(())
}
