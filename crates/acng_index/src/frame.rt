//! The frame of an InRelease: the text inside a signature (RFC 9580, section 7).
ghost use Rattle.std.specs.Prelude.{◌≡◌, ◌≤◌, ◌<◌, ◌+◌, ◌++◌, [], ◌∷◌, OnOk, MatchOption, false, length, drop};
ghost use Rattle.acng_base.specs.Cuts.{is_empty};
ghost use Rattle.acng_index.specs.Frames.{framed, hashes, inside, is_line, plain_line, lines_of};
ghost use Rattle.acng_index.specs.Cuts.{GivesFramed, HasLine, HasHashLine, begins_hash};
ghost use Rattle.acng_index.specs.Gives.{GivesItems};

use crate::fault::IndexFault;
use crate::text::begins_as;
use acng_base::{BlankOrCr, NoMemory, next_line_feed, trim_end_by};
use std::alloc::Global;

/// The text inside a frame.
#[derive(Drop)]
pub struct Inside {
    /// The number of its first line.
    pub first: u64,
    /// Its lines without a leading `- `, each with its line feed.
    pub text: Vec<u8>,
}

/// The text inside the frame, or the first line that breaks it. What follows the signature line isn't read.
pub fn read_frame(alloc: Global, text: &[u8]) -> Result<Inside, IndexFault>
    ensures { GivesFramed (framed (lines_of text.now)) result }
{
    if text.is_empty() {
        return Err(IndexFault::NoFrame { line: 1 });
    }
    let len = line_len(text);
    if !is_line(b"-----BEGIN PGP SIGNED MESSAGE-----", &text[..len]) {
        return Err(IndexFault::NoFrame { line: 1 });
    }
    read_hashes(alloc, after(text, len), 2)
}

// From the lines that name hashes on, of which the first has this number.
fn read_hashes(alloc: Global, text: &[u8], first: u64) -> Result<Inside, IndexFault>
    ensures { GivesFramed (hashes first (lines_of text.now)) result }
{
    let mut left = text;
    let mut line = first;
    while let Some(len) = hash_line(left) {
        let Some(next) = line.checked_add(1) else {
            return Err(IndexFault::NoMemory);
        };
        line = next;
        left = after(left, len);
    }
    read_open(alloc, left, line)
}

// From the empty line on.
fn read_open(alloc: Global, text: &[u8], line: u64) -> Result<Inside, IndexFault>
    requires { begins_hash (lines_of text.now) ≡ false }
    ensures { GivesFramed (hashes line (lines_of text.now)) result }
{
    if text.is_empty() {
        return Err(IndexFault::NoFrame { line });
    }
    let len = line_len(text);
    if !is_line(b"", &text[..len]) {
        return Err(IndexFault::NoFrame { line });
    }
    let Some(first) = line.checked_add(1) else {
        return Err(IndexFault::NoMemory);
    };
    match read_inside(alloc, after(text, len), first) {
        Ok(text) => Ok(Inside { first, text }),
        Err(fault) => Err(fault),
    }
}

// The text lines up to the signature.
fn read_inside(alloc: Global, text: &[u8], first: u64) -> Result<Vec<u8>, IndexFault>
    ensures { GivesItems (inside first (lines_of text.now)) result }
{
    let Ok(mut out) = Vec::with_capacity(alloc, text.len()) else {
        return Err(IndexFault::NoMemory);
    };
    let mut left = text;
    let mut line = first;
    while !left.is_empty() {
        let len = line_len(left);
        if is_line(b"-----BEGIN PGP SIGNATURE-----", &left[..len]) {
            return Ok(out);
        }
        let Ok(()) = add_line(&mut out, plain_line(&left[..len])) else {
            return Err(IndexFault::NoMemory);
        };
        let Some(next) = line.checked_add(1) else {
            return Err(IndexFault::NoMemory);
        };
        line = next;
        left = after(left, len);
    }
    Err(IndexFault::NoFrame { line })
}

fn add_line(out: &mut Vec<u8>, line: &[u8]) -> Result<(), NoMemory>
    ensures { OnOk result (out.new.items ≡ out.old.items ++ (line.now ++ 10 ∷ [])) }
{
    out.extend_from_slice(line)?;
    out.push(b'\n')?;
    Ok(())
}

// The bytes of the first line, where it names a hash.
fn hash_line(text: &[u8]) -> Option<usize>
    ensures { MatchOption result (begins_hash (lines_of text.now) ≡ false) (λ len. HasHashLine text.now len) }
{
    if text.is_empty() {
        return None;
    }
    let len = line_len(text);
    if begins_as(b"Hash:", &text[..len]) {
        Some(len)
    } else {
        None
    }
}

// How many bytes the first line has.
fn line_len(text: &[u8]) -> usize
    requires { 0 < length text.now }
    ensures { HasLine text.now result }
{
    match next_line_feed(text) {
        Some(len) => len,
        None => text.len(),
    }
}

// What follows a line of so many bytes.
fn after(text: &[u8], len: usize) -> &[u8]
    requires { len ≤ length text.now }
    ensures { result.now ≡ drop (len + 1) text.now }
{
    if len < text.len() {
        &text[len + 1..]
    } else {
        &text[len..]
    }
}

// Whether a line is this one, but for blanks and carriage returns at its end.
fn is_line(wanted: &[u8], line: &[u8]) -> bool
    ensures { result ≡ is_line wanted.now line.now }
{
    trim_end_by::<BlankOrCr>(line) == wanted
}

// Without a `- ` in front.
fn plain_line(line: &[u8]) -> &[u8]
    ensures { result.now ≡ plain_line line.now }
{
    if begins_as(b"- ", line) {
        &line[2..]
    } else {
        line
    }
}
