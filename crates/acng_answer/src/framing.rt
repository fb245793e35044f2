//! How the head of an answer frames its body (RFC 9112, section 6.3), first fit:
//!
//! 1. Status 204 and 304: no body.
//! 2. `Transfer-Encoding`: chunks, where it stands once and is `chunked`; else the head is refused.
//! 3. `Content-Length`: so many bytes, where all values give one length up to 2^41, in a 206 that of its range; else the
//!    head is refused.
//! 4. To the connection's end.
ghost use Rattle.std.specs.Prelude.{◌≡◌, List, ℕ, ◌∷◌, [], ◌++◌, All, length, map};
ghost use Rattle.std.specs.Str.{str_to_ascii_lowercase};
ghost use Rattle.httparse.specs.Spans.{IsHeaderWithin, IsWithin, header_bytes, span_bytes};
ghost use Rattle.acng_base.specs.Heads.{Head, values};
ghost use Rattle.acng_base.specs.Framings.{framing, part_len, by_length as lengths_frame};
ghost use Rattle.acng_answer.specs.Blocks.{AreLengths, IsFraming, more_lengths};

use acng_base::{Named, find_name, is_name, read_length};
use httparse::spans::{HeaderSpan, Span};

/// How a body is framed; the part is what a 206's range has of it.
#[derive(Clone, Copy, Debug, Drop)]
pub enum Framed {
    Empty,
    Counted(u64),
    /// To the connection's end.
    ToEnd(Option<u64>),
    Chunks(Option<u64>),
}

/// What the values of `Content-Length` say together.
#[derive(Clone, Copy, Debug, Drop)]
pub enum Lengths {
    Absent,
    Agreed(u64),
    Refused,
}

/// The framing that status, fields and part give; None where a field is refused.
pub fn frame(block: &[u8], fields: &[HeaderSpan], status: u16, part: Option<u64>) -> Option<Framed>
    requires within { All (IsHeaderWithin (length block.now)) fields.now }
    requires part { part_len (record { status = status; fields = map (header_bytes block.now) fields.now }) ≡ part }
    ensures { IsFraming (framing (record { status = status; fields = map (header_bytes block.now) fields.now })) part result }
{
    if status == 204 || status == 304 {
        return Some(Framed::Empty);
    }
    match find_name(block, fields, b"transfer-encoding") {
        Named::Absent => by_length(find_lengths(block, fields, b"content-length"), part),
        Named::Once(value) if is_name(value.of(block), b"chunked") => Some(Framed::Chunks(part)),
        _ => None,
    }
}

// The framing by the lengths.
fn by_length(lengths: Lengths, part: Option<u64>) -> Option<Framed>
    ensures { (h : Head) (vs : List (List ℕ)) → AreLengths lengths vs → part_len h ≡ part → IsFraming (lengths_frame h vs) part result }
{
    match (lengths, part) {
        (Lengths::Absent, _) => Some(Framed::ToEnd(part)),
        (Lengths::Agreed(count), None) => Some(Framed::Counted(count)),
        (Lengths::Agreed(count), Some(due)) if count == due => Some(Framed::Counted(count)),
        _ => None,
    }
}

// What the values of the field of this name, which is given in small letters, say together.
fn find_lengths(block: &[u8], fields: &[HeaderSpan], name: &[u8]) -> Lengths
    requires within { All (IsHeaderWithin (length block.now)) fields.now }
    requires small { str_to_ascii_lowercase name.now ≡ name.now }
    ensures { AreLengths result (values name.now (map (header_bytes block.now) fields.now)) }
{
    let mut found = Lengths::Absent;
    for field in fields {
        if is_name(field.name.of(block), name) {
            found = another(block, found, field.value);
        }
    }
    found
}

// The same with one more value.
fn another(block: &[u8], found: Lengths, value: Span) -> Lengths
    requires { IsWithin (length block.now) value }
    ensures { (vs : List (List ℕ)) → AreLengths found vs → AreLengths result (vs ++ span_bytes block.now value ∷ []) }
{
    more(found, read_length(value.of(block)))
}

// The same with one more value, by its length.
fn more(found: Lengths, given: Option<u64>) -> Lengths
    ensures { result ≡ more_lengths found given }
{
    match (found, given) {
        (Lengths::Absent, Some(count)) => Lengths::Agreed(count),
        (Lengths::Agreed(count), Some(again)) if count == again => Lengths::Agreed(count),
        _ => Lengths::Refused,
    }
}
