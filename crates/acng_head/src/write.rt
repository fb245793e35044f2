//! The writing of a record.
ghost use Rattle.std.specs.Prelude.{◌≡◌, ◌≤◌, ◌+◌, ◌^◌, ◌<◌, ◌++◌, [], true, take, drop, length, decimal, codes, IfSome};
ghost use Rattle.acng_base.specs.Tags.{is_tag};
ghost use Rattle.acng_head.specs.Records.{IsBounded, IsTyped, IsTypedLabel, line, maybe, moment_text, origin_text, record_text};
ghost use Rattle.acng_head.specs.Writes.{Puts};

use crate::head::{Head, Label};
use crate::values::digits;
use acng_base::{Moment, Tag};
use itoa::Buffer;

/// Writes the record of a head at the front of the buffer, and says how long it is.
pub fn write_head(head: &Head, out: &mut [u8; 2048]) -> usize
    requires { IsBounded head.now }
    ensures written { take result out.new ≡ record_text head.now }
    ensures len { result ≡ length (record_text head.now) }
    ensures fits { result ≤ 2048 }
    ensures after { drop result out.new ≡ drop result out.old }

    // What the types of the fields say: with the condition above, what is written is a record.
    ensures typed { IsTyped head.now }
{
    let at = put(out, 0, b"acng-head 1\n");
    let at = put_line(out, at, b"path ", head.path.as_bytes());
    let at = put_label(out, at, &head.label);
    let at = put_number(out, at, b"size ", head.size, b"\n");
    let at = put_tag(out, at, &head.tag);
    let at = put_moment(out, at, b"modified ", &head.modified);
    let at = put_number(out, at, b"checked ", head.checked.0, b"\n");
    let at = put_moment(out, at, b"mark ", &head.mark);
    put(out, at, b"end\n")
}

// Puts the line of the origin: at most 7 bytes of its key, 73 of an import, and LF.
fn put_label(out: &mut [u8], at: usize, label: &Label) -> usize
    requires { at + 81 ≤ length out.old }
    ensures puts { Puts out.old out.new at result (line (codes "origin ") (origin_text label.now) []) }
    ensures short { result ≤ at + 81 }
    ensures typed { IsTypedLabel label.now }
{
    match label {
        Label::Fetched { first, last } => {
            let at = put_number(out, at, b"origin fetched ", *first, b" ");
            put_number(out, at, b"", *last, b"\n")
        }
        Label::Imported { sha256, size: _ } => {
            put_line(out, at, b"origin imported ", &digits(sha256))
        }
    }
}

// Puts the line of a tag, if there is one: at most 4 bytes of its key, 256 of the tag, and LF.
fn put_tag(out: &mut [u8], at: usize, tag: &Option<Tag>) -> usize
    requires { at + 261 ≤ length out.old }
    ensures puts { Puts out.old out.new at result (maybe (codes "tag ") tag.now []) }
    ensures short { result ≤ at + 261 }
    ensures typed { IfSome tag.now (λ t. is_tag t ≡ true) }
{
    match tag {
        Some(tag) => put_line(out, at, b"tag ", tag.as_bytes()),
        None => at,
    }
}

// Puts the line of a moment, if there is one.
fn put_moment(out: &mut [u8], at: usize, key: &[u8], moment: &Option<Moment>) -> usize
    requires { at + length key.now + 21 ≤ length out.old }
    ensures puts { Puts out.old out.new at result (maybe key.now (moment_text moment.now) []) }
    ensures short { result ≤ at + length key.now + 21 }
    ensures typed { IfSome moment.now (λ m. m.0 < 2 ^ 64) }
{
    match moment {
        Some(Moment(seconds)) => put_number(out, at, key, *seconds, b"\n"),
        None => at,
    }
}

// Puts the digits of a number between two texts.
fn put_number(out: &mut [u8], at: usize, key: &[u8], n: u64, end: &[u8]) -> usize
    requires { at + length key.now + 20 + length end.now ≤ length out.old }
    ensures puts { Puts out.old out.new at result (key.now ++ (decimal n ++ end.now)) }
    ensures short { result ≤ at + length key.now + 20 + length end.now }
    ensures typed { n < 2 ^ 64 }
{
    let mut buffer = Buffer::new();
    let at = put(out, at, key);
    let at = put(out, at, buffer.format(n).as_bytes());
    put(out, at, end)
}

// Puts a line of a key and a value.
fn put_line(out: &mut [u8], at: usize, key: &[u8], value: &[u8]) -> usize
    requires { at + length key.now + length value.now + 1 ≤ length out.old }
    ensures { Puts out.old out.new at result (line key.now value.now []) }
{
    let at = put(out, at, key);
    let at = put(out, at, value);
    put(out, at, b"\n")
}

// Puts a text at a place, and says where it ends.
fn put(out: &mut [u8], at: usize, text: &[u8]) -> usize
    requires { at + length text.now ≤ length out.old }
    ensures { Puts out.old out.new at result text.now }
{
    let end = at + text.len();
    out[at..end].copy_from_slice(text);
    end
}
