//! `Content-Range` of a 206 (RFC 9110, section 14.4).
//!
//! The text is `bytes A-B/T` with decimal numbers that have no leading zeros, and A <= B < T <= 2^41.
ghost use Rattle.std.specs.Prelude.{◌≡◌, ◌≤◌, ◌^◌, IfSome};
ghost use Rattle.acng_base.specs.Heads.{at_byte};
ghost use Rattle.acng_base.specs.Fields.{plain_number, range_at, range_by, range_of};
ghost use Rattle.acng_answer.specs.Blocks.{IsRange};

use acng_base::{find_byte, first_bytes, read_length};

/// The unit, and the blank after it.
const UNIT: &[u8; 6] = b"bytes ";

/// Reads a range: first place, last place and total. None for every other text.
pub fn read_range(text: &[u8]) -> Option<(u64, u64, u64)>
    ensures range { result ≡ range_of text.now }
    ensures within { IfSome result IsRange }
{
    if first_bytes(text, UNIT.len()) == UNIT.as_slice() {
        read_numbers(&text[UNIT.len()..])
    } else {
        None
    }
}

// The range that `A-B/T` writes.
fn read_numbers(text: &[u8]) -> Option<(u64, u64, u64)>
    ensures range { result ≡ range_at text.now }
    ensures within { IfSome result IsRange }
{
    let (first, rest) = cut(text, b'-');
    let (last, total) = cut(rest, b'/');
    in_order(read_plain(first), read_plain(last), read_plain(total))
}

// The three numbers of a range.
fn in_order(first: Option<u64>, last: Option<u64>, total: Option<u64>) -> Option<(u64, u64, u64)>
    requires { IfSome total (λ t. t ≤ 2 ^ 41) }
    ensures range { result ≡ range_by first last total }
    ensures within { IfSome result IsRange }
{
    match (first, last, total) {
        (Some(first), Some(last), Some(total)) if first <= last && last < total => {
            Some((first, last, total))
        }
        _ => None,
    }
}

// What stands before the first such byte, and after it; all, where there is none.
fn cut(text: &[u8], byte: u8) -> (&[u8], &[u8])
    ensures { (result.0.now, result.1.now) ≡ at_byte byte text.now }
{
    match find_byte(text, byte) {
        Some(at) => (&text[..at], &text[at + 1..]),
        None => (text, &[]),
    }
}

// A number up to 2^41 without leading zeros.
fn read_plain(text: &[u8]) -> Option<u64>
    ensures number { result ≡ plain_number text.now }
    ensures within { IfSome result (λ n. n ≤ 2 ^ 41) }
{
    if 1 < text.len() && text[0] == b'0' {
        None
    } else {
        read_length(text)
    }
}
