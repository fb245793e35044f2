//! Numbers in decimal digits of which leading zeros may be some.
ghost use Rattle.std.specs.Prelude.{◌≡◌, ◌≤◌, ◌<◌, ◌^◌, true, length, IfSome};
ghost use Rattle.std.specs.List.{list_all};
ghost use Rattle.std.specs.Char.{is_ascii_digit};
ghost use Rattle.std.specs.Str.Parse.{digits_value};
ghost use Rattle.acng_base.specs.Fields.{length_of};
ghost use Rattle.acng_base.specs.Numbers.{number_of};

use crate::limit::MOST_BYTES;

/// The most digits of a length, leading zeros among them.
const MOST_LENGTH_DIGITS: usize = 13;

/// The number that 1 to `most` digits write.
pub fn read_digits(text: &[u8], most: usize) -> Option<u64>
    requires { most ≤ 19 }
    ensures { result ≡ number_of most text.now }
{
    if text.is_empty() || most < text.len() {
        return None;
    }
    if are_digits(text) {
        Some(value(text))
    } else {
        None
    }
}

/// The length that 1 to 13 digits write, up to 2^41: of a body, and of a file that an index names.
pub fn read_length(text: &[u8]) -> Option<u64>
    ensures length { result ≡ length_of text.now }
    ensures within { IfSome result (λ n. n ≤ 2 ^ 41) }
{
    match read_digits(text, MOST_LENGTH_DIGITS) {
        Some(count) if count <= MOST_BYTES => Some(count),
        _ => None,
    }
}

/// Whether each byte is a digit from 0 to 9.
pub fn are_digits(text: &[u8]) -> bool
    ensures { result ≡ list_all is_ascii_digit text.now }
{
    text.iter().all(|b| b.is_ascii_digit())
}

// The number that at most 19 digits write: 2^64 has 20.
fn value(digits: &[u8]) -> u64
    requires few { length digits.now ≤ 19 }
    requires digits { list_all is_ascii_digit digits.now ≡ true }
    ensures { result ≡ digits_value 10 digits.now }
{
    let mut value = 0;
    for digit in digits {
        value = value * 10 + u64::from(*digit - b'0');
    }
    value
}
