//! Which names fit a pattern, in which `*` stands for any bytes.
ghost use Rattle.std.specs.Prelude.{◌≡◌, ◌≤◌, ◌<◌, ◌+◌, Bool, true, false, [], length, drop};
ghost use Rattle.acng_conf.specs.Lines.{first_is, star};
ghost use Rattle.acng_conf.specs.Globs.{fits, some_end};

use crate::lines::first_is;

/// Whether the name fits.
pub fn fits(pattern: &[u8], name: &[u8]) -> bool
    ensures { result ≡ fits pattern.now name.now }
{
    let equal = equal_bytes(pattern, name);
    let behind = &pattern[equal..];
    if equal == name.len() {
        return is_stars(behind);
    }
    first_is(b'*', behind) && fits_some_end(&behind[1..], &name[equal..])
}

// Whether some end of the name fits. Only the star met last is tried again, since it can take what an earlier one
// could: the time is at most about the pattern's length times the name's.
fn fits_some_end(pattern: &[u8], name: &[u8]) -> bool
    ensures { result ≡ some_end (fits pattern.now) name.now }
{
    let mut rest = pattern;
    let mut left = name;
    loop {
        let equal = equal_bytes(rest, left);
        let behind = &rest[equal..];
        if equal == left.len() {
            return is_stars(behind);
        }
        if first_is(b'*', behind) {
            rest = &behind[1..];
            left = &left[equal..];
        } else {
            left = &left[1..];
        }
    }
}

// How many bytes before the pattern's first star are the bytes that the name begins with.
fn equal_bytes(pattern: &[u8], name: &[u8]) -> usize
    ensures in_pattern { result ≤ length pattern.now }
    ensures in_name { result ≤ length name.now }
    ensures same { fits pattern.now name.now ≡ fits (drop result pattern.now) (drop result name.now) }

    // If a later end of the name fits, the rest of the pattern fits an end behind these bytes.
    ensures later { some_end (fits pattern.now) (drop 1 name.now) ≡ true
        → some_end (fits (drop result pattern.now)) (drop (result + 1) name.now) ≡ true }

    // Short of the name's end and of a star, nothing fits.
    ensures stop { result < length name.now → first_is star (drop result pattern.now) ≡ false → fits pattern.now name.now ≡ false }
{
    for i in 0..pattern.len() {
        if i == name.len() || pattern[i] == b'*' || pattern[i] != name[i] {
            return i;
        }
    }
    pattern.len()
}

// Whether the empty name fits.
fn is_stars(pattern: &[u8]) -> bool
    ensures { result ≡ fits pattern.now [] }
{
    for i in 0..pattern.len() {
        if pattern[i] != b'*' {
            return false;
        }
    }
    true
}
