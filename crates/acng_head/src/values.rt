//! What the values of a record's lines say: each reading takes exactly the text that is written for one value.
ghost use Rattle.std.specs.Prelude.{◌≡◌, ◌≢◌, ◌≤◌, ◌<◌, ◌^◌, ◌++◌, ◌∷◌, List, ℕ, length, codes, true, decimal};
ghost use Rattle.std.specs.Prelude.{MatchOption, IfSome, option_copied};
ghost use Rattle.std.specs.declared.option.Option.{Option};
ghost use Rattle.hex.specs.Hex.{IsBytes, encode_lower};
ghost use Rattle.acng_base.specs.Tags.{is_tag};
ghost use Rattle.acng_base.specs.declared.clock.Moment.{Moment};
ghost use Rattle.acng_base.specs.declared.hash.Hash.{Hash};
ghost use Rattle.acng_head.specs.declared.head.Label.{Label};
ghost use Rattle.acng_head.specs.Records.{IsHash, IsBoundedLabel, IsTypedLabel, origin_text, moment_text};

use crate::head::Label;
use crate::lines::{after, split_at};
use acng_base::{Hash, Moment, Tag};
use hex::FromHex;
use itoa::Buffer;

/// Reads a number without a leading zero.
pub fn number(text: &[u8]) -> Option<u64>
    ensures { MatchOption result
        ((n : ℕ) → n < 2 ^ 64 → text.now ≢ decimal n)
        (λ n. (n < 2 ^ 64) × (text.now ≡ decimal n)) }
{
    let Ok(digits) = str::from_utf8(text) else {
        return None;
    };
    let Ok(n) = digits.parse::<u64>() else {
        return None;
    };
    if Buffer::new().format(n).as_bytes() == text {
        Some(n)
    } else {
        None
    }
}

/// Reads a moment that may be missing.
pub fn moment(text: Option<&[u8]>) -> Option<Option<Moment>>
    ensures { MatchOption result
        ((o : Option Moment) → IfSome o (λ m. m.0 < 2 ^ 64) → moment_text o ≢ option_copied text.entry)
        (λ o. IfSome o (λ m. m.0 < 2 ^ 64) × (moment_text o ≡ option_copied text.entry)) }
{
    match text {
        Some(text) => Some(Some(Moment(number(text)?))),
        None => Some(None),
    }
}

/// Reads a tag that may be missing.
pub fn tag(text: Option<&[u8]>) -> Option<Option<Tag>>
    ensures { MatchOption result
        ((o : Option (List ℕ)) → IfSome o (λ t. is_tag t ≡ true) → o ≢ option_copied text.entry)
        (λ o. (o ≡ option_copied text.entry) × IfSome o (λ t. is_tag t ≡ true)) }
{
    match text {
        Some(text) => Some(Some(Tag::read(text)?)),
        None => Some(None),
    }
}

/// Reads a hash of lower-case digits.
pub fn hash(text: &[u8]) -> Option<Hash>
    ensures { MatchOption result
        ((h : Hash) → IsHash h → text.now ≢ encode_lower h.0)
        (λ h. IsHash h × (text.now ≡ encode_lower h.0)) }
{
    let Ok(bytes) = <[u8; 32] as FromHex>::from_hex(text) else {
        return None;
    };
    let hash = Hash(bytes);
    if digits(&hash).as_slice() == text {
        Some(hash)
    } else {
        None
    }
}

/// The lower-case digits of a hash.
pub fn digits(hash: &Hash) -> [u8; 64]
    ensures digits { result ≡ encode_lower hash.now.0 }
    ensures typed { IsHash hash.now }
{
    digits_of(&hash.0)
}

fn digits_of(bytes: &[u8]) -> [u8; 64]
    requires { length bytes.now ≡ 32 }
    ensures digits { result ≡ encode_lower bytes.now }
    ensures typed { IsBytes bytes.now }
{
    let mut out = [0; 64];
    let Ok(()) = hex::encode_to_slice(bytes, &mut out) else {
        unreachable!()
    };
    out
}

/// Reads where a file of this size came from.
pub fn label(text: &[u8], size: u64) -> Option<Label>
    ensures { MatchOption result
        ((l : Label) → IsTypedLabel l → IsBoundedLabel size l → text.now ≢ origin_text l)
        (λ l. IsTypedLabel l × IsBoundedLabel size l × (text.now ≡ origin_text l)) }
{
    if let Some(rest) = after(text, b"fetched ") {
        let (first, last) = attempts(rest)?;
        return Some(Label::Fetched { first, last });
    }
    let sha256 = hash(after(text, b"imported ")?)?;
    Some(Label::Imported { sha256, size })
}

// Reads the first and the last attempt.
fn attempts(text: &[u8]) -> Option<(u64, u64)>
    ensures { MatchOption result
        ((first last : ℕ) → first ≤ last → last < 2 ^ 63 → text.now ≢ decimal first ++ 32 ∷ decimal last)
        (λ r. (r.0 ≤ r.1) × (r.1 < 2 ^ 63) × (text.now ≡ decimal r.0 ++ 32 ∷ decimal r.1)) }
{
    let (first, last) = split_at(text, b' ')?;
    let (first, last) = (number(first)?, number(last)?);
    if first <= last && last < 1 << 63 {
        Some((first, last))
    } else {
        None
    }
}
