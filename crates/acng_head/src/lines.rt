//! A record cut into the values of its lines. What a value says stands in `values.rt`.
ghost use Rattle.std.specs.Prelude.{◌≡◌, ◌≢◌, ◌∷◌, ◌++◌, List, ℕ, None, MatchOption, IfSome, option_copied};
ghost use Rattle.acng_head.specs.Records.{Lacks, line, maybe, Values, AreValues, text_of, cut_values};

use acng_base::find_byte;

/// The values of a record's lines.
#[derive(Drop)]
pub struct Lines<'a> {
    pub path: &'a [u8],
    pub origin: &'a [u8],
    pub size: &'a [u8],
    pub tag: Option<&'a [u8]>,
    pub modified: Option<&'a [u8]>,
    pub checked: &'a [u8],
    pub mark: Option<&'a [u8]>,
}

/// Cuts a record into the values of its lines.
pub fn cut(text: &[u8]) -> Option<Lines<'_>>
    ensures { MatchOption result
        ((v : Values) → AreValues v → text_of v ≢ text.now)
        (λ l. AreValues (cut_values l) × (text_of (cut_values l) ≡ text.now)) }
{
    let rest = after(text, b"acng-head 1\n")?;
    let (path, rest) = value_of(rest, b"path ")?;
    let (origin, rest) = value_of(rest, b"origin ")?;
    let (size, rest) = value_of(rest, b"size ")?;
    let (tag, rest) = optional(rest, b"tag ");
    let (modified, rest) = optional(rest, b"modified ");
    let (checked, rest) = value_of(rest, b"checked ")?;
    let (mark, rest) = optional(rest, b"mark ");
    if rest != b"end\n".as_slice() {
        return None;
    }
    Some(Lines {
        path,
        origin,
        size,
        tag,
        modified,
        checked,
        mark,
    })
}

// The value of the first line, which has this key, and what follows the line.
fn value_of<'a>(text: &'a [u8], key: &[u8]) -> Option<(&'a [u8], &'a [u8])>
    ensures { MatchOption result
        ((v rest : List ℕ) → text.now ≢ line key.now v rest)
        (λ r. Lacks 10 r.0.now × (text.now ≡ line key.now r.0.now r.1.now)) }
{
    split_at(after(text, key)?, b'\n')
}

// The same of a line that may be missing.
fn optional<'a>(text: &'a [u8], key: &[u8]) -> (Option<&'a [u8]>, &'a [u8])
    ensures value { IfSome (option_copied result.0) (Lacks 10) }
    ensures found { text.now ≡ maybe key.now (option_copied result.0) result.1.now }
    ensures missing { option_copied result.0 ≡ None → (v rest : List ℕ) → text.now ≢ line key.now v rest }
{
    match value_of(text, key) {
        Some((value, rest)) => (Some(value), rest),
        None => (None, text),
    }
}

/// What stands before the first such byte, and after it.
pub fn split_at(text: &[u8], byte: u8) -> Option<(&[u8], &[u8])>
    ensures { MatchOption result
        ((v rest : List ℕ) → text.now ≢ v ++ byte ∷ rest)
        (λ r. Lacks byte r.0.now × (text.now ≡ r.0.now ++ byte ∷ r.1.now)) }
{
    let at = find_byte(text, byte)?;
    Some((&text[..at], &text[at + 1..]))
}

/// What stands after this front.
pub fn after<'a>(text: &'a [u8], front: &[u8]) -> Option<&'a [u8]>
    ensures { MatchOption result
        ((rest : List ℕ) → text.now ≢ front.now ++ rest)
        (λ rest. text.now ≡ front.now ++ rest.now) }
{
    if text.len() < front.len() {
        return None;
    }
    let (first, rest) = text.split_at(front.len());
    if first == front { Some(rest) } else { None }
}
