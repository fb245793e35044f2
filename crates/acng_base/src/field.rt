//! The fields of a head by name (RFC 9110, section 5.1): names go by letters without case.
//!
//! Nothing is copied: a field is a span of the block that has the head.
ghost use Rattle.std.specs.Prelude.{◌≡◌, List, ℕ, ◌∷◌, [], ◌++◌, All, length, map, bytes_eq};
ghost use Rattle.std.specs.Str.{str_to_ascii_lowercase};
ghost use Rattle.httparse.specs.Spans.{IsHeaderWithin, IsWithin, header_bytes, span_bytes};
ghost use Rattle.acng_base.specs.Heads.{values};
ghost use Rattle.acng_base.specs.Fields.{only};
ghost use Rattle.acng_base.specs.Named.{AreNamed, IsOnly};

use httparse::spans::{HeaderSpan, Span};

/// How often a name stands among the fields.
#[derive(Clone, Copy, Debug, Drop)]
pub enum Named {
    Absent,
    /// Once, with this value.
    Once(Span),
    Repeated,
}

/// How often the name stands among the fields; it is given in small letters.
pub fn find_name(block: &[u8], fields: &[HeaderSpan], name: &[u8]) -> Named
    requires within { All (IsHeaderWithin (length block.now)) fields.now }
    requires small { str_to_ascii_lowercase name.now ≡ name.now }
    ensures { AreNamed block.now result (values name.now (map (header_bytes block.now) fields.now)) }
{
    let mut found = Named::Absent;
    for field in fields {
        if is_name(field.name.of(block), name) {
            found = one_more(found, field.value);
        }
    }
    found
}

/// The value of the field of this name, where it stands once.
pub fn find_only(block: &[u8], fields: &[HeaderSpan], name: &[u8]) -> Option<Span>
    requires within { All (IsHeaderWithin (length block.now)) fields.now }
    requires small { str_to_ascii_lowercase name.now ≡ name.now }
    ensures { IsOnly block.now result (only (values name.now (map (header_bytes block.now) fields.now))) }
{
    match find_name(block, fields, name) {
        Named::Once(value) => Some(value),
        _ => None,
    }
}

/// Whether a text is the name, letters' case aside.
pub fn is_name(text: &[u8], name: &[u8]) -> bool
    requires { str_to_ascii_lowercase name.now ≡ name.now }
    ensures { result ≡ bytes_eq (str_to_ascii_lowercase text.now) name.now }
{
    text.eq_ignore_ascii_case(name)
}

// The same with one more field.
fn one_more(found: Named, value: Span) -> Named
    ensures { (block : List ℕ) (vs : List (List ℕ)) → IsWithin (length block) value
        → AreNamed block found vs → AreNamed block result (vs ++ span_bytes block value ∷ []) }
{
    match found {
        Named::Absent => Named::Once(value),
        Named::Once(_) | Named::Repeated => Named::Repeated,
    }
}
