//! The forms of a target.
ghost use Rattle.std.specs.Prelude.{◌≡◌, ◌≤◌, ◌<◌, ◌∷◌, option_map, length, drop, position, IsTrue, IfSome};
ghost use Rattle.std.specs.Str.{str_to_ascii_lowercase};
ghost use Rattle.acng_base.specs.Cuts.{slash};
ghost use Rattle.acng_base.specs.Names.{begins_with};
ghost use Rattle.acng_base.specs.Paths.{is_slash};
ghost use Rattle.acng_remap.specs.Forms.{begins_named, has, is_tls, is_absolute, has_slash, query_of, page_query, after_start, slash_at};

use acng_base::{Kind, find_byte, trim_start_by};

/// Whether an origin is asked for over TLS.
#[tactic(auto, unfolding(crate::specs::Forms::is_tls))]
pub fn is_tls(target: &[u8]) -> bool
    ensures { result ≡ is_tls target.now }
{
    begins_named(b"https://", target) || target.starts_with(b"/HTTPS///")
}

/// Whether the target is a whole URL.
pub fn is_absolute(target: &[u8]) -> bool
    ensures { result ≡ is_absolute target.now }
{
    begins_named(b"http://", target)
}

// Letters' case aside, whether this word in small letters stands first.
fn begins_named(word: &[u8], target: &[u8]) -> bool
    requires { str_to_ascii_lowercase word.now ≡ word.now }
    ensures { result ≡ begins_named word.now target.now }
{
    target.len() >= word.len() && target[..word.len()].eq_ignore_ascii_case(word)
}

/// Whether a slash stands first.
pub fn has_slash(target: &[u8]) -> bool
    ensures { result ≡ has_slash target.now }
{
    target.starts_with(b"/")
}

/// Whether the byte stands in the text.
pub fn has(b: u8, text: &[u8]) -> bool
    ensures { result ≡ has b text.now }
{
    text.contains(&b)
}

/// The query of the report page, where the target asks for it.
#[tactic(auto, unfolding(crate::specs::Forms::page_query))]
pub fn page_query<'t>(page: &[u8], target: &'t [u8]) -> Option<&'t [u8]>
    ensures { option_map (λ query. query.now) result ≡ page_query page.now target.now }
{
    if is_page(page, target) {
        query_of(&target[page.len() + 1..])
    } else {
        None
    }
}

// Whether a slash and the page's name stand first.
fn is_page(page: &[u8], target: &[u8]) -> bool
    ensures page { result ≡ begins_with target.now (slash ∷ page.now) }
    ensures within { IsTrue result → length page.now < length target.now }
{
    has_slash(target) && target[1..].starts_with(page)
}

// What stands behind the page's name: nothing, or `?` and a query.
fn query_of(rest: &[u8]) -> Option<&[u8]>
    ensures { option_map (λ query. query.now) result ≡ query_of rest.now }
{
    if rest.is_empty() {
        return Some(rest);
    }
    if rest[0] == b'?' {
        Some(&rest[1..])
    } else {
        None
    }
}

/// What stands behind `http://`, or else behind the first slashes.
#[tactic(auto, unfolding(crate::specs::Forms::after_start))]
pub fn after_start(target: &[u8]) -> &[u8]
    ensures { result.now ≡ after_start target.now }
{
    if is_absolute(target) {
        after_seven(target)
    } else {
        trim_start_by::<Slash>(target)
    }
}

fn after_seven(target: &[u8]) -> &[u8]
    ensures { result.now ≡ drop 7 target.now }
{
    if target.len() < 7 {
        return &target[target.len()..];
    }
    &target[7..]
}

/// Slashes.
struct Slash;

impl Kind for Slash {
    ghost passes = { is_slash };

    fn has(byte: u8) -> bool {
        byte == b'/'
    }
}

/// The offset of the first slash; the length where there is none.
pub fn slash_at(text: &[u8]) -> usize
    ensures at { result ≡ slash_at text.now }
    ensures within { result ≤ length text.now }
{
    match next_slash(text) {
        Some(at) => at,
        None => text.len(),
    }
}

fn next_slash(text: &[u8]) -> Option<usize>
    ensures at { result ≡ position is_slash text.now }
    ensures within { IfSome result (λ k. k < length text.now) }
{
    find_byte(text, b'/')
}
