//! Keys, and names of groups.
ghost use Rattle.std.specs.Prelude.{◌≡◌, ◌≤◌, IsTrue, length, take, codes};
ghost use Rattle.std.specs.List.{list_all};
ghost use Rattle.acng_conf.specs.Keys.{is_word_byte, is_key, is_page, is_group_name, is_named, key_of, setting_of, group_name};

use crate::lines::first_is;

/// What a key is.
#[derive(Clone, Copy)]
pub enum Key {
    /// One value is set.
    Setting(Setting),
    /// A group's key, whose name stands behind the first six bytes.
    Group,
    /// A key without a meaning.
    Unused,
}

/// What a key with one value sets.
#[derive(Clone, Copy)]
pub enum Setting {
    Port,
    BindAddress,
    ReportPage,
    ExThreshold,
    ExAbortOnProblems,
    Offlinemode,
    FreshIndexMaxAge,
    RedirMax,
    MaintOverHttp,
    PfilePatternEx,
    VfilePatternEx,
}

/// A letter, and then letters, digits, `-`, `_` and `.`.
pub fn is_key(text: &[u8]) -> bool
    ensures { result ≡ is_key text.now }
{
    !text.is_empty() && text[0].is_ascii_alphabetic() && are_word_bytes(text)
}

/// Letters, digits, `-`, `_` and `.` alone.
pub fn are_word_bytes(text: &[u8]) -> bool
    ensures { result ≡ list_all is_word_byte text.now }
{
    text.iter().all(|b| is_word_byte(*b))
}

fn is_word_byte(b: u8) -> bool
    ensures { result ≡ is_word_byte b }
{
    b.is_ascii_alphanumeric() || b == b'-' || b == b'_' || b == b'.'
}

/// 1 to 64 letters, digits, `.`, `-` and `_`.
pub fn is_page(text: &[u8]) -> bool
    ensures { result ≡ is_page text.now }
{
    1 <= text.len() && text.len() <= 64 && are_word_bytes(text)
}

/// The same, and no dot first.
pub fn is_group_name(text: &[u8]) -> bool
    ensures { result ≡ is_group_name text.now }
{
    is_page(text) && !first_is(b'.', text)
}

/// What the key is, letters' case aside.
pub fn key_of(key: &[u8]) -> Key
    ensures key { result ≡ key_of key.now }
    ensures named { result ≡ Key.Group → 6 ≤ length key.now }
{
    if is_group_key(key) {
        return Key::Group;
    }
    match setting_of(key) {
        Some(setting) => Key::Setting(setting),
        None => Key::Unused,
    }
}

fn is_group_key(key: &[u8]) -> bool
    ensures key { result ≡ is_named (codes "remap-") (take 6 key.now) }
    ensures named { IsTrue result → 6 ≤ length key.now }
{
    key.len() >= 6 && key[..6].eq_ignore_ascii_case(b"remap-")
}

/// The name of a group in its key.
pub fn group_name(key: &[u8]) -> &[u8]
    requires { 6 ≤ length key.now }
    ensures { result.now ≡ group_name key.now }
{
    &key[6..]
}

fn setting_of(key: &[u8]) -> Option<Setting>
    ensures { result ≡ setting_of key.now }
{
    if key.eq_ignore_ascii_case(b"port") {
        return Some(Setting::Port);
    }
    if key.eq_ignore_ascii_case(b"bindaddress") {
        return Some(Setting::BindAddress);
    }
    if key.eq_ignore_ascii_case(b"reportpage") {
        return Some(Setting::ReportPage);
    }
    if key.eq_ignore_ascii_case(b"exthreshold") {
        return Some(Setting::ExThreshold);
    }
    if key.eq_ignore_ascii_case(b"exabortonproblems") {
        return Some(Setting::ExAbortOnProblems);
    }
    if key.eq_ignore_ascii_case(b"offlinemode") {
        return Some(Setting::Offlinemode);
    }
    if key.eq_ignore_ascii_case(b"freshindexmaxage") {
        return Some(Setting::FreshIndexMaxAge);
    }
    if key.eq_ignore_ascii_case(b"redirmax") {
        return Some(Setting::RedirMax);
    }
    if key.eq_ignore_ascii_case(b"maintoverhttp") {
        return Some(Setting::MaintOverHttp);
    }
    if key.eq_ignore_ascii_case(b"pfilepatternex") {
        return Some(Setting::PfilePatternEx);
    }
    if key.eq_ignore_ascii_case(b"vfilepatternex") {
        return Some(Setting::VfilePatternEx);
    }
    None
}
