//! Entries of a group: URLs of `http` and path prefixes, and their canonical forms.
//!
//! `url` reads a URL, and writes a domain in small letters; `percent_encoding` decodes and encodes paths. What `url`
//! refuses for want of room counts as want of memory.
ghost use Rattle.std.specs.Prelude.{◌≡◌, ◌++◌, ◌∷◌, List, [], IfOk, OnOk, IfErr, OnErr, option_map, codes, bytes_eq, drop, take, length, min, ◌≤◌};
ghost use Rattle.url.specs.Parts.{Parts, nonempty_host, host_or_empty};
ghost use Rattle.url.specs.Host.{host_text};
ghost use Rattle.url.specs.Parser.{parse_url};
ghost use Rattle.acng_conf.specs.Places.{plain_path, is_path, escaped_path, is_plain_host, is_plain_http, has_scheme, as_url, if_plain, plain_of, read_plain, host_and_port, form, with_path, url_entry, prefix_entry, entry_of};

use crate::lines::first_is;
use acng_base::{CachePath, NoMemory, Text};
use percent_encoding::{AsciiSet, NON_ALPHANUMERIC, ascii_set, percent_decode, percent_encode};
use std::alloc::Global;
use std::str;
use url::{Host, ParseError, Position, Url};

/// The bytes that a path escapes: all but letters, digits and `-._~/+,:=@!$&'()*;`.
pub const ESCAPED: AsciiSet = ascii_set!(
    NON_ALPHANUMERIC
        .remove(b'-')
        .remove(b'.')
        .remove(b'_')
        .remove(b'~')
        .remove(b'/')
        .remove(b'+')
        .remove(b',')
        .remove(b':')
        .remove(b'=')
        .remove(b'@')
        .remove(b'!')
        .remove(b'$')
        .remove(b'&')
        .remove(b'\'')
        .remove(b'(')
        .remove(b')')
        .remove(b'*')
        .remove(b';')
);

/// The sections of a group's line that have entries.
#[derive(Clone, Copy)]
pub enum Section {
    /// Places that merge into the group.
    Merging,
    /// URLs that are asked for it.
    Targets,
}

/// The entry that a word of a line writes: a prefix only where places merge. None where it doesn't read.
pub fn entry_of(alloc: Global, section: Section, word: &[u8]) -> Result<Option<Text>, NoMemory>
    ensures { IfOk result (λ entry. entry ≡ entry_of section word.now) }
{
    match section {
        Section::Merging => merging_entry(alloc, word),
        Section::Targets => url_entry(alloc, Section::Targets, word),
    }
}

fn merging_entry(alloc: Global, word: &[u8]) -> Result<Option<Text>, NoMemory>
    ensures { IfOk result (λ entry. entry ≡ entry_of Section.Merging word.now) }
{
    if first_is(b'/', word) {
        prefix_entry(alloc, word)
    } else {
        url_entry(alloc, Section::Merging, word)
    }
}

fn prefix_entry(alloc: Global, word: &[u8]) -> Result<Option<Text>, NoMemory>
    ensures { IfOk result (λ entry. entry ≡ prefix_entry word.now) }
{
    let path = plain_path(alloc, word)?;
    if is_path(path.as_slice()) {
        Ok(Some(Text::of(path)))
    } else {
        Ok(None)
    }
}

/// The entry that a word writes as a URL. None where it doesn't read.
pub fn url_entry(alloc: Global, section: Section, word: &[u8]) -> Result<Option<Text>, NoMemory>
    ensures { IfOk result (λ entry. entry ≡ url_entry section word.now) }
{
    match read_word(alloc, word)? {
        Some(url) => placed(alloc, section, &url),
        None => Ok(None),
    }
}

// The URL that a word is read as, if it is a plain one.
fn read_word(alloc: Global, word: &[u8]) -> Result<Option<Url>, NoMemory>
    ensures { IfOk result (λ url. url ≡ read_plain (as_url word.now)) }
{
    if has_scheme(word) {
        read_plain(alloc, word)
    } else {
        let mut full = Vec::from_slice(alloc, b"http://")?;
        full.extend_from_slice(word)?;
        read_plain(alloc, full.as_slice())
    }
}

// Whether `://` stands in the word.
fn has_scheme(word: &[u8]) -> bool
    ensures { result ≡ has_scheme word.now }
{
    let mut at = 0;
    while at < word.len() {
        if is_scheme_end(&word[at..]) {
            return true;
        }
        at += 1;
    }
    false
}

fn is_scheme_end(rest: &[u8]) -> bool
    ensures { result ≡ bytes_eq (take 3 rest.now) (codes "://") }
{
    rest.starts_with(b"://")
}

fn read_plain(alloc: Global, text: &[u8]) -> Result<Option<Url>, NoMemory>
    ensures { IfOk result (λ url. url ≡ read_plain text.now) }
{
    let Ok(text) = str::from_utf8(text) else {
        return Ok(None);
    };
    parse_plain(alloc, text)
}

fn parse_plain(alloc: Global, text: &str) -> Result<Option<Url>, NoMemory>
    ensures { IfOk result (λ url. url ≡ plain_of (parse_url None text.now)) }
{
    match Url::parse(alloc, text) {
        Ok(url) => Ok(if_plain(url)),
        Err(ParseError::OutOfMemory | ParseError::Overflow) => Err(NoMemory),
        Err(_) => Ok(None),
    }
}

fn if_plain(url: Url) -> Option<Url>
    ensures { result ≡ if_plain url }
{
    if is_plain_http(&url) { Some(url) } else { None }
}

fn is_plain_http(url: &Url) -> bool
    ensures { result ≡ is_plain_http url.now }
{
    has_plain_host(url)
        && url.scheme() == "http"
        && url.username().is_empty()
        && !url.password().is_some()
        && !url.query().is_some()
        && !url.fragment().is_some()
}

fn has_plain_host(url: &Url) -> bool
    ensures { result ≡ is_plain_host (nonempty_host url.now) }
{
    match url.host() {
        Some(Host::Domain(_)) => true,
        Some(Host::Ipv4(_)) => true,
        Some(Host::Ipv6(_)) => false,
        None => false,
    }
}

// The entry of a URL, if its path is one.
fn placed(alloc: Global, section: Section, url: &Url) -> Result<Option<Text>, NoMemory>
    ensures { IfOk result (λ entry. entry ≡ with_path section (host_and_port url.now) (plain_path url.now.path)) }
{
    let path = plain_path(alloc, url.path().as_bytes())?;
    if path.is_empty() || is_path(path.as_slice()) {
        let host = url.slice(Position::BeforeHost, Position::AfterPort);
        Ok(Some(form(alloc, section, host.as_bytes(), path.as_slice())?))
    } else {
        Ok(None)
    }
}

// The canonical form of an entry.
fn form(alloc: Global, section: Section, host: &[u8], path: &[u8]) -> Result<Text, NoMemory>
    ensures { IfOk result (λ text. text ≡ form section host.now path.now) }
{
    match section {
        Section::Merging => merging_form(alloc, host, path),
        Section::Targets => target_form(alloc, host, path),
    }
}

fn merging_form(alloc: Global, host: &[u8], path: &[u8]) -> Result<Text, NoMemory>
    ensures { IfOk result (λ text. text ≡ host.now ++ path.now) }
{
    let mut bytes = Vec::from_slice(alloc, host)?;
    bytes.extend_from_slice(path)?;
    Ok(Text::of(bytes))
}

fn target_form(alloc: Global, host: &[u8], path: &[u8]) -> Result<Text, NoMemory>
    ensures { IfOk result (λ text. text ≡ codes "http://" ++ host.now ++ escaped_path path.now) }
{
    let mut bytes = Vec::from_slice(alloc, b"http://")?;
    bytes.extend_from_slice(host)?;
    push_escaped(&mut bytes, path)?;
    Ok(Text::of(bytes))
}

/// Appends the path with each byte escaped but letters, digits and `-._~/+,:=@!$&'()*;`.
pub fn push_escaped(bytes: &mut Vec<u8>, path: &[u8]) -> Result<(), NoMemory>
    ensures { OnOk result (bytes.new.items ≡ bytes.old.items ++ escaped_path path.now) }
{
    for piece in percent_encode(path, ESCAPED) {
        bytes.extend_from_slice(piece.as_bytes())?;
    }
    Ok(())
}

// The bytes that a path stands for, without empty segments: a slash before each segment.
fn plain_path(alloc: Global, path: &[u8]) -> Result<Vec<u8>, NoMemory>
    ensures { IfOk result (λ bytes. bytes.items ≡ plain_path path.now) }
{
    let mut bytes = Vec::new(alloc);
    push_plain(&mut bytes, path)?;
    Ok(bytes)
}

/// Appends the bytes that a path stands for, without empty segments: a slash before each segment.
///
/// It makes room once, at the start: a byte more than the path has, since the path may lack its first slash.
pub fn push_plain(bytes: &mut Vec<u8>, path: &[u8]) -> Result<(), NoMemory>
    ensures { OnOk result (bytes.new.items ≡ bytes.old.items ++ plain_path path.now) }
{
    bytes.reserve(path.len().saturating_add(1))?;
    // A slash comes with the first byte of a segment, so an empty segment leaves nothing.
    let mut begins = true;
    for b in percent_decode(path) {
        if b == b'/' {
            begins = true;
            continue;
        }
        if begins {
            bytes.push(b'/')?;
            begins = false;
        }
        bytes.push(b)?;
    }
    Ok(())
}

// Whether a plain path, without the slash at its front, is a path of the cache.
fn is_path(path: &[u8]) -> bool
    ensures { result ≡ is_path path.now }
{
    CachePath::refusal(&path[min_one(path)..]).is_none()
}

fn min_one(path: &[u8]) -> usize
    ensures first { result ≡ min 1 (length path.now) }
    ensures within { result ≤ length path.now }
{
    if path.is_empty() { 0 } else { 1 }
}
