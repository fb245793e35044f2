//! The request that an ask is sent as (RFC 9112, section 3).
//!
//! The URL Standard's parser leaves no blank, control or line end in the parts that are written, so a URL can't put a
//! field of its own into the request.
ghost use Rattle.std.specs.Prelude.{◌≡◌, ◌<◌, ◌++◌, List, ℕ, codes, decimal, IfOk, IfSome, OnOk, IsErrOf, IsOkUnless};
ghost use Rattle.httpdate.specs.Date.{unix_secs};
ghost use Rattle.url.specs.Parts.{Parts};
ghost use Rattle.acng_base.specs.Moments.{moment_limit};
ghost use Rattle.acng_site.specs.Requests.{IsDialed, IsRequestOf, IsSinceLine, host_part, is_literal, range_lines, target};

use crate::ask::Ask;
use acng_base::{Moment, NoMemory, Text};
use httpdate::HttpDate;
use itoa::Buffer;
use std::alloc::Global;
use std::str;
use url::{Host, ParseError, Position, Url};

/// Why a text isn't taken as the URL of an ask.
#[derive(Clone, Copy, Debug, PartialEq, Eq)]
pub enum UrlFault {
    /// It doesn't read as a URL, its scheme isn't `http`, or its host is an IPv6 literal.
    NotDialed,
    /// Memory was refused, or the URL came to 4 GB.
    NoMemory,
}

/// A request, and the URL whose host it is sent to.
#[derive(Drop)]
pub struct Request {
    pub url: Url,
    pub text: Text,
}

impl Request {
    /// The request of an ask. A moment to compare with is one that HTTP can write: before the year 10000.
    pub fn of(alloc: Global, ask: &Ask) -> Result<Request, UrlFault>
        requires since { IfSome ask.now.since (λ moment. moment.0 < moment_limit) }
        ensures url { IfOk result (λ request. IsDialed ask.now.url request.url) }
        ensures text { IfOk result (λ request. IsRequestOf request.url ask.now request.text) }
        ensures accepted { (u : Parts) → IsDialed ask.now.url u → IsOkUnless result UrlFault.NoMemory }
        ensures not_dialed { IsErrOf result UrlFault.NotDialed → (u : Parts) → ¬ (IsDialed ask.now.url u) }
    {
        let url = http_url(alloc, ask.url.as_bytes())?;
        let Ok(text) = ask_text(alloc, &url, ask) else {
            return Err(UrlFault::NoMemory);
        };
        Ok(Request { url, text })
    }
}

// Reads the URL of an ask.
fn http_url(alloc: Global, text: &[u8]) -> Result<Url, UrlFault>
    ensures url { IfOk result (λ url. IsDialed text.now url) }
    ensures accepted { (u : Parts) → IsDialed text.now u → IsOkUnless result UrlFault.NoMemory }
    ensures not_dialed { IsErrOf result UrlFault.NotDialed → (u : Parts) → ¬ (IsDialed text.now u) }
{
    let Ok(text) = str::from_utf8(text) else {
        return Err(UrlFault::NotDialed);
    };
    match Url::parse(alloc, text) {
        Ok(url) if url.scheme() == "http" && !has_literal(&url) => Ok(url),
        Err(ParseError::OutOfMemory | ParseError::Overflow) => Err(UrlFault::NoMemory),
        _ => Err(UrlFault::NotDialed),
    }
}

// Whether the host is an IPv6 literal, which isn't dialed.
pub(crate) fn has_literal(url: &Url) -> bool
    ensures { result ≡ is_literal url.now.host }
{
    matches!(url.host(), Some(Host::Ipv6(_)))
}

// The text that asks for it at the URL.
fn ask_text(alloc: Global, url: &Url, ask: &Ask) -> Result<Text, NoMemory>
    requires since { IfSome ask.now.since (λ moment. moment.0 < moment_limit) }
    ensures { IfOk result (λ text. IsRequestOf url.now ask.now text) }
{
    let mut text = Vec::from_slice(alloc, b"GET ")?;
    push_target(&mut text, url)?;
    text.extend_from_slice(b" HTTP/1.1\r\nHost: ")?;
    push_host(&mut text, url)?;
    text.extend_from_slice(b"\r\nUser-Agent: acng\r\nConnection: close\r\n")?;
    push_range(&mut text, ask)?;
    push_since(&mut text, ask)?;
    text.extend_from_slice(b"\r\n")?;
    Ok(Text::of(text))
}

fn push_target(text: &mut Vec<u8>, url: &Url) -> Result<(), NoMemory>
    ensures { OnOk result (text.new.items ≡ text.old.items ++ target url.now) }
{
    let target = url.slice(Position::BeforePath, Position::AfterQuery);
    text.extend_from_slice(target.as_bytes())?;
    Ok(())
}

fn push_host(text: &mut Vec<u8>, url: &Url) -> Result<(), NoMemory>
    ensures { OnOk result (text.new.items ≡ text.old.items ++ host_part url.now) }
{
    let host = url.slice(Position::BeforeHost, Position::AfterPort);
    text.extend_from_slice(host.as_bytes())?;
    Ok(())
}

fn push_range(text: &mut Vec<u8>, ask: &Ask) -> Result<(), NoMemory>
    ensures { OnOk result (text.new.items ≡ text.old.items ++ range_lines ask.now.from ask.now.tag) }
{
    let Some(tag) = &ask.tag else {
        return Ok(());
    };
    text.extend_from_slice(b"Range: bytes=")?;
    text.extend_from_slice(Buffer::new().format(ask.from).as_bytes())?;
    text.extend_from_slice(b"-\r\nIf-Range: ")?;
    text.extend_from_slice(tag.as_bytes())?;
    text.extend_from_slice(b"\r\n")?;
    Ok(())
}

fn push_since(text: &mut Vec<u8>, ask: &Ask) -> Result<(), NoMemory>
    requires since { IfSome ask.now.since (λ moment. moment.0 < moment_limit) }
    ensures { OnOk result ((line : List ℕ) × IsSinceLine ask.now.since line × (text.new.items ≡ text.old.items ++ line)) }
{
    let Some(moment) = ask.since else {
        return Ok(());
    };
    text.extend_from_slice(b"If-Modified-Since: ")?;
    text.extend_from_slice(date_of(moment).to_bytes().as_slice())?;
    text.extend_from_slice(b"\r\n")?;
    Ok(())
}

fn date_of(moment: Moment) -> HttpDate
    requires { moment.0 < moment_limit }
    ensures { unix_secs result ≡ moment.0 }
{
    HttpDate::from_unix_secs(moment.0).unwrap()
}
