//! Where the Location of a redirect leads (RFC 9110, section 10.2.2).
//!
//! A Location is a reference, which is read against the asked URL by the URL Standard.
ghost use Rattle.std.specs.Prelude.{◌≡◌, ◌==◌, bytes_eq, codes, IfOk};
ghost use Rattle.std.specs.Option.{option_copied};
ghost use Rattle.url.specs.Parser.{Parsed, Gives};
ghost use Rattle.url.specs.Parts.{Parts};
ghost use Rattle.acng_site.specs.Places.{place_at as place_at_url, place_of, read_of, resolved};

use crate::request::has_literal;
use acng_base::{NoMemory, Text};
use std::alloc::Global;
use std::str;
use url::{ParseError, ParseResult, Url};

/// Where a Location leads.
#[derive(Debug, Drop)]
pub enum Place {
    /// There is no Location.
    Absent,
    /// It, or the asked URL, doesn't read as a URL, or it has another scheme, or an IPv6 literal as its host.
    Stray,
    /// To `https`, which isn't followed.
    Secure,
    /// To this URL of the scheme `http`.
    At(Text),
}

impl Place {
    /// Where the Location of an answer leads that was asked at a URL.
    pub fn of(alloc: Global, url: &[u8], location: Option<&[u8]>) -> Result<Place, NoMemory>
        ensures { IfOk result (λ place. place ≡ place_of url.now (option_copied location.entry)) }
    {
        let Some(location) = location else {
            return Ok(Place::Absent);
        };
        match resolve(alloc, url, location)? {
            Some(url) => place_at(alloc, &url),
            None => Ok(Place::Stray),
        }
    }
}

// The URL that the reference names; None where one of both doesn't read.
fn resolve(alloc: Global, url: &[u8], reference: &[u8]) -> Result<Option<Url>, NoMemory>
    ensures { IfOk result (λ found. found ≡ resolved url.now reference.now) }
{
    let Ok(url) = str::from_utf8(url) else {
        return Ok(None);
    };
    let Ok(reference) = str::from_utf8(reference) else {
        return Ok(None);
    };
    let Some(base) = taken(Url::parse(alloc, url))? else {
        return Ok(None);
    };
    let found = taken(base.join(reference))?;
    Ok(found)
}

// The URL of a parse that wasn't refused.
fn taken(parsed: ParseResult<Url>) -> Result<Option<Url>, NoMemory>
    ensures { IfOk result (λ url. (expected : Parsed Parts) → Gives parsed expected → url ≡ read_of expected) }
{
    match parsed {
        Ok(url) => Ok(Some(url)),
        Err(ParseError::OutOfMemory | ParseError::Overflow) => Err(NoMemory),
        Err(_) => Ok(None),
    }
}

fn place_at(alloc: Global, url: &Url) -> Result<Place, NoMemory>
    ensures { IfOk result (λ place. place ≡ place_at_url url.now) }
{
    if has_literal(url) {
        return Ok(Place::Stray);
    }
    match url.scheme() {
        "https" => Ok(Place::Secure),
        "http" => Ok(Place::At(Text::copy(alloc, url.as_str().as_bytes())?)),
        _ => Ok(Place::Stray),
    }
}
