//! What clients ask for: for each client and each of its requests drawn from a seed.
use crate::mirror::Unmade;
use crate::places::{PLACES, place_of};
use std::alloc::Global;

/// How many clients there are, and how many requests each makes.
pub const CLIENTS: u64 = 8;

pub const REQUESTS: u64 = 200;

/// How many pages are asked for by all clients, and how many of them behind a run of expiration.
pub const PAGES: u64 = 10;

/// In which way a file is asked for.
#[derive(Clone, Copy, Debug, PartialEq, Eq)]
pub enum Form {
    Whole,
    Head,
    /// From a place on.
    From(u64),
    /// From a place through another one.
    Part(u64, u64),
    /// Where it is later than the fortieth second of a minute of the first hour of 1970.
    Since(u64),
    /// As the last request of a connection.
    Close,
}

/// What a request asks for.
#[derive(Clone, Copy, Debug, PartialEq, Eq)]
pub enum Wish {
    File { number: u64, form: Form },
    Page,
    Run,
}

/// A number that is as good as drawn by chance.
pub fn drawn(seed: u64, client: u64, request: u64) -> u64 {
    let mixed = seed
        .wrapping_mul(0x9e37_79b9_7f4a_7c15)
        .wrapping_add(client.wrapping_mul(0xbf58_476d_1ce4_e5b9))
        .wrapping_add(request.wrapping_mul(0x94d0_49bb_1331_11eb));
    let mixed = (mixed ^ (mixed >> 30)).wrapping_mul(0xbf58_476d_1ce4_e5b9);
    let mixed = (mixed ^ (mixed >> 27)).wrapping_mul(0x94d0_49bb_1331_11eb);
    mixed ^ (mixed >> 31)
}

/// What a client's request asks for. The first two clients ask for runs of expiration, and the third one for pages.
pub fn wish_of(seed: u64, client: u64, request: u64) -> Wish {
    if client < 2 && request % 50 == 49 {
        return Wish::Run;
    }
    if client == 2 && request % 100 == 60 {
        return Wish::Page;
    }
    let drawn = drawn(seed, client, request);
    let number = drawn % PLACES;
    let len = place_of(number).len;
    Wish::File {
        number,
        form: form_of(
            (drawn >> 20) % 16,
            (drawn >> 40) % len.saturating_add(9).max(1),
        ),
    }
}

// A form by a number below 16, with a place where it has one.
fn form_of(way: u64, at: u64) -> Form {
    match way {
        0..=6 => Form::Whole,
        7 | 8 => Form::Head,
        9 | 10 => Form::From(at),
        11 | 12 => Form::Part(at, at.saturating_add(100)),
        13 => Form::Since(10),
        14 => Form::Since(20),
        _ => Form::Close,
    }
}

/// The moment of a client's request.
pub fn moment_of(client: u64, request: u64) -> u64 {
    request
        .saturating_mul(10)
        .saturating_add(client)
        .saturating_add(100_000)
}

/// What a client sends from a request on.
pub fn asks_from(alloc: Global, seed: u64, client: u64, from: u64) -> Result<String, Unmade> {
    let mut text = String::new(alloc);
    for request in from..REQUESTS {
        push_ask(alloc, wish_of(seed, client, request), &mut text)?;
    }
    Ok(text)
}

/// The moments of a client's requests from one on, and one behind them.
pub fn moments_from(alloc: Global, client: u64, from: u64) -> Result<Vec<u64>, Unmade> {
    let mut moments = Vec::new(alloc);
    for request in from..=REQUESTS {
        moments.push(moment_of(client, request))?;
    }
    Ok(moments)
}

fn push_ask(alloc: Global, wish: Wish, text: &mut String) -> Result<(), Unmade> {
    match wish {
        Wish::Page => text.push_str("GET /acng-report.html HTTP/1.1\r\n\r\n")?,
        Wish::Run => text.push_str("GET /acng-report.html?run=expire HTTP/1.1\r\n\r\n")?,
        Wish::File { number, form } => {
            let method = if form == Form::Head { "HEAD" } else { "GET" };
            let before = if number % 2 == 0 { "http://" } else { "/" };
            let path = place_of(number).path;
            let line = format!(in alloc; "{method} {before}{path} HTTP/1.1\r\n")?;
            text.push_str(line.as_str())?;
            push_field(alloc, form, text)?;
            text.push_str("\r\n")?;
        }
    }
    Ok(())
}

// The field of a form that has one.
fn push_field(alloc: Global, form: Form, text: &mut String) -> Result<(), Unmade> {
    let field = match form {
        Form::Whole | Form::Head => return Ok(()),
        Form::From(from) => format!(in alloc; "Range: bytes={from}-\r\n")?,
        Form::Part(first, last) => format!(in alloc; "Range: bytes={first}-{last}\r\n")?,
        Form::Since(minute) => format!(in alloc;
            "If-Modified-Since: Thu, 01 Jan 1970 00:{minute}:40 GMT\r\n"
        )?,
        Form::Close => format!(in alloc; "Connection: close\r\n")?,
    };
    text.push_str(field.as_str())?;
    Ok(())
}
