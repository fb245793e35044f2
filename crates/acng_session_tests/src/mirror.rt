//! A mirror over memory that answers for each place by its kind.
use crate::places::{
    Kind, LAST_EDITION, PLACES, Place, attempts_of, byte_of, is_unchanged, minute_of, place_of,
};
use acng_base::{NoMemory, PathFault, Text};
use acng_site::{MemoryOrigin, NoGate, Right, Rule, Untold};
use std::alloc::{AllocError, AllocFailed, Global};

/// Why what a test needs couldn't be made.
#[derive(Clone, Copy, Debug, Drop)]
pub struct Unmade;

impl From<NoMemory> for Unmade {
    fn from(_: NoMemory) -> Unmade {
        Unmade
    }
}

impl From<PathFault> for Unmade {
    fn from(_: PathFault) -> Unmade {
        Unmade
    }
}

impl From<AllocError> for Unmade {
    fn from(_: AllocError) -> Unmade {
        Unmade
    }
}

impl<T: Drop> From<AllocFailed<T>> for Unmade {
    fn from(_: AllocFailed<T>) -> Unmade {
        Unmade
    }
}

pub type Mirror = MemoryOrigin<Untold, NoGate>;

/// How many bytes a read of an answer gives at most.
const CUT: usize = 1_500;

/// A mirror of all places, and the right to its attempts.
pub fn start(alloc: Global) -> Result<(Mirror, Right<Untold>), Unmade> {
    let rules = rules(alloc)?;
    Ok(started(alloc, rules.as_slice())?)
}

fn started(alloc: Global, rules: &[Rule]) -> Result<(Mirror, Right<Untold>), NoMemory> {
    MemoryOrigin::<Untold, NoGate>::start(alloc, rules, CUT, NoGate)
}

fn rules(alloc: Global) -> Result<Vec<Rule>, Unmade> {
    let mut rules = Vec::new(alloc);
    for number in 0..PLACES {
        push_rules(alloc, place_of(number), &mut rules)?;
    }
    Ok(rules)
}

// The rules of a place.
fn push_rules(alloc: Global, place: Place, rules: &mut Vec<Rule>) -> Result<(), Unmade> {
    match place.kind {
        Kind::Index | Kind::Steady => push_turns(alloc, place, rules),
        Kind::GoesOn => push_parts(alloc, place, rules),
        Kind::Moved => push_moved(alloc, place, rules),
        Kind::Silent | Kind::Forbidden => Ok(()),
        _ => {
            let bytes = answer(alloc, place)?;
            let fault = place.kind == Kind::Broken;
            push(rules, rule(alloc, place.path, 0, bytes, fault)?)
        }
    }
}

fn push(rules: &mut Vec<Rule>, rule: Rule) -> Result<(), Unmade> {
    rules.push(rule)?;
    Ok(())
}

// What asks from a place get in all attempts.
fn rule(alloc: Global, path: &str, from: u64, bytes: Vec<u8>, fault: bool) -> Result<Rule, Unmade> {
    let url = format!(in alloc; "http://{path}")?;
    Ok(Rule {
        url: Text::copy(alloc, url.as_str().as_bytes())?,
        from,
        first: 0,
        last: u64::MAX,
        bytes: Text::of(bytes),
        fault,
    })
}

// The answer of a place that has one.
fn answer(alloc: Global, place: Place) -> Result<Vec<u8>, Unmade> {
    let text = match place.kind {
        Kind::Missing => "HTTP/1.1 404 Not Found\r\n\r\n",
        Kind::Faulty => "HTTP/1.1 500 Internal Server Error\r\n\r\n",
        Kind::Chunked => return chunked(alloc, place),
        Kind::ToEnd => return to_end(alloc, place),
        Kind::Broken | Kind::Short => return front(alloc, place),
        _ => return whole(alloc, place, 0),
    };
    Ok(Vec::from_slice(alloc, text.as_bytes())?)
}

/// The lines of an edition's tag and date.
pub fn marks(alloc: Global, number: u64, edition: u64) -> Result<String, Unmade> {
    let minute = minute_of(edition);
    Ok(format!(in alloc;
        "ETag: \"t{number}-{edition}\"\r\nLast-Modified: Thu, 01 Jan 1970 00:{minute}:40 GMT\r\n"
    )?)
}

// Adds the bytes of an edition from a place up to another one.
fn push_bytes(
    bytes: &mut Vec<u8>,
    number: u64,
    edition: u64,
    from: u64,
    stop: u64,
) -> Result<(), Unmade> {
    for at in from..stop {
        bytes.push(byte_of(number, edition, at))?;
    }
    Ok(())
}

// A whole file with its length.
fn whole(alloc: Global, place: Place, edition: u64) -> Result<Vec<u8>, Unmade> {
    let len = place.length(edition);
    let marks = marks(alloc, place.number, edition)?;
    let marks = marks.as_str();
    let head = format!(in alloc; "HTTP/1.1 200 OK\r\nContent-Length: {len}\r\n{marks}\r\n")?;
    let mut bytes = Vec::from_slice(alloc, head.as_str().as_bytes())?;
    push_bytes(&mut bytes, place.number, edition, 0, len)?;
    Ok(bytes)
}

// A whole file in two chunks.
fn chunked(alloc: Global, place: Place) -> Result<Vec<u8>, Unmade> {
    let marks = marks(alloc, place.number, 0)?;
    let marks = marks.as_str();
    let head = format!(in alloc; "HTTP/1.1 200 OK\r\nTransfer-Encoding: chunked\r\n{marks}\r\n")?;
    let mut bytes = Vec::from_slice(alloc, head.as_str().as_bytes())?;
    push_chunk(alloc, &mut bytes, place.number, 0, place.front())?;
    push_chunk(alloc, &mut bytes, place.number, place.front(), place.len)?;
    bytes.extend_from_slice(b"0\r\n\r\n")?;
    Ok(bytes)
}

// A chunk of the bytes from a place up to another one. There is none of no bytes.
fn push_chunk(
    alloc: Global,
    bytes: &mut Vec<u8>,
    number: u64,
    from: u64,
    stop: u64,
) -> Result<(), Unmade> {
    let len = stop.saturating_sub(from);
    if len == 0 {
        return Ok(());
    }
    let line = format!(in alloc; "{len:x}\r\n")?;
    bytes.extend_from_slice(line.as_str().as_bytes())?;
    push_bytes(bytes, number, 0, from, stop)?;
    bytes.extend_from_slice(b"\r\n")?;
    Ok(())
}

// A whole file up to the connection's end.
fn to_end(alloc: Global, place: Place) -> Result<Vec<u8>, Unmade> {
    let mut bytes = Vec::from_slice(alloc, b"HTTP/1.1 200 OK\r\n\r\n")?;
    push_bytes(&mut bytes, place.number, 0, 0, place.len)?;
    Ok(bytes)
}

// The front of a file whose length is told.
fn front(alloc: Global, place: Place) -> Result<Vec<u8>, Unmade> {
    let len = place.len;
    let head = format!(in alloc; "HTTP/1.1 200 OK\r\nContent-Length: {len}\r\n\r\n")?;
    let mut bytes = Vec::from_slice(alloc, head.as_str().as_bytes())?;
    push_bytes(&mut bytes, place.number, 0, 0, place.front())?;
    Ok(bytes)
}

// A file that comes in two parts, the first of which ends in a fault.
fn push_parts(alloc: Global, place: Place, rules: &mut Vec<Rule>) -> Result<(), Unmade> {
    let (path, number, len, first) = (place.path, place.number, place.len, place.front());
    let marks = marks(alloc, number, 0)?;
    let marks = marks.as_str();
    let head = format!(in alloc; "HTTP/1.1 200 OK\r\nContent-Length: {len}\r\n{marks}\r\n")?;
    let mut bytes = Vec::from_slice(alloc, head.as_str().as_bytes())?;
    push_bytes(&mut bytes, number, 0, 0, first)?;
    push(rules, rule(alloc, path, 0, bytes, true)?)?;
    let last = len.saturating_sub(1);
    let head = format!(in alloc;
        "HTTP/1.1 206 Partial Content\r\nContent-Range: bytes {first}-{last}/{len}\r\n{marks}\r\n"
    )?;
    let mut bytes = Vec::from_slice(alloc, head.as_str().as_bytes())?;
    push_bytes(&mut bytes, number, 0, first, len)?;
    push(rules, rule(alloc, path, first, bytes, false)?)
}

// That a file is elsewhere, and the file.
fn push_moved(alloc: Global, place: Place, rules: &mut Vec<Rule>) -> Result<(), Unmade> {
    let head = b"HTTP/1.1 302 Found\r\nLocation: http://h/elsewhere\r\n\r\n";
    let bytes = Vec::from_slice(alloc, head)?;
    push(rules, rule(alloc, place.path, 0, bytes, false)?)?;
    let bytes = whole(alloc, place, 0)?;
    push(rules, rule(alloc, "h/elsewhere", 0, bytes, false)?)
}

// What an index answers in each turn.
fn push_turns(alloc: Global, place: Place, rules: &mut Vec<Rule>) -> Result<(), Unmade> {
    for turn in 0..=LAST_EDITION {
        let (first, last) = attempts_of(turn);
        let bytes = if place.kind == Kind::Steady && is_unchanged(first) {
            Vec::from_slice(alloc, b"HTTP/1.1 304 Not Modified\r\n\r\n")?
        } else {
            whole(alloc, place, place.edition(first))?
        };
        let mut rule = rule(alloc, place.path, 0, bytes, false)?;
        rule.first = first;
        rule.last = last;
        rules.push(rule)?;
    }
    Ok(())
}
