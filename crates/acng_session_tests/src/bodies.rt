//! The bodies of files' replies: which bytes were sent, by the file's own, and how the body's end was told.
use crate::places::{Place, are_of};
use crate::tally::Wrong;

/// What is looked for in a reply's body: the bytes of an edition from a place up to another one, and whether the note says
/// that all of them were sent.
#[derive(Clone, Copy)]
pub struct Sought {
    pub place: Place,
    pub edition: u64,
    pub from: u64,
    pub stop: u64,
    pub whole: bool,
}

/// A body that was found: how many bytes it takes of the connection, and how many bytes of the file it has.
#[derive(Clone, Copy)]
pub struct Found {
    pub taken: usize,
    pub sent: u64,
}

impl Sought {
    fn len(self) -> u64 {
        self.stop.saturating_sub(self.from)
    }

    // Whether the bytes are the file's from so many bytes behind the first on, and the mirror has so many.
    fn has(self, bytes: &[u8], behind: u64) -> bool {
        let from = self.from.saturating_add(behind);
        let stop = from.saturating_add(bytes.len() as u64);
        let there = self.place.there(self.edition);
        (stop <= there || bytes.is_empty()) && are_of(bytes, self.place.number, self.edition, from)
    }
}

/// The body at the front of what is left of a connection, whose length the head tells. A body that was cut is the last of
/// its connection.
pub fn sized(rest: &[u8], sought: Sought) -> Result<Found, Wrong> {
    let len = usize::try_from(sought.len()).map_err(|_| Wrong::Body)?;
    let taken = if sought.whole { len } else { rest.len() };
    let body = rest.get(..taken).ok_or(Wrong::Body)?;
    if !sought.has(body, 0) {
        return Err(Wrong::Body);
    }
    if !sought.whole && taken >= len {
        return Err(Wrong::Whole);
    }
    Ok(Found {
        taken,
        sent: taken as u64,
    })
}

/// The same of a body in chunks.
pub fn chunked(rest: &[u8], sought: Sought) -> Result<Found, Wrong> {
    let mut taken = 0usize;
    let mut sent = 0u64;
    for _ in 0..=rest.len() {
        let tail = rest.get(taken..).unwrap_or(b"");
        if tail.is_empty() {
            return cut(sought, taken, sent);
        }
        let (line, len) = size_line(tail)?;
        if len == 0 {
            return last(tail, sought, taken, sent);
        }
        let data = data_of(tail, line, len)?;
        if !sought.has(data, sent) {
            return Err(Wrong::Body);
        }
        taken = taken
            .saturating_add(line)
            .saturating_add(len)
            .saturating_add(2);
        sent = sent.saturating_add(len as u64);
    }
    Err(Wrong::Chunk)
}

// Behind the chunks the connection ends.
fn cut(sought: Sought, taken: usize, sent: u64) -> Result<Found, Wrong> {
    if sought.whole || sent > sought.len() {
        return Err(Wrong::Whole);
    }
    Ok(Found { taken, sent })
}

// Behind the chunks the last one stands.
fn last(tail: &[u8], sought: Sought, taken: usize, sent: u64) -> Result<Found, Wrong> {
    if !tail.starts_with(b"0\r\n\r\n") {
        return Err(Wrong::Chunk);
    }
    if !sought.whole || sent != sought.len() {
        return Err(Wrong::Whole);
    }
    Ok(Found {
        taken: taken.saturating_add(5),
        sent,
    })
}

// The length of a chunk's first line with its end, and the size that it tells.
fn size_line(tail: &[u8]) -> Result<(usize, usize), Wrong> {
    let mut size = 0usize;
    for (i, byte) in tail.iter().enumerate() {
        if *byte == b'\r' && i > 0 && tail.get(i.saturating_add(1)) == Some(&b'\n') {
            return Ok((i.saturating_add(2), size));
        }
        let digit = digit_of(*byte).ok_or(Wrong::Chunk)?;
        size = size.saturating_mul(16).saturating_add(digit);
    }
    Err(Wrong::Chunk)
}

fn digit_of(byte: u8) -> Option<usize> {
    match byte {
        b'0'..=b'9' => Some(usize::from(byte.saturating_sub(b'0'))),
        b'a'..=b'f' => Some(usize::from(byte.saturating_sub(b'a')).saturating_add(10)),
        _ => None,
    }
}

// The bytes of a chunk, behind which its line ends.
fn data_of(tail: &[u8], line: usize, len: usize) -> Result<&[u8], Wrong> {
    let stop = line.saturating_add(len);
    let end = tail.get(stop..stop.saturating_add(2));
    if end != Some(b"\r\n".as_slice()) {
        return Err(Wrong::Chunk);
    }
    tail.get(line..stop).ok_or(Wrong::Chunk)
}
