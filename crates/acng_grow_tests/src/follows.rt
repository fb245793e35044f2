//! The sending of bodies, in each framing, of each part, in each cutting of the link, and with each call of it failing.
//!
//! The rows of a table are one text, cut at `|`.
ghost use Rattle.std.specs.Prelude.{◌≤◌, ◌^◌, length};

use crate::bodies::{Unmade, running};
use acng_base::MemoryLink;
use acng_grow::{FollowStop, Sending, Why, follow_owned};
use std::alloc::Global;
use std::test::Fail;

// A body that is whole, or broke off three bytes before its end, whose file may fail, and the part that is sent of it.
#[derive(Clone, Copy)]
struct Part {
    whole: bool,
    fails: bool,
    from: u64,
    to: Option<u64>,
    sending: Sending,
}

// What went out: how many body bytes, how it ended, and all bytes.
#[derive(Drop)]
struct Sent {
    count: u64,
    end: char,
    bytes: Vec<u8>,
}

// The whole of a whole body.
fn whole_part(sending: Sending) -> Part {
    Part {
        whole: true,
        fails: false,
        from: 0,
        to: None,
        sending,
    }
}

// Sends a part of a body over a link with a cut and a failing call.
fn follow(alloc: Global, text: &[u8], part: Part, cut: usize, fail: &[u64]) -> Result<Sent, Unmade>
    requires few { length text.now ≤ 2 ^ 20 }
{
    let len = text.len() as u64;
    if cut == 0 || part.to.is_some_and(|to| to > len) {
        return Err(Unmade::Path);
    }
    let reads: &[u64] = if part.fails { &[2] } else { &[] };
    let total = if part.whole { len } else { len + 3 };
    let mut body = running(alloc, reads, text, Some(total))?;
    if part.whole {
        body.finish();
    } else {
        body.cut(Why::Early { attempt: 3 });
    }
    let mut client = MemoryLink::new(alloc, b"", 200_000, cut, fail)?;
    let followed = follow_owned(&mut body, part.from, part.to, part.sending, &mut client);
    let Ok(bytes) = Vec::from_slice(alloc, client.written()) else {
        return Err(Unmade::Memory);
    };
    Ok(Sent {
        count: followed.sent,
        end: letter(&followed.stop),
        bytes,
    })
}

fn letter<Q>(stop: &FollowStop<Q>) -> char {
    match stop {
        FollowStop::Whole => 'w',
        FollowStop::Cut(_) => 'c',
        FollowStop::Slip(_) => 's',
        FollowStop::ClientFault => 'f',
    }
}

fn number(word: Option<&str>) -> Option<u64> {
    word?.parse::<u64>().ok()
}

// `w` for a whole body, from, to or `-`, and how it is framed: `l`, `c` or `e`.
fn part_of(words: &str) -> Option<Part> {
    let mut words = words.split(' ');
    let whole = words.next()? == "w";
    let from = number(words.next())?;
    let to = number(words.next());
    let sending = match words.next()? {
        "l" => Sending::Length,
        "c" => Sending::Chunked,
        _ => Sending::ToEnd,
    };
    Some(Part {
        whole,
        fails: false,
        from,
        to,
        sending,
    })
}

// The part, what ends it, and all that is written.
const PARTS: &str = "\
w 0 - l^w^abcdef|\
w 2 4 l^w^cd|\
w 6 - l^w^|\
w 4 2 l^w^|\
w 0 - c^w^6\r\nabcdef\r\n0\r\n\r\n|\
w 1 3 c^w^2\r\nbc\r\n0\r\n\r\n|\
w 6 - c^w^0\r\n\r\n|\
w 3 - e^w^def|\
- 0 - l^c^abcdef|\
- 0 - c^c^6\r\nabcdef\r\n|\
- 0 - e^c^abcdef|\
- 0 4 c^w^4\r\nabcd\r\n0\r\n\r\n|\
- 7 - l^c^";

// Whether a row of them holds, with the link taking so many bytes a call.
fn holds(alloc: Global, row: &str, cut: usize) -> Option<bool> {
    let mut fields = row.split('^');
    let part = part_of(fields.next()?)?;
    let end = fields.next()?;
    let bytes = fields.next()?;
    let sent = follow(alloc, b"abcdef", part, cut, &[]).ok()?;
    Some(end.starts_with(sent.end) && sent.bytes.as_slice() == bytes.as_bytes())
}

#[test]
fn the_part_goes_out_as_it_is_framed(rt: HostRuntime) -> Result<(), Fail> {
    let alloc = rt.alloc();
    for row in PARTS.split('|') {
        for cut in [1, 2, 7, 100] {
            assert!(rt; holds(alloc, row, cut) == Some(true), "{row}");
        }
    }
    Ok(())
}

// The call that fails, how many bytes were written before it, and how many of them were the body's. Two bytes a call: the
// chunk goes out in six calls, and what follows it in three.
const CALLS: &str = "0 0 0|1 2 0|2 4 1|3 6 3|4 8 5|5 10 6|6 11 6|7 13 6|8 15 6";

fn breaks(alloc: Global, row: &str) -> Option<bool> {
    let mut words = row.split(' ');
    let call = number(words.next())?;
    let written = number(words.next())?;
    let count = number(words.next())?;
    let sent = follow(alloc, b"abcdef", whole_part(Sending::Chunked), 2, &[call]).ok()?;
    let all = b"6\r\nabcdef\r\n0\r\n\r\n".as_slice();
    Some(
        sent.end == 'f'
            && sent.count == count
            && sent.bytes.len() as u64 == written
            && all.starts_with(sent.bytes.as_slice()),
    )
}

#[test]
fn a_link_that_fails_took_what_it_took(rt: HostRuntime) -> Result<(), Fail> {
    let alloc = rt.alloc();
    for row in CALLS.split('|') {
        assert!(rt; breaks(alloc, row) == Some(true), "{row}");
    }
    Ok(())
}

#[test]
fn a_body_that_fails_is_a_slip(rt: HostRuntime) -> Result<(), Fail> {
    let mut part = whole_part(Sending::Length);
    part.fails = true;
    let sent = follow(rt.alloc(), b"abcdef", part, 100, &[]);
    assert!(rt;
        matches!(&sent, Ok(sent) if sent.count == 0 && sent.end == 's' && sent.bytes.is_empty())
    );
    Ok(())
}

// 65,536 bytes fit in a frame: one more makes a chunk of its own.
#[test]
fn a_long_body_goes_out_in_frames(rt: HostRuntime) -> Result<(), Fail> {
    let alloc = rt.alloc();
    let text = vec![in alloc; b'x'; 65_537]?;
    let Ok(sent) = follow(
        alloc,
        text.as_slice(),
        whole_part(Sending::Chunked),
        100_000,
        &[],
    ) else {
        assert!(rt; false, "the body is there");
        return Ok(());
    };
    let bytes = sent.bytes.as_slice();
    assert!(rt;
        sent.count == 65_537 && sent.end == 'w' && bytes.len() == 7 + 65_536 + 2 + 3 + 1 + 2 + 5
    );
    assert!(rt;
        bytes.starts_with(b"10000\r\nxxx") && bytes.ends_with(b"xxx\r\n1\r\nx\r\n0\r\n\r\n")
    );
    Ok(())
}
