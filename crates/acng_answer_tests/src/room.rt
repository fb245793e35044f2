//! Blocks at their limits: 64 fields and 16,384 bytes of a head, 1,024 bytes of a size line, 16,383 bytes of the lines
//! after the last chunk.

use crate::hearing::{LIMIT, WHOLE, hear};
use acng_answer::Step;
use std::alloc::Global;
use std::process::Abort;
use std::test::Fail;

/// An answer with a block to be filled: what stands before the filling, the filling and what it counts, and what
/// follows.
struct Block {
    front: &'static [u8],
    filling: &'static [u8],
    unit: &'static str,
    rest: &'static [u8],
}

const FIELDS: Block = Block {
    front: b"HTTP/1.1 200 OK\r\nContent-Length: 1\r\n",
    filling: b"a: b\r\n",
    unit: "fields",
    rest: b"\r\nx",
};

const HEAD: Block = Block {
    front: b"HTTP/1.1 200 OK\r\nContent-Length: 1\r\na: ",
    filling: b"b",
    unit: "bytes",
    rest: b"\r\n\r\nx",
};

const SIZE_LINE: Block = Block {
    front: b"HTTP/1.1 200 OK\r\nTransfer-Encoding: chunked\r\n\r\n0;",
    filling: b"x",
    unit: "bytes",
    rest: b"\r\n\r\n",
};

const LAST_LINES: Block = Block {
    front: b"HTTP/1.1 200 OK\r\nTransfer-Encoding: chunked\r\n\r\n0\r\nt: ",
    filling: b"u",
    unit: "bytes",
    rest: b"\r\n\r\n",
};

// The answer's text, with `count` times the filling.
fn filled(alloc: Global, block: &Block, count: usize) -> Result<Vec<u8>, Fail> {
    let mut text = Vec::from_slice(alloc, block.front)?;
    for _ in 0..count {
        text.extend_from_slice(block.filling)?;
    }
    text.extend_from_slice(block.rest)?;
    Ok(text)
}

// Hears the answer with `count` times the filling in each cut.
fn expect_end(
    rt: &impl Abort,
    alloc: Global,
    block: &Block,
    cuts: &[usize],
    (count, end): (usize, Option<Step>),
) -> Result<(), Fail> {
    let text = filled(alloc, block, count)?;
    let unit = block.unit;
    for cut in cuts {
        let heard = hear(alloc, &text, true, LIMIT, *cut)?;
        assert_eq!(rt; heard.end, end, "{count} {unit} more in cuts of {cut}");
    }
    Ok(())
}

#[test]
fn a_head_has_at_most_64_fields(rt: HostRuntime) -> Result<(), Fail> {
    let cuts = [4096];
    expect_end(&rt, rt.alloc(), &FIELDS, &cuts, (63, WHOLE))?;
    expect_end(&rt, rt.alloc(), &FIELDS, &cuts, (64, bad(0)))
}

#[test]
fn a_head_has_at_most_16384_bytes(rt: HostRuntime) -> Result<(), Fail> {
    let cuts = [7, 4096, 65_536];
    expect_end(&rt, rt.alloc(), &HEAD, &cuts, (16_341, WHOLE))?;
    expect_end(&rt, rt.alloc(), &HEAD, &cuts, (16_342, bad(0)))
}

#[test]
fn a_size_line_has_at_most_1024_bytes(rt: HostRuntime) -> Result<(), Fail> {
    let cuts = [7, 4096];
    expect_end(&rt, rt.alloc(), &SIZE_LINE, &cuts, (1_020, WHOLE))?;
    expect_end(&rt, rt.alloc(), &SIZE_LINE, &cuts, (1_021, bad(47)))
}

#[test]
fn the_lines_after_the_last_chunk_have_fewer_than_16384_bytes(rt: HostRuntime) -> Result<(), Fail> {
    let cuts = [7, 4096, 65_536];
    expect_end(&rt, rt.alloc(), &LAST_LINES, &cuts, (16_377, WHOLE))?;
    expect_end(&rt, rt.alloc(), &LAST_LINES, &cuts, (16_378, bad(50)))
}

fn bad(at: u64) -> Option<Step> {
    Some(Step::Bad { at })
}
