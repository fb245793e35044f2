//! Answers of every framing, each in cuts of 1, 2, 7 and 4,096 bytes. Expected values are by hand, from RFC 9112,
//! sections 2.2, 4, 6 and 7.1, RFC 9110, sections 14.4 and 15, and from this project's limits.

use crate::hearing::{EARLY, LIMIT, OPEN, Row, WHOLE, expect_all};
use acng_answer::Step;
use std::test::Fail;

const EARLIER_HEADS: &[Row] = &[
    (
        b"HTTP/1.1 100 Continue\r\n\r\nHTTP/1.1 200 OK\r\nContent-Length: 2\r\n\r\nab",
        true,
        LIMIT,
        200,
        b"ab",
        WHOLE,
    ),
    (
        b"HTTP/1.1 100\n\nHTTP/1.1 103 E\r\nLink: </a>\r\n\r\nHTTP/1.1 204\r\n\r\n",
        false,
        LIMIT,
        204,
        b"",
        WHOLE,
    ),
    (
        b"HTTP/1.1 102 P\r\nTransfer-Encoding: x\r\nContent-Length: y\r\n\r\nHTTP/1.1 200 OK\r\nContent-Length: 1\r\n\r\na",
        true,
        LIMIT,
        200,
        b"a",
        WHOLE,
    ),
    (
        b"HTTP/1.1 199 X\r\n\r\n\r\n\nHTTP/1.1 200 OK\r\nContent-Length: 1\r\n\r\na",
        true,
        LIMIT,
        200,
        b"a",
        WHOLE,
    ),
    (b"HTTP/1.1 100 C\r\n\r\n", true, LIMIT, 0, b"", EARLY),
    (b"HTTP/1.1 100 C\r\n\r\n", false, LIMIT, 0, b"", OPEN),
    (
        b"HTTP/1.1 101 S\r\n\r\nnone\r\n\r\n",
        true,
        LIMIT,
        0,
        b"",
        Some(Step::Bad { at: 18 }),
    ),
    (b"HTTP/1.1 099 X\r\n\r\nab", true, LIMIT, 99, b"ab", WHOLE),
];

#[test]
fn heads_before_the_final_one_are_skipped(rt: HostRuntime) -> Result<(), Fail> {
    expect_all(&rt, rt.alloc(), EARLIER_HEADS)
}

const BODILESS: &[Row] = &[
    (
        b"HTTP/1.1 204 N\r\nContent-Length: 5\r\n\r\nabcde",
        true,
        LIMIT,
        204,
        b"",
        WHOLE,
    ),
    (
        b"HTTP/1.1 304 N\r\nContent-Length: 5\r\n\r\n",
        false,
        LIMIT,
        304,
        b"",
        WHOLE,
    ),
    (
        b"HTTP/1.1 304 N\r\nContent-Length: 5\r\nContent-Length: 6\r\n\r\n",
        true,
        LIMIT,
        304,
        b"",
        WHOLE,
    ),
    (
        b"HTTP/1.1 204 N\r\nTransfer-Encoding: gzip\r\n\r\n",
        true,
        LIMIT,
        204,
        b"",
        WHOLE,
    ),
    (
        b"HTTP/1.1 304 N\r\nContent-Range: bytes 0-1/2\r\n\r\n",
        false,
        LIMIT,
        304,
        b"",
        WHOLE,
    ),
];

#[test]
fn a_status_may_forbid_a_body(rt: HostRuntime) -> Result<(), Fail> {
    expect_all(&rt, rt.alloc(), BODILESS)
}

const LENGTHS: &[Row] = &[
    (
        b"HTTP/1.1 200 OK\r\nContent-Length: 3\r\n\r\nabc",
        false,
        LIMIT,
        200,
        b"abc",
        WHOLE,
    ),
    (
        b"HTTP/1.1 200 OK\r\nContent-Length: 3\r\n\r\nabcd",
        true,
        LIMIT,
        200,
        b"abc",
        WHOLE,
    ),
    (
        b"HTTP/1.1 200 OK\r\nContent-Length: 4\r\n\r\nabc",
        true,
        LIMIT,
        200,
        b"abc",
        EARLY,
    ),
    (
        b"HTTP/1.1 200 OK\r\nContent-Length: 4\r\n\r\nabc",
        false,
        LIMIT,
        200,
        b"abc",
        OPEN,
    ),
    (
        b"HTTP/1.1 200 OK\r\nContent-Length: 0\r\n\r\n",
        false,
        LIMIT,
        200,
        b"",
        WHOLE,
    ),
    (
        b"HTTP/1.1 200 OK\r\nContent-Length: 3\r\nContent-Length: 3\r\n\r\nabc",
        true,
        LIMIT,
        200,
        b"abc",
        WHOLE,
    ),
    (
        b"HTTP/1.1 200 OK\r\nContent-Length: 3\r\nContent-Length: 03\r\n\r\nabc",
        true,
        LIMIT,
        200,
        b"abc",
        WHOLE,
    ),
    (
        b"HTTP/1.1 200 OK\r\nContent-Length: 3\r\nContent-Length: 4\r\n\r\nabc",
        true,
        LIMIT,
        0,
        b"",
        Some(Step::Bad { at: 0 }),
    ),
    (
        b"HTTP/1.1 200 OK\r\nContent-Length: 0000000000003\r\n\r\nabc",
        true,
        LIMIT,
        200,
        b"abc",
        WHOLE,
    ),
    (
        b"HTTP/1.1 200 OK\r\nContent-Length: 00000000000003\r\n\r\nabc",
        true,
        LIMIT,
        0,
        b"",
        Some(Step::Bad { at: 0 }),
    ),
    (
        b"HTTP/1.1 200 OK\r\nContent-Length: 2199023255552\r\n\r\na",
        true,
        LIMIT,
        200,
        b"a",
        EARLY,
    ),
    (
        b"HTTP/1.1 200 OK\r\nContent-Length: 2199023255553\r\n\r\na",
        true,
        LIMIT,
        0,
        b"",
        Some(Step::Bad { at: 0 }),
    ),
    (
        b"HTTP/1.1 200 OK\r\nContent-Length: +3\r\n\r\nabc",
        true,
        LIMIT,
        0,
        b"",
        Some(Step::Bad { at: 0 }),
    ),
    (
        b"HTTP/1.1 200 OK\r\nContent-Length: \r\n\r\nabc",
        true,
        LIMIT,
        0,
        b"",
        Some(Step::Bad { at: 0 }),
    ),
    (
        b"HTTP/1.1 200 OK\r\nContent-Length: 3, 3\r\n\r\nabc",
        true,
        LIMIT,
        0,
        b"",
        Some(Step::Bad { at: 0 }),
    ),
];

#[test]
fn a_length_counts_the_body(rt: HostRuntime) -> Result<(), Fail> {
    expect_all(&rt, rt.alloc(), LENGTHS)
}

const CODINGS: &[Row] = &[
    (
        b"HTTP/1.1 200 OK\r\nTransfer-Encoding: CHUNKED\r\n\r\n1\r\na\r\n0\r\n\r\n",
        false,
        LIMIT,
        200,
        b"a",
        WHOLE,
    ),
    (
        b"HTTP/1.1 200 OK\r\nTransfer-Encoding: chunked\r\nContent-Length: 9\r\n\r\n1\r\na\r\n0\r\n\r\n",
        true,
        LIMIT,
        200,
        b"a",
        WHOLE,
    ),
    (
        b"HTTP/1.1 200 OK\r\nContent-Length: x\r\nTransfer-Encoding: chunked\r\n\r\n1\r\na\r\n0\r\n\r\n",
        true,
        LIMIT,
        200,
        b"a",
        WHOLE,
    ),
    (
        b"HTTP/1.1 200 OK\r\nTransfer-Encoding: chunked\r\nTransfer-Encoding: chunked\r\n\r\n0\r\n\r\n",
        true,
        LIMIT,
        0,
        b"",
        Some(Step::Bad { at: 0 }),
    ),
    (
        b"HTTP/1.1 200 OK\r\nTransfer-Encoding: gzip\r\nContent-Length: 1\r\n\r\na",
        true,
        LIMIT,
        0,
        b"",
        Some(Step::Bad { at: 0 }),
    ),
    (
        b"HTTP/1.1 200 OK\r\nTransfer-Encoding: gzip, chunked\r\n\r\n0\r\n\r\n",
        true,
        LIMIT,
        0,
        b"",
        Some(Step::Bad { at: 0 }),
    ),
];

#[test]
fn a_transfer_coding_goes_before_a_length(rt: HostRuntime) -> Result<(), Fail> {
    expect_all(&rt, rt.alloc(), CODINGS)
}

const CHUNKS: &[Row] = &[
    (
        b"HTTP/1.1 200 OK\r\nTransfer-Encoding: chunked\r\n\r\n0\r\n\r\n",
        false,
        LIMIT,
        200,
        b"",
        WHOLE,
    ),
    (
        b"HTTP/1.1 200 OK\r\nTransfer-Encoding: chunked\r\n\r\n2\r\nab\r\n1;x=\"y\"\r\nc\r\n0\r\n\r\n",
        true,
        LIMIT,
        200,
        b"abc",
        WHOLE,
    ),
    (
        b"HTTP/1.1 200 OK\r\nTransfer-Encoding: chunked\r\n\r\n1 \t\r\na\r\n0;e\r\nt: u\r\nv: w\n\r\n",
        true,
        LIMIT,
        200,
        b"a",
        WHOLE,
    ),
    (
        b"HTTP/1.1 200 OK\r\nTransfer-Encoding: chunked\r\n\r\n0000000000000001\r\na\r\n0\r\n\n",
        true,
        LIMIT,
        200,
        b"a",
        WHOLE,
    ),
    (
        b"HTTP/1.1 200 OK\r\nTransfer-Encoding: chunked\r\n\r\na\r\n0123456789\r\nA\r\n0123456789\r\n0\r\n\r\nmore",
        true,
        LIMIT,
        200,
        b"01234567890123456789",
        WHOLE,
    ),
];

#[test]
fn chunks_are_joined(rt: HostRuntime) -> Result<(), Fail> {
    expect_all(&rt, rt.alloc(), CHUNKS)
}

const BROKEN_OFF: &[Row] = &[
    (
        b"HTTP/1.1 200 OK\r\nTransfer-Encoding: chunked\r\n\r\n",
        true,
        LIMIT,
        200,
        b"",
        EARLY,
    ),
    (
        b"HTTP/1.1 200 OK\r\nTransfer-Encoding: chunked\r\n\r\n2",
        true,
        LIMIT,
        200,
        b"",
        EARLY,
    ),
    (
        b"HTTP/1.1 200 OK\r\nTransfer-Encoding: chunked\r\n\r\n2\r\na",
        true,
        LIMIT,
        200,
        b"a",
        EARLY,
    ),
    (
        b"HTTP/1.1 200 OK\r\nTransfer-Encoding: chunked\r\n\r\n2\r\nab",
        true,
        LIMIT,
        200,
        b"ab",
        EARLY,
    ),
    (
        b"HTTP/1.1 200 OK\r\nTransfer-Encoding: chunked\r\n\r\n2\r\nab\r",
        true,
        LIMIT,
        200,
        b"ab",
        EARLY,
    ),
    (
        b"HTTP/1.1 200 OK\r\nTransfer-Encoding: chunked\r\n\r\n2\r\nab\r\n0\r\n",
        true,
        LIMIT,
        200,
        b"ab",
        EARLY,
    ),
    (
        b"HTTP/1.1 200 OK\r\nTransfer-Encoding: chunked\r\n\r\n2\r\nab\r\n0\r\nt: u\r\n",
        true,
        LIMIT,
        200,
        b"ab",
        EARLY,
    ),
    (
        b"HTTP/1.1 200 OK\r\nTransfer-Encoding: chunked\r\n\r\nffffffffffffffff\r\nab",
        true,
        LIMIT,
        200,
        b"ab",
        EARLY,
    ),
    (
        b"HTTP/1.1 200 OK\r\nTransfer-Encoding: chunked\r\n\r\n2\r\nab\r\n0\r\n\r",
        false,
        LIMIT,
        200,
        b"ab",
        OPEN,
    ),
];

#[test]
fn a_chunk_that_breaks_off_is_early(rt: HostRuntime) -> Result<(), Fail> {
    expect_all(&rt, rt.alloc(), BROKEN_OFF)
}

const BAD_CHUNKS: &[Row] = &[
    (
        b"HTTP/1.1 200 OK\r\nTransfer-Encoding: chunked\r\n\r\n1\na\r\n0\r\n\r\n",
        true,
        LIMIT,
        200,
        b"",
        Some(Step::Bad { at: 47 }),
    ),
    (
        b"HTTP/1.1 200 OK\r\nTransfer-Encoding: chunked\r\n\r\n00000000000000001\r\na\r\n0\r\n\r\n",
        true,
        LIMIT,
        200,
        b"",
        Some(Step::Bad { at: 47 }),
    ),
    (
        b"HTTP/1.1 200 OK\r\nTransfer-Encoding: chunked\r\n\r\n\r\n",
        true,
        LIMIT,
        200,
        b"",
        Some(Step::Bad { at: 47 }),
    ),
    (
        b"HTTP/1.1 200 OK\r\nTransfer-Encoding: chunked\r\n\r\nx\r\n",
        true,
        LIMIT,
        200,
        b"",
        Some(Step::Bad { at: 47 }),
    ),
    (
        b"HTTP/1.1 200 OK\r\nTransfer-Encoding: chunked\r\n\r\n1\r\nab\r\n",
        true,
        LIMIT,
        200,
        b"a",
        Some(Step::Bad { at: 51 }),
    ),
    (
        b"HTTP/1.1 200 OK\r\nTransfer-Encoding: chunked\r\n\r\n1\r\na\rb",
        true,
        LIMIT,
        200,
        b"a",
        Some(Step::Bad { at: 52 }),
    ),
    (
        b"HTTP/1.1 200 OK\r\nTransfer-Encoding: chunked\r\n\r\n1\r\na\n",
        true,
        LIMIT,
        200,
        b"a",
        Some(Step::Bad { at: 51 }),
    ),
];

#[test]
fn a_bad_chunk_has_its_place(rt: HostRuntime) -> Result<(), Fail> {
    expect_all(&rt, rt.alloc(), BAD_CHUNKS)
}

const TO_THE_END: &[Row] = &[
    (b"HTTP/1.1 200 OK\r\n\r\nab", true, LIMIT, 200, b"ab", WHOLE),
    (b"HTTP/1.1 200 OK\r\n\r\nab", false, LIMIT, 200, b"ab", OPEN),
    (b"HTTP/1.1 200 OK\r\n\r\n", true, LIMIT, 200, b"", WHOLE),
    (b"HTTP/1.0 404 N\n\nab", true, LIMIT, 404, b"ab", WHOLE),
    (
        b"HTTP/1.1 302 F\r\nLocation: /b\r\nContent-Length: 0\r\n\r\n",
        false,
        LIMIT,
        302,
        b"",
        WHOLE,
    ),
];

#[test]
fn a_body_may_go_to_the_end(rt: HostRuntime) -> Result<(), Fail> {
    expect_all(&rt, rt.alloc(), TO_THE_END)
}

const PARTS: &[Row] = &[
    (
        b"HTTP/1.1 206 P\r\nContent-Range: bytes 2-4/9\r\nContent-Length: 3\r\n\r\nabc",
        false,
        LIMIT,
        206,
        b"abc",
        WHOLE,
    ),
    (
        b"HTTP/1.1 206 P\r\nContent-Range: bytes 2-4/9\r\nContent-Length: 2\r\n\r\nab",
        true,
        LIMIT,
        0,
        b"",
        Some(Step::Bad { at: 0 }),
    ),
    (
        b"HTTP/1.1 206 P\r\nContent-Range: bytes 2-4/9\r\n\r\nabc",
        true,
        LIMIT,
        206,
        b"abc",
        WHOLE,
    ),
    (
        b"HTTP/1.1 206 P\r\nContent-Range: bytes 2-4/9\r\n\r\nabc",
        false,
        LIMIT,
        206,
        b"abc",
        OPEN,
    ),
    (
        b"HTTP/1.1 206 P\r\nContent-Range: bytes 2-4/9\r\n\r\nab",
        true,
        LIMIT,
        206,
        b"ab",
        EARLY,
    ),
    (
        b"HTTP/1.1 206 P\r\nContent-Range: bytes 2-4/9\r\n\r\nabcd",
        false,
        LIMIT,
        206,
        b"abc",
        Some(Step::Bad { at: 49 }),
    ),
    (
        b"HTTP/1.1 206 P\r\nContent-Range: bytes 2-4/9\r\nTransfer-Encoding: chunked\r\n\r\n1\r\na\r\n2\r\nbc\r\n0\r\n\r\n",
        false,
        LIMIT,
        206,
        b"abc",
        WHOLE,
    ),
    (
        b"HTTP/1.1 206 P\r\nContent-Range: bytes 2-4/9\r\nTransfer-Encoding: chunked\r\n\r\n2\r\nab\r\n0\r\n\r\n",
        true,
        LIMIT,
        206,
        b"ab",
        Some(Step::Bad { at: 81 }),
    ),
    (
        b"HTTP/1.1 206 P\r\nContent-Range: bytes 2-4/9\r\nTransfer-Encoding: chunked\r\n\r\n2\r\nab\r\n2\r\ncd\r\n0\r\n\r\n",
        true,
        LIMIT,
        206,
        b"abc",
        Some(Step::Bad { at: 85 }),
    ),
    (
        b"HTTP/1.1 206 P\r\nContent-Range: bytes 2-4/9\r\nTransfer-Encoding: chunked\r\n\r\n4\r\nabc",
        false,
        LIMIT,
        206,
        b"abc",
        OPEN,
    ),
    (
        b"HTTP/1.1 206 P\r\nContent-Range: bytes 2-4/9\r\nTransfer-Encoding: chunked\r\n\r\n3\r\nabc\r\n1\r\nd",
        true,
        LIMIT,
        206,
        b"abc",
        Some(Step::Bad { at: 85 }),
    ),
    (b"HTTP/1.1 206 P\r\n\r\nab", true, LIMIT, 206, b"ab", WHOLE),
    (
        b"HTTP/1.1 206 P\r\nContent-Range: bytes 02-2/3\r\nContent-Length: 2\r\n\r\nab",
        true,
        LIMIT,
        206,
        b"ab",
        WHOLE,
    ),
    (
        b"HTTP/1.1 206 P\r\nContent-Range: bytes 2-4/9\r\nContent-Range: bytes 2-4/9\r\nContent-Length: 2\r\n\r\nab",
        true,
        LIMIT,
        206,
        b"ab",
        WHOLE,
    ),
    (
        b"HTTP/1.1 200 OK\r\nContent-Range: bytes 2-4/9\r\nContent-Length: 2\r\n\r\nab",
        true,
        LIMIT,
        200,
        b"ab",
        WHOLE,
    ),
];

#[test]
fn a_part_has_the_bytes_of_its_range(rt: HostRuntime) -> Result<(), Fail> {
    expect_all(&rt, rt.alloc(), PARTS)
}

const LIMITED: &[Row] = &[
    (
        b"HTTP/1.1 200 OK\r\nContent-Length: 3\r\n\r\nabc",
        true,
        41,
        200,
        b"abc",
        WHOLE,
    ),
    (
        b"HTTP/1.1 200 OK\r\nContent-Length: 3\r\n\r\nabc",
        true,
        40,
        200,
        b"ab",
        Some(Step::Bad { at: 40 }),
    ),
    (
        b"HTTP/1.1 200 OK\r\nContent-Length: 3\r\n\r\nabc",
        false,
        0,
        0,
        b"",
        Some(Step::Bad { at: 0 }),
    ),
    (
        b"HTTP/1.1 200 OK\r\nContent-Length: 3\r\n\r\nabc",
        true,
        10,
        0,
        b"",
        Some(Step::Bad { at: 10 }),
    ),
    (
        b"HTTP/1.1 200 OK\r\nTransfer-Encoding: chunked\r\n\r\n2;xx\r\nab",
        true,
        49,
        200,
        b"",
        Some(Step::Bad { at: 49 }),
    ),
    (
        b"HTTP/1.1 200 OK\r\nTransfer-Encoding: chunked\r\n\r\n2;xx\r\nab\r\n",
        true,
        53,
        200,
        b"",
        Some(Step::Bad { at: 53 }),
    ),
    (
        b"HTTP/1.1 200 OK\r\nTransfer-Encoding: chunked\r\n\r\n2\r\nab\r\n0\r\n\r\n",
        true,
        57,
        200,
        b"ab",
        Some(Step::Bad { at: 57 }),
    ),
    (
        b"HTTP/1.1 200 OK\r\n\r\nab",
        true,
        20,
        200,
        b"a",
        Some(Step::Bad { at: 20 }),
    ),
    (b"HTTP/1.1 200 OK\r\n\r\nab", true, 21, 200, b"ab", WHOLE),
    (
        b"HTTP/1.1 206 P\r\nContent-Range: bytes 2-4/9\r\n\r\nabcd",
        true,
        49,
        206,
        b"abc",
        Some(Step::Bad { at: 49 }),
    ),
];

#[test]
fn a_byte_at_the_limit_is_bad(rt: HostRuntime) -> Result<(), Fail> {
    expect_all(&rt, rt.alloc(), LIMITED)
}

const BLOCKS: &[Row] = &[
    (b"", true, LIMIT, 0, b"", EARLY),
    (b"\r\n\r\n", true, LIMIT, 0, b"", EARLY),
    (
        b"HTTP/1.1 200 OK\r\nContent-Length : 3\r\n\r\nabc",
        true,
        LIMIT,
        0,
        b"",
        Some(Step::Bad { at: 0 }),
    ),
    (
        b"HTTP/1.1 200 OK\r\na: b\r\n c\r\n\r\n",
        true,
        LIMIT,
        0,
        b"",
        Some(Step::Bad { at: 0 }),
    ),
    (
        b"HTTP/2.0 200 OK\r\n\r\n",
        true,
        LIMIT,
        0,
        b"",
        Some(Step::Bad { at: 0 }),
    ),
    (
        b"HTTP/1.1 20 OK\r\n\r\n",
        true,
        LIMIT,
        0,
        b"",
        Some(Step::Bad { at: 0 }),
    ),
    (
        b"\r\n\nHTTP/1.1 200 OK\r\ncontent-length:3\n\nabc",
        true,
        LIMIT,
        200,
        b"abc",
        WHOLE,
    ),
    (
        b"HTTP/1.1 200 OK\r\nContent-Length: 3\r\n",
        true,
        LIMIT,
        0,
        b"",
        EARLY,
    ),
];

#[test]
fn a_block_that_is_no_head_is_bad_at_its_first_byte(rt: HostRuntime) -> Result<(), Fail> {
    expect_all(&rt, rt.alloc(), BLOCKS)
}
