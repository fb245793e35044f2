//! Every prefix of ten answers, with the connection ended after it and not. Expected values are by hand: before the
//! place where an answer is over its prefix is early or open, but a body to the connection's end is whole there.

use crate::hearing::{OPEN, Prefixes, WHOLE, expect_prefixes};
use acng_answer::Step;
use std::test::Fail;

const ANSWERS: &[Prefixes] = &[
    (
        b"HTTP/1.1 100 C\r\n\r\nHTTP/1.1 200 OK\r\nContent-Length: 2\r\n\r\nab",
        58,
        WHOLE,
        0,
        0,
    ),
    (
        b"HTTP/1.1 200 OK\r\nContent-Length: 3\r\n\r\nabc",
        41,
        WHOLE,
        0,
        0,
    ),
    (
        b"HTTP/1.1 200 OK\r\nTransfer-Encoding: chunked\r\n\r\n2;x\r\nab\r\n0\r\nt: u\r\n\r\n",
        67,
        WHOLE,
        0,
        0,
    ),
    (
        b"HTTP/1.1 200 OK\r\nTransfer-Encoding: chunked\r\n\r\n1\r\nab",
        52,
        Some(Step::Bad { at: 51 }),
        0,
        0,
    ),
    (b"HTTP/1.1 200 OK\r\n\r\nabc", 23, OPEN, 19, 23),
    (
        b"HTTP/1.1 206 P\r\nContent-Range: bytes 2-4/9\r\n\r\nabcd",
        50,
        Some(Step::Bad { at: 49 }),
        49,
        50,
    ),
    (
        b"HTTP/1.1 206 P\r\nContent-Range: bytes 2-4/9\r\nTransfer-Encoding: chunked\r\n\r\n2\r\nab\r\n0\r\n\r\n",
        84,
        Some(Step::Bad { at: 81 }),
        0,
        0,
    ),
    (
        b"HTTP/1.1 304 N\r\nContent-Length: 5\r\n\r\n",
        37,
        WHOLE,
        0,
        0,
    ),
    (
        b"HTTP/1.1 200 OK\r\nContent-Length: 3\r\nContent-Length: 4\r\n\r\nabc",
        57,
        Some(Step::Bad { at: 0 }),
        0,
        0,
    ),
    (b"\n\nHTTP/1.1 200\n\n", 17, OPEN, 16, 17),
];

#[test]
fn a_prefix_is_early_or_open_until_the_answer_is_over(rt: HostRuntime) -> Result<(), Fail> {
    for row in ANSWERS {
        expect_prefixes(&rt, rt.alloc(), row)?;
    }
    Ok(())
}
