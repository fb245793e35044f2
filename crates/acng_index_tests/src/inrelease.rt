//! Releases inside a signature. Expected values are by hand, from the Debian wiki's page on repository formats,
//! and RFC 9580, section 7.

use crate::print::{expect, long, print_release};
use acng_index::{IndexFault, read_inrelease};
use acng_stanza::StanzaFault;
use std::alloc::Global;
use std::process::Abort;
use std::test::Fail;

// Reads a text in a frame in its short form.
fn expect_read(
    rt: &impl Abort,
    alloc: Global,
    short: &[u8],
    wanted: Result<&[u8], IndexFault>,
) -> Result<(), Fail> {
    let text = long(alloc, short)?;
    let found = print_release(alloc, read_inrelease(alloc, &text))?;
    expect(rt, short, found, wanted);
    Ok(())
}

const FRAMES: &[(&[u8], &[u8])] = &[
    // frames
    (b"<\nHash: SHA256\n\nSHA256:\n # 1 a\n>\nrest", b"186:1:a;"),
    (b"<\n\nSHA256:\n # 1 a\n>", b"186:1:a;"),
    (
        b"<  \r\nHash: SHA512\r\nHash: SHA256\r\n \t\r\nSHA256:\r\n # 1 a\r\n> \t\r\n",
        b"186:1:a;",
    ),
    (b"<\nHash:\n\nSHA256:\n # 1 a\n>", b"186:1:a;"),
    // a leading dash is dropped
    (b"<\n\n- SHA256:\n # 1 a\n>", b"186:1:a;"),
    (b"<\n\nSHA256:\n-  # 1 a\n>", b"186:1:a;"),
    // what follows the signature is not read
    (b"<\n\nSHA256:\n # 1 a\n>\nSHA256:\n # x b", b"186:1:a;"),
    (b"<\n\nSHA256:\n # 1 a\n>\n\nbad", b"186:1:a;"),
];

#[test]
fn the_text_inside_a_frame_is_a_release(rt: HostRuntime) -> Result<(), Fail> {
    for (short, print) in FRAMES {
        expect_read(&rt, rt.alloc(), short, Ok(print))?;
    }
    Ok(())
}

const BROKEN: &[(&[u8], IndexFault)] = &[
    // a frame that is broken at each line
    (b"", IndexFault::NoFrame { line: 1 }),
    (b"\n", IndexFault::NoFrame { line: 1 }),
    (b"x", IndexFault::NoFrame { line: 1 }),
    (b" <", IndexFault::NoFrame { line: 1 }),
    (b"- <", IndexFault::NoFrame { line: 1 }),
    (b"<", IndexFault::NoFrame { line: 2 }),
    (b"<\n", IndexFault::NoFrame { line: 2 }),
    (b"<\nx", IndexFault::NoFrame { line: 2 }),
    (b"<\nhash: x\n\n", IndexFault::NoFrame { line: 2 }),
    (b"<\nHash: x", IndexFault::NoFrame { line: 3 }),
    (b"<\nHash: x\n", IndexFault::NoFrame { line: 3 }),
    (b"<\nHash: x\nx", IndexFault::NoFrame { line: 3 }),
    (b"<\n\n", IndexFault::NoFrame { line: 3 }),
    (b"<\n\nSHA256:\n # 1 a", IndexFault::NoFrame { line: 5 }),
    (b"<\n\nSHA256:\n # 1 a\n", IndexFault::NoFrame { line: 5 }),
    (
        b"<\n\nSHA256:\n # 1 a\n >\n",
        IndexFault::NoFrame { line: 6 },
    ),
    // the frame goes before a stanza, and a stanza before the list
    (b"<\n\nbad\n", IndexFault::NoFrame { line: 4 }),
    (
        b"<\n\nbad\n>",
        IndexFault::Stanza(StanzaFault::BadLine { line: 3 }),
    ),
    (
        b"<\n\n-----\n>",
        IndexFault::Stanza(StanzaFault::BadLine { line: 3 }),
    ),
    (
        b"<\n\nSHA256:\n # 1 a\n- >\n>",
        IndexFault::Stanza(StanzaFault::BadLine { line: 5 }),
    ),
    (
        b"<\nHash: x\n\nSHA256:\n # x a\nbad\n>",
        IndexFault::Stanza(StanzaFault::BadLine { line: 6 }),
    ),
    // lines are counted in the whole file
    (
        b"<\nHash: x\n\nSHA256:\n # x a\n>",
        IndexFault::BadEntry { line: 5 },
    ),
    (
        b"<\nHash: x\nHash: y\n\nSHA256:\n # 1 a\n # 1 ../x\n>",
        IndexFault::BadEntry { line: 7 },
    ),
    (b"<\n\n>", IndexFault::NotOneStanza),
    (b"<\n\nA: 1\n>", IndexFault::NoList),
];

#[test]
fn a_broken_frame_is_refused_at_its_line(rt: HostRuntime) -> Result<(), Fail> {
    for (short, fault) in BROKEN {
        expect_read(&rt, rt.alloc(), short, Err(*fault))?;
    }
    Ok(())
}
