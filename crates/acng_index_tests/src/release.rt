//! Releases. Expected values are by hand, from the Debian wiki's page on repository formats.

use crate::print::{expect, long, print_release};
use acng_index::{IndexFault, read_release};
use acng_stanza::StanzaFault;
use std::alloc::Global;
use std::process::Abort;
use std::test::Fail;

// Reads a release in its short form.
fn expect_read(
    rt: &impl Abort,
    alloc: Global,
    short: &[u8],
    wanted: Result<&[u8], IndexFault>,
) -> Result<(), Fail> {
    let text = long(alloc, short)?;
    let found = print_release(alloc, read_release(alloc, &text))?;
    expect(rt, short, found, wanted);
    Ok(())
}

const RELEASES: &[(&[u8], &[u8])] = &[
    // one entry, and several
    (b"SHA256:\n # 126 main/Packages", b"186:126:main/Packages;"),
    (
        b"Suite: x\nSHA256:\n # 1 a\n # 2 b\nCodename: y\n",
        b"186:1:a;186:2:b;",
    ),
    (b"sha256: # 1 a", b"186:1:a;"),
    (b"SHA256:\n\t#\t 1   a  \n", b"186:1:a;"),
    (b"SHA256:\r\n # 1 a\r\n", b"186:1:a;"),
    (b"\n\nSHA256:\n # 1 a\n\n\n", b"186:1:a;"),
    (b"SHA256:", b""),
    (b"SHA256:\n ^ 1 a", b"186:1:a;"),
    (b"SHA256:\n # 1 a\n # 1 a", b"186:1:a;186:1:a;"),
    // sizes
    (b"SHA256:\n # 0 a", b"186:0:a;"),
    (b"SHA256:\n # 0000000000001 a", b"186:1:a;"),
    (b"SHA256:\n # 2199023255552 a", b"186:2199023255552:a;"),
    // the first field of a name counts
    (b"SHA256:\n # 1 a\nSHA256:\n # 2 b", b"186:1:a;"),
    (b"MD5Sum:\n x\nSHA256:\n # 1 a", b"186:1:a;"),
    // files by their hashes
    (b"SHA256:\n # 1 a\nAcquire-By-Hash: yes", b"186:1:a;+"),
    (b"acquire-by-hash: yes\nSHA256:\n # 1 a", b"186:1:a;+"),
    (b"SHA256:\n # 1 a\nAcquire-By-Hash: YES", b"186:1:a;"),
    (
        b"SHA256:\n # 1 a\nAcquire-By-Hash: no\nAcquire-By-Hash: yes",
        b"186:1:a;",
    ),
];

#[test]
fn a_release_lists_its_entries(rt: HostRuntime) -> Result<(), Fail> {
    for (short, print) in RELEASES {
        expect_read(&rt, rt.alloc(), short, Ok(print))?;
    }
    Ok(())
}

const REFUSED: &[(&[u8], IndexFault)] = &[
    // not one stanza, or no list
    (b"", IndexFault::NotOneStanza),
    (b"\n \n", IndexFault::NotOneStanza),
    (b"A: 1\n\nSHA256:\n # 1 a", IndexFault::NotOneStanza),
    (b"SHA256:\n # 1 a\n\nA: 1", IndexFault::NotOneStanza),
    (b"Suite: x", IndexFault::NoList),
    (b"SHA2567:\n # 1 a", IndexFault::NoList),
    (b"SHA1:\n # 1 a", IndexFault::NoList),
    // an entry of another form, by its line
    (b"SHA256: x", IndexFault::BadEntry { line: 1 }),
    (b"SHA256:\n .", IndexFault::BadEntry { line: 2 }),
    (b"SHA256:\n # 1 a\n # 2", IndexFault::BadEntry { line: 3 }),
    (b"SHA256:\n # 1 a b", IndexFault::BadEntry { line: 2 }),
    (b"SHA256:\n # 1a a", IndexFault::BadEntry { line: 2 }),
    (b"SHA256:\n # -1 a", IndexFault::BadEntry { line: 2 }),
    (
        b"SHA256:\n # 2199023255553 a",
        IndexFault::BadEntry { line: 2 },
    ),
    (
        b"SHA256:\n # 00000000000001 a",
        IndexFault::BadEntry { line: 2 },
    ),
    (b"SHA256:\n #0 1 a", IndexFault::BadEntry { line: 2 }),
    (b"SHA256:\n ba78 1 a", IndexFault::BadEntry { line: 2 }),
    (b"SHA256:\n g# 1 a", IndexFault::BadEntry { line: 2 }),
    (b"SHA256:\n # 1 ../x", IndexFault::BadEntry { line: 2 }),
    (b"SHA256:\n # 1 /x", IndexFault::BadEntry { line: 2 }),
    (b"SHA256:\n # 1 a//b", IndexFault::BadEntry { line: 2 }),
    (b"SHA256:\n # 1 ./a", IndexFault::BadEntry { line: 2 }),
    (
        b"A: 1\nSHA256:\n # 1 a\n # 2 b\n # x c\n # y d",
        IndexFault::BadEntry { line: 5 },
    ),
    // the refusal of a stanza goes first
    (
        b"SHA256:\n # x a\nbad",
        IndexFault::Stanza(StanzaFault::BadLine { line: 3 }),
    ),
    (
        b"A: 1\n\nB: 2\n\nbad",
        IndexFault::Stanza(StanzaFault::BadLine { line: 5 }),
    ),
    (b"bad", IndexFault::Stanza(StanzaFault::BadLine { line: 1 })),
];

#[test]
fn a_release_is_refused_by_its_first_fault(rt: HostRuntime) -> Result<(), Fail> {
    for (short, fault) in REFUSED {
        expect_read(&rt, rt.alloc(), short, Err(*fault))?;
    }
    Ok(())
}
