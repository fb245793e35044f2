//! Lists of packages. Expected values are by hand, from the Debian wiki's page on repository formats.

use crate::print::{expect, long, print_names};
use acng_index::{IndexFault, read_packages};
use acng_stanza::StanzaFault;
use std::alloc::Global;
use std::process::Abort;
use std::test::Fail;

// Reads a list in its short form.
fn expect_read(
    rt: &impl Abort,
    alloc: Global,
    short: &[u8],
    wanted: Result<&[u8], IndexFault>,
) -> Result<(), Fail> {
    let text = long(alloc, short)?;
    let found = print_names(alloc, read_packages(alloc, &text))?;
    expect(rt, short, found, wanted);
    Ok(())
}

const LISTS: &[(&[u8], &[u8])] = &[
    // names
    (b"", b""),
    (b"\n\n", b""),
    (b"Filename: x", b"x::;"),
    (b"Filename: ./x", b"x::;"),
    (
        b"Filename: pool/main/a/a_1.deb\n",
        b"pool/main/a/a_1.deb::;",
    ),
    (
        b"Package: a\nFilename: x\nSize: 3\nSHA256: #\n",
        b"x:3:186;",
    ),
    (b"filename: x\nSIZE: 03\nsha256: ^", b"x:3:186;"),
    (b"Filename: x\nSize: 2199023255552", b"x:2199023255552:;"),
    (b"Filename: x\nSize: 0000000000007", b"x:7:;"),
    (
        b"Filename: x\nSHA256: #\n\n\nFilename: y\nSize: 1\n\n",
        b"x::186;y:1:;",
    ),
    (b"Filename: x\nFilename: ../y\nSize: 1\nSize: a", b"x:1:;"),
    (b"Filename: x\nDescription: a\n Filename: ../y", b"x::;"),
];

#[test]
fn a_list_names_its_files(rt: HostRuntime) -> Result<(), Fail> {
    for (short, print) in LISTS {
        expect_read(&rt, rt.alloc(), short, Ok(print))?;
    }
    Ok(())
}

const REFUSED: &[(&[u8], IndexFault)] = &[
    // no name, or another form
    (b"A: b", IndexFault::NoFilename { line: 1 }),
    (b"\nA: b", IndexFault::NoFilename { line: 2 }),
    (b"Filename: x\n\n\nA: b", IndexFault::NoFilename { line: 4 }),
    (b"Filename: ../x", IndexFault::BadName { line: 1 }),
    (b"Filename:", IndexFault::BadName { line: 1 }),
    (b"Filename: /x", IndexFault::BadName { line: 1 }),
    (b"Filename: .//x", IndexFault::BadName { line: 1 }),
    (b"Filename: ././x", IndexFault::BadName { line: 1 }),
    (b"Filename: a b", IndexFault::BadName { line: 1 }),
    (b"Filename: x\n y", IndexFault::BadName { line: 1 }),
    (b"Filename: x/./y", IndexFault::BadName { line: 1 }),
    (b"A: b\nFilename: ../x", IndexFault::BadName { line: 2 }),
    (b"Filename: x\nSize: 1a", IndexFault::BadField { line: 2 }),
    (b"Filename: x\nSize:", IndexFault::BadField { line: 2 }),
    (
        b"Filename: x\nSize: 2199023255553",
        IndexFault::BadField { line: 2 },
    ),
    (
        b"Filename: x\nSize: 00000000000001",
        IndexFault::BadField { line: 2 },
    ),
    (
        b"Filename: x\nSHA256: ba78",
        IndexFault::BadField { line: 2 },
    ),
    (b"Filename: x\nSHA256: #0", IndexFault::BadField { line: 2 }),
    (
        b"Filename: x\nSHA256:\n #",
        IndexFault::BadField { line: 2 },
    ),
    // the order in a stanza, and of stanzas
    (
        b"SHA256: 1\nSize: x\nFilename: ../x",
        IndexFault::BadName { line: 3 },
    ),
    (
        b"SHA256: 1\nSize: x\nFilename: x",
        IndexFault::BadField { line: 2 },
    ),
    (b"SHA256: 1\nA: b", IndexFault::NoFilename { line: 1 }),
    (
        b"Filename: x\nSize: a\n\nA: b",
        IndexFault::BadField { line: 2 },
    ),
    (
        b"Filename: x\n\nFilename: y\nSize: a\n\nFilename: ../z",
        IndexFault::BadField { line: 4 },
    ),
    (
        b"Filename: ../x\n\nbad",
        IndexFault::Stanza(StanzaFault::BadLine { line: 3 }),
    ),
    (
        b"Filename",
        IndexFault::Stanza(StanzaFault::BadLine { line: 1 }),
    ),
];

#[test]
fn a_list_is_refused_by_its_first_fault(rt: HostRuntime) -> Result<(), Fail> {
    for (short, fault) in REFUSED {
        expect_read(&rt, rt.alloc(), short, Err(*fault))?;
    }
    Ok(())
}
