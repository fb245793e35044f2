//! Texts and their stanzas, each in pieces of 1, 2, 7 and 4,096 bytes. Expected values are by hand, from Debian Policy,
//! section 5.1, and from this project's rules for lines that are no field.

use crate::print::read;
use acng_stanza::{StanzaFault, StanzaReader};
use std::alloc::Global;
use std::process::Abort;
use std::test::Fail;

// Reads the text in each cutting.
fn expect(
    rt: &impl Abort,
    alloc: Global,
    text: &[u8],
    stanzas: &[u8],
    fault: Option<StanzaFault>,
) -> Result<(), Fail> {
    for cut in [1, 2, 7, 4096] {
        let printed = read(alloc, text, cut)?;
        assert_eq!(rt;
            printed.stanzas.as_slice(),
            stanzas,
            "{text:?} in pieces of {cut}"
        );
        assert_eq!(rt; printed.fault, fault, "{text:?} in pieces of {cut}");
    }
    Ok(())
}

const READ: &[(&[u8], &[u8])] = &[
    // nothing
    (b"", b""),
    (b"\n", b""),
    (b"\n \t\r\n\n", b""),
    (b"\r", b""),
    // one field
    (b"A: 1", b"A=1@1,;"),
    (b"A: 1\n", b"A=1@1,;"),
    (b"A: 1\r\n", b"A=1@1,;"),
    (b"A: 1\r\r\n", b"A=1@1,;"),
    (b"A:1", b"A=1@1,;"),
    (b"A:\t 1 \t", b"A=1@1,;"),
    (b"A:", b"A=@1,;"),
    (b"A: ", b"A=@1,;"),
    (b"A: b\rc", b"A=b\rc@1,;"),
    (b"A: b:c", b"A=b:c@1,;"),
    (b"A: \xe9\xff", b"A=\xe9\xff@1,;"),
    // several fields, and several stanzas
    (b"A: 1\nB: 2\n", b"A=1@1,B=2@2,;"),
    (b"A: 1\nA: 2", b"A=1@1,A=2@2,;"),
    (b"A: 1\n\nB: 2", b"A=1@1,;B=2@3,;"),
    (b"A: 1\n\n\n \r\nB: 2", b"A=1@1,;B=2@5,;"),
    (b"\n\nA: 1", b"A=1@3,;"),
    (b"\r\nA: 1", b"A=1@2,;"),
    (b"A: 1\n  \nB: 2", b"A=1@1,;B=2@3,;"),
    (b"A: 1\n\r\nB: 2\n", b"A=1@1,;B=2@3,;"),
    (b"a: x\n\nb: y\n\n\n", b"a=x@1,;b=y@3,;"),
    // a value that goes on
    (b"A: 1\n b", b"A=1\nb@1,;"),
    (b"A:\n b\n c", b"A=\nb\nc@1,;"),
    (b"A: 1\n\tb", b"A=1\nb@1,;"),
    (b"A: 1\n \t b \r\n", b"A=1\nb@1,;"),
    (b"A: 1\n .\nB: 2", b"A=1\n.@1,B=2@3,;"),
    (b"A: 1\n b:c", b"A=1\nb:c@1,;"),
    (
        b"A: 1\nB: 2\n c\n\nD: 3\n e\n",
        b"A=1@1,B=2\nc@2,;D=3\ne@5,;",
    ),
    // names
    (b"PaCKage: x", b"PaCKage=x@1,;"),
    (b"a-b#c: x", b"a-b#c=x@1,;"),
    (b"a~!: x", b"a~!=x@1,;"),
    (b"!: x", b"!=x@1,;"),
];

#[test]
fn a_text_is_read_in_any_cutting(rt: HostRuntime) -> Result<(), Fail> {
    for (text, stanzas) in READ {
        expect(&rt, rt.alloc(), text, stanzas, None)?;
    }
    Ok(())
}

const REFUSED: &[(&[u8], &[u8], u64)] = &[
    // a bad line
    (b"A", b"", 1),
    (b":x", b"", 1),
    (b" b", b"", 1),
    (b"\tb", b"", 1),
    (b"-a: x", b"", 1),
    (b"#a: x", b"", 1),
    (b"a b: x", b"", 1),
    (b"a :x", b"", 1),
    (b"a\x7f: x", b"", 1),
    (b"\xffa: x", b"", 1),
    (b"a\0: x", b"", 1),
    // the first bad line, and the stanzas before it
    (b"A: 1\nB", b"", 2),
    (b"A: 1\n\nB", b"A=1@1,;", 3),
    (b"A: 1\n \n b", b"A=1@1,;", 3),
    (b"a: x\n\n c: y", b"a=x@1,;", 3),
    (b"B\nA: 1\n\n:x", b"", 1),
    (b"A: 1\n\nB: 2\n\nC\nD", b"A=1@1,;B=2@3,;", 5),
];

#[test]
fn a_bad_line_is_told_by_its_number(rt: HostRuntime) -> Result<(), Fail> {
    for (text, stanzas, line) in REFUSED {
        expect(
            &rt,
            rt.alloc(),
            text,
            stanzas,
            Some(StanzaFault::BadLine { line: *line }),
        )?;
    }
    Ok(())
}

#[test]
fn a_refused_reader_tells_its_refusal_again(rt: HostRuntime) {
    let alloc = rt.alloc();
    let mut reader = StanzaReader::new(alloc);
    let refused = Err(StanzaFault::BadLine { line: 1 });
    assert_eq!(rt; reader.push(alloc, b"A\n"), refused);
    assert_eq!(rt; reader.push(alloc, b"A: 1\n\n"), refused);
    assert_eq!(rt; reader.close(alloc), refused);
    assert!(rt; reader.next_stanza().is_none());
}

#[test]
fn lines_are_counted_from_the_number_that_is_given(rt: HostRuntime) {
    let alloc = rt.alloc();
    let mut reader = StanzaReader::from_line(alloc, 41);
    assert_eq!(rt;
        reader.push(alloc, b"A: 1\nB\n"),
        Err(StanzaFault::BadLine { line: 42 })
    );
}

const FIELDS: &[(&[u8], Option<&[u8]>)] = &[
    (b"Size", Some(b"1")),
    (b"sIZE", Some(b"1")),
    (b"sha256", Some(b"\nx")),
    (b"SHA25", None),
    (b"SHA2567", None),
    (b"", None),
];

#[test]
fn the_first_field_of_a_name_is_found_whatever_its_case(rt: HostRuntime) -> Result<(), Fail> {
    let alloc = rt.alloc();
    let mut reader = StanzaReader::new(alloc);
    reader.push(alloc, b"Size: 1\nsize: 2\nSHA256:\n x\n")?;
    reader.close(alloc)?;
    let Some(stanza) = reader.next_stanza() else {
        panic!(rt; "there is a stanza");
    };
    for (name, value) in FIELDS {
        assert_eq!(rt; stanza.find(name), *value, "{name:?}");
    }
    assert!(rt; !stanza.is_empty());
    Ok(())
}
