//! The limits of a line, 1,048,576 bytes, and of a stanza, 16,777,216 bytes, and one byte past each.

use acng_stanza::{StanzaFault, StanzaReader};
use std::alloc::Global;
use std::test::Fail;

const LINE: usize = 1_048_576;

// Fields of so many bytes, each a line, and a last line.
fn lines(alloc: Global, sizes: &[usize], last: &[u8]) -> Result<Vec<u8>, Fail> {
    let filler = vec![in alloc; b'x'; LINE]?;
    let mut text = Vec::new(alloc);
    for size in sizes {
        text.extend_from_slice(b"a:")?;
        text.extend_from_slice(&filler[..size.saturating_sub(2).min(LINE)])?;
        text.push(b'\n')?;
    }
    text.extend_from_slice(last)?;
    Ok(text)
}

// The refusal of a text in pieces of so many bytes.
fn refusal(alloc: Global, text: &[u8], cut: usize) -> Option<StanzaFault> {
    let mut reader = StanzaReader::new(alloc);
    let mut left = text;
    for _ in 0..text.len() {
        if left.is_empty() || cut == 0 {
            break;
        }
        let len = cut.min(left.len());
        let _ = reader.push(alloc, &left[..len]);
        left = &left[len..];
    }
    reader.close(alloc).err()
}

// Two lines, the second at its limit and above.
const LINES: &[([usize; 2], Option<StanzaFault>)] = &[
    ([4, LINE], None),
    ([4, LINE + 1], Some(StanzaFault::LineTooLong { line: 2 })),
];

#[test]
fn a_line_has_its_limit_in_any_cutting(rt: HostRuntime) -> Result<(), Fail> {
    for (sizes, fault) in LINES {
        let text = lines(rt.alloc(), sizes, b"")?;
        for cut in [1, 2, 7, 4096] {
            let found = refusal(rt.alloc(), &text, cut);
            assert_eq!(rt; found, *fault, "{sizes:?} in pieces of {cut}");
        }
    }
    Ok(())
}

const TOO_LARGE: Option<StanzaFault> = Some(StanzaFault::TooLarge { line: 17 });

// After fifteen lines of the greatest size: the size of the sixteenth, and what follows.
const STANZAS: &[(usize, &[u8], Option<StanzaFault>)] = &[
    (LINE, b"", None),
    (LINE, b"a:", TOO_LARGE),
    (LINE - 1, b"a:", TOO_LARGE),
    (LINE - 2, b"a:", None),
    // an empty line and a line of blanks are none of the stanza's
    (LINE, b"\na:", None),
    (LINE, b"  \na:", None),
    // the limit goes before a bad line
    (LINE, b"a", TOO_LARGE),
    (LINE - 2, b"a", Some(StanzaFault::BadLine { line: 17 })),
];

#[test]
fn a_stanza_has_its_limit(rt: HostRuntime) -> Result<(), Fail> {
    for (sixteenth, last, fault) in STANZAS {
        let mut sizes = [LINE; 16];
        sizes[15] = *sixteenth;
        let text = lines(rt.alloc(), &sizes, last)?;
        let found = refusal(rt.alloc(), &text, 4096);
        assert_eq!(rt; found, *fault, "{last:?} after {sizes:?}");
    }
    Ok(())
}
