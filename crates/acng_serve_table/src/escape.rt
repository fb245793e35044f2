//! Bytes as lines of text, and back. `\r`, `\n` and `\b` stand for CR, LF and a backslash, and `\xHH` for any byte.
use crate::fault::Fault;
use std::alloc::Global;

/// Adds the bytes that a text stands for.
pub fn push_bytes(out: &mut Vec<u8>, text: &str) -> Result<(), Fault> {
    let mut pieces = text.split('\\');
    if let Some(plain) = pieces.next() {
        out.extend_from_slice(plain.as_bytes())?;
    }
    for piece in pieces {
        push_escaped(out, piece)?;
    }
    Ok(())
}

// Adds what stands behind a backslash.
fn push_escaped(out: &mut Vec<u8>, piece: &str) -> Result<(), Fault> {
    let Some((byte, rest)) = escaped(piece) else {
        return Err(Fault::NotAScript);
    };
    out.push(byte)?;
    out.extend_from_slice(rest.as_bytes())?;
    Ok(())
}

// The byte that is named at the front, and the rest.
fn escaped(piece: &str) -> Option<(u8, &str)> {
    if let Some(rest) = piece.strip_prefix('r') {
        return Some((b'\r', rest));
    }
    if let Some(rest) = piece.strip_prefix('n') {
        return Some((b'\n', rest));
    }
    if let Some(rest) = piece.strip_prefix('b') {
        return Some((b'\\', rest));
    }
    let digits = piece.strip_prefix('x')?;
    let byte = u8::from_str_radix(digits.get(..2)?, 16).ok()?;
    Some((byte, digits.get(2..)?))
}

/// The bytes as lines, each of which ends at an LF or at the end.
pub fn lines_of(alloc: Global, bytes: &[u8]) -> Result<String, Fault> {
    let mut lines = String::new(alloc);
    let mut begun = false;
    for byte in bytes {
        if !begun {
            lines.push('+')?;
        }
        begun = *byte != b'\n';
        push_text(alloc, &mut lines, *byte)?;
        if !begun {
            lines.push('\n')?;
        }
    }
    if begun {
        lines.push('\n')?;
    }
    Ok(lines)
}

// Adds the text of a byte.
fn push_text(alloc: Global, lines: &mut String, byte: u8) -> Result<(), Fault> {
    match byte {
        b'\r' => lines.push_str("\\r")?,
        b'\n' => lines.push_str("\\n")?,
        b'\\' => lines.push_str("\\b")?,
        0x20..=0x7E => lines.push(char::from(byte))?,
        _ => lines.push_str(format!(in alloc; "\\x{byte:02x}")?.as_str())?,
    }
    Ok(())
}
