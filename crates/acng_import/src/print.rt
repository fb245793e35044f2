//! The printed lines of an import: one for each found file, by its end and its name.
ghost use Rattle.std.specs.Prelude.{◌≡◌, ◌++◌, IfOk, OnOk, codes, decimal};
ghost use Rattle.acng_import.specs.Printed.{shown_byte, shown, end_text, line, lines, import_text};

use crate::ending::{FileEnd, FileEnds, Imported};
use crate::finder::Finder;
use acng_base::{NoMemory, Text};
use itoa::Buffer;
use std::alloc::Global;

fn push(bytes: &mut Vec<u8>, piece: &[u8]) -> Result<(), NoMemory>
    ensures { OnOk result (bytes.new.items ≡ bytes.old.items ++ piece.now) }
{
    bytes.extend_from_slice(piece)?;
    Ok(())
}

fn shown_byte(byte: u8) -> u8
    ensures { result ≡ shown_byte byte }
{
    if 0x21 <= byte && byte <= 0x7E {
        byte
    } else {
        b'?'
    }
}

fn push_name(bytes: &mut Vec<u8>, name: &[u8]) -> Result<(), NoMemory>
    ensures { OnOk result (bytes.new.items ≡ bytes.old.items ++ shown name.now) }
{
    for i in 0..name.len() {
        bytes.push(shown_byte(name[i]))?;
    }
    Ok(())
}

fn push_kept(bytes: &mut Vec<u8>, count: usize) -> Result<(), NoMemory>
    ensures { OnOk result (bytes.new.items ≡ bytes.old.items ++ (codes "kept " ++ (decimal count ++ codes " "))) }
{
    push(bytes, b"kept ")?;
    let mut buffer = Buffer::new();
    push(bytes, buffer.format(count as u64).as_bytes())?;
    push(bytes, b" ")
}

fn push_end(bytes: &mut Vec<u8>, end: &FileEnd) -> Result<(), NoMemory>
    ensures { OnOk result (bytes.new.items ≡ bytes.old.items ++ end_text end.now) }
{
    match end {
        FileEnd::FindFault => push(bytes, b"fault "),
        FileEnd::TooLong => push(bytes, b"toolong "),
        FileEnd::Unknown { .. } => push(bytes, b"unknown "),
        FileEnd::Held => push(bytes, b"held "),
        FileEnd::Full => push(bytes, b"full "),
        FileEnd::Kept { paths } => push_kept(bytes, paths.len()),
    }
}

fn push_line(bytes: &mut Vec<u8>, end: &FileEnd, name: &[u8]) -> Result<(), NoMemory>
    ensures { OnOk result (bytes.new.items ≡ bytes.old.items ++ line end.now name.now) }
{
    push_end(bytes, end)?;
    push_name(bytes, name)?;
    push(bytes, b"\n")
}

// A line for each end.
fn push_lines<F: Finder>(bytes: &mut Vec<u8>, finder: &F, ends: &FileEnds) -> Result<(), NoMemory>
    ensures { OnOk result (bytes.new.items ≡ bytes.old.items ++ lines ends.now (F.names finder.now)) }
{
    let count = ends.len().min(finder.count());
    for i in 0..count {
        push_line(bytes, ends.get(i), finder.name(i))?;
    }
    Ok(())
}

/// `kept N NAME` for a file that N paths have now, or `unknown`, `held`, `full`, `toolong` or `fault` with the name, a line for
/// each file; then `stopped` or `worn`, where the import ended so.
pub fn print_imported<F: Finder, P>(
    alloc: Global,
    finder: &F,
    imported: &Imported<P>,
) -> Result<Text, NoMemory>
    ensures { IfOk result (λ text. text ≡ import_text (F.names finder.now) imported.now) }
{
    let mut bytes = Vec::new(alloc);
    match imported {
        Imported::Done(ends) => push_lines(&mut bytes, finder, ends)?,
        Imported::Stopped { ends, .. } => {
            push_lines(&mut bytes, finder, ends)?;
            push(&mut bytes, b"stopped\n")?;
        }
        Imported::Worn(ends) => {
            push_lines(&mut bytes, finder, ends)?;
            push(&mut bytes, b"worn\n")?;
        }
        Imported::NoMemory => (),
    }
    Ok(Text::of(bytes))
}
