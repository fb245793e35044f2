//! A text in pieces, whose stanzas are handed on as they are over.
//!
//! Between two pieces no stanza waits, so what stands in memory beside the text is the stanzas of one piece.
ghost use Rattle.std.specs.Prelude.{◌≡◌, ◌≢◌, ◌≤◌, ◌<◌, [], ◌∷◌, List, None, Some, OnOk, IfErr};
ghost use Rattle.acng_stanza.specs.Stanzas.{Field, reading_from};
ghost use Rattle.acng_index.specs.Makes.{Made};
ghost use Rattle.acng_index.specs.Drives.{Drains, DrivesPiece, DrivesRest};

use acng_base::NoMemory;
use acng_stanza::{Stanza, StanzaFault, StanzaReader};
use std::alloc::Global;

/// What takes stanzas, one after another.
pub trait Takes: Drop {
    /// What it makes of the stanzas that may follow.
    ghost makes: { Self → List (List Field) → Made };

    fn take(&mut self, alloc: Global, stanza: Stanza) -> Result<(), NoMemory>
        ensures { OnOk result ((ss : List (List Field)) → makes self.new ss ≡ makes self.old (stanza ∷ ss)) };
}

const PIECE: usize = 16_384;

/// Hands on each stanza of a text whose first line has this number, or answers its first refusal.
pub fn read_stanzas<T: Takes>(
    alloc: Global,
    text: &[u8],
    line: u64,
    taker: &mut T,
) -> Result<(), StanzaFault>
    ensures ok { OnOk result (T.makes taker.new [] ≡ T.makes taker.old (reading_from line text.now).stanzas) }
    ensures whole { OnOk result ((reading_from line text.now).fault ≡ None) }
    ensures refused { IfErr result (λ fault. fault ≢ StanzaFault.NoMemory → (reading_from line text.now).fault ≡ Some fault) }
{
    let mut reader = StanzaReader::from_line(alloc, line);
    let mut start = 0;
    while start < text.len() {
        let stop = next_stop(start, text.len());
        if let Err(fault) = take_piece(alloc, &mut reader, taker, &text[start..stop]) {
            return Err(fault);
        }
        start = stop;
    }
    take_rest(alloc, &mut reader, taker)
}

fn next_stop(start: usize, len: usize) -> usize
    requires { start < len }
    ensures after { start < result }
    ensures within { result ≤ len }
{
    if len - start > PIECE {
        start + PIECE
    } else {
        len
    }
}

fn take_piece<T: Takes>(
    alloc: Global,
    reader: &mut StanzaReader,
    taker: &mut T,
    piece: &[u8],
) -> Result<(), StanzaFault>
    ensures { DrivesPiece piece.now (T.makes taker.old) (T.makes taker.new) reader.old reader.new result }
{
    if let Err(fault) = reader.push(alloc, piece) {
        return Err(fault);
    }
    match drain(alloc, reader, taker) {
        Ok(()) => Ok(()),
        Err(NoMemory) => Err(StanzaFault::NoMemory),
    }
}

fn take_rest<T: Takes>(
    alloc: Global,
    reader: &mut StanzaReader,
    taker: &mut T,
) -> Result<(), StanzaFault>
    ensures { DrivesRest (T.makes taker.old) (T.makes taker.new) reader.old result }
{
    if let Err(fault) = reader.close(alloc) {
        return Err(fault);
    }
    match drain(alloc, reader, taker) {
        Ok(()) => Ok(()),
        Err(NoMemory) => Err(StanzaFault::NoMemory),
    }
}

// Each stanza that waits is taken.
fn drain<T: Takes>(alloc: Global, reader: &mut StanzaReader, taker: &mut T) -> Result<(), NoMemory>
    ensures { OnOk result (Drains (T.makes taker.old) (T.makes taker.new) reader.old reader.new) }
{
    while let Some(stanza) = reader.next_stanza() {
        taker.take(alloc, stanza)?;
    }
    Ok(())
}
