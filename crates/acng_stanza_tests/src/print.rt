//! What a text reads as, in print.

use acng_stanza::{Stanza, StanzaFault, StanzaReader};
use std::alloc::Global;
use std::test::Fail;

/// The stanzas that were handed out, and the refusal.
#[derive(Drop)]
pub struct Printed {
    /// Each field as `NAME=VALUE@LINE,`, each stanza ended by `;`.
    pub stanzas: Vec<u8>,
    pub fault: Option<StanzaFault>,
}

/// Reads a text in pieces of so many bytes. The stanzas are taken after each piece.
pub fn read(alloc: Global, text: &[u8], cut: usize) -> Result<Printed, Fail> {
    let mut reader = StanzaReader::new(alloc);
    let mut stanzas = Vec::new(alloc);
    let mut left = text;
    for _ in 0..text.len() {
        if left.is_empty() || cut == 0 {
            break;
        }
        let len = cut.min(left.len());
        let _ = reader.push(alloc, &left[..len]);
        print(alloc, &mut reader, &mut stanzas)?;
        left = &left[len..];
    }
    let fault = reader.close(alloc).err();
    print(alloc, &mut reader, &mut stanzas)?;
    Ok(Printed { stanzas, fault })
}

fn print(alloc: Global, reader: &mut StanzaReader, out: &mut Vec<u8>) -> Result<(), Fail> {
    while let Some(stanza) = reader.next_stanza() {
        print_stanza(alloc, &stanza, out)?;
    }
    Ok(())
}

fn print_stanza(alloc: Global, stanza: &Stanza, out: &mut Vec<u8>) -> Result<(), Fail> {
    for i in 0..stanza.len() {
        out.extend_from_slice(stanza.name(i))?;
        out.push(b'=')?;
        out.extend_from_slice(stanza.value(i))?;
        out.extend_from_slice(format!(in alloc; "@{},", stanza.line(i))?.as_bytes())?;
    }
    out.push(b';')?;
    Ok(())
}
