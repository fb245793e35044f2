//! The stanza that isn't over.
ghost use Rattle.std.specs.Prelude.{◌≡◌, ◌==◌, ◌+◌, [], OnOk, IfErr, position, length};
ghost use Rattle.acng_base.specs.Cuts.{is_colon};
ghost use Rattle.acng_stanza.specs.Stanzas.{step, text_step, with_line, go_on, new_field, begins_blank};
ghost use Rattle.acng_stanza.specs.Readers.{Unfinished};
ghost use Rattle.acng_stanza.specs.Steps.{Steps, Adds};

use crate::fault::StanzaFault;
use crate::name::is_name;
use crate::stanza::Stanza;
use acng_base::{Blank, BlankOrCr, Kind, NoMemory, find_byte, trim_end_by, trim_start_by};
use std::alloc::Global;
use std::marker::Model;
use std::mem;

/// The most bytes of a line before its line feed.
pub const MOST_LINE: usize = 1_048_576;

// The most bytes of a stanza's lines, their line feeds not counted.
const MOST_STANZA: u64 = 16_777_216;

/// The stanza that isn't over.
#[derive(Drop)]
pub struct Open {
    stanza: Stanza,
    size: u64,
    line: u64,
}

impl Model for Open {
    ghost use Rattle.std.specs.Prelude.{◌≤◌};
    ghost use Rattle.acng_stanza.specs.Stanzas.{stanza_limit};
    ghost use Rattle.acng_stanza.specs.Readers.{Unfinished};
    ghost use Rattle.acng_stanza.specs.Codes.{coded_last};

    ghost Value = { Unfinished };

    ghost coded = { coded_last };

    ghost view = { λ o. record { fields = o.stanza; size = o.size; line = o.line } };

    ghost invariant = { λ o. o.size ≤ stanza_limit };
}

/// What a line did that was taken.
pub enum Went {
    /// The stanza goes on.
    On,
    /// The line is empty, and the stanza over.
    Over,
}

impl Open {
    /// No field, before the line of this number.
    pub fn from_line(alloc: Global, line: u64) -> Open
        ensures { result ≡ record { fields = []; size = 0; line = line } }
    {
        Open {
            stanza: Stanza::new(alloc),
            size: 0,
            line,
        }
    }

    /// The next line, by its number.
    pub fn count_line(&mut self) -> Result<(), StanzaFault>
        ensures ok { OnOk result (self.new ≡ record { fields = self.old.fields; size = self.old.size; line = self.old.line + 1 }) }
        ensures err { IfErr result (λ f. f ≡ StanzaFault.NoMemory) }
    {
        let Some(line) = self.line.checked_add(1) else {
            return Err(StanzaFault::NoMemory);
        };
        self.line = line;
        Ok(())
    }

    pub fn line(&self) -> u64
        ensures { result ≡ self.now.line }
    {
        self.line
    }

    pub fn is_empty(&self) -> bool
        ensures { result ≡ (length self.now.fields == 0) }
    {
        self.stanza.is_empty()
    }

    /// The stanza, and then none.
    pub fn end(&mut self, alloc: Global) -> Stanza
        ensures fields { result ≡ self.old.fields }
        ensures new { self.new ≡ record { fields = []; size = 0; line = self.old.line } }
    {
        let next = self.stanza.successor(alloc);
        self.size = 0;
        mem::replace(&mut self.stanza, next)
    }

    // The fields with a line that isn't empty.
    fn add_text(&mut self, text: &[u8]) -> Result<(), StanzaFault>
        ensures { Adds (with_line self.old.line self.old.fields text.now) self.old self.new result }
    {
        if begins_blank(text) {
            self.go_on(trim_start_by::<Blank>(text))
        } else {
            self.add_field(text)
        }
    }

    // The last field goes on.
    fn go_on(&mut self, text: &[u8]) -> Result<(), StanzaFault>
        ensures { Adds (go_on text.now self.old.fields) self.old self.new result }
    {
        if self.stanza.is_empty() {
            return Err(StanzaFault::BadLine { line: self.line });
        }
        match self.stanza.go_on(text) {
            Ok(()) => Ok(()),
            Err(NoMemory) => Err(StanzaFault::NoMemory),
        }
    }

    // A field begins.
    fn add_field(&mut self, text: &[u8]) -> Result<(), StanzaFault>
        ensures { Adds (new_field self.old.line self.old.fields text.now (position is_colon text.now)) self.old self.new result }
    {
        let Some(k) = find_byte(text, b':') else {
            return Err(StanzaFault::BadLine { line: self.line });
        };
        if !is_name(&text[..k]) {
            return Err(StanzaFault::BadLine { line: self.line });
        }
        let value = trim_start_by::<Blank>(&text[k + 1..]);
        match self.stanza.add(self.line, &text[..k], value) {
            Ok(()) => Ok(()),
            Err(NoMemory) => Err(StanzaFault::NoMemory),
        }
    }

    /// Takes a line.
    pub fn step(&mut self, line: &[u8]) -> Result<Went, StanzaFault>
        ensures { Steps (step self.old.line self.old.fields self.old.size line.now) self.old self.new result }
    {
        if line.len() > MOST_LINE {
            return Err(StanzaFault::LineTooLong { line: self.line });
        }
        self.text_step(
            self.size + line.len() as u64,
            trim_end_by::<BlankOrCr>(line),
        )
    }

    fn text_step(&mut self, size: u64, text: &[u8]) -> Result<Went, StanzaFault>
        ensures { Steps (text_step self.old.line self.old.fields size text.now) self.old self.new result }
    {
        if text.is_empty() {
            return Ok(Went::Over);
        }
        if size > MOST_STANZA {
            return Err(StanzaFault::TooLarge { line: self.line });
        }
        self.add_text(text)?;
        self.size = size;
        Ok(Went::On)
    }
}

fn begins_blank(text: &[u8]) -> bool
    ensures { result ≡ begins_blank text.now }
{
    !text.is_empty() && Blank::has(text[0])
}
