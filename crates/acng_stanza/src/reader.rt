//! The reader of a text in pieces.
//!
//! Whole lines are taken out of the piece where they stand; only the part of a line that a piece's end cuts off is
//! held. A line that is too long is refused as soon as it is, and is never held whole.
ghost use Rattle.std.specs.Prelude.{◌≡◌, ◌++◌, [], ◌∷◌, List, ℕ, Some, None};
ghost use Rattle.acng_stanza.specs.Stanzas.{reading, reading_from};
ghost use Rattle.acng_stanza.specs.Readers.{Unbroken, all_of};
ghost use Rattle.acng_stanza.specs.Feeds.{Feeds, FeedsLine, told, UnlessStarved, TellsAgain, ClosesLast, Hands};

use crate::fault::StanzaFault;
use crate::lines::Lines;
use crate::open::MOST_LINE;
use crate::stanza::Stanza;
use acng_base::next_line_feed;
use std::alloc::Global;
use std::marker::Model;

/// A reader of stanzas. Contracts see what it makes of the text that may follow (`all_of`).
#[derive(Drop)]
pub struct StanzaReader {
    lines: Lines,
    held: Vec<u8>,
    fault: Option<StanzaFault>,
}

impl Model for StanzaReader {
    ghost use Rattle.acng_stanza.specs.Readers.{Reader, IsHeld};
    ghost use Rattle.acng_stanza.specs.Codes.{coded_reader};

    ghost Value = { Reader };

    ghost coded = { coded_reader };

    ghost view = { λ r. record { lines = r.lines; held = r.held.items; fault = r.fault } };

    ghost invariant = { λ r. IsHeld r.held.items };
}

impl StanzaReader {
    /// A reader of a text. Takes no memory.
    pub fn new(alloc: Global) -> StanzaReader
        ensures { (text : List ℕ) → all_of result text ≡ reading text }
    {
        StanzaReader::from_line(alloc, 1)
    }

    /// A reader of a text whose first line has this number. Takes no memory.
    pub fn from_line(alloc: Global, line: u64) -> StanzaReader
        ensures { (text : List ℕ) → all_of result text ≡ reading_from line text }
    {
        StanzaReader {
            lines: Lines::from_line(alloc, line),
            held: Vec::new(alloc),
            fault: None,
        }
    }

    /// Takes a piece of the text. The refusal is of the text's first line that has one; each later call answers it again.
    pub fn push(&mut self, alloc: Global, piece: &[u8]) -> Result<(), StanzaFault>
        ensures read { UnlessStarved result ((more : List ℕ) → all_of self.new more ≡ all_of self.old (piece.now ++ more)) }

        // The refusal is kept.
        ensures fault { self.new.fault ≡ told result }
        ensures again { TellsAgain self.old self.new result }
    {
        if let Some(fault) = self.fault {
            return Err(fault);
        }
        match self.take_piece(alloc, piece) {
            Ok(()) => Ok(()),
            Err(fault) => Err(self.refuse(fault)),
        }
    }

    /// The text is over: its last line needs no line feed. What waits then is all that was left of the text.
    pub fn close(&mut self, alloc: Global) -> Result<(), StanzaFault>
        ensures read { UnlessStarved result (record { stanzas = self.new.lines.waiting; fault = told result } ≡ all_of self.old []) }

        // The refusal is kept.
        ensures fault { self.new.fault ≡ told result }
        ensures again { TellsAgain self.old self.new result }
    {
        if let Some(fault) = self.fault {
            return Err(fault);
        }
        match self.take_last(alloc) {
            Ok(()) => Ok(()),
            Err(fault) => Err(self.refuse(fault)),
        }
    }

    /// Hands out the first stanza that is over; None where none waits. Nothing else changes.
    pub fn next_stanza(&mut self) -> Option<Stanza>
        ensures { Hands self.old self.new result }
    {
        self.lines.next()
    }

    fn refuse(&mut self, fault: StanzaFault) -> StanzaFault
        ensures fault { result ≡ fault }
        ensures new { self.new ≡ record { lines = self.old.lines; held = self.old.held; fault = Some fault } }
    {
        self.fault = Some(fault);
        fault
    }

    fn take_piece(&mut self, alloc: Global, piece: &[u8]) -> Result<(), StanzaFault>
        requires { self.old.fault ≡ None }
        ensures feeds { Feeds piece.now self.old self.new result }
        ensures fault { self.new.fault ≡ None }
    {
        let mut start = 0;
        while let Some(len) = next_line_feed(&piece[start..]) {
            if let Err(fault) = self.take_end(alloc, &piece[start..start + len]) {
                return Err(fault);
            }
            start += len + 1;
        }
        self.hold(&piece[start..])
    }

    // The part of a piece up to its first line feed.
    fn take_end(&mut self, alloc: Global, part: &[u8]) -> Result<(), StanzaFault>
        requires { Unbroken part.now }
        ensures feeds { Feeds (part.now ++ 10 ∷ []) self.old self.new result }
        ensures fault { self.new.fault ≡ self.old.fault }
    {
        if self.held.is_empty() {
            return self.lines.take_line(alloc, part);
        }
        self.hold(part)?;
        self.take_held(alloc)
    }

    // The held bytes are a whole line.
    fn take_held(&mut self, alloc: Global) -> Result<(), StanzaFault>
        ensures lines { FeedsLine self.old.held self.old.lines self.new.lines result }
        ensures feeds { Feeds (10 ∷ []) self.old self.new result }
        ensures unbroken { Unbroken self.old.held }
        ensures fault { self.new.fault ≡ self.old.fault }
    {
        let taken = self.lines.take_line(alloc, self.held.as_slice());
        self.held.clear();
        taken
    }

    // The held bytes are the last line, and the stanza is over.
    fn take_last(&mut self, alloc: Global) -> Result<(), StanzaFault>
        requires { self.old.fault ≡ None }
        ensures { ClosesLast self.old self.new result }
    {
        if let Err(fault) = self.take_held(alloc) {
            return Err(fault);
        }
        let Ok(()) = self.lines.end_stanza(alloc) else {
            return Err(StanzaFault::NoMemory);
        };
        Ok(())
    }

    // The part of a piece behind its last line feed.
    fn hold(&mut self, part: &[u8]) -> Result<(), StanzaFault>
        requires { Unbroken part.now }
        ensures feeds { Feeds part.now self.old self.new result }
        ensures fault { self.new.fault ≡ self.old.fault }
    {
        if part.len() > MOST_LINE - self.held.len() {
            return Err(StanzaFault::LineTooLong {
                line: self.lines.line(),
            });
        }
        let Ok(()) = self.held.extend_from_slice(part) else {
            return Err(StanzaFault::NoMemory);
        };
        Ok(())
    }
}
