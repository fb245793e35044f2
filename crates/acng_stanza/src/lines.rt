//! Whole lines, one after another, and the stanzas that are over and wait.
ghost use Rattle.std.specs.Prelude.{◌≡◌, ◌++◌, [], ◌∷◌, OnOk, MatchOption};
ghost use Rattle.acng_stanza.specs.Stanzas.{some_stanza};
ghost use Rattle.acng_stanza.specs.Readers.{new_lines};
ghost use Rattle.acng_stanza.specs.Feeds.{FeedsLine};
ghost use Rattle.acng_stanza.specs.Steps.{IsGone};

use crate::fault::StanzaFault;
use crate::open::{Open, Went};
use crate::stanza::Stanza;
use acng_base::NoMemory;
use std::alloc::Global;
use std::collections::VecDeque;
use std::marker::Model;

/// The stanzas that wait, and the one that isn't over.
#[derive(Drop)]
pub struct Lines {
    waiting: VecDeque<Stanza>,
    last: Open,
}

impl Model for Lines {
    ghost use Rattle.acng_stanza.specs.Readers.{Lined};
    ghost use Rattle.acng_stanza.specs.Codes.{coded_lined};

    ghost Value = { Lined };

    ghost coded = { coded_lined };

    ghost view = { λ l. record { waiting = l.waiting.items; last = l.last } };
}

impl Lines {
    /// Nothing was read yet, and the next line has this number.
    pub fn from_line(alloc: Global, line: u64) -> Lines
        ensures { result ≡ new_lines line }
    {
        Lines {
            waiting: VecDeque::new(alloc),
            last: Open::from_line(alloc, line),
        }
    }

    /// Takes a whole line.
    pub fn take_line(&mut self, alloc: Global, line: &[u8]) -> Result<(), StanzaFault>
        ensures { FeedsLine line.now self.old self.new result }
    {
        let went = self.last.step(line)?;
        self.go(alloc, went)
    }

    // After a line that was taken.
    fn go(&mut self, alloc: Global, went: Went) -> Result<(), StanzaFault>
        ensures { IsGone went self.old self.new result }
    {
        match went {
            Went::On => self.last.count_line(),
            Went::Over => self.go_over(alloc),
        }
    }

    fn go_over(&mut self, alloc: Global) -> Result<(), StanzaFault>
        ensures { IsGone Went.Over self.old self.new result }
    {
        let Ok(()) = self.end_stanza(alloc) else {
            return Err(StanzaFault::NoMemory);
        };
        self.last.count_line()
    }

    /// The stanza is over, and waits.
    pub fn end_stanza(&mut self, alloc: Global) -> Result<(), NoMemory>
        ensures waiting { OnOk result (self.new.waiting ≡ self.old.waiting ++ some_stanza self.old.last.fields) }
        ensures last { OnOk result (self.new.last ≡ record { fields = []; size = 0; line = self.old.last.line }) }
    {
        let none = self.last.is_empty();
        let stanza = self.last.end(alloc);
        if none {
            return Ok(());
        }
        let Ok(()) = self.waiting.push_back(stanza) else {
            return Err(NoMemory);
        };
        Ok(())
    }

    /// The number of the line that comes next.
    pub fn line(&self) -> u64
        ensures { result ≡ self.now.last.line }
    {
        self.last.line()
    }

    /// The first stanza that waits.
    pub fn next(&mut self) -> Option<Stanza>
        ensures waiting { MatchOption result ((self.old.waiting ≡ []) × (self.new.waiting ≡ []))
            (λ s. self.old.waiting ≡ s ∷ self.new.waiting) }
        ensures last { self.new.last ≡ self.old.last }
    {
        self.waiting.pop_front()
    }
}
