//! Whether a text is a pattern of `regex`.
ghost use Rattle.std.specs.Prelude.{◌≡◌, true, IfOk};
ghost use Rattle.acng_conf.specs.Readings.{is_pattern, is_read};

use acng_base::{NoMemory, Text};
use regex::{Error, Regex};
use std::alloc::Global;
use std::marker::Model;
use std::str;

/// The text of a pattern. Contracts see it as its bytes.
#[derive(Debug, Drop)]
pub(crate) struct PatternText {
    text: Text,
}

impl Model for PatternText {
    ghost use Rattle.std.specs.Prelude.{◌≡◌, true, List, ℕ};
    ghost use Rattle.acng_conf.specs.Readings.{is_pattern};

    ghost Value = { List ℕ };

    ghost view = { λ p. p.text };

    ghost invariant = { λ p. is_pattern p.text ≡ true };
}

impl PatternText {
    pub(crate) fn copy(alloc: Global, source: &[u8]) -> Result<PatternText, NoMemory>
        requires { is_pattern source.now ≡ true }
        ensures { IfOk result (λ pattern. pattern ≡ source.now) }
    {
        Ok(PatternText {
            text: Text::copy(alloc, source)?,
        })
    }

    pub(crate) fn as_bytes(&self) -> &[u8]
        ensures bytes { result.now ≡ self.now }
        ensures pattern { is_pattern self.now ≡ true }
    {
        self.text.as_bytes()
    }
}

/// Whether `regex` reads the text. A pattern that is too big to build counts as want of memory, as nothing in its text
/// says so.
pub fn is_pattern(alloc: Global, source: &[u8]) -> Result<bool, NoMemory>
    ensures { IfOk result (λ is. is ≡ is_pattern source.now) }
{
    let Ok(text) = str::from_utf8(source) else {
        return Ok(false);
    };
    is_read(alloc, text)
}

fn is_read(alloc: Global, text: &str) -> Result<bool, NoMemory>
    ensures { IfOk result (λ is. is ≡ is_read text.now) }
{
    match Regex::new(alloc, text) {
        Ok(_regex) => Ok(true),
        Err(Error::Syntax(_)) => Ok(false),
        Err(_) => Err(NoMemory),
    }
}
