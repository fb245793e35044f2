//! A pattern that is built once and searched for in many paths.
ghost use Rattle.std.specs.Prelude.{◌≡◌, ◌≢◌, List, ℕ, true, false, IfOk, IfErr, OnOk};
ghost use Rattle.acng_conf.specs.Readings.{is_pattern};
ghost use Rattle.acng_class.specs.Patterns.{found_by};

use acng_base::NoMemory;
use regex::{Error, Regex};
use std::alloc::Global;
use std::marker::Model;
use std::str;

/// A pattern of `regex`. Contracts see it as its text.
#[derive(Drop)]
pub struct Pattern {
    regex: Regex,
}

/// Why no pattern is built of a text.
#[derive(Clone, Copy, Debug, PartialEq, Eq)]
pub enum PatternFault {
    /// Memory was refused, or the pattern is too big to build: nothing in its text says so.
    NoMemory,
    /// The text isn't UTF-8, or no pattern.
    Bad,
}

impl Model for Pattern {
    ghost use Rattle.std.specs.Prelude.{◌≡◌, List, ℕ};
    ghost use Rattle.regex.specs.Patterns.{default_config};
    ghost use Rattle.regex.specs.Strings.{regex_source, regex_config, IsReadFromSource};

    ghost Value = { List ℕ };

    ghost view = { λ p. regex_source p.regex };

    ghost invariant = { λ p. (regex_config p.regex ≡ default_config) × IsReadFromSource p.regex };
}

impl Pattern {
    pub fn build(alloc: Global, source: &[u8]) -> Result<Pattern, PatternFault>
        ensures text { IfOk result (λ pattern. pattern ≡ source.now) }
        ensures accepted { OnOk result (is_pattern source.now ≡ true) }
        ensures bad { IfErr result (λ fault. fault ≢ PatternFault.NoMemory → is_pattern source.now ≡ false) }
    {
        let Ok(text) = str::from_utf8(source) else {
            return Err(PatternFault::Bad);
        };
        match Regex::new(alloc, text) {
            Ok(regex) => Ok(Pattern { regex }),
            Err(Error::Syntax(_)) => Err(PatternFault::Bad),
            Err(_) => Err(PatternFault::NoMemory),
        }
    }

    /// Whether the pattern is found in the text.
    pub fn is_found(&self, alloc: Global, text: &str) -> Result<bool, NoMemory>
        ensures { IfOk result (λ found. found ≡ found_by self.now text.now) }
    {
        let mut matcher = self.regex.matcher(alloc)?;
        Ok(matcher.is_match(text))
    }
}
