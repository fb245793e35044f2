//! What the serving of files follows of a configuration: ages, limits, and the texts of the two patterns.
//!
//! It is a value of its own, so that what holds it for long, perhaps behind a lock, needs no configuration. The patterns
//! are held as texts, since a built one couldn't be shared between threads.
ghost use Rattle.std.specs.Prelude.{◌≡◌, true, IfOk, option_map};
ghost use Rattle.std.specs.Option.{option_map_or};
ghost use Rattle.acng_conf.specs.Settings.{rules_of};
ghost use Rattle.acng_conf.specs.Readings.{is_pattern};

use crate::conf::Conf;
use crate::pattern::PatternText;
use acng_base::NoMemory;
use std::alloc::Global;
use std::marker::Model;

/// What is followed of a configuration while files are served and expired. Contracts see it as a record of its parts.
#[derive(Debug, Drop)]
pub struct Rules {
    threshold_days: u32,
    abort_limit: u32,
    offline: bool,
    fresh_age: u64,
    redir_max: u32,
    pfile_pattern: Option<PatternText>,
    vfile_pattern: Option<PatternText>,
}

impl Model for Rules {
    ghost use Rattle.acng_conf.specs.Settings.{Rules as RulesView};

    ghost Value = { RulesView };

    ghost view = { λ r. record {
      threshold_days = r.threshold_days;
      abort_limit = r.abort_limit;
      offline = r.offline;
      fresh_age = r.fresh_age;
      redir_max = r.redir_max;
      pfile_pattern = r.pfile_pattern;
      vfile_pattern = r.vfile_pattern;
    } };
}

impl Conf {
    /// What is followed of the configuration while files are served and expired, with its own copy of the patterns.
    pub fn rules(&self, alloc: Global) -> Result<Rules, NoMemory>
        ensures { IfOk result (λ rules. rules ≡ rules_of self.now) }
    {
        Ok(Rules {
            threshold_days: self.threshold_days(),
            abort_limit: self.abort_limit(),
            offline: self.offline(),
            fresh_age: self.fresh_age(),
            redir_max: self.redir_max(),
            pfile_pattern: copy_pattern(alloc, self.pfile_pattern())?,
            vfile_pattern: copy_pattern(alloc, self.vfile_pattern())?,
        })
    }
}

fn copy_pattern(alloc: Global, text: Option<&[u8]>) -> Result<Option<PatternText>, NoMemory>
    requires { option_map_or is_pattern (option_map (λ t. t.now) text) true ≡ true }
    ensures { IfOk result (λ pattern. pattern ≡ option_map (λ t. t.now) text.entry) }
{
    match text {
        Some(text) => Ok(Some(PatternText::copy(alloc, text)?)),
        None => Ok(None),
    }
}

impl Rules {
    /// For how many days a file stays that no index names.
    pub fn threshold_days(&self) -> u32
        ensures { result ≡ self.now.threshold_days }
    {
        self.threshold_days
    }

    /// From how many problems on nothing expires; 0 for never.
    pub fn abort_limit(&self) -> u32
        ensures { result ≡ self.now.abort_limit }
    {
        self.abort_limit
    }

    /// Whether no origin is asked.
    pub fn offline(&self) -> bool
        ensures { result ≡ self.now.offline }
    {
        self.offline
    }

    /// For how many seconds a volatile file is fresh.
    pub fn fresh_age(&self) -> u64
        ensures { result ≡ self.now.fresh_age }
    {
        self.fresh_age
    }

    /// How many redirects are followed in a row.
    pub fn redir_max(&self) -> u32
        ensures { result ≡ self.now.redir_max }
    {
        self.redir_max
    }

    /// The pattern of further package files; `regex` reads it.
    pub fn pfile_pattern(&self) -> Option<&[u8]>
        ensures text { option_map (λ text. text.now) result ≡ self.now.pfile_pattern }
        ensures pattern { option_map_or is_pattern self.now.pfile_pattern true ≡ true }
    {
        match &self.pfile_pattern {
            Some(text) => Some(text.as_bytes()),
            None => None,
        }
    }

    /// The pattern of further volatile files; `regex` reads it.
    pub fn vfile_pattern(&self) -> Option<&[u8]>
        ensures text { option_map (λ text. text.now) result ≡ self.now.vfile_pattern }
        ensures pattern { option_map_or is_pattern self.now.vfile_pattern true ≡ true }
    {
        match &self.vfile_pattern {
            Some(text) => Some(text.as_bytes()),
            None => None,
        }
    }
}
