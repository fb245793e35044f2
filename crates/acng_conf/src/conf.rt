//! A configuration: what its lines say, and the look-up of entries.
ghost use Rattle.std.specs.Prelude.{◌≡◌, ◌<◌, List, ℕ, true, IfOk, IfSome, length, option_map};
ghost use Rattle.std.specs.Option.{option_map_or};
ghost use Rattle.acng_conf.specs.Settings.{Settings, defaults};
ghost use Rattle.acng_conf.specs.Readings.{is_pattern, owner, called, are_names, finished};

use crate::fault::Warning;
use crate::group::Group;
use crate::settings::Settings;
use acng_base::NoMemory;
use std::alloc::Global;
use std::collections::BTreeMap;
use std::marker::Model;

/// A configuration. Contracts see it as its settings.
///
/// `owners` has the group of each entry that merges: what a walk over the groups would find. Each step of the reading
/// takes the whole and gives it back, so that none is seen whose look-up and groups differ.
#[derive(Debug, Drop)]
pub struct Conf {
    pub(crate) settings: Settings,
    pub(crate) owners: BTreeMap<Vec<u8>, usize>,
}

impl Model for Conf {
    ghost use Rattle.acng_conf.specs.Settings.{Settings};
    ghost use Rattle.acng_conf.specs.LookUps.{IsLookUp};

    ghost Value = { Settings };

    ghost view = { λ c. c.settings };

    ghost invariant = { λ c. IsLookUp (λ k. k.items) c.owners c.settings.groups };
}

impl Conf {
    // What holds where no line says otherwise.
    pub(crate) fn new(alloc: Global) -> Result<Conf, NoMemory>
        ensures { IfOk result (λ conf. conf ≡ defaults) }
    {
        Ok(Conf {
            settings: Settings::new(alloc)?,
            owners: BTreeMap::new(alloc),
        })
    }

    // The whole: each group with a prefix and no target is warned of at its last line.
    pub(crate) fn finish(self) -> Result<Conf, NoMemory>
        ensures { IfOk result (λ conf. conf ≡ finished self) }
    {
        let Conf {
            mut settings,
            owners,
        } = self;
        settings.warn_of_groups()?;
        Ok(Conf { settings, owners })
    }

    /// The port that clients connect to; at least 1.
    pub fn port(&self) -> u16
        ensures { result ≡ self.now.port }
    {
        self.settings.port
    }

    /// The address that the port is bound at.
    pub fn bind(&self) -> &[u8]
        ensures { result.now ≡ self.now.bind }
    {
        self.settings.bind.as_bytes()
    }

    /// For how many days a file stays that no index names.
    pub fn threshold_days(&self) -> u32
        ensures { result ≡ self.now.threshold_days }
    {
        self.settings.threshold_days
    }

    /// From how many problems on nothing expires; 0 for never.
    pub fn abort_limit(&self) -> u32
        ensures { result ≡ self.now.abort_limit }
    {
        self.settings.abort_limit
    }

    /// Whether no origin is asked.
    pub fn offline(&self) -> bool
        ensures { result ≡ self.now.offline }
    {
        self.settings.offline
    }

    /// The name of the report page.
    pub fn report_page(&self) -> &[u8]
        ensures { result.now ≡ self.now.report_page }
    {
        self.settings.report_page.as_bytes()
    }

    /// For how many seconds a volatile file is fresh.
    pub fn fresh_age(&self) -> u64
        ensures { result ≡ self.now.fresh_age }
    {
        self.settings.fresh_age
    }

    /// How many redirects are followed in a row.
    pub fn redir_max(&self) -> u32
        ensures { result ≡ self.now.redir_max }
    {
        self.settings.redir_max
    }

    /// Whether the report page may start an expiration.
    pub fn maint_over_http(&self) -> bool
        ensures { result ≡ self.now.maint_over_http }
    {
        self.settings.maint_over_http
    }

    /// The pattern of further package files; `regex` reads it.
    pub fn pfile_pattern(&self) -> Option<&[u8]>
        ensures text { option_map (λ text. text.now) result ≡ self.now.pfile_pattern }
        ensures pattern { option_map_or is_pattern self.now.pfile_pattern true ≡ true }
    {
        match &self.settings.pfile_pattern {
            Some(text) => Some(text.as_bytes()),
            None => None,
        }
    }

    /// The pattern of further volatile files; `regex` reads it.
    pub fn vfile_pattern(&self) -> Option<&[u8]>
        ensures text { option_map (λ text. text.now) result ≡ self.now.vfile_pattern }
        ensures pattern { option_map_or is_pattern self.now.vfile_pattern true ≡ true }
    {
        match &self.settings.vfile_pattern {
            Some(text) => Some(text.as_bytes()),
            None => None,
        }
    }

    /// The groups, in the order of their first lines. Each has a name of its own.
    pub fn groups(&self) -> &[Group]
        ensures groups { result.now ≡ self.now.groups }
        ensures names { are_names self.now.groups ≡ true }
    {
        self.settings.groups.as_slice()
    }

    /// The warnings, by rising line.
    pub fn warnings(&self) -> &[Warning]
        ensures { result.now ≡ self.now.warnings }
    {
        self.settings.warnings.as_slice()
    }

    /// The number of the group that the entry, in its canonical form, merges into. One look-up; takes no memory.
    pub fn owner(&self, entry: &[u8]) -> Option<usize>
        ensures owner { result ≡ owner entry.now self.now.groups }
        ensures within { IfSome result (λ k. k < length self.now.groups) }
    {
        self.owners.get(entry).copied()
    }

    /// The number of the group of this name.
    pub fn named(&self, name: &[u8]) -> Option<usize>
        ensures named { result ≡ called name.now self.now.groups }
        ensures within { IfSome result (λ k. k < length self.now.groups) }
    {
        self.settings.named(name)
    }
}
