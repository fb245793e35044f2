//! The lines of groups, added to a configuration in the making.
ghost use Rattle.std.specs.Prelude.{◌≡◌, ◌++◌, ◌∷◌, ◌<◌, ◌≤◌, ℕ, List, Ok, IfOk, OnOk, IfSome, length, Some, None, Err, Option, cond, ◌==◌, ◌+◌, true};
ghost use Rattle.acng_conf.specs.Keys.{is_group_name};
ghost use Rattle.acng_conf.specs.Remaps.{RemapLine as LineView};
ghost use Rattle.acng_conf.specs.Readings.{Gives, group_at, called, naming, with_place, with_targets, change, owner, merge, merge_all, add_words, add_brought, add_remap, after_merging, is_too_many};

use crate::conf::Conf;
use crate::fault::ConfCause;
use crate::group::Group;
use crate::key::is_group_name;
use crate::read::Reading;
use crate::remap_line::{RemapLine, WordFault, read_words, section_len};
use crate::settings::Settings;
use acng_base::{NoMemory, Text, Texts, words};
use std::alloc::Global;

/// The most groups.
const MOST_GROUPS: usize = 256;

/// The most entries that merge.
const MOST_ENTRIES: u64 = 20_000;

impl Reading<'_> {
    /// The line of a group.
    pub(crate) fn add_remap(
        self,
        alloc: Global,
        name: &[u8],
        value: &[u8],
    ) -> Result<Conf, ConfCause>
        ensures { Gives (add_remap self.entry.lists.now self.entry.line self.entry.conf name.now value.now) result }
    {
        if !is_group_name(name) {
            return Err(ConfCause::NotALine);
        }
        let words = words(alloc, value)?;
        let Reading { conf, lists, line } = self;
        let k = conf.settings.group_at(name);
        let conf = conf.name_group(alloc, line, name)?;
        let named = Reading { conf, lists, line };
        named.add_words(alloc, k, words.as_slice())
    }

    // The words of the line, for the group of a number.
    fn add_words(self, alloc: Global, k: usize, words: &[Text]) -> Result<Conf, ConfCause>
        requires { k < length self.conf.groups }
        ensures { Gives (add_words self.entry.lists.now self.entry.line k self.entry.conf words.now) result }
    {
        let held = self.conf.settings.groups[k].targets().len();
        match read_words(alloc, self.lists, held, words) {
            Ok(brought) => self.conf.add_brought(alloc, self.line, k, words, &brought),
            Err(WordFault::NoMemory) => Err(ConfCause::NoMemory),
            Err(WordFault::BadWord) => Err(ConfCause::BadUrl),
        }
    }
}

impl Conf {
    // The group of the name stands among the groups, with the number that it had or after the others.
    fn name_group(self, alloc: Global, line: u32, name: &[u8]) -> Result<Conf, NoMemory>
        requires { is_group_name name.now ≡ true }
        ensures named { IfOk result (λ conf. conf ≡ naming name.now line self) }
        ensures within { IfOk result (λ conf. group_at name.now self.groups < length conf.groups) }
    {
        let Conf {
            mut settings,
            owners,
        } = self;
        settings.name_group(alloc, line, name)?;
        Ok(Conf { settings, owners })
    }

    fn add_brought(
        self,
        alloc: Global,
        line: u32,
        k: usize,
        words: &[Text],
        brought: &RemapLine,
    ) -> Result<Conf, ConfCause>
        requires { k < length self.groups }
        ensures { Gives (add_brought line k self words.now (Some brought.now)) result }
    {
        if section_len(words) == 0 {
            return Err(ConfCause::NoMerge);
        }
        let merged = self.merge_all(alloc, k, brought.merging())?;
        merged.add_rest(alloc, line, k, brought)
    }

    // Targets and warnings, and the limits.
    fn add_rest(
        self,
        alloc: Global,
        line: u32,
        k: usize,
        brought: &RemapLine,
    ) -> Result<Conf, ConfCause>
        requires { k < length self.groups }
        ensures { Gives (after_merging line k brought.now self) result }
    {
        let Conf {
            mut settings,
            owners,
        } = self;
        settings.add_targets(alloc, k, brought.targets())?;
        settings.warn_all(line, brought.causes())?;
        if settings.is_too_many() {
            return Err(ConfCause::TooMany);
        }
        Ok(Conf { settings, owners })
    }

    fn merge_all(self, alloc: Global, k: usize, entries: &Texts) -> Result<Conf, ConfCause>
        requires { k < length self.groups }
        ensures step { Gives (merge_all k self entries.now) result }
        ensures groups { IfOk result (λ conf. length conf.groups ≡ length self.groups) }
    {
        let mut conf = self;
        for i in 0..entries.len() {
            conf = conf.merge(alloc, k, entries.get(i))?;
        }
        Ok(conf)
    }

    // An entry merges into one group; twice into the same one counts once.
    fn merge(self, alloc: Global, k: usize, entry: &[u8]) -> Result<Conf, ConfCause>
        requires { k < length self.groups }
        ensures step { Gives (merge k self entry.now) result }
        ensures groups { IfOk result (λ conf. length conf.groups ≡ length self.groups) }
    {
        match self.owner(entry) {
            Some(j) => self.merge_again(k, j),
            None => Ok(self.merge_first(alloc, k, entry)?),
        }
    }

    // An entry that merges into group j already.
    fn merge_again(self, k: usize, j: usize) -> Result<Conf, ConfCause>
        ensures step { Gives (cond (j == k) (Ok self) (Err ConfCause.TwiceMerged)) result }
        ensures groups { IfOk result (λ conf. length conf.groups ≡ length self.groups) }
    {
        if j == k {
            Ok(self)
        } else {
            Err(ConfCause::TwiceMerged)
        }
    }

    // An entry that merges into no group yet.
    fn merge_first(self, alloc: Global, k: usize, entry: &[u8]) -> Result<Conf, NoMemory>
        requires within { k < length self.groups }
        requires first { owner entry.now self.groups ≡ None }
        ensures step { IfOk result (λ conf. conf ≡ change (with_place entry.now) k (record self { entries = self.entries + 1 })) }
        ensures groups { IfOk result (λ conf. length conf.groups ≡ length self.groups) }
    {
        let Conf {
            mut settings,
            mut owners,
        } = self;
        settings.add_place(alloc, k, entry)?;
        let key = Vec::from_slice(alloc, entry)?;
        let Ok(_) = owners.insert(key, k) else {
            return Err(NoMemory);
        };
        Ok(Conf { settings, owners })
    }
}

impl Settings {
    fn group_at(&self, name: &[u8]) -> usize
        ensures at { result ≡ group_at name.now self.now.groups }
        ensures within { result ≤ length self.now.groups }
    {
        match self.named(name) {
            Some(k) => k,
            None => self.groups.len(),
        }
    }

    /// The number of the group of this name.
    pub(crate) fn named(&self, name: &[u8]) -> Option<usize>
        ensures named { result ≡ called name.now self.now.groups }
        ensures within { IfSome result (λ k. k < length self.now.groups) }
    {
        self.groups.iter().position(|g| g.name() == name)
    }

    fn name_group(&mut self, alloc: Global, line: u32, name: &[u8]) -> Result<(), NoMemory>
        ensures named { OnOk result (self.new ≡ naming name.now line self.old) }
        ensures within { OnOk result (group_at name.now self.old.groups < length self.new.groups) }
    {
        let k = self.group_at(name);
        if k == self.groups.len() {
            let group = Group::new(alloc, name, line)?;
            self.groups.push(group)?;
        }
        self.groups[k].name_at(line);
        Ok(())
    }

    fn add_place(&mut self, alloc: Global, k: usize, entry: &[u8]) -> Result<(), NoMemory>
        requires { k < length self.old.groups }
        ensures { OnOk result (self.new ≡ change (with_place entry.now) k (record self.old { entries = self.old.entries + 1 })) }
    {
        let Some(entries) = self.entries.checked_add(1) else {
            return Err(NoMemory);
        };
        self.entries = entries;
        self.groups[k].add_place(alloc, entry)
    }

    fn add_targets(&mut self, alloc: Global, k: usize, targets: &Texts) -> Result<(), NoMemory>
        requires { k < length self.old.groups }
        ensures { OnOk result (self.new ≡ change (with_targets targets.now) k self.old) }
    {
        self.groups[k].add_targets(alloc, targets)
    }

    fn is_too_many(&self) -> bool
        ensures { result ≡ is_too_many self.now }
    {
        self.groups.len() > MOST_GROUPS || self.entries > MOST_ENTRIES
    }
}
