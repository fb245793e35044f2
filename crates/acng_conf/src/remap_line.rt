//! What a line brings to its group: entries that merge, targets, and warnings.
//!
//! Nothing is added to the group before the whole line has read.
ghost use Rattle.std.specs.Prelude.{◌≡◌, ◌++◌, ◌∷◌, List, [], ℕ, IfOk, OnOk, IfErr, length, take, drop, cond, bytes_eq, Some, None, option_map, Option, codes, ◌-◌, ◌≤◌, ◌<◌, IfSome, position};
ghost use Rattle.std.specs.List.{list_any};
ghost use Rattle.acng_base.specs.Cuts.{pieces};
ghost use Rattle.acng_conf.specs.Places.{entry_of, url_entry};
ghost use Rattle.acng_conf.specs.Remaps.{RemapLine as LineView, empty_line, warned, with_target, taken, Listing, after_entry, after_list_text, after_list_line, after_list_lines, after_file, after_fitting, after_files, ends_with_gz, is_listed, after_pattern, is_file_word, after_word, after_words, is_end, section_len, first_section, after_section, line_of, after_flags, IsLine, IsLineOf};

use crate::fault::{ListFile, WarnCause};
use crate::glob::fits;
use crate::lines::is_skipped;
use crate::place::{Section, entry_of, url_entry};
use acng_base::{NoMemory, Text, Texts, next_line_feed, trim, without_cr};
use std::alloc::Global;
use std::marker::Model;

/// The most targets of a group.
const MOST_TARGETS: usize = 64;

/// What a line brings to a group that holds some targets from earlier lines.
#[derive(Drop)]
pub struct RemapLine {
    held: usize,
    merging: Texts,
    targets: Texts,
    causes: Vec<WarnCause>,
}

impl Model for RemapLine {
    ghost Value = { LineView };

    ghost view = { λ w. record { held = w.held; merging = w.merging; targets = w.targets; causes = w.causes.items } };
}

/// Why a word wasn't taken.
#[derive(Clone, Copy)]
pub enum WordFault {
    NoMemory,
    /// It doesn't read.
    BadWord,
}

impl From<NoMemory> for WordFault {
    ghost use Rattle.std.specs.Prelude.{◌≡◌};
    ghost use Rattle.acng_conf.specs.declared.remap_line.WordFault.TheVariants.{NoMemory};

    ghost from_gives = { λ _ fault. fault ≡ NoMemory };

    fn from(_: NoMemory) -> WordFault {
        WordFault::NoMemory
    }
}

/// Reads the words of a line for a group that holds so many targets.
pub fn read_words(
    alloc: Global,
    lists: &[ListFile],
    held: usize,
    words: &[Text],
) -> Result<RemapLine, WordFault>
    ensures { IsLine (line_of lists.now held words.now) result }
{
    let mut brought = RemapLine::new(alloc, held);
    brought.add_words(alloc, lists, Section::Merging, first_section(words))?;
    brought.read_rest(alloc, lists, after_section(words))
}

/// How many words the first section has.
pub fn section_len(words: &[Text]) -> usize
    ensures len { result ≡ section_len words.now }
    ensures within { result ≤ length words.now }
{
    match find_end(words) {
        Some(at) => at,
        None => words.len(),
    }
}

fn find_end(words: &[Text]) -> Option<usize>
    ensures at { result ≡ position is_end words.now }
    ensures within { IfSome result (λ k. k < length words.now) }
{
    words.iter().position(|w| is_end(w.as_bytes()))
}

fn first_section(words: &[Text]) -> &[Text]
    ensures { result.now ≡ first_section words.now }
{
    &words[..section_len(words)]
}

// The words after the end of the first section.
fn after_section(words: &[Text]) -> &[Text]
    ensures { result.now ≡ after_section words.now }
{
    let len = section_len(words);
    if len < words.len() {
        &words[len + 1..]
    } else {
        &words[len..]
    }
}

fn is_end(word: &[u8]) -> bool
    ensures { result ≡ is_end word.now }
{
    word == b";".as_slice()
}

fn is_file_word(word: &[u8]) -> bool
    ensures { result ≡ is_file_word word.now }
{
    word.starts_with(b"file:")
}

fn ends_with_gz(pattern: &[u8]) -> bool
    ensures { result ≡ ends_with_gz pattern.now }
{
    pattern.ends_with(b".gz")
}

fn is_listed(pattern: &[u8], lists: &[ListFile]) -> bool
    ensures { result ≡ is_listed pattern.now lists.now }
{
    lists.iter().any(|file| fits(pattern, file.name.as_bytes()))
}

impl RemapLine {
    fn new(alloc: Global, held: usize) -> RemapLine
        ensures { result ≡ empty_line held }
    {
        RemapLine {
            held,
            merging: Texts::new(alloc),
            targets: Texts::new(alloc),
            causes: Vec::new(alloc),
        }
    }

    pub fn merging(&self) -> &Texts
        ensures { result.now ≡ self.now.merging }
    {
        &self.merging
    }

    pub fn targets(&self) -> &Texts
        ensures { result.now ≡ self.now.targets }
    {
        &self.targets
    }

    pub fn causes(&self) -> &[WarnCause]
        ensures { result.now ≡ self.now.causes }
    {
        self.causes.as_slice()
    }

    fn warn(&mut self, cause: WarnCause) -> Result<(), NoMemory>
        ensures { OnOk result (self.new ≡ warned cause self.old) }
    {
        self.causes.push(cause)?;
        Ok(())
    }

    // An entry more.
    fn take(&mut self, alloc: Global, section: Section, entry: &[u8]) -> Result<(), NoMemory>
        ensures { OnOk result (self.new ≡ taken section self.old entry.now) }
    {
        match section {
            Section::Merging => self.merging.push(alloc, entry),
            Section::Targets => self.take_target(alloc, entry),
        }
    }

    fn take_target(&mut self, alloc: Global, entry: &[u8]) -> Result<(), NoMemory>
        ensures { OnOk result (self.new ≡ with_target self.old entry.now) }
    {
        if self.held < MOST_TARGETS && self.targets.len() < MOST_TARGETS - self.held {
            self.targets.push(alloc, entry)
        } else {
            self.warn(WarnCause::ExtraTarget)
        }
    }

    // The second and the third section.
    fn read_rest(
        mut self,
        alloc: Global,
        lists: &[ListFile],
        words: &[Text],
    ) -> Result<RemapLine, WordFault>
        ensures { IsLine (option_map (λ w. after_flags (after_section words.now) w)
            (after_words Section.Targets lists.now self (first_section words.now))) result }
    {
        self.add_words(alloc, lists, Section::Targets, first_section(words))?;
        if !after_section(words).is_empty() {
            self.warn(WarnCause::Flags)?;
        }
        Ok(self)
    }

    // The words of a section.
    fn add_words(
        &mut self,
        alloc: Global,
        lists: &[ListFile],
        section: Section,
        words: &[Text],
    ) -> Result<(), WordFault>
        ensures { IsLineOf (after_words section lists.now self.old words.now) self.new result }
    {
        for word in words {
            self.add_word(alloc, lists, section, word.as_bytes())?;
        }
        Ok(())
    }

    fn add_word(
        &mut self,
        alloc: Global,
        lists: &[ListFile],
        section: Section,
        word: &[u8],
    ) -> Result<(), WordFault>
        ensures { IsLineOf (after_word section lists.now self.old word.now) self.new result }
    {
        if is_file_word(word) {
            self.add_pattern(alloc, lists, section, &word[5..])?;
            return Ok(());
        }
        self.add_entry(alloc, section, word)
    }

    fn add_entry(&mut self, alloc: Global, section: Section, word: &[u8]) -> Result<(), WordFault>
        ensures { IsLineOf (option_map (λ entry. taken section self.old entry) (entry_of section word.now)) self.new result }
    {
        match entry_of(alloc, section, word)? {
            Some(entry) => {
                self.take(alloc, section, entry.as_bytes())?;
                Ok(())
            }
            None => Err(WordFault::BadWord),
        }
    }

    // The list files that fit a pattern.
    fn add_pattern(
        &mut self,
        alloc: Global,
        lists: &[ListFile],
        section: Section,
        pattern: &[u8],
    ) -> Result<(), NoMemory>
        ensures { OnOk result (self.new ≡ after_pattern section lists.now self.old pattern.now) }
    {
        if ends_with_gz(pattern) {
            self.warn(WarnCause::GzList)
        } else if is_listed(pattern, lists) {
            self.add_files(alloc, lists, section, pattern)
        } else {
            self.warn(WarnCause::NoList)
        }
    }

    fn add_files(
        &mut self,
        alloc: Global,
        lists: &[ListFile],
        section: Section,
        pattern: &[u8],
    ) -> Result<(), NoMemory>
        ensures { OnOk result (self.new ≡ after_files section pattern.now self.old lists.now) }
    {
        for file in lists {
            self.add_fitting(alloc, section, pattern, file)?;
        }
        Ok(())
    }

    fn add_fitting(
        &mut self,
        alloc: Global,
        section: Section,
        pattern: &[u8],
        file: &ListFile,
    ) -> Result<(), NoMemory>
        ensures { OnOk result (self.new ≡ after_fitting section pattern.now self.old file.now) }
    {
        if fits(pattern, file.name.as_bytes()) {
            self.add_file(alloc, section, file.bytes.as_bytes())
        } else {
            Ok(())
        }
    }

    // The lines of a list file.
    fn add_file(&mut self, alloc: Global, section: Section, bytes: &[u8]) -> Result<(), NoMemory>
        ensures { OnOk result (self.new ≡ after_file section self.old bytes.now) }
    {
        let mut bad = false;
        let mut start = 0;
        while let Some(len) = next_line_feed(&bytes[start..]) {
            bad = self.add_line(alloc, section, bad, without_cr(&bytes[start..start + len]))?;
            start += len + 1;
        }
        self.add_line(alloc, section, bad, &bytes[start..])?;
        Ok(())
    }

    // A line of a list file, and whether the file had a bad line by then.
    fn add_line(
        &mut self,
        alloc: Global,
        section: Section,
        bad: bool,
        line: &[u8],
    ) -> Result<bool, NoMemory>
        ensures { IfOk result (λ is. record { brought = self.new; bad = is }
            ≡ after_list_line section (record { brought = self.old; bad = bad }) line.now) }
    {
        let line = trim(line);
        if is_skipped(line) {
            return Ok(bad);
        }
        self.add_url(alloc, section, bad, line)
    }

    fn add_url(
        &mut self,
        alloc: Global,
        section: Section,
        bad: bool,
        line: &[u8],
    ) -> Result<bool, NoMemory>
        ensures { IfOk result (λ is. record { brought = self.new; bad = is }
            ≡ after_entry section (record { brought = self.old; bad = bad }) (url_entry section line.now)) }
    {
        match url_entry(alloc, section, line)? {
            Some(entry) => {
                self.take(alloc, section, entry.as_bytes())?;
                Ok(bad)
            }
            None => {
                if !bad {
                    self.warn(WarnCause::BadListLine)?;
                }
                Ok(true)
            }
        }
    }
}
