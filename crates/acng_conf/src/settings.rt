//! What the lines of a configuration say.
//!
//! The texts of patterns are held as texts: a built pattern couldn't be shared between threads.
ghost use Rattle.std.specs.Prelude.{◌≡◌, ◌≢◌, ◌≤◌, IfOk, IfErr, Some, None, true, false};
ghost use Rattle.acng_base.specs.Cuts.{words};
ghost use Rattle.acng_conf.specs.Settings.{Settings as SettingsView, defaults};
ghost use Rattle.acng_conf.specs.Readings.{Gives, GivesIn, setting_number, set_page, set_bind, with_setting, is_pattern as is_pattern_text};

use crate::fault::{ConfCause, WarnCause, Warning};
use crate::group::Group;
use crate::key::{Setting, is_page};
use crate::number::read_number;
use crate::pattern::{PatternText, is_pattern};
use acng_base::{NoMemory, Text, words};
use std::alloc::Global;
use std::marker::Model;

/// The most digits of a setting's number.
const MOST_DIGITS: usize = 9;

/// A value for each key, the groups, and what was read past. Contracts see it as its settings.
#[derive(Debug, Drop)]
pub(crate) struct Settings {
    pub(crate) port: u16,
    pub(crate) bind: Text,
    pub(crate) threshold_days: u32,
    pub(crate) abort_limit: u32,
    pub(crate) offline: bool,
    pub(crate) report_page: Text,
    pub(crate) fresh_age: u64,
    pub(crate) redir_max: u32,
    pub(crate) maint_over_http: bool,
    pub(crate) pfile_pattern: Option<PatternText>,
    pub(crate) vfile_pattern: Option<PatternText>,
    pub(crate) groups: Vec<Group>,
    pub(crate) entries: u64,
    pub(crate) warnings: Vec<Warning>,
}

impl Model for Settings {
    ghost Value = { SettingsView };

    ghost view = { λ v. record {
      port = v.port;
      bind = v.bind;
      threshold_days = v.threshold_days;
      abort_limit = v.abort_limit;
      offline = v.offline;
      report_page = v.report_page;
      fresh_age = v.fresh_age;
      redir_max = v.redir_max;
      maint_over_http = v.maint_over_http;
      pfile_pattern = v.pfile_pattern;
      vfile_pattern = v.vfile_pattern;
      groups = v.groups.items;
      entries = v.entries;
      warnings = v.warnings.items;
    } };
}

impl Settings {
    // What holds where no line says otherwise.
    pub(crate) fn new(alloc: Global) -> Result<Settings, NoMemory>
        ensures { IfOk result (λ settings. settings ≡ defaults) }
    {
        Ok(Settings {
            port: 3142,
            bind: Text::copy(alloc, b"0.0.0.0")?,
            threshold_days: 4,
            abort_limit: 1,
            offline: false,
            report_page: Text::copy(alloc, b"acng-report.html")?,
            fresh_age: 27,
            redir_max: 5,
            maint_over_http: false,
            pfile_pattern: None,
            vfile_pattern: None,
            groups: Vec::new(alloc),
            entries: 0,
            warnings: Vec::new(alloc),
        })
    }

    /// A setting's value; a number within its bounds.
    pub(crate) fn set(
        mut self,
        alloc: Global,
        line: u32,
        setting: Setting,
        value: &[u8],
    ) -> Result<Settings, ConfCause>
        ensures step { Gives (with_setting line self value.now setting) result }
        ensures groups { IfOk result (λ settings. settings.groups ≡ self.groups) }
    {
        self.assign(alloc, line, setting, value)?;
        Ok(self)
    }

    // In place, so that no way out drops the settings.
    fn assign(
        &mut self,
        alloc: Global,
        line: u32,
        setting: Setting,
        value: &[u8],
    ) -> Result<(), ConfCause>
        ensures step { GivesIn (with_setting line self.old value.now setting) result self.new }
        ensures groups { IfOk result (λ _. self.new.groups ≡ self.old.groups) }
    {
        match setting {
            Setting::Port => self.port = number(value, 1, 65_535)? as u16,
            Setting::BindAddress => return self.set_bind(alloc, line, value),
            Setting::ReportPage => return self.set_page(alloc, value),
            Setting::ExThreshold => self.threshold_days = number(value, 0, 36_500)?,
            Setting::ExAbortOnProblems => self.abort_limit = number(value, 0, 1_000_000)?,
            Setting::Offlinemode => self.offline = number(value, 0, 1)? == 1,
            Setting::FreshIndexMaxAge => self.fresh_age = u64::from(number(value, 0, 31_536_000)?),
            Setting::RedirMax => self.redir_max = number(value, 0, 15)?,
            Setting::MaintOverHttp => self.maint_over_http = number(value, 0, 1)? == 1,
            Setting::PfilePatternEx => self.pfile_pattern = Some(pattern(alloc, value)?),
            Setting::VfilePatternEx => self.vfile_pattern = Some(pattern(alloc, value)?),
        }
        Ok(())
    }

    fn set_page(&mut self, alloc: Global, value: &[u8]) -> Result<(), ConfCause>
        ensures step { GivesIn (set_page self.old value.now) result self.new }
        ensures groups { IfOk result (λ _. self.new.groups ≡ self.old.groups) }
    {
        if !is_page(value) {
            return Err(ConfCause::NotALine);
        }
        self.report_page = Text::copy(alloc, value)?;
        Ok(())
    }

    // The first word is the address; others are warned of.
    fn set_bind(&mut self, alloc: Global, line: u32, value: &[u8]) -> Result<(), ConfCause>
        ensures step { GivesIn (set_bind line self.old (words value.now)) result self.new }
        ensures groups { IfOk result (λ _. self.new.groups ≡ self.old.groups) }
    {
        let words = words(alloc, value)?;
        self.bind_words(alloc, line, words.as_slice())
    }

    fn bind_words(&mut self, alloc: Global, line: u32, words: &[Text]) -> Result<(), ConfCause>
        ensures step { GivesIn (set_bind line self.old words.now) result self.new }
        ensures groups { IfOk result (λ _. self.new.groups ≡ self.old.groups) }
    {
        if words.is_empty() {
            return Err(ConfCause::NotALine);
        }
        self.bind = Text::copy(alloc, words[0].as_bytes())?;
        if words.len() > 1 {
            self.warn(line, WarnCause::ExtraBind)?;
        }
        Ok(())
    }
}

fn number(value: &[u8], low: u32, high: u32) -> Result<u32, ConfCause>
    ensures read { IfOk result (λ n. setting_number low high value.now ≡ Some n) }
    ensures within { IfOk result (λ n. n ≤ high) }
    ensures refused { IfErr result (λ cause. (cause ≡ ConfCause.BadNumber) × (setting_number low high value.now ≡ None)) }
{
    match read_number(value, MOST_DIGITS, low, high) {
        Some(n) => Ok(n),
        None => Err(ConfCause::BadNumber),
    }
}

fn pattern(alloc: Global, value: &[u8]) -> Result<PatternText, ConfCause>
    ensures read { IfOk result (λ pattern. (pattern ≡ value.now) × (is_pattern_text value.now ≡ true)) }
    ensures cause { IfErr result (λ cause. cause ≢ ConfCause.NoMemory → cause ≡ ConfCause.BadPattern) }
    ensures refused { IfErr result (λ cause. cause ≢ ConfCause.NoMemory → is_pattern_text value.now ≡ false) }
{
    if !is_pattern(alloc, value)? {
        return Err(ConfCause::BadPattern);
    }
    Ok(PatternText::copy(alloc, value)?)
}
