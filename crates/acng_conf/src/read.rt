//! The reading of a text, line by line, up to its end or its first refusal.
ghost use Rattle.std.specs.Prelude.{◌≡◌, ◌≢◌, IfOk, OnOk, IfErr, Ok, Err, length, nat_lt, take, position, cond, ◌≤◌, ◌<◌, ◌+◌, drop, IfSome};
ghost use Rattle.acng_conf.specs.Bounds.{IsBounded};
ghost use Rattle.acng_base.specs.Cuts.{is_colon, pieces, trim};
ghost use Rattle.acng_conf.specs.Readings.{reading, Gives, GivesAt, after_lines, at_line, after_line, after_text, after_key, after_value, with_setting, with_warning};
ghost use Rattle.acng_conf.specs.Keys.{key_of};
ghost use Rattle.acng_conf.specs.Settings.{most_text};

use crate::conf::Conf;
use crate::fault::{ConfCause, ConfFault, ListFile, WarnCause};
use crate::key::{Key, Setting, group_name, is_key, key_of};
use crate::lines::{is_skipped, without_comment};
use acng_base::{NoMemory, find_byte, next_line_feed, trim, without_cr};
use std::alloc::Global;

/// The most bytes of a text.
const MOST_TEXT: usize = 4_194_304;

/// The most bytes of a line that says something.
const MOST_LINE: usize = 8_192;

/// What the text says, or its first refusal. List files are those that a `file:` word may name, in their order.
pub fn read_conf(alloc: Global, text: &[u8], lists: &[ListFile]) -> Result<Conf, ConfFault>
    ensures conf { IfOk result (λ conf. reading text.now lists.now ≡ Ok conf) }
    ensures bounded { IfOk result (λ conf. IsBounded conf) }
    ensures refused { IfErr result (λ fault. fault.cause ≢ ConfCause.NoMemory → reading text.now lists.now ≡ Err fault) }
{
    let Ok(conf) = Conf::new(alloc) else {
        return Err(out_of_memory());
    };
    let read = read_text(alloc, lists, text.len() > MOST_TEXT, front(text), conf)?;
    match read.finish() {
        Ok(conf) => Ok(conf),
        Err(NoMemory) => Err(out_of_memory()),
    }
}

// Memory was refused before the first line or after the last one.
fn out_of_memory() -> ConfFault
    ensures { result.cause ≡ ConfCause.NoMemory }
{
    ConfFault {
        line: 1,
        cause: ConfCause::NoMemory,
    }
}

// The bytes that count.
fn front(text: &[u8]) -> &[u8]
    ensures front { result.now ≡ take most_text text.now }
    ensures short { length result.now ≤ most_text }
{
    if text.len() > MOST_TEXT {
        &text[..MOST_TEXT]
    } else {
        text
    }
}

// Where the first colon stands.
fn colon(text: &[u8]) -> Option<usize>
    ensures at { result ≡ position is_colon text.now }
    ensures within { IfSome result (λ k. k < length text.now) }
{
    find_byte(text, b':')
}

// Up to an offset.
fn up_to(text: &[u8], k: usize) -> &[u8]
    requires { k < length text.now }
    ensures { result.now ≡ take k text.now }
{
    &text[..k]
}

// What follows the byte at an offset, without blanks.
fn after(text: &[u8], k: usize) -> &[u8]
    requires { k < length text.now }
    ensures { result.now ≡ trim (drop (k + 1) text.now) }
{
    trim(&text[k + 1..])
}

/// A reading under way: what the lines so far say, the list files, and the number of the line at hand.
#[derive(Drop)]
pub(crate) struct Reading<'l> {
    pub(crate) conf: Conf,
    pub(crate) lists: &'l [ListFile],
    pub(crate) line: u32,
}

// The lines of a text, which goes on past its limit where it is `over`.
fn read_text(
    alloc: Global,
    lists: &[ListFile],
    over: bool,
    text: &[u8],
    conf: Conf,
) -> Result<Conf, ConfFault>
    requires { length text.now ≤ most_text }
    ensures { GivesAt (after_lines over lists.now 1 conf (pieces text.now)) result }
{
    let mut conf = conf;
    let mut line = 1;
    let mut start = 0;
    while let Some(len) = next_line_feed(&text[start..]) {
        let reading = Reading { conf, lists, line };
        match reading.read_at(alloc, without_cr(&text[start..start + len])) {
            Ok(next) => conf = next,
            Err(fault) => return Err(fault),
        }
        start += len + 1;
        line += 1;
    }
    let reading = Reading { conf, lists, line };
    reading.read_last(alloc, over, &text[start..])
}

impl Reading<'_> {
    // The last line, or the one that goes past the limit.
    fn read_last(self, alloc: Global, over: bool, text: &[u8]) -> Result<Conf, ConfFault>
        ensures { GivesAt (at_line self.entry.line (cond over (Err ConfCause.TooLong)
            (after_line self.entry.lists.now self.entry.line self.entry.conf text.now))) result }
    {
        if over {
            return Err(ConfFault {
                line: self.line,
                cause: ConfCause::TooLong,
            });
        }
        self.read_at(alloc, text)
    }

    // A line, whose refusal is at its number.
    fn read_at(self, alloc: Global, text: &[u8]) -> Result<Conf, ConfFault>
        ensures { GivesAt (at_line self.entry.line (after_line self.entry.lists.now self.entry.line self.entry.conf text.now)) result }
    {
        let line = self.line;
        match self.read_line(alloc, text) {
            Ok(conf) => Ok(conf),
            Err(cause) => Err(ConfFault { line, cause }),
        }
    }

    fn read_line(self, alloc: Global, text: &[u8]) -> Result<Conf, ConfCause>
        ensures { Gives (after_line self.entry.lists.now self.entry.line self.entry.conf text.now) result }
    {
        let said = trim(text);
        if is_skipped(said) {
            return Ok(self.conf);
        }
        if text.len() > MOST_LINE {
            return Err(ConfCause::TooLong);
        }
        self.read_said(alloc, without_comment(said))
    }

    fn read_said(self, alloc: Global, text: &[u8]) -> Result<Conf, ConfCause>
        ensures { Gives (after_text self.entry.lists.now self.entry.line self.entry.conf text.now) result }
    {
        match colon(text) {
            Some(k) => self.read_pair(alloc, up_to(text, k), after(text, k)),
            None => Err(ConfCause::NotALine),
        }
    }

    fn read_pair(self, alloc: Global, key: &[u8], value: &[u8]) -> Result<Conf, ConfCause>
        ensures { Gives (after_key self.entry.lists.now self.entry.line self.entry.conf key.now value.now) result }
    {
        if !is_key(key) {
            return Err(ConfCause::NotALine);
        }
        self.read_value(alloc, key, value)
    }

    // A value, by what its key is.
    fn read_value(self, alloc: Global, key: &[u8], value: &[u8]) -> Result<Conf, ConfCause>
        ensures { Gives (after_value self.entry.lists.now self.entry.line self.entry.conf key.now value.now (key_of key.now)) result }
    {
        match key_of(key) {
            Key::Setting(setting) => self.conf.set(alloc, self.line, setting, value),
            Key::Group => self.add_remap(alloc, group_name(key), value),
            Key::Unused => self.conf.warn_unused(self.line),
        }
    }
}

impl Conf {
    fn set(
        self,
        alloc: Global,
        line: u32,
        setting: Setting,
        value: &[u8],
    ) -> Result<Conf, ConfCause>
        ensures { Gives (with_setting line self value.now setting) result }
    {
        let Conf { settings, owners } = self;
        let settings = settings.set(alloc, line, setting, value)?;
        Ok(Conf { settings, owners })
    }

    // A key without a meaning.
    fn warn_unused(self, line: u32) -> Result<Conf, ConfCause>
        ensures { Gives (Ok (with_warning line WarnCause.Unused self)) result }
    {
        let Conf {
            mut settings,
            owners,
        } = self;
        settings.warn(line, WarnCause::Unused)?;
        Ok(Conf { settings, owners })
    }
}
