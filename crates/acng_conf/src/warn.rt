//! Warnings: of a line, and of groups that have a prefix and no target.
ghost use Rattle.std.specs.Prelude.{◌≡◌, ◌++◌, ◌∷◌, ◌<◌, ◌≤◌, ℕ, List, [], cond, IfOk, OnOk, IfSome, length, unwrap_or, position, nat_lt};
ghost use Rattle.std.specs.List.{list_any};
ghost use Rattle.acng_base.specs.Cuts.{slash};
ghost use Rattle.acng_conf.specs.Lines.{first_is};
ghost use Rattle.acng_conf.specs.Readings.{finished, with_no_targets, put_warning, lacks_target, with_warning, with_warnings, first_later};

use crate::fault::{WarnCause, Warning};
use crate::group::Group;
use crate::lines::first_is;
use crate::settings::Settings;
use acng_base::{NoMemory, Texts};

impl Settings {
    pub(crate) fn warn(&mut self, line: u32, cause: WarnCause) -> Result<(), NoMemory>
        ensures { OnOk result (self.new ≡ with_warning line cause self.old) }
    {
        self.warnings.push(Warning { line, cause })?;
        Ok(())
    }

    pub(crate) fn warn_all(&mut self, line: u32, causes: &[WarnCause]) -> Result<(), NoMemory>
        ensures { OnOk result (self.new ≡ with_warnings line causes.now self.old) }
    {
        for cause in causes {
            self.warn(line, *cause)?;
        }
        Ok(())
    }

    /// Each group with a prefix and no target is warned of at its last line.
    pub(crate) fn warn_of_groups(&mut self) -> Result<(), NoMemory>
        ensures { OnOk result (self.new ≡ finished self.old) }
    {
        warn_of(&mut self.warnings, self.groups.as_slice())
    }
}

fn warn_of(warnings: &mut Vec<Warning>, groups: &[Group]) -> Result<(), NoMemory>
    ensures { OnOk result (warnings.new.items ≡ with_no_targets warnings.old.items groups.now) }
{
    for group in groups {
        if group.lacks_target() {
            put_warning(warnings, group.last_line())?;
        }
    }
    Ok(())
}

// A warning after those of its line and of the lines before.
fn put_warning(warnings: &mut Vec<Warning>, line: u32) -> Result<(), NoMemory>
    ensures { OnOk result (warnings.new.items ≡ put_warning (record { line = line; cause = WarnCause.NoTarget }) warnings.old.items) }
{
    let at = first_later(warnings.as_slice(), line);
    let warning = Warning {
        line,
        cause: WarnCause::NoTarget,
    };
    warnings.insert(at, warning)?;
    Ok(())
}

// The position of the first warning of a later line.
fn first_later(warnings: &[Warning], line: u32) -> usize
    ensures at { result ≡ first_later line warnings.now }
    ensures within { result ≤ length warnings.now }
{
    match find_later(warnings, line) {
        Some(at) => at,
        None => warnings.len(),
    }
}

fn find_later(warnings: &[Warning], line: u32) -> Option<usize>
    ensures at { result ≡ position (λ v. nat_lt line v.line) warnings.now }
    ensures within { IfSome result (λ k. k < length warnings.now) }
{
    warnings.iter().position(|w| line < w.line)
}

impl Group {
    fn lacks_target(&self) -> bool
        ensures { result ≡ lacks_target self.now }
    {
        has_prefix(self.merging()) && self.targets().is_empty()
    }
}

fn has_prefix(entries: &Texts) -> bool
    ensures { result ≡ list_any (λ e. first_is slash e) entries.now }
{
    for i in 0..entries.len() {
        if first_is(b'/', entries.get(i)) {
            return true;
        }
    }
    false
}
