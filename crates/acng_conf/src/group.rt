//! A group of mirrors.
ghost use Rattle.std.specs.Prelude.{◌≡◌, ◌++◌, ◌∷◌, [], IfOk, OnOk};
ghost use Rattle.acng_conf.specs.Settings.{Mirrors};
ghost use Rattle.acng_conf.specs.Readings.{new_group, named_at, with_place, with_targets};

use acng_base::{NoMemory, Text, Texts};
use std::alloc::Global;
use std::marker::Model;

/// A group of mirrors that share one cache path.
#[derive(Debug, Drop)]
pub struct Group {
    name: Text,
    merging: Texts,
    targets: Texts,
    last: u32,
}

impl Model for Group {
    ghost Value = { Mirrors };

    ghost view = { λ g. record { name = g.name; merging = g.merging; targets = g.targets; last = g.last } };
}

impl Group {
    // A group that a line names for the first time.
    pub(crate) fn new(alloc: Global, name: &[u8], line: u32) -> Result<Group, NoMemory>
        ensures { IfOk result (λ group. group ≡ new_group name.now line) }
    {
        Ok(Group {
            name: Text::copy(alloc, name)?,
            merging: Texts::new(alloc),
            targets: Texts::new(alloc),
            last: line,
        })
    }

    /// The first segment of the group's cache paths.
    pub fn name(&self) -> &[u8]
        ensures { result.now ≡ self.now.name }
    {
        self.name.as_bytes()
    }

    /// The places that merge into the group, in canonical form: `HOST[:PORT]/PATH`, or `/PATH` for a prefix.
    pub fn merging(&self) -> &Texts
        ensures { result.now ≡ self.now.merging }
    {
        &self.merging
    }

    /// The URLs that are asked for the group, without a slash at the end; at most 64.
    pub fn targets(&self) -> &Texts
        ensures { result.now ≡ self.now.targets }
    {
        &self.targets
    }

    /// The last line that names the group.
    pub fn last_line(&self) -> u32
        ensures { result ≡ self.now.last }
    {
        self.last
    }

    pub(crate) fn name_at(&mut self, line: u32)
        ensures { self.new ≡ named_at line self.old }
    {
        self.last = line;
    }

    pub(crate) fn add_place(&mut self, alloc: Global, entry: &[u8]) -> Result<(), NoMemory>
        ensures { OnOk result (self.new ≡ with_place entry.now self.old) }
    {
        self.merging.push(alloc, entry)
    }

    pub(crate) fn add_targets(&mut self, alloc: Global, targets: &Texts) -> Result<(), NoMemory>
        ensures { OnOk result (self.new ≡ with_targets targets.now self.old) }
    {
        push_all(alloc, &mut self.targets, targets)
    }
}

fn push_all(alloc: Global, all: &mut Texts, more: &Texts) -> Result<(), NoMemory>
    ensures { OnOk result (all.new ≡ all.old ++ more.now) }
{
    for i in 0..more.len() {
        all.push(alloc, more.get(i))?;
    }
    Ok(())
}
