//! The class of a file, by its path.
ghost use Rattle.std.specs.Option.{option_map_or};
ghost use Rattle.std.specs.Prelude.{true, false, ◌≡◌, ◌≢◌, None, Some, IfOk, IfErr, OnOk, option_copied};
ghost use Rattle.acng_conf.specs.Readings.{is_pattern};
ghost use Rattle.acng_class.specs.Classes.{class_of, is_found};
ghost use Rattle.acng_class.specs.Patterns.{pattern_refusal};

use crate::fault::ClassFault;
use crate::line::{has_solid_ending, is_by_hash, is_difference, is_index};
use crate::pattern::{Pattern, PatternFault};
use acng_base::{CachePath, NoMemory};
use acng_conf::{Conf, Rules};
use std::alloc::Global;
use std::marker::Model;
use std::str;

/// What may become of a file under its path.
#[derive(Clone, Copy, Debug, PartialEq, Eq)]
pub enum Class {
    /// It never changes.
    Solid,
    /// It's written anew from time to time.
    Volatile,
    /// It isn't passed on.
    Forbidden,
}

/// The table of classes with two patterns for further files. Contracts see it as the patterns' texts.
#[derive(Drop)]
pub struct Classes {
    solid: Option<Pattern>,
    volatile: Option<Pattern>,
}

impl Model for Classes {
    ghost use Rattle.acng_class.specs.Patterns.{Patterns};

    ghost Value = { Patterns };

    ghost view = { λ c. record { solid = c.solid; volatile = c.volatile } };
}

impl Classes {
    /// The table with the patterns of a configuration. They are patterns, so that memory alone can be wanting.
    pub fn of(alloc: Global, conf: &Conf) -> Result<Classes, NoMemory>
        ensures solid { IfOk result (λ classes. classes.solid ≡ conf.now.pfile_pattern) }
        ensures volatile { IfOk result (λ classes. classes.volatile ≡ conf.now.vfile_pattern) }
    {
        Classes::of_patterns(alloc, conf.pfile_pattern(), conf.vfile_pattern())
    }

    /// The same with the patterns that were copied from a configuration.
    pub fn by_rules(alloc: Global, rules: &Rules) -> Result<Classes, NoMemory>
        ensures solid { IfOk result (λ classes. classes.solid ≡ rules.now.pfile_pattern) }
        ensures volatile { IfOk result (λ classes. classes.volatile ≡ rules.now.vfile_pattern) }
    {
        Classes::of_patterns(alloc, rules.pfile_pattern(), rules.vfile_pattern())
    }

    // The table with two texts that are patterns.
    fn of_patterns(
        alloc: Global,
        solid: Option<&[u8]>,
        volatile: Option<&[u8]>,
    ) -> Result<Classes, NoMemory>
        requires solid { option_map_or is_pattern (option_copied solid) true ≡ true }
        requires volatile { option_map_or is_pattern (option_copied volatile) true ≡ true }
        ensures solid { IfOk result (λ classes. classes.solid ≡ option_copied solid.entry) }
        ensures volatile { IfOk result (λ classes. classes.volatile ≡ option_copied volatile.entry) }
    {
        match Classes::by_patterns(alloc, solid, volatile) {
            Ok(classes) => Ok(classes),
            Err(ClassFault::NoMemory) => Err(NoMemory),
            Err(ClassFault::BadSolid) => unreachable!(),
            Err(ClassFault::BadVolatile) => unreachable!(),
        }
    }

    /// The table with a pattern for further solid files and one for further volatile files.
    pub fn by_patterns(
        alloc: Global,
        solid: Option<&[u8]>,
        volatile: Option<&[u8]>,
    ) -> Result<Classes, ClassFault>
        ensures solid { IfOk result (λ classes. classes.solid ≡ option_copied solid.entry) }
        ensures volatile { IfOk result (λ classes. classes.volatile ≡ option_copied volatile.entry) }
        ensures accepted { OnOk result (pattern_refusal (option_copied solid.entry) (option_copied volatile.entry) ≡ None) }

        ensures refused { IfErr result (λ fault. fault ≢ ClassFault.NoMemory
            → pattern_refusal (option_copied solid.entry) (option_copied volatile.entry) ≡ Some fault) }
    {
        let solid = build(alloc, solid, ClassFault::BadSolid)?;
        let volatile = build(alloc, volatile, ClassFault::BadVolatile)?;
        Ok(Classes { solid, volatile })
    }

    /// The class of the file: the first line of the table that fits decides.
    #[tactic(auto, unfolding(crate::specs::Classes::class_of))]
    pub fn class_of(&mut self, alloc: Global, path: &CachePath) -> Result<Class, NoMemory>
        ensures class { IfOk result (λ class. class ≡ class_of self.old.solid self.old.volatile path.now) }
        ensures same { self.new ≡ self.old }
    {
        let bytes = path.as_bytes();
        if is_by_hash(bytes) {
            return Ok(Class::Solid);
        }
        if is_difference(bytes) {
            return Ok(Class::Solid);
        }
        if is_index(bytes) {
            return Ok(Class::Volatile);
        }
        if is_found(alloc, &self.volatile, path)? {
            return Ok(Class::Volatile);
        }
        if has_solid_ending(bytes) {
            return Ok(Class::Solid);
        }
        if is_found(alloc, &self.solid, path)? {
            return Ok(Class::Solid);
        }
        Ok(Class::Forbidden)
    }
}

// The pattern of a text, if there is one.
fn build(
    alloc: Global,
    source: Option<&[u8]>,
    bad: ClassFault,
) -> Result<Option<Pattern>, ClassFault>
    requires { bad ≢ ClassFault.NoMemory }
    ensures text { IfOk result (λ pattern. pattern ≡ option_copied source.entry) }
    ensures accepted { OnOk result (option_map_or is_pattern (option_copied source.entry) true ≡ true) }
    ensures refused { IfErr result (λ fault. fault ≢ ClassFault.NoMemory
        → (fault ≡ bad) × (option_map_or is_pattern (option_copied source.entry) true ≡ false)) }
{
    let Some(source) = source else {
        return Ok(None);
    };
    match Pattern::build(alloc, source) {
        Ok(pattern) => Ok(Some(pattern)),
        Err(PatternFault::Bad) => Err(bad),
        Err(PatternFault::NoMemory) => Err(ClassFault::NoMemory),
    }
}

// Whether the pattern, if there is one, is found in the path.
#[tactic(auto, unfolding(crate::specs::Classes::is_found))]
fn is_found(alloc: Global, pattern: &Option<Pattern>, path: &CachePath) -> Result<bool, NoMemory>
    ensures { IfOk result (λ found. found ≡ is_found pattern.now path.now) }
{
    match pattern {
        Some(pattern) => pattern.is_found(alloc, as_text(path)),
        None => Ok(false),
    }
}

// A path is ASCII, and so a text.
fn as_text(path: &CachePath) -> &str
    ensures { result.now ≡ path.now }
{
    match str::from_utf8(path.as_bytes()) {
        Ok(text) => text,
        Err(_) => unreachable!(),
    }
}
