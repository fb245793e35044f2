//! An origin over memory, for tests: rules say what each attempt gets, and a read gives a few bytes at a time.
//!
//! Before each read a gate is passed. A test's gate may wait there, to hold an attempt at a byte that it chooses.
ghost use Rattle.std.specs.Prelude.{◌≡◌, ◌<◌, ◌≤◌, Bool, true, false, List, ℕ, [], ◌++◌, length, take};
ghost use Rattle.std.specs.Prelude.{IfOk, IfErr, IfSome, OnErr};
ghost use Rattle.std.specs.Option.{option_copied};
ghost use Rattle.std.specs.Io.{ReadsAtMost};
ghost use Rattle.acng_site.specs.Dials.{DialsFor};
ghost use Rattle.acng_site.specs.Rules.{AreRules, DialsBy, ReadsAs, first_rule as first_rule_of, answers as answers_of};

use crate::ask::Ask;
use crate::conn::{Conn, OriginSlip};
use crate::origin::{Dial, Origin};
use crate::rule::Rule;
use crate::site::{Right, Site, Try};
use crate::slip::AttemptSlip;
use acng_base::{NoMemory, Text, copy_at_most};
use std::alloc::Global;
use std::marker::{Model, PhantomData};
use std::snapshot::Snapshot;
use std::sync::Arc;

/// What is passed before each read.
pub trait Gate: Drop {
    /// `given` counts the bytes that the attempt has given so far.
    fn pass(&self, attempt: u64, given: u64);
}

/// The gate that is always passed at once.
#[derive(Debug, Drop)]
pub struct NoGate;

impl Gate for NoGate {
    fn pass(&self, attempt: u64, given: u64) {
        let _ = attempt;
        let _ = given;
    }
}

/// The connection of an attempt over memory. Contracts see it as an `Answering`.
#[derive(Drop)]
pub struct MemoryConn<G> {
    number: u64,
    ask: Snapshot<Ask>,
    bytes: Text,
    fault: bool,
    at: usize,
    cut: usize,
    gate: Arc<G>,
}

impl<G> Model for MemoryConn<G> {
    ghost use Rattle.std.specs.Prelude.{◌≤◌, drop, length};
    ghost use Rattle.acng_site.specs.Rules.{Answering};

    ghost Value = { Answering };

    ghost view = { λ c. record { number = c.number; ask = c.ask.value; left = drop c.at c.bytes; fault = c.fault; cut = c.cut } };

    ghost invariant = { λ c. (c.at ≤ length c.bytes) × (1 ≤ c.cut) };
}

impl<G: Gate> Conn for MemoryConn<G> {
    type Slip = AttemptSlip;

    ghost number = { λ c. c.number };

    ghost ask = { λ c. c.ask };

    ghost tells = { true };

    ghost left = { λ c. c.left };

    ghost faulted = { λ c. c.fault };

    fn attempt(&self) -> u64 {
        self.number
    }

    fn read(&mut self, buf: &mut [u8]) -> Result<usize, AttemptSlip>
        ensures bound { ReadsAtMost result buf.new }
        ensures bytes { IfOk result (λ n. self.old.left ≡ take n buf.new ++ self.new.left) }
        ensures end { IfOk result (λ n. n ≡ 0 → 0 < length buf.new → (self.old.left ≡ []) × (self.old.fault ≡ false)) }
        ensures slip { IfErr result (λ s. (⟦<AttemptSlip as OriginSlip>⟧.number s ≡ self.old.number)
            × (⟦<AttemptSlip as OriginSlip>⟧.ask s ≡ self.old.ask)) }
        ensures broken { OnErr result ((self.old.left ≡ []) × (self.new.left ≡ []) × (self.old.fault ≡ true)) }
        ensures number { self.new.number ≡ self.old.number }
        ensures ask { self.new.ask ≡ self.old.ask }
        ensures fault { self.new.fault ≡ self.old.fault }
        ensures exact { ReadsAs self.old self.new (length buf.old) result }
    {
        self.gate.pass(self.number, self.at as u64);
        let count = copy_at_most(&self.bytes.as_bytes()[self.at..], buf, self.cut);
        if count == 0 && self.fault && !buf.is_empty() {
            return Err(AttemptSlip::at_read(self.number, &self.ask));
        }
        self.at += count;
        Ok(count)
    }
}

/// An origin over rules. Contracts see it as a `Table`.
#[derive(Drop)]
pub struct MemoryOrigin<S: Site, G> {
    rules: Vec<Rule>,
    cut: usize,
    gate: Arc<G>,
    of: PhantomData<S>,
}

impl<S: Site, G> Model for MemoryOrigin<S, G> {
    ghost use Rattle.std.specs.Prelude.{◌≡◌, ◌≤◌, true};
    ghost use Rattle.acng_site.specs.Rules.{AreRules, Table};

    ghost Value = { Table };

    ghost view = { λ o. record { rules = o.rules.items; cut = o.cut } };

    ghost invariant = { λ o. (1 ≤ o.cut) × (S.tells ≡ true → AreRules S.Site o.rules.items) };
}

impl<S: Site, G: Gate> MemoryOrigin<S, G> {
    /// An origin over copies of the rules, and the right to its attempts. The rules are the site's, where the site
    /// tells.
    pub fn start(
        alloc: Global,
        rules: &[Rule],
        cut: usize,
        gate: G,
    ) -> Result<(MemoryOrigin<S, G>, Right<S>), NoMemory>
        requires cuts { 1 ≤ cut }
        requires rules { S.tells ≡ true → AreRules S.Site rules.now }
        ensures origin { IfOk result (λ started. started.0 ≡ record { rules = rules.now; cut = cut }) }
        ensures right { IfOk result (λ started. started.1.next ≡ 0) }
    {
        let rules = copies(alloc, rules)?;
        let gate = Arc::new(alloc, gate)?;
        let origin = MemoryOrigin {
            rules,
            cut,
            gate,
            of: PhantomData,
        };
        Ok((origin, Right::first()))
    }
}

fn copies(alloc: Global, rules: &[Rule]) -> Result<Vec<Rule>, NoMemory>
    ensures { IfOk result (λ copied. copied.items ≡ rules.now) }
{
    let mut copied = Vec::with_capacity(alloc, rules.len())?;
    for rule in rules {
        copied.push(rule.again(alloc)?)?;
    }
    Ok(copied)
}

// The first rule for the ask in the attempt of the number.
fn first_rule<'a>(rules: &'a [Rule], number: u64, ask: &Ask) -> Option<&'a Rule>
    ensures { option_copied result ≡ first_rule_of rules.now number ask.now }
{
    for rule in rules {
        if answers(rule, number, ask) {
            return Some(rule);
        }
    }
    None
}

fn answers(rule: &Rule, number: u64, ask: &Ask) -> bool
    ensures { result ≡ answers_of rule.now number ask.now }
{
    rule.url.as_bytes() == ask.url.as_bytes()
        && rule.from == ask.from
        && rule.first <= number
        && number <= rule.last
}

impl<S: Site, G: Gate> Origin<S> for MemoryOrigin<S, G> {
    type Slip = AttemptSlip;

    type Conn = MemoryConn<G>;

    fn dial(&self, alloc: Global, attempt: Try<S>, ask: &Ask) -> Dial<MemoryConn<G>, AttemptSlip>
        ensures answer { DialsFor S.Site ⟦<MemoryConn<G> as Conn>⟧ ⟦<AttemptSlip as OriginSlip>⟧ attempt.number ask.now result }
        ensures exact { DialsBy self.now attempt.number ask.now result }
    {
        let number = attempt.spend();
        let Some(rule) = first_rule(self.rules.as_slice(), number, ask) else {
            return Dial::Fault(AttemptSlip::at_dial(number, ask));
        };
        let Ok(bytes) = Text::copy(alloc, rule.bytes.as_bytes()) else {
            return Dial::NoMemory;
        };
        let Ok(gate) = Arc::try_clone(&self.gate) else {
            return Dial::NoMemory;
        };
        Dial::Up(MemoryConn {
            number,
            ask: Snapshot::of(ask),
            bytes,
            fault: rule.fault,
            at: 0,
            cut: self.cut,
            gate,
        })
    }
}
