//! The origins of a script, whose reads are counted.
ghost use Rattle.std.specs.Prelude.{◌≤◌};

use crate::fault::Fault;
use crate::script::{Answer, Script};
use acng_base::{NoMemory, Text};
use acng_site::{Gate, MemoryOrigin, Right, Rule, Untold};
use std::alloc::Global;
use std::sync::Arc;
use std::sync::atomic::{AtomicU64, Ordering};

/// Counts the reads of origins.
#[derive(Drop)]
pub struct Tally {
    reads: Arc<AtomicU64>,
}

impl Gate for Tally {
    fn pass(&self, attempt: u64, given: u64) {
        let _ = attempt;
        let _ = given;
        self.reads.fetch_add(1, Ordering::SeqCst);
    }
}

/// The origins, and how often they were read.
#[derive(Drop)]
pub struct Mirror {
    pub origin: MemoryOrigin<Untold, Tally>,
    reads: Arc<AtomicU64>,
}

impl Mirror {
    /// How often the origins were read since the last call.
    pub fn reads(&self) -> u64 {
        self.reads.swap(0, Ordering::SeqCst)
    }
}

/// The origins of a script, and the right to its attempts. The last answer may be cut at so many bytes, by a fault.
pub fn start(
    alloc: Global,
    script: &Script,
    front: Option<u64>,
) -> Result<(Mirror, Right<Untold>), Fault> {
    let rules = rules_of(alloc, script, front)?;
    let reads = Arc::new(alloc, AtomicU64::new(0))?;
    let tally = Tally {
        reads: Arc::try_clone(&reads)?,
    };
    let pieces = script.pieces.max(1);
    let (origin, mut right) = started(alloc, rules.as_slice(), pieces, tally)?;
    if right.next() < script.next {
        right.skip_to(script.next);
    }
    Ok((Mirror { origin, reads }, right))
}

fn started(
    alloc: Global,
    rules: &[Rule],
    pieces: usize,
    tally: Tally,
) -> Result<(MemoryOrigin<Untold, Tally>, Right<Untold>), NoMemory>
    requires { 1 ≤ pieces }
{
    MemoryOrigin::<Untold, Tally>::start(alloc, rules, pieces, tally)
}

fn rules_of(alloc: Global, script: &Script, front: Option<u64>) -> Result<Vec<Rule>, Fault> {
    let mut rules = Vec::new(alloc);
    let last = script.answers.len().saturating_sub(1);
    for (i, answer) in script.answers.iter().enumerate() {
        let rule = match front {
            Some(len) if i == last => rule_of(alloc, answer, front_of(&answer.bytes, len), true)?,
            _ => rule_of(alloc, answer, answer.bytes.as_slice(), answer.fault)?,
        };
        rules.push(rule)?;
    }
    Ok(rules)
}

fn front_of(bytes: &[u8], len: u64) -> &[u8] {
    let Ok(len) = usize::try_from(len) else {
        return bytes;
    };
    bytes.get(..len).unwrap_or(bytes)
}

fn rule_of(alloc: Global, answer: &Answer, bytes: &[u8], fault: bool) -> Result<Rule, NoMemory> {
    Ok(Rule {
        url: Text::copy(alloc, answer.url.as_str().as_bytes())?,
        from: answer.from,
        first: answer.first,
        last: answer.last,
        bytes: Text::copy(alloc, bytes)?,
        fault,
    })
}
