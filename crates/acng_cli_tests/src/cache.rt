//! A cache in memory, and one run of `once` over it.
use acng_base::{FixedClock, MemoryLink, MemorySource, NoMemory, Text};
use acng_cli::{Single, run_single};
use acng_keeper::{Keeper, MemoryKeeper};
use acng_site::{MemoryOrigin, NoGate, Right, Rule, Site, Untold};
use std::alloc::Global;
use std::marker::Model;

/// A keeper, of which all that it has may be served. It is seen as the number of its next body.
#[derive(Drop)]
pub struct Cache {
    pub keeper: MemoryKeeper,
}

impl Model for Cache {
    ghost use Rattle.std.specs.Prelude.{ℕ};
    ghost use Rattle.acng_grow.specs.Faithful.{IsFaithful};

    ghost Value = { ℕ };

    ghost view = { λ c. ⟦<MemoryKeeper as Keeper>⟧.next c.keeper };

    ghost invariant = { λ c. IsFaithful ⟦<Untold as Site>⟧ (⟦<MemoryKeeper as Keeper>⟧.kept c.keeper) };
}

impl Cache {
    /// An empty one, of which the calls with these numbers fail.
    #[tactic(auto, using(crate::proofs::Empty::nothing_faithful))]
    pub fn new(alloc: Global, fail: &[u64]) -> Result<Cache, NoMemory> {
        let keeper = MemoryKeeper::new(alloc, fail)?;
        Ok(Cache { keeper })
    }
}

/// What a run meets: the configuration, the moment, what the origin answers, in what pieces all bytes come and go, and which
/// call of the client's link and which read of the configuration fails.
#[derive(Clone, Copy)]
pub struct Around<'a> {
    pub conf: &'a str,
    pub moment: u64,
    pub rules: &'a [Rule],
    pub cut: usize,
    pub link_fails: u64,
    pub conf_fails: u64,
}

/// The number of a call that is never made.
pub const NEVER: u64 = 1_000_000;

/// How a run ended: the program's status, and what was written.
#[derive(Drop)]
pub struct Outcome {
    pub status: u8,
    pub written: Vec<u8>,
}

// One run over a cache, which is given back as the run leaves it, with the status.
fn once(
    alloc: Global,
    words: &[Text],
    cache: Cache,
    right: Right<Untold>,
    conf: &mut MemorySource,
    origin: &MemoryOrigin<Untold, NoGate>,
    clock: &mut FixedClock,
    link: &mut MemoryLink,
) -> (u8, Cache) {
    let Cache { keeper } = cache;
    let Single { status, keeper, .. } = run_single(
        alloc,
        words,
        keeper,
        right,
        conf,
        &[],
        origin,
        clock,
        link,
    );
    (status, Cache { keeper })
}

// The words, which stand between blanks.
fn words_of(alloc: Global, words: &str) -> Result<Vec<Text>, NoMemory> {
    let mut texts = Vec::new(alloc);
    for word in words.split(' ') {
        texts.push(Text::copy(alloc, word.as_bytes())?)?;
    }
    Ok(texts)
}

// The same at a moment, with an origin that answers by the rules.
fn once_by(
    alloc: Global,
    words: &[Text],
    cache: Cache,
    around: Around<'_>,
    conf: &mut MemorySource,
    link: &mut MemoryLink,
) -> Result<(u8, Cache), NoMemory> {
    let mut clock = FixedClock::new(alloc, &[around.moment])?;
    let cut = around.cut.max(1);
    let (origin, right) = MemoryOrigin::<Untold, NoGate>::start(alloc, around.rules, cut, NoGate)?;
    Ok(once(alloc, words, cache, right, conf, &origin, &mut clock, link))
}

/// One run by the words, which stand between blanks. The cache is given back as the run leaves it.
pub fn run(
    alloc: Global,
    words: &str,
    cache: Cache,
    around: Around<'_>,
    request: &[u8],
) -> Result<(Outcome, Cache), NoMemory> {
    let words = words_of(alloc, words)?;
    let cut = around.cut.max(1);
    let mut conf = MemorySource::new(alloc, around.conf.as_bytes(), cut, &[around.conf_fails])?;
    let mut link = MemoryLink::new(alloc, request, 4096, cut, &[around.link_fails])?;
    let (status, cache) = once_by(alloc, words.as_slice(), cache, around, &mut conf, &mut link)?;
    let written = Vec::from_slice(alloc, link.written())?;
    Ok((Outcome { status, written }, cache))
}
