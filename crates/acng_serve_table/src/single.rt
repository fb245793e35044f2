//! Runs of the command `once`.
use crate::client::Tap;
use crate::fault::Fault;
use crate::mirror::Mirror;
use crate::shop::Cache;
use acng_base::{FixedClock, MemorySource, Text};
use acng_cli::{Once, Single, run_single};
use acng_keeper::CallSlip;
use acng_site::{Right, Untold};
use std::alloc::Global;

/// What is told of a run.
#[derive(Drop)]
pub struct Ran {
    pub status: u8,
    pub once: Option<Once<CallSlip>>,
}

/// One run over a cache, which is given back.
pub fn run_once(
    alloc: Global,
    conf: &str,
    cache: Cache,
    right: Right<Untold>,
    mirror: &Mirror,
    clock: &mut FixedClock,
    link: &mut Tap,
) -> Result<(Ran, Cache), Fault> {
    let words = [Text::copy(alloc, b"once")?];
    let mut source = MemorySource::new(alloc, conf.as_bytes(), 4_096, &[])?;
    Ok(run_words(
        alloc,
        &words,
        cache,
        right,
        &mut source,
        mirror,
        clock,
        link,
    ))
}

// The same by the words.
fn run_words(
    alloc: Global,
    words: &[Text],
    cache: Cache,
    right: Right<Untold>,
    source: &mut MemorySource,
    mirror: &Mirror,
    clock: &mut FixedClock,
    link: &mut Tap,
) -> (Ran, Cache) {
    let Cache { keeper } = cache;
    let Single {
        status,
        keeper,
        once,
        slip: _,
    } = run_single(
        alloc,
        words,
        keeper,
        right,
        source,
        &[],
        &mirror.origin,
        clock,
        link,
    );
    (Ran { status, once }, Cache { keeper })
}
