//! Bodies for the tests, over memory and a site that tells nothing.
ghost use Rattle.std.specs.Prelude.{◌≡◌, ◌≢◌, ◌≤◌, ◌^◌, length, IfOk, IfSome, Some};
ghost use Rattle.acng_head.specs.declared.head.Label.TheVariants.{Fetched};
ghost use Rattle.acng_grow.specs.declared.facts.Stage.TheVariants.{Opening, Running};
ghost use Rattle.acng_grow.specs.Keeps.{IsDated};

use acng_base::{CachePath, Moment, NoMemory, PathFault, Tag, Text};
use acng_grow::{Facts, Growing, Why};
use acng_keeper::{KeepFault, Keeper, MemoryBody, MemoryKeeper};
use acng_site::{AttemptSlip, Untold};
use std::alloc::Global;

/// A body over memory.
pub type Body = Growing<Untold, MemoryBody, AttemptSlip>;

/// Why a test's body couldn't be made.
#[derive(Debug, Drop)]
pub enum Unmade {
    Path,
    Memory,
    Keeper,
}

impl From<NoMemory> for Unmade {
    fn from(_: NoMemory) -> Unmade {
        Unmade::Memory
    }
}

impl From<PathFault> for Unmade {
    fn from(_: PathFault) -> Unmade {
        Unmade::Path
    }
}

impl<P: Drop> From<KeepFault<P>> for Unmade {
    fn from(_: KeepFault<P>) -> Unmade {
        Unmade::Keeper
    }
}

/// The bodies of the tests.
#[derive(Clone, Copy, Debug, PartialEq, Eq)]
pub enum Which {
    /// `abc`, of 1994-11-06 08:49:37, with the tag `"x"`.
    Held,
    /// Of no byte.
    Empty,
    /// `abc`, of an unknown count until it was whole.
    Unknown,
    /// `abc` of five bytes, with the tag `"x"`.
    Cut,
    /// `abc` of an unknown count.
    CutUnknown,
}

// What is known of it.
fn facts(total: Option<u64>, known: bool) -> Facts
    ensures total { result.total ≡ total }
    ensures dated { IsDated result }
{
    Facts {
        total,
        modified: if known {
            Some(Moment(784_111_777))
        } else {
            None
        },
        tag: if known { Tag::read(b"\"x\"") } else { None },
    }
}

// A body of attempt 3 that has these bytes so far.
fn running(alloc: Global, text: &[u8], facts: Facts) -> Result<Body, Unmade>
    requires few { length text.now ≤ 2 ^ 20 }
    requires within { IfSome facts.total (λ t. length text.now ≤ t) }
    requires dated { IsDated facts }
    ensures stage { IfOk result (λ b. b.seen.stage ≡ Running) }
    ensures label { IfOk result (λ b. b.seen.label ≡ Some (Fetched 3 3)) }
    ensures size { IfOk result (λ b. b.seen.size ≡ length text.now) }
    ensures facts { IfOk result (λ b. b.seen.facts ≡ facts) }
{
    let mut keeper = MemoryKeeper::new(alloc, &[])?;
    let (_, file) = keeper.create(alloc)?;
    let mut body: Body = Growing::new(CachePath::read(alloc, b"h/a")?);
    let url = Text::copy(alloc, b"http://h/a")?;
    body.begin_body(file, url, 3, facts);
    body.add(alloc, text)?;
    Ok(body)
}

/// One of the bodies.
pub fn body_of(alloc: Global, which: Which) -> Result<Body, Unmade>
    ensures opened { IfOk result (λ b. b.seen.stage ≢ Opening) }
    ensures grown { IfOk result (λ b. b.seen.stage ≢ Running) }
{
    match which {
        Which::Held => whole(running(alloc, b"abc", facts(Some(3), true))?),
        Which::Empty => whole(running(alloc, b"", facts(Some(0), false))?),
        Which::Unknown => whole(running(alloc, b"abc", facts(None, false))?),
        Which::Cut => cut(running(alloc, b"abc", facts(Some(5), true))?),
        Which::CutUnknown => cut(running(alloc, b"abc", facts(None, false))?),
    }
}

// All came.
fn whole(body: Body) -> Result<Body, Unmade>
    requires running { body.seen.stage ≡ Running }
    ensures opened { IfOk result (λ b. b.seen.stage ≢ Opening) }
    ensures grown { IfOk result (λ b. b.seen.stage ≢ Running) }
{
    let mut body = body;
    if body.facts().total.is_some_and(|total| total != body.len()) {
        return Err(Unmade::Keeper);
    }
    body.finish();
    Ok(body)
}

// It broke off.
fn cut(body: Body) -> Result<Body, Unmade>
    requires running { body.seen.stage ≡ Running }
    requires label { body.seen.label ≡ Some (Fetched 3 3) }
    ensures opened { IfOk result (λ b. b.seen.stage ≢ Opening) }
    ensures grown { IfOk result (λ b. b.seen.stage ≢ Running) }
{
    let mut body = body;
    body.cut(Why::Early { attempt: 3 });
    Ok(body)
}
