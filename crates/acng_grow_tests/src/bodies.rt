//! Bodies for the tests, over memory and a site that tells nothing.
ghost use Rattle.std.specs.Prelude.{◌≡◌, ◌⊎◌, ◌≤◌, ◌^◌, length, IfOk, IfSome, Some};
ghost use Rattle.acng_head.specs.declared.head.Label.TheVariants.{Fetched};
ghost use Rattle.acng_grow.specs.declared.facts.Stage.TheVariants.{Running, Same, Whole};
ghost use Rattle.acng_grow.specs.Effects.{opening as opening_seen};

use acng_base::{CachePath, MemoryLink, NoMemory, PathFault, Text};
use acng_grow::{Facts, FollowStop, Growing, Sending, follow_owned};
use acng_keeper::{CallSlip, KeepFault, Keeper, MemoryBody, MemoryKeeper};
use acng_site::{AttemptSlip, Untold};
use std::alloc::Global;

/// A body over memory.
pub type Body = Growing<Untold, MemoryBody, AttemptSlip>;

/// Why a test's body couldn't be made.
#[derive(Debug, Drop)]
pub enum Unmade {
    Path,
    Memory,
    Keeper,
}

impl From<NoMemory> for Unmade {
    fn from(_: NoMemory) -> Unmade {
        Unmade::Memory
    }
}

impl From<PathFault> for Unmade {
    fn from(_: PathFault) -> Unmade {
        Unmade::Path
    }
}

impl<P: Drop> From<KeepFault<P>> for Unmade {
    fn from(_: KeepFault<P>) -> Unmade {
        Unmade::Keeper
    }
}

// A body that opens for the path `h/a`.
pub fn opening(alloc: Global) -> Result<Body, Unmade>
    ensures { IfOk result (λ b. b.seen ≡ opening_seen) }
{
    Ok(Growing::new(CachePath::read(alloc, b"h/a")?))
}

// A body that has these bytes so far, of as many or of an unknown count, by attempt 3.
pub fn running(alloc: Global, fail: &[u64], text: &[u8], total: Option<u64>) -> Result<Body, Unmade>
    requires few { length text.now ≤ 2 ^ 20 }
    requires within { IfSome total (λ t. length text.now ≤ t) }
    ensures stage { IfOk result (λ b. b.seen.stage ≡ Running) }
    ensures label { IfOk result (λ b. b.seen.label ≡ Some (Fetched 3 3)) }
    ensures size { IfOk result (λ b. b.seen.size ≡ length text.now) }
    ensures total { IfOk result (λ b. b.seen.facts.total ≡ total) }
{
    let mut keeper = MemoryKeeper::new(alloc, fail)?;
    let (_, file) = keeper.create(alloc)?;
    let mut body = opening(alloc)?;
    let url = Text::copy(alloc, b"http://h/a")?;
    let facts = Facts {
        total,
        modified: None,
        tag: None,
    };
    body.begin_body(file, url, 3, facts);
    body.add(alloc, text)?;
    Ok(body)
}

// What goes out of a whole body from a place on.
pub fn send(alloc: Global, body: &mut Body, from: u64) -> Result<Vec<u8>, Unmade>
    requires ended { (body.old.seen.stage ≡ Whole) ⊎ (body.old.seen.stage ≡ Same) }
{
    let mut client = MemoryLink::new(alloc, b"", 100, 100, &[])?;
    let followed = follow_owned(body, from, None, Sending::Length, &mut client);
    if !matches!(followed.stop, FollowStop::Whole) {
        return Err(Unmade::Memory);
    }
    let Ok(bytes) = Vec::from_slice(alloc, client.written()) else {
        return Err(Unmade::Memory);
    };
    Ok(bytes)
}
