//! `once` over an honest site, by the premises of `run_single` where the site tells: the keeper is faithful to it before a run
//! and after it, the site serves each target, and it is honest.
ghost use Rattle.std.specs.Prelude.{◌≡◌, [], IfOk};
ghost use Rattle.acng_site.specs.Honest.{IsHonest};
ghost use Rattle.acng_grow.specs.Faithful.{IsFaithful};

use crate::honest::{OneFile, start};
use acng_base::{FixedClock, MemoryLink, MemorySource, NoMemory, Text};
use acng_cli::{Single, run_single};
use acng_keeper::{Keeper, MemoryKeeper};
use acng_site::{MemoryOrigin, NoGate, Right, Site};
use std::alloc::Global;
use std::marker::Model;
use std::test::Fail;

// The head by the rules of replies (RFC 9110 and RFC 9112), and the file of the site.
const REPLY: &[u8] =
    b"HTTP/1.1 200 OK\r\nContent-Type: application/octet-stream\r\nContent-Length: 3\r\nConnection: close\r\n\r\nabc";

// A keeper that is faithful to the site.
#[derive(Drop)]
struct Cache {
    keeper: MemoryKeeper,
}

impl Model for Cache {
    ghost use Rattle.std.specs.Prelude.{ℕ};
    ghost use Rattle.acng_grow.specs.Faithful.{IsFaithful};

    ghost Value = { ℕ };

    ghost view = { λ c. ⟦<MemoryKeeper as Keeper>⟧.next c.keeper };

    ghost invariant = { λ c. IsFaithful ⟦<OneFile as Site>⟧ (⟦<MemoryKeeper as Keeper>⟧.kept c.keeper) };
}

impl Cache {
    #[tactic(auto, using(crate::proofs::Empty::nothing_faithful))]
    fn new(alloc: Global) -> Result<Cache, NoMemory> {
        let keeper = MemoryKeeper::new(alloc, &[])?;
        Ok(Cache { keeper })
    }
}

// An empty configuration.
fn no_settings(alloc: Global) -> Result<MemorySource, NoMemory>
    ensures { IfOk result (λ conf. conf.link.left ≡ []) }
{
    MemorySource::new(alloc, b"", 1, &[])
}

// One run, with its status and the cache that it leaves.
#[tactic(auto, using(crate::proofs::Serves::served))]
fn run(
    alloc: Global,
    words: &[Text],
    cache: Cache,
    right: Right<OneFile>,
    conf: &mut MemorySource,
    origin: &MemoryOrigin<OneFile, NoGate>,
    clock: &mut FixedClock,
    link: &mut MemoryLink,
) -> (u8, Cache)
    requires empty { conf.old.link.left ≡ [] }
    requires honest { IsHonest ⟦<OneFile as Site>⟧ }
{
    let Cache { keeper } = cache;
    let Single { status, keeper, .. } = run_single(
        alloc,
        words,
        keeper,
        right,
        conf,
        &[],
        origin,
        clock,
        link,
    );
    (status, Cache { keeper })
}

// A request for the file: the status, what was written, and the cache.
fn ask(alloc: Global, cache: Cache) -> Result<(u8, Text, Cache), NoMemory> {
    let (origin, right) = start(alloc)?;
    let words = [Text::copy(alloc, b"once")?];
    let mut conf = no_settings(alloc)?;
    let mut clock = FixedClock::new(alloc, &[1000])?;
    let request = b"GET http://a/f.deb HTTP/1.1\r\n\r\n".as_slice();
    let mut link = MemoryLink::new(alloc, request, 4096, 7, &[])?;
    let (status, cache) = run(
        alloc,
        words.as_slice(),
        cache,
        right,
        &mut conf,
        &origin,
        &mut clock,
        &mut link,
    );
    Ok((status, Text::copy(alloc, link.written())?, cache))
}

// The reply is the file of the path: first from the site, and then from the cache that the first run left.
#[test]
fn a_file_of_an_honest_site_is_replied(rt: HostRuntime) -> Result<(), Fail> {
    let alloc = rt.alloc();
    let mut cache = Cache::new(alloc).ok().ok_or("memory")?;
    for _ in 0..2_u8 {
        let (status, written, left) = ask(alloc, cache).ok().ok_or("memory")?;
        assert_eq!(rt; status, 0);
        assert!(rt; written.as_bytes() == REPLY);
        cache = left;
    }
    Ok(())
}
