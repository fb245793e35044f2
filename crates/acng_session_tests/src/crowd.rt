//! The threads: eight clients, each of which serves its requests over a house that they share, and loaders that run their
//! downloads. The last client that goes closes the pool, so that the loaders end.
//!
//! What starts threads is generic, as the server's own `run` is, and is given house, mirror and pool one by one.
ghost use Rattle.std.specs.Prelude.{◌≡◌, true};
ghost use Rattle.std.specs.Thread.{IsSync};
ghost use Rattle.acng_site.specs.Honest.{IsHonest};
ghost use Rattle.acng_remap.specs.Origins.{ServesTargets};

use crate::judge::{Client, Plan, judge};
use crate::mirror::Unmade;
use crate::tally::{Tally, Wrong};
use crate::wishes::{CLIENTS, REQUESTS, asks_from, moments_from};
use acng_base::{FixedClock, MemoryLink};
use acng_fetch::{Job, Loaders, Pool};
use acng_keeper::{BodyFile, Keeper, SlipOf};
use acng_serve::{House, SessionEnd, session};
use acng_site::{Origin, OriginSlip, Site};
use std::alloc::Global;
use std::sync::{Mutex, Wait};
use std::thread;
use std::thread::Threads;

/// How many loaders there are: fewer than clients, so that downloads wait.
const LOADERS: u32 = 3;

/// How many bytes a connection may get.
const ROOM: usize = 4_194_304;

/// Lets the clients loose on a house.
pub fn drive<R, S, K, P, O>(
    rt: &R,
    alloc: Global,
    house: &House<S, K, P>,
    origin: &O,
    plan: Plan,
    tally: &Mutex<Tally>,
) -> Result<(), Unmade>
where
    R: Threads + Wait + Sync,
    S: Site + Send + Sync,
    K: Keeper<Body: BodyFile<Slip: Send> + Send> + Send,
    P: OriginSlip + Send,
    O: Origin<S, Slip = P, Conn: Send> + Sync,
    requires serves { S.tells ≡ true → ServesTargets house.now S.serves }
    requires honest { S.tells ≡ true → IsHonest S.Site }
{
    let Ok(pool) = Pool::new(rt, alloc) else {
        return Err(Unmade);
    };
    run::<R, S, K, P, O>(rt, alloc, house, origin, &pool, plan, tally);
    let _ = pool.retire(alloc, origin, house.desk());
    Ok(())
}

// The loaders, and the clients.
fn run<R, S, K, P, O>(
    rt: &R,
    alloc: Global,
    house: &House<S, K, P>,
    origin: &O,
    pool: &Pool<&R, S, K, P>,
    plan: Plan,
    tally: &Mutex<Tally>,
)
where
    R: Threads + Wait + Sync,
    S: Site + Send + Sync,
    K: Keeper<Body: BodyFile<Slip: Send> + Send> + Send,
    P: OriginSlip + Send,
    O: Origin<S, Slip = P, Conn: Send> + Sync,
    requires serves { S.tells ≡ true → ServesTargets house.now S.serves }
    requires honest { S.tells ≡ true → IsHonest S.Site }
{
    thread::scope(
        thread::scope_env(),
        rt,
        |scope|
            requires { IsSync R.row × (S.tells ≡ true → ServesTargets house.now S.serves) × (S.tells ≡ true → IsHonest S.Site) }
        {
            let mut alone = true;
            for _ in 0..LOADERS {
                let started = scope.spawn(
                    move ||
                        requires { S.tells ≡ true → IsHonest S.Site }
                    { pool.work(alloc, origin, house.desk()) },
                );
                if started.is_ok() {
                    alone = false;
                }
            }
            if alone {
                pool.close();
            }
            for number in 0..CLIENTS {
                let started = scope.spawn(
                    move ||
                        requires { (S.tells ≡ true → ServesTargets house.now S.serves) × (S.tells ≡ true → IsHonest S.Site) }
                    { visit::<R, S, K, P, O>(rt, alloc, house, origin, pool, plan, number, tally) },
                );
                if started.is_err() {
                    visit::<R, S, K, P, O>(rt, alloc, house, origin, pool, plan, number, tally);
                }
            }
        },
    );
}

// A client's connections. Whoever goes last closes the pool.
fn visit<R, S, K, P, O>(
    rt: &R,
    alloc: Global,
    house: &House<S, K, P>,
    origin: &O,
    pool: &Pool<&R, S, K, P>,
    plan: Plan,
    number: u64,
    tally: &Mutex<Tally>,
)
where
    R: Wait,
    S: Site,
    K: Keeper,
    P: OriginSlip,
    O: Origin<S, Slip = P>,
    requires serves { S.tells ≡ true → ServesTargets house.now S.serves }
    requires honest { S.tells ≡ true → IsHonest S.Site }
{
    if attend::<R, S, K, P, O>(rt, alloc, house, origin, pool, plan, number, tally).is_err() {
        tally.lock(rt).accuse(number, 0, Wrong::Memory);
    }
    if tally.lock(rt).leave() {
        pool.close();
    }
}

// One connection after another, until all requests of a client are answered.
fn attend<R, S, K, P, O>(
    rt: &R,
    alloc: Global,
    house: &House<S, K, P>,
    origin: &O,
    pool: &Pool<&R, S, K, P>,
    plan: Plan,
    number: u64,
    tally: &Mutex<Tally>,
) -> Result<(), Unmade>
where
    R: Wait,
    S: Site,
    K: Keeper,
    P: OriginSlip,
    O: Origin<S, Slip = P>,
    requires serves { S.tells ≡ true → ServesTargets house.now S.serves }
    requires honest { S.tells ≡ true → IsHonest S.Site }
{
    let mut done = 0u64;
    for _ in 0..REQUESTS {
        if done >= REQUESTS {
            return Ok(());
        }
        let client = Client { plan, number, done };
        let count = connect::<R, S, K, P, O>(rt, alloc, house, origin, pool, client, tally)?;
        if count == 0 {
            tally.lock(rt).accuse(number, done, Wrong::Silence);
            return Ok(());
        }
        done = done.saturating_add(count);
    }
    Ok(())
}

// A connection with all the requests that aren't answered yet. Says how many it answered.
fn connect<R, S, K, P, O>(
    rt: &R,
    alloc: Global,
    house: &House<S, K, P>,
    origin: &O,
    pool: &Pool<&R, S, K, P>,
    client: Client,
    tally: &Mutex<Tally>,
) -> Result<u64, Unmade>
where
    R: Wait,
    S: Site,
    K: Keeper,
    P: OriginSlip,
    O: Origin<S, Slip = P>,
    requires serves { S.tells ≡ true → ServesTargets house.now S.serves }
    requires honest { S.tells ≡ true → IsHonest S.Site }
{
    let input = asks_from(alloc, client.plan.seed, client.number, client.done)?;
    let mut clock = clock_from(alloc, client.number, client.done)?;
    let mut link = link_to(alloc, input.as_str(), client.number)?;
    let end = converse(rt, alloc, house, origin, pool, &mut clock, &mut link);
    judge(rt, alloc, client, &end, link.written(), tally);
    Ok(end.notes.len() as u64)
}

/// The clock of a client's requests from one on.
pub fn clock_from(alloc: Global, number: u64, done: u64) -> Result<FixedClock, Unmade> {
    let moments = moments_from(alloc, number, done)?;
    if moments.is_empty() {
        return Err(Unmade);
    }
    Ok(FixedClock::new(alloc, moments.as_slice())?)
}

/// The link of a client, which moves few bytes a call for some of them.
pub fn link_to(alloc: Global, input: &str, number: u64) -> Result<MemoryLink, Unmade> {
    let cut = match number % 4 {
        0 => 65_536,
        1 => 61,
        2 => 4_096,
        _ => 1_000,
    };
    Ok(MemoryLink::new(alloc, input.as_bytes(), ROOM, cut, &[])?)
}

/// One connection.
pub fn converse<R, S, K, P, O, G>(
    rt: &R,
    alloc: Global,
    house: &House<S, K, P>,
    origin: &O,
    loaders: &G,
    clock: &mut FixedClock,
    link: &mut MemoryLink,
) -> SessionEnd<SlipOf<K>>
where
    R: Wait,
    S: Site,
    K: Keeper,
    P: OriginSlip,
    O: Origin<S, Slip = P>,
    G: Loaders<Job<S, K, P>>,
    requires serves { S.tells ≡ true → ServesTargets house.now S.serves }
    requires honest { S.tells ≡ true → IsHonest S.Site }
{
    session(rt, alloc, house, origin, loaders, clock, link)
}
