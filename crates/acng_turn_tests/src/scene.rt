//! A scene: loaders and sessions in threads of their own, while the test's own thread looks at what the clients got.
//!
//! It looks turn by turn, and joins no thread before it has seen all sessions return. Where it has looked in vain it ends the
//! process, so a thread that waits for ever can't hold the test.
ghost use Rattle.std.specs.Prelude.{◌≡◌, true};
ghost use Rattle.std.specs.Thread.{IsSync};
ghost use Rattle.acng_site.specs.Honest.{IsHonest};
ghost use Rattle.acng_remap.specs.Origins.{ServesTargets};

use crate::door::Door;
use crate::visit::{Visit, serve};
use acng_fetch::Pool;
use acng_keeper::{BodyFile, Keeper};
use acng_serve::House;
use acng_site::{Origin, OriginSlip, Site};
use std::alloc::Global;
use std::process::Abort;
use std::sync::Wait;
use std::thread;
use std::thread::Threads;
use std::time::{Clock as TimeSource, Duration};

/// How many turns the test looks for one thing.
const TURNS: u32 = 1_000_000;

/// After how many turns it sleeps for a millisecond, so that on a busy machine other threads run meanwhile.
const REST: u32 = 100;

/// The loaders.
const LOADERS: u32 = 2;

/// Who comes, and at which doors they wait.
#[derive(Clone, Copy)]
pub struct Scene<'a> {
    /// Who is served until each has its front, and a thread waits at the door.
    pub first: &'a [Visit],
    /// Who is served to the end meanwhile.
    pub then: &'a [Visit],
    /// The door at which an origin is held, and the one at which the links of the first are.
    pub held: Option<&'a Door>,
    pub halted: Option<&'a Door>,
}

/// Plays a scene over a pool of its own. Each visit that is in it has ended behind it.
pub fn play<R, S, K, P, O>(
    rt: &R,
    alloc: Global,
    house: &House<S, K, P>,
    origin: &O,
    scene: Scene<'_>,
)
where
    R: Threads + Wait + TimeSource + Abort + Sync,
    S: Site + Send + Sync,
    K: Keeper<Body: BodyFile<Slip: Send> + Send> + Send,
    P: OriginSlip + Send,
    O: Origin<S, Slip = P, Conn: Send> + Sync,
    requires serves { S.tells ≡ true → ServesTargets house.now S.serves }
    requires honest { S.tells ≡ true → IsHonest S.Site }
{
    let Ok(pool) = Pool::new(rt, alloc) else {
        panic!(rt; "a pool is made");
    };
    run::<R, S, K, P, O>(rt, alloc, house, origin, &pool, scene);
    let _ = pool.retire(alloc, origin, house.desk());
}

// The threads, and the looks of the one that starts them.
fn run<R, S, K, P, O>(
    rt: &R,
    alloc: Global,
    house: &House<S, K, P>,
    origin: &O,
    pool: &Pool<&R, S, K, P>,
    scene: Scene<'_>,
)
where
    R: Threads + Wait + TimeSource + Abort + Sync,
    S: Site + Send + Sync,
    K: Keeper<Body: BodyFile<Slip: Send> + Send> + Send,
    P: OriginSlip + Send,
    O: Origin<S, Slip = P, Conn: Send> + Sync,
    requires serves { S.tells ≡ true → ServesTargets house.now S.serves }
    requires honest { S.tells ≡ true → IsHonest S.Site }
{
    let Scene {
        first,
        then,
        held,
        halted,
    } = scene;
    thread::scope(
        thread::scope_env(),
        rt,
        |scope|
            requires { IsSync R.row × (S.tells ≡ true → ServesTargets house.now S.serves) × (S.tells ≡ true → IsHonest S.Site) }
        {
            for _ in 0..LOADERS {
                let started = scope.spawn(
                    move ||
                        requires { S.tells ≡ true → IsHonest S.Site }
                    { pool.work(alloc, origin, house.desk()) },
                );
                assert!(rt; started.is_ok());
            }
            for visit in first {
                let started = scope.spawn(
                    move ||
                        requires { (S.tells ≡ true → ServesTargets house.now S.serves) × (S.tells ≡ true → IsHonest S.Site) }
                    { serve::<R, S, K, P, O>(rt, alloc, house, origin, pool, visit, halted) },
                );
                assert!(rt; started.is_ok());
            }
            await_fronts(rt, first, held, halted);
            for visit in then {
                let started = scope.spawn(
                    move ||
                        requires { (S.tells ≡ true → ServesTargets house.now S.serves) × (S.tells ≡ true → IsHonest S.Site) }
                    { serve::<R, S, K, P, O>(rt, alloc, house, origin, pool, visit, None) },
                );
                assert!(rt; started.is_ok());
            }
            await_returns(rt, then);
            assert!(rt;
                have_fronts(first),
                "the clients got more than the door let through"
            );
            open_up(held);
            open_up(halted);
            await_returns(rt, first);
            pool.close();
        },
    );
}

// ---- what the test's own thread does

fn take_turn<R: TimeSource>(rt: &R, turn: u32) {
    if turn % REST == 0 {
        thread::sleep(rt, Duration::from_millis(1));
    } else {
        thread::yield_now();
    }
}

// Waits until each has its front, and threads wait at the doors.
fn await_fronts<R: TimeSource + Abort>(
    rt: &R,
    visits: &[Visit],
    held: Option<&Door>,
    halted: Option<&Door>,
) {
    for turn in 0..TURNS {
        if is_met(held) && is_met(halted) && have_fronts(visits) {
            return;
        }
        take_turn(rt, turn);
    }
    panic!(rt; "the clients don't get what came before the door");
}

// Waits until the session of each has returned.
fn await_returns<R: TimeSource + Abort>(rt: &R, visits: &[Visit]) {
    for turn in 0..TURNS {
        if have_returned(visits) {
            return;
        }
        take_turn(rt, turn);
    }
    panic!(rt; "the sessions don't return");
}

fn have_fronts(visits: &[Visit]) -> bool {
    for visit in visits {
        if !visit.has_front() {
            return false;
        }
    }
    true
}

fn have_returned(visits: &[Visit]) -> bool {
    for visit in visits {
        if !visit.has_returned() {
            return false;
        }
    }
    true
}

// Whether a thread waits at the door, where there is one.
fn is_met(door: Option<&Door>) -> bool {
    match door {
        Some(door) => door.is_met(),
        None => true,
    }
}

fn open_up(door: Option<&Door>) {
    if let Some(door) = door {
        door.open_up();
    }
}
