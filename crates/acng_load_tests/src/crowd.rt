//! Many ask for one path at once: one of them leads and loads, the others join and follow.
use acng_base::{CachePath, MemoryLink, Moment, NoMemory, PathFault, Texts};
use acng_class::Class;
use acng_desk::{Begun, Desk, Entry, Joint};
use acng_fetch::{Joined, load};
use acng_grow::{FollowStop, Followed, Sending, Shared, Shown, await_head, follow};
use acng_head::Label;
use acng_keeper::{MemoryBody, MemoryKeeper};
use acng_site::{AttemptSlip, Gate, MemoryOrigin, Untold};
use std::alloc::Global;
use std::process::Abort;
use std::sync::atomic::{AtomicU64, Ordering};
use std::sync::{Arc, Mutex, Wait};
use std::thread;
use std::thread::Threads;

pub type Held = Joined<Untold, MemoryBody, AttemptSlip>;

pub type House = Desk<Untold, MemoryKeeper, Held>;

pub type Origin = MemoryOrigin<Untold, Patient>;

/// How many turns a read waits for the last of those that follow: longer than a test may run, so that a busy machine can't
/// make one of them come too late.
const TURNS: u64 = 1_000_000_000;

/// What is counted of a crowd.
#[derive(Drop)]
pub struct Tally {
    /// How many lead, how many join, and how many got what they were to get.
    pub leads: AtomicU64,
    pub joins: AtomicU64,
    pub served: AtomicU64,
    /// How many attempts an origin answered.
    pub answers: AtomicU64,
}

impl Tally {
    pub fn new() -> Tally {
        Tally {
            leads: AtomicU64::new(0),
            joins: AtomicU64::new(0),
            served: AtomicU64::new(0),
            answers: AtomicU64::new(0),
        }
    }
}

/// A gate at which an answer waits until so many have joined.
#[derive(Drop)]
pub struct Patient {
    pub tally: Arc<Tally>,
    pub crowd: u64,
}

impl Gate for Patient {
    fn pass(&self, attempt: u64, given: u64) {
        let _ = attempt;
        if given == 0 {
            self.tally.answers.fetch_add(1, Ordering::SeqCst);
        }
        for _ in 0..TURNS {
            if self.tally.joins.load(Ordering::SeqCst) >= self.crowd {
                return;
            }
            thread::yield_now();
        }
    }
}

/// What is asked for, and what each is to get: this text, whole or cut by the origin's failure of an attempt.
#[derive(Drop)]
pub struct Wanted {
    pub path: CachePath,
    pub origins: Texts,
    pub text: Vec<u8>,
    pub broken: Option<u64>,
}

/// Why a test's body couldn't be made.
#[derive(Debug, Drop)]
pub struct Unmade;

impl From<NoMemory> for Unmade {
    fn from(_: NoMemory) -> Unmade {
        Unmade
    }
}

impl From<PathFault> for Unmade {
    fn from(_: PathFault) -> Unmade {
        Unmade
    }
}

// Whether the sending ended as it was to.
fn ends<Q>(followed: &Followed<Q>, wanted: &Wanted) -> bool {
    match (&followed.stop, wanted.broken) {
        (FollowStop::Whole, None) => true,
        (FollowStop::Cut(Shown::Origin { attempt }), Some(broken)) => *attempt == broken,
        _ => false,
    }
}

// Follows the body of an entry from its first byte on, and counts where the link has the text.
fn graze<R: Wait>(
    rt: &R,
    alloc: Global,
    body: &Shared<Untold, MemoryBody, AttemptSlip>,
    entry: &Entry,
    wanted: &Wanted,
    tally: &Tally,
) {
    let look = await_head(rt, body, entry.asked());
    let Some(Label::Fetched { first, last }) = look.label else {
        return;
    };
    let label = Label::Fetched { first, last };
    let Ok(mut client) = MemoryLink::new(alloc, b"", wanted.text.len(), 1000, &[]) else {
        return;
    };
    let followed = follow(
        rt,
        body,
        entry.asked(),
        label,
        0,
        None,
        Sending::Length,
        &mut client,
    );
    let text = wanted.text.as_slice();
    if client.written() == text && followed.sent == text.len() as u64 && ends(&followed, wanted) {
        tally.served.fetch_add(1, Ordering::SeqCst);
    }
}

// One of the crowd: asks for the path, and loads or follows.
#[tactic(auto, using(crate::proofs::Unused::given_unused))]
fn visit<R: Wait>(
    rt: &R,
    alloc: Global,
    origin: &Origin,
    house: &Mutex<House>,
    wanted: &Wanted,
    tally: &Tally,
) -> Result<(), Unmade> {
    if wanted.origins.is_empty() {
        return Err(Unmade);
    }
    let mine = Joined {
        body: Shared::new(alloc, wanted.path.again(alloc)?)?,
    };
    let token = mine.again()?;
    let begun = house.lock(rt).begin(
        alloc,
        &wanted.path,
        Class::Solid,
        &wanted.origins,
        Moment(20),
        token,
    );
    match begun {
        Begun::Lead(ticket, entry) => {
            tally.leads.fetch_add(1, Ordering::SeqCst);
            let _loaded = load(rt, alloc, ticket, origin, &*mine.body, house);
            graze(rt, alloc, &*mine.body, &entry, wanted, tally);
        }
        Begun::Join(joined, entry) => {
            tally.joins.fetch_add(1, Ordering::SeqCst);
            graze(rt, alloc, &*joined.body, &entry, wanted, tally);
        }
        Begun::Kept(_, _) => {}
        Begun::Offline(_) => {}
        Begun::Full(_) => {}
        Begun::Worn(_) => {}
        Begun::KeeperFault(_) => {}
        Begun::NoMemory => {}
    }
    Ok(())
}

/// Lets so many loose on a path at once.
pub fn drive<R: Threads + Wait + Abort + Sync>(
    rt: &R,
    alloc: Global,
    origin: &Origin,
    house: &Mutex<House>,
    wanted: &Wanted,
    tally: &Tally,
    count: u64,
) {
    thread::scope(thread::scope_env(), rt, |scope| {
        for _ in 0..count {
            let started = scope.spawn(move || visit(rt, alloc, origin, house, wanted, tally));
            assert!(rt; started.is_ok());
        }
    });
}
