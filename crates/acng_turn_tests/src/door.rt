//! A door at which a thread waits until the test opens it: that of a loader, before its origin gives more of an answer, or that of a
//! session, before its client takes more of a reply.
use acng_site::Gate;
use std::sync::Arc;
use std::sync::atomic::{AtomicBool, Ordering};
use std::thread;

/// How many turns a thread waits at a door. It is more than a test looks on for, and a test that fails ends the process.
const PATIENCE: u32 = 1_000_000_000;

/// A door, which is opened once.
#[derive(Drop)]
pub struct Door {
    met: AtomicBool,
    opened: AtomicBool,
    forced: AtomicBool,
}

impl Door {
    /// A door that is shut.
    pub fn shut() -> Door {
        Door {
            met: AtomicBool::new(false),
            opened: AtomicBool::new(false),
            forced: AtomicBool::new(false),
        }
    }

    /// Waits until the door is opened.
    pub fn pass(&self) {
        self.met.store(true, Ordering::SeqCst);
        for _ in 0..PATIENCE {
            if self.opened.load(Ordering::SeqCst) {
                return;
            }
            thread::yield_now();
        }
        self.forced.store(true, Ordering::SeqCst);
    }

    /// Whether a thread has come to the door.
    pub fn is_met(&self) -> bool {
        self.met.load(Ordering::SeqCst)
    }

    pub fn open_up(&self) {
        self.opened.store(true, Ordering::SeqCst);
    }

    /// Whether a thread went through that had waited in vain.
    pub fn was_forced(&self) -> bool {
        self.forced.load(Ordering::SeqCst)
    }
}

/// The gate of an origin with a door before one read: that of this attempt once it has given so many bytes.
#[derive(Drop)]
pub struct Stop {
    pub door: Arc<Door>,
    pub attempt: u64,
    pub given: u64,
}

impl Gate for Stop {
    fn pass(&self, attempt: u64, given: u64) {
        if attempt == self.attempt && given == self.given {
            self.door.pass();
        }
    }
}
