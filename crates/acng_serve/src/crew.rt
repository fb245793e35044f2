//! The threads that serve connections: how many there are, and how many of them wait for a connection.
//!
//! Each waits for connections itself, so none is handed over. Another thread is called for as soon as none waits, up to 64 of
//! them. So there are no more than were busy at one time, and one more. What is counted under the lock keeps two bounds: at
//! most 64 threads are there, and no more wait than are there.
ghost use Rattle.std.specs.Prelude.{◌≡◌, ◌↔◌, ◌+◌, ◌-◌, ◌<◌, ◌≤◌, min, true};

use std::sync::{Condvar, Mutex, Wait};

/// The most threads that serve connections.
const MOST: u64 = 64;

// How many threads there are, and how many of them wait.
#[derive(Drop)]
struct Count {
    there: u64,
    idle: u64,
    ghost most: { there ≤ 64 },
    ghost within: { idle ≤ there },
}

impl Count {
    fn new() -> Count
        ensures there { result.there ≡ 0 }
        ensures idle { result.idle ≡ 0 }
    {
        Count { there: 0, idle: 0 }
    }

    // Whether none waits and there may be another one.
    fn is_short(&self) -> bool
        ensures { result ≡ true ↔ (self.now.idle ≡ 0) × (self.now.there < 64) }
    {
        self.idle == 0 && self.there < MOST
    }

    // One more is there, and waits. It does nothing where 64 are there.
    fn join(&mut self)
        ensures there { self.new.there ≡ min (self.old.there + 1) 64 }
        ensures idle { self.old.there < 64 → self.new.idle ≡ self.old.idle + 1 }
    {
        if self.there < MOST {
            self.there += 1;
            self.idle += 1;
        }
    }

    // One that waited has gone.
    fn leave(&mut self)
        ensures there { self.new.there ≡ self.old.there - 1 }
        ensures idle { self.new.idle ≡ self.old.idle - 1 }
    {
        self.idle = self.idle.saturating_sub(1);
        self.there = self.there.saturating_sub(1);
    }

    // One that waited is busy.
    fn take(&mut self)
        ensures there { self.new.there ≡ self.old.there }
        ensures idle { self.new.idle ≡ self.old.idle - 1 }
    {
        self.idle = self.idle.saturating_sub(1);
    }

    // One that was busy waits again.
    fn rest(&mut self)
        ensures there { self.new.there ≡ self.old.there }
        ensures idle { self.new.idle ≡ min (self.old.idle + 1) self.old.there }
    {
        if self.idle < self.there {
            self.idle += 1;
        }
    }
}

/// The count of the threads behind a lock, and the call for another one.
#[derive(Drop)]
pub(crate) struct Crew {
    count: Mutex<Count>,
    call: Condvar,
}

impl Crew {
    pub(crate) fn new() -> Crew {
        Crew {
            count: Mutex::new(Count::new()),
            call: Condvar::new(),
        }
    }

    /// Waits until another thread is called for, and counts it.
    pub(crate) fn await_call<R: Wait>(&self, rt: &R) {
        let mut count = self.count.lock(rt);
        for _ in rt.forever() {
            if count.is_short() {
                count.join();
                return;
            }
            count = self.call.wait(rt, count);
        }
    }

    /// One that was counted isn't there.
    pub(crate) fn leave<R: Wait>(&self, rt: &R) {
        self.count.lock(rt).leave();
    }

    /// One that waited has a connection. Where it was the last, another one is called for.
    pub(crate) fn take<R: Wait>(&self, rt: &R) {
        if self.taken(rt) {
            self.call.notify_one();
        }
    }

    // Counts it, and says whether another one is called for. The lock is free again.
    fn taken<R: Wait>(&self, rt: &R) -> bool {
        let mut count = self.count.lock(rt);
        count.take();
        count.is_short()
    }

    /// One that had a connection waits again.
    pub(crate) fn rest<R: Wait>(&self, rt: &R) {
        self.count.lock(rt).rest();
    }
}
