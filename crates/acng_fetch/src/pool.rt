//! A pool of loaders: downloads wait in a queue behind a lock, and workers run them one after another.
ghost use Rattle.std.specs.Prelude.{◌≡◌, true, IfErr};
ghost use Rattle.acng_site.specs.Honest.{IsHonest};

use crate::followed::{Joined, load};
use crate::job::{Job, Loaders};
use crate::queue::Queue;
use acng_base::NoMemory;
use acng_desk::Desk;
use acng_keeper::Keeper;
use acng_site::{Origin, OriginSlip, Site};
use std::alloc::Global;
use std::sync::{Condvar, Mutex, Wait};

/// Downloads that wait for a worker. It has to be given up by `retire`, which runs those that are left.
pub struct Pool<R: Wait, S: Site, K: Keeper, P: OriginSlip> {
    rt: R,
    queue: Mutex<Queue<Job<S, K, P>>>,
    changed: Condvar,
}

impl<R: Wait, S: Site, K: Keeper, P: OriginSlip> Pool<R, S, K, P> {
    /// A pool in which nothing waits, with room for all that may wait.
    pub fn new(rt: R, alloc: Global) -> Result<Pool<R, S, K, P>, NoMemory>
    where
        R: Drop,
    {
        let queue = Queue::new(alloc)?;
        Ok(Pool {
            rt,
            queue: Mutex::new(queue),
            changed: Condvar::new(),
        })
    }

    /// Takes nothing in from now on, and lets the workers end once nothing waits.
    pub fn close(&self) {
        self.queue.lock(&self.rt).close();
        self.changed.notify_all();
    }

    // The next download, or none where the pool is closed and nothing waits.
    fn next(&self) -> Option<Job<S, K, P>> {
        let rt = &self.rt;
        let mut queue = self.queue.lock(rt);
        for _ in rt.forever() {
            if let Some(job) = queue.take() {
                return Some(job);
            }
            if queue.is_closed() {
                return None;
            }
            queue = self.changed.wait(rt, queue);
        }
        unreachable!()
    }

    /// Runs waiting downloads until the pool is closed and none waits.
    pub fn work<O: Origin<S, Slip = P>>(
        &self,
        alloc: Global,
        origin: &O,
        desk: &Mutex<Desk<S, K, Joined<S, K::Body, P>>>,
    )
        requires honest { S.tells ≡ true → IsHonest S.Site }
    {
        for _ in self.rt.forever() {
            match self.next() {
                Some(job) => run(&self.rt, alloc, job, origin, desk),
                None => return,
            }
        }
    }

    /// Gives the pool up, and runs the downloads that are left.
    pub fn retire<O: Origin<S, Slip = P>>(
        self,
        alloc: Global,
        origin: &O,
        desk: &Mutex<Desk<S, K, Joined<S, K::Body, P>>>,
    ) -> R
        requires honest { S.tells ≡ true → IsHonest S.Site }
    {
        let Pool {
            rt,
            queue,
            changed: _,
        } = self;
        let mut queue = queue.into_inner();
        while let Some(job) = queue.take() {
            run(&rt, alloc, job, origin, desk);
        }
        queue.end();
        rt
    }
}

// Runs a download to its end.
fn run<R: Wait, S: Site, K: Keeper, O: Origin<S>>(
    rt: &R,
    alloc: Global,
    job: Job<S, K, O::Slip>,
    origin: &O,
    desk: &Mutex<Desk<S, K, Joined<S, K::Body, O::Slip>>>,
)
    requires honest { S.tells ≡ true → IsHonest S.Site }
{
    let (ticket, joined) = job.into_parts();
    let _ = load(rt, alloc, ticket, origin, &joined.body, desk);
}

impl<R: Wait, S: Site, K: Keeper, P: OriginSlip> Loaders<Job<S, K, P>> for Pool<R, S, K, P> {
    fn hand(&self, job: Job<S, K, P>) -> Result<(), Job<S, K, P>>
        ensures back { IfErr result (λ it. it ≡ job) }
    {
        let outcome = self.queue.lock(&self.rt).put(job);
        self.changed.notify_one();
        outcome
    }
}
