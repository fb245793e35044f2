//! Downloads that wait for a loader: first come, first served, at most 256, and none is taken in once the queue is closed.
ghost use Rattle.std.specs.Prelude.{◌≡◌, ◌++◌, ◌∷◌, ◌↔◌, ◌⊎◌, ◌≤◌, [], length, true, false, IsErr, IfErr, IfSome, OnErr, OnOk, IfOk, None};
ghost use Rattle.std.specs.VecDeque.{deque_capacity};

use acng_base::NoMemory;
use std::alloc::Global;
use std::collections::VecDeque;
use std::marker::Model;

/// The most downloads that wait.
const MOST_WAITING: usize = 256;

/// Waiting downloads, and whether no more are taken in. What waits has to be taken out again.
pub struct Queue<J> {
    jobs: VecDeque<J>,
    closed: bool,
    ghost room: { 256 ≤ deque_capacity jobs },
}

impl<J> Model for Queue<J> {
    ghost use Rattle.acng_fetch.specs.Queues.{Waiting};

    ghost Value = { Waiting J };

    ghost view = { λ queue. record { jobs = queue.jobs.items; closed = queue.closed } };
}

impl<J> Queue<J> {
    /// An open queue in which nothing waits, with room for all that may wait.
    pub fn new(alloc: Global) -> Result<Queue<J>, NoMemory>
        ensures { IfOk result (λ queue. queue ≡ record { jobs = []; closed = false }) }
    {
        match VecDeque::with_capacity(alloc, MOST_WAITING) {
            Ok(jobs) => Ok(Queue {
                jobs,
                closed: false,
            }),
            Err(_) => Err(NoMemory),
        }
    }

    /// Takes a download in as the last one. Hands it back exactly where 256 wait or the queue is closed.
    pub fn put(&mut self, job: J) -> Result<(), J>
        ensures back { IsErr result ↔ ((256 ≤ length self.old.jobs) ⊎ (self.old.closed ≡ true)) }
        ensures same { IfErr result (λ it. it ≡ job) }
        ensures kept { OnErr result (self.new ≡ self.old) }
        ensures last { OnOk result (self.new ≡ record { jobs = self.old.jobs ++ job ∷ []; closed = false }) }
    {
        if self.closed || self.jobs.len() >= MOST_WAITING {
            return Err(job);
        }
        match self.jobs.push_back(job) {
            Ok(()) => Ok(()),
            Err(_) => unreachable!(),
        }
    }

    /// Takes out the one that has waited longest.
    pub fn take(&mut self) -> Option<J>
        ensures first { IfSome result (λ job. self.old.jobs ≡ job ∷ self.new.jobs) }
        ensures none { result ≡ None → (self.old.jobs ≡ []) × (self.new ≡ self.old) }
        ensures closed { self.new.closed ≡ self.old.closed }
    {
        self.jobs.pop_front()
    }

    /// Takes nothing in from now on.
    pub fn close(&mut self)
        ensures { self.new ≡ record { jobs = self.old.jobs; closed = true } }
    {
        self.closed = true;
    }

    pub fn is_closed(&self) -> bool
        ensures { result ≡ self.now.closed }
    {
        self.closed
    }

    /// Gives up a queue in which nothing waits.
    pub fn end(self)
        requires { self.jobs ≡ [] }
    {
        let Queue { jobs, closed: _ } = self;
        jobs.destroy_empty();
    }
}
