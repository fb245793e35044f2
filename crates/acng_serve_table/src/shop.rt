//! A desk over a cache in memory, and the connections that it serves.
use crate::client::{Tap, clock_of};
use crate::fault::Fault;
use crate::mirror::Mirror;
use crate::script::Client;
use acng_base::FixedClock;
use acng_conf::{Conf, read_conf};
use acng_desk::{Desk, StartCause};
use acng_keeper::{CallSlip, Keeper, MemoryKeeper};
use acng_serve::{SessionEnd, session_owned};
use acng_site::{Right, Site, Untold};
use std::alloc::Global;
use std::marker::Model;

/// A keeper, of which all that it has may be served. It is seen as the number of its next body.
#[derive(Drop)]
pub struct Cache {
    pub keeper: MemoryKeeper,
}

impl Model for Cache {
    ghost use Rattle.std.specs.Prelude.{ℕ};
    ghost use Rattle.acng_grow.specs.Faithful.{IsFaithful};

    ghost Value = { ℕ };

    ghost view = { λ c. ⟦<MemoryKeeper as Keeper>⟧.next c.keeper };

    ghost invariant = { λ c. IsFaithful ⟦<Untold as Site>⟧ (⟦<MemoryKeeper as Keeper>⟧.kept c.keeper) };
}

impl Cache {
    /// An empty one, of which the calls with these numbers fail.
    #[tactic(auto, using(crate::proofs::Empty::nothing_faithful))]
    pub fn new(alloc: Global, fail: &[u64]) -> Result<Cache, Fault> {
        let keeper = MemoryKeeper::new(alloc, fail)?;
        Ok(Cache { keeper })
    }
}

/// A desk of which no ticket is out, with its configuration. It is seen as the number of its next body.
#[derive(Drop)]
pub struct Shop {
    conf: Conf,
    desk: Desk<Untold, MemoryKeeper, ()>,
}

impl Model for Shop {
    ghost use Rattle.std.specs.Prelude.{◌≡◌, ℕ};
    ghost use Rattle.acng_conf.specs.Settings.{rules_of};
    ghost use Rattle.acng_desk.specs.Keeps.{IsIdle};

    ghost Value = { ℕ };

    ghost view = { λ s. s.desk.plain.next_id };

    ghost invariant = { λ s. (IsIdle s.desk.plain) × (s.desk.plain.rules ≡ rules_of s.conf) };
}

/// Why there is no desk.
#[derive(Clone, Copy, PartialEq, Eq)]
pub enum Closed {
    Keeper,
    TooMany { count: u64 },
    NoMemory,
}

impl Shop {
    /// A desk of at most so many paths over a cache.
    pub fn open(
        alloc: Global,
        conf: Conf,
        cache: Cache,
        right: Right<Untold>,
        rows: u32,
    ) -> Result<Shop, Closed> {
        let rows = rows.clamp(1, 1_048_576);
        let Cache { keeper } = cache;
        match Desk::start(alloc, keeper, right, &conf, rows) {
            Ok(desk) => Ok(Shop { conf, desk }),
            Err(fault) => Err(cause_of(&fault.cause)),
        }
    }

    /// Serves a connection.
    pub fn serve(
        &mut self,
        alloc: Global,
        mirror: &Mirror,
        clock: &mut FixedClock,
        link: &mut Tap,
    ) -> SessionEnd<CallSlip> {
        session_owned(
            alloc,
            &mut self.desk,
            &self.conf,
            &mirror.origin,
            clock,
            link,
        )
    }
}

fn cause_of(cause: &StartCause<CallSlip>) -> Closed {
    match cause {
        StartCause::KeeperFault(_) => Closed::Keeper,
        StartCause::TooMany { count } => Closed::TooMany { count: *count },
        StartCause::NoMemory => Closed::NoMemory,
    }
}

/// The configuration that a text says.
pub fn conf_of(alloc: Global, text: &str) -> Result<Conf, Fault> {
    read_conf(alloc, text.as_bytes(), &[]).map_err(|_| Fault::NotAScript)
}
