//! Starting a desk over stored heads and bodies.
//!
//! The rows are those of the good heads, of two for one path the one with the greater id. All that isn't the rows' is
//! removed, and the right skips past every attempt that a row names: no number is drawn twice.
ghost use Rattle.std.specs.Prelude.{◌≡◌, ◌<◌, ◌≤◌, max, true, IfOk, IfErr};
ghost use Rattle.std.specs.FinMap as map;
ghost use Rattle.acng_conf.specs.Settings.{rules_of};
ghost use Rattle.acng_grow.specs.Faithful.{IsFaithful};
ghost use Rattle.acng_keeper.specs.Kept.{stored};
ghost use Rattle.acng_keeper.specs.Slips.{Later};
ghost use Rattle.acng_rows.specs.Goods.{StandsFor};
ghost use Rattle.acng_desk.specs.Starts.{IsStarted, ClearsOnly, StartRose, most_rows, cause_of};

use crate::desk::Desk;
use crate::joint::Joint;
use acng_conf::Conf;
use acng_keeper::{KeepFault, Keeper, SlipOf};
use acng_rows::{Found, PathMap, find_rows, remove_all};
use acng_site::{Right, Site};
use std::alloc::Global;

/// Why a desk wasn't started.
#[derive(Debug, Drop)]
pub enum StartCause<P> {
    /// A call of the keeper failed.
    KeeperFault(P),
    /// The kept paths are more than the limit; they are so many.
    TooMany { count: u64 },
    /// Memory was refused.
    NoMemory,
}

/// That a desk wasn't started, with the keeper.
#[derive(Drop)]
pub struct StartFault<K: Drop, P> {
    pub keeper: K,
    pub cause: StartCause<P>,
}

fn cause_of<P>(fault: KeepFault<P>) -> StartCause<P>
    ensures { result ≡ cause_of fault }
{
    match fault {
        KeepFault::Slip(slip) => StartCause::KeeperFault(slip),
        KeepFault::NoMemory => StartCause::NoMemory,
    }
}

// The numbers below n are left out.
fn skip_past<S: Site>(right: &mut Right<S>, n: u64)
    ensures { right.new.next ≡ max right.old.next n }
{
    if right.next() < n {
        right.skip_to(n);
    }
}

impl<S: Site, K: Keeper, T: Joint> Desk<S, K, T> {
    /// A desk of at most so many paths. Where the keeper tells, it is faithful; where the site tells, the keeper does.
    pub fn start(
        alloc: Global,
        keeper: K,
        right: Right<S>,
        conf: &Conf,
        rows: u32,
    ) -> Result<Desk<S, K, T>, StartFault<K, SlipOf<K>>>
        requires some { 1 ≤ rows }
        requires most { rows ≤ most_rows }
        requires faithful { K.tells ≡ true → IsFaithful S.Site (K.kept keeper) }
        requires told { S.tells ≡ true → K.tells ≡ true }
        ensures started { IfOk result (λ desk. IsStarted K.tells (K.kept keeper) (K.next keeper) right.next rows (rules_of conf.now) desk) }

        // A refusal, and what it leaves.
        ensures cause { IfErr result (λ e. StartRose K.tells (K.kept keeper) rows (K.faults keeper) (K.faults e.keeper) e.cause) }
        ensures later { IfErr result (λ e. Later (K.faults keeper) (K.faults e.keeper)) }
        ensures still { K.tells ≡ true → IfErr result (λ e. IsFaithful S.Site (K.kept e.keeper)) }
        ensures stops { K.tells ≡ true → IfErr result (λ e. ClearsOnly (K.kept keeper) (K.kept e.keeper)) }
    {
        let mut keeper = keeper;
        let mut right = right;
        let Ok(rules) = conf.rules(alloc) else {
            return Err(StartFault {
                keeper,
                cause: StartCause::NoMemory,
            });
        };
        let found = match find_rows(&mut keeper, alloc) {
            Ok(found) => found,
            Err(fault) => {
                return Err(StartFault {
                    keeper,
                    cause: cause_of(fault),
                });
            }
        };
        let Found {
            rows: kept,
            gone,
            next_try,
        } = found;
        let count = kept.len() as u64;
        if count > u64::from(rows) {
            return Err(StartFault {
                keeper,
                cause: StartCause::TooMany { count },
            });
        }
        if let Err(fault) = remove_all(&mut keeper, alloc, gone.as_slice()) {
            return Err(StartFault {
                keeper,
                cause: cause_of(fault),
            });
        }
        skip_past(&mut right, next_try);
        Ok(Desk {
            keeper,
            right,
            rows: kept,
            parts: PathMap::new(alloc),
            limit: rows,
            rules,
        })
    }
}
