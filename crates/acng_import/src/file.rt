//! The import of one found file.
ghost use Rattle.std.specs.Prelude.{◌≡◌, ◌<◌, ◌≤◌, ◌^◌, true, false, List, ℕ, length, IfOk, IfErr};
ghost use Rattle.acng_base.specs.Causes.{Rose};
ghost use Rattle.acng_desk.specs.Calls.{IsSpare};
ghost use Rattle.acng_import.specs.Ends.{is_fault};
ghost use Rattle.acng_import.specs.Files.{file_at};
ghost use Rattle.acng_import.specs.Halts.{MayHalt};
ghost use Rattle.acng_import.specs.Imports.{enter, AreNamed, FileDid};
ghost use Rattle.acng_import.specs.Looks.{shelf_of};
ghost use Rattle.acng_import.specs.Steps.{OnlyEnters, anywhere, named_in};
ghost use Rattle.acng_import.specs.Puts.{ends, IfDid, IsArrival};

use crate::ending::{FileEnd, Halt, halt_of};
use crate::fill::{Filled, fill};
use crate::finder::Finder;
use crate::put::{Arrival, put_all};
use crate::wanted::wanted_paths;
use acng_base::Moment;
use acng_desk::{Desk, Joint, PutFault};
use acng_keeper::{BodyFile, BodyId, Keeper, SlipOf};
use acng_reach::Reach;
use acng_site::Site;
use std::alloc::Global;

// Ends a file whose body isn't kept, which is removed.
fn let_go<S: Site, K: Keeper, T: Joint>(
    alloc: Global,
    desk: &mut Desk<S, K, T>,
    id: BodyId,
    body: K::Body,
    end: FileEnd,
) -> Result<FileEnd, Halt<SlipOf<K>>>
    requires number { (K.Body.handle body).number ≡ id.0 }
    requires spare { IsSpare K.tells desk.old id.0 }
    ensures did { IfDid (λ d. d ≡ ends end desk.old.plain) result desk.new.plain }
    ensures end { IfOk result (λ e. e ≡ end) }
    ensures plain { desk.new.plain ≡ desk.old.plain }

    // A refusal, and whether calls may fail.
    ensures cause { IfErr result (MayHalt desk.old.faults.may_fail) }
    ensures may { desk.new.faults.may_fail ≡ desk.old.faults.may_fail }
{
    match desk.drop_body(alloc, id, body) {
        Ok(()) => Ok(end),
        Err(fault) => Err(halt_of(fault)),
    }
}

// A file enters at those of its names that want it. A body has all of it.
#[tactic(auto, using(crate::proofs::Stepping::none_entered))]
fn enter<S: Site, K: Keeper, T: Joint>(
    alloc: Global,
    desk: &mut Desk<S, K, T>,
    reach: &Reach,
    id: BodyId,
    body: K::Body,
    arrival: Arrival,
) -> Result<FileEnd, Halt<SlipOf<K>>>
    requires number { (K.Body.handle body).number ≡ id.0 }
    requires spare { IsSpare K.tells desk.old id.0 }
    requires small { arrival.size ≤ 2 ^ 41 }
    requires file { IsArrival K.tells arrival (K.Body.handle body) }
    ensures did { K.tells ≡ true → IfDid (λ d. (paths : List (List ℕ)) × AreNamed reach.now.indexes arrival.hash.0 arrival.size paths
        × (d ≡ enter arrival id.0 (shelf_of desk.old) paths)) result desk.new.plain }
    ensures only { K.tells ≡ true → OnlyEnters (named_in reach.now.indexes) desk.old.plain desk.new.plain }
    ensures enters { OnlyEnters anywhere desk.old.plain desk.new.plain }
    ensures read { IfOk result (λ end. is_fault end ≡ false) }

    // A refusal, and whether calls may fail.
    ensures cause { IfErr result (MayHalt desk.old.faults.may_fail) }
    ensures may { desk.new.faults.may_fail ≡ desk.old.faults.may_fail }
{
    let Ok(named) = reach.named(alloc, &arrival.hash, arrival.size) else {
        return Err(Halt::NoMemory);
    };
    if named.is_empty() {
        let hash = arrival.hash;
        return let_go(alloc, desk, id, body, FileEnd::Unknown { hash });
    }
    let wanted = match wanted_paths(alloc, desk, &named, &arrival.hash) {
        Ok(wanted) => wanted,
        Err(fault) => return Err(halt_of(fault)),
    };
    if wanted.is_empty() {
        return let_go(alloc, desk, id, body, FileEnd::Held);
    }
    put_all(alloc, desk, wanted.as_slice(), id, body, arrival)
}

/// Imports the found file at a place.
#[tactic(auto, using(crate::proofs::Stepping::body_made, crate::proofs::Stepping::none_entered, crate::proofs::Stepping::entered_both))]
pub fn import_file<S: Site, K: Keeper, T: Joint, F: Finder>(
    alloc: Global,
    desk: &mut Desk<S, K, T>,
    finder: &mut F,
    reach: &Reach,
    i: usize,
    now: Moment,
) -> Result<FileEnd, Halt<SlipOf<K>>>
    requires place { i < length (F.names finder.old) }
    ensures did { K.tells ≡ true → F.tells ≡ true → IfDid (FileDid reach.now.indexes now (shelf_of desk.old)
        (file_at (F.bodies finder.old) i) (F.faults finder.old) (F.faults finder.new)) result desk.new.plain }
    ensures only { K.tells ≡ true → OnlyEnters (named_in reach.now.indexes) desk.old.plain desk.new.plain }
    ensures enters { OnlyEnters anywhere desk.old.plain desk.new.plain }
    ensures fault { IfOk result (λ end. is_fault end ≡ true → Rose (F.faults finder.old) (F.faults finder.new)) }
    ensures later { F.faults finder.old ≤ F.faults finder.new }
    ensures same_names { F.names finder.new ≡ F.names finder.old }
    ensures same_bodies { F.bodies finder.new ≡ F.bodies finder.old }

    // A refusal, and whether calls may fail.
    ensures cause { IfErr result (MayHalt desk.old.faults.may_fail) }
    ensures may { desk.new.faults.may_fail ≡ desk.old.faults.may_fail }
{
    let (id, body) = match desk.new_body(alloc) {
        Ok(made) => made,
        Err(PutFault::Full) => unreachable!(),
        Err(PutFault::Worn) => return Err(Halt::Worn),
        Err(PutFault::KeeperFault(slip)) => return Err(Halt::Slip(slip)),
        Err(PutFault::NoMemory) => return Err(Halt::NoMemory),
    };
    let mut body = body;
    let filled = match fill(alloc, finder, i, &mut body) {
        Ok(filled) => filled,
        Err(fault) => return Err(halt_of(fault)),
    };
    match filled {
        Filled::Whole(hash) => {
            let size = body.len();
            enter(alloc, desk, reach, id, body, Arrival { hash, size, now })
        }
        Filled::TooLong => let_go(alloc, desk, id, body, FileEnd::TooLong),
        Filled::Fault => let_go(alloc, desk, id, body, FileEnd::FindFault),
    }
}
