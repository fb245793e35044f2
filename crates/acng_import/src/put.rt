//! Entering a file at the paths that want it.
//!
//! The first path gets the body that was filled. Each further one gets a copy of what the path before it holds, so that a
//! found file is read once.
ghost use Rattle.std.specs.Prelude.{◌≡◌, ◌<◌, ◌≤◌, ◌^◌, true, false, length, IfOk, OnOk, IfErr};
ghost use Rattle.acng_keeper.specs.Handles.{fresh};
ghost use Rattle.acng_reach.specs.Bodies.{MaySlip};
ghost use Rattle.acng_desk.specs.Calls.{IsSpare};
ghost use Rattle.acng_desk.specs.Commands.{made, is_out_of_ids};
ghost use Rattle.acng_import.specs.Ends.{is_fault};
ghost use Rattle.acng_import.specs.Halts.{MayHalt};
ghost use Rattle.acng_import.specs.Looks.{HasRead};
ghost use Rattle.acng_import.specs.Steps.{May, OnlyEnters, MayHave};
ghost use Rattle.acng_import.specs.Puts.{put_all, IfDid, PutAs, NextAs, WasWorn, IfWorn, HasArrived, IsArrival};

use crate::copy::copy;
use crate::ending::{FileEnd, Halt, halt_of};
use acng_base::{CachePath, Hash, Moment, NoMemory, Texts};
use acng_desk::{Desk, Joint, PutFault, RowFault};
use acng_keeper::{BodyId, KeepFault, Keeper, SlipOf};
use acng_site::Site;
use std::alloc::Global;

/// What is said of a file that enters: its hash, its size, and when it came.
#[derive(Clone, Copy, Debug)]
pub struct Arrival {
    pub hash: Hash,
    pub size: u64,
    pub now: Moment,
}

// Enters the file at a path, with a body that has all of it. Says whether there was room.
#[tactic(auto, using(crate::proofs::Stepping::file_put, crate::proofs::Stepping::file_fell))]
fn put_at<S: Site, K: Keeper, T: Joint>(
    alloc: Global,
    desk: &mut Desk<S, K, T>,
    path: &CachePath,
    id: BodyId,
    body: K::Body,
    arrival: Arrival,
) -> Result<bool, KeepFault<SlipOf<K>>>
    requires number { (K.Body.handle body).number ≡ id.0 }
    requires spare { IsSpare K.tells desk.old id.0 }
    requires small { arrival.size ≤ 2 ^ 41 }
    requires file { IsArrival K.tells arrival (K.Body.handle body) }
    ensures put { IfOk result (λ put. PutAs put arrival path.now id.0 desk.old.plain desk.new.plain) }
    ensures only { (may : May) → may path.now arrival.hash.0 arrival.size ≡ true → OnlyEnters may desk.old.plain desk.new.plain }

    // A refusal, and whether calls may fail.
    ensures cause { IfErr result (MaySlip desk.old.faults.may_fail) }
    ensures may { desk.new.faults.may_fail ≡ desk.old.faults.may_fail }
{
    match desk.put_import(alloc, path, id, body, arrival.hash, arrival.now) {
        Ok(()) => Ok(true),
        Err(PutFault::Full) => Ok(false),
        Err(PutFault::Worn) => unreachable!(),
        Err(PutFault::KeeperFault(slip)) => Err(KeepFault::Slip(slip)),
        Err(PutFault::NoMemory) => Err(KeepFault::NoMemory),
    }
}

// Copies what a path holds, where the file has entered it, into a new body.
fn copy_held<S: Site, K: Keeper, T: Joint>(
    alloc: Global,
    desk: &mut Desk<S, K, T>,
    path: &CachePath,
    arrival: Arrival,
    body: &mut K::Body,
) -> Result<(), KeepFault<SlipOf<K>>>
    requires held { HasArrived arrival desk.old.plain.rows path.now }
    requires empty { K.Body.handle body.old ≡ fresh (K.Body.handle body.old).number }
    requires alike { (K.Body.faults body.old).may_fail ≡ desk.old.faults.may_fail }
    ensures copied { OnOk result (IsArrival K.tells arrival (K.Body.handle body.new)) }
    ensures number { (K.Body.handle body.new).number ≡ (K.Body.handle body.old).number }
    ensures read { OnOk result (HasRead K.tells desk.old desk.new) }
    ensures plain { desk.new.plain ≡ desk.old.plain }

    // A refusal, and whether calls may fail.
    ensures cause { IfErr result (MaySlip desk.old.faults.may_fail) }
    ensures may { desk.new.faults.may_fail ≡ desk.old.faults.may_fail }
{
    let _ = arrival.size;
    match desk.fetch(alloc, path) {
        Ok(held) => {
            let mut held = held;
            copy(alloc, &mut held.body, body)
        }
        Err(RowFault::NotHeld) => unreachable!(),
        Err(RowFault::KeeperFault(slip)) => Err(KeepFault::Slip(slip)),
        Err(RowFault::NoMemory) => Err(KeepFault::NoMemory),
    }
}

// A new body with all that a path holds, where the file has entered it.
#[tactic(auto, using(crate::proofs::Stepping::body_made, crate::proofs::Stepping::none_entered))]
fn copy_of<S: Site, K: Keeper, T: Joint>(
    alloc: Global,
    desk: &mut Desk<S, K, T>,
    path: &CachePath,
    arrival: Arrival,
) -> Result<(BodyId, K::Body), Halt<SlipOf<K>>>
    requires held { HasArrived arrival desk.old.plain.rows path.now }
    ensures id { IfOk result (λ r. r.0.0 ≡ desk.old.plain.next_id) }
    ensures number { IfOk result (λ r. (K.Body.handle r.1).number ≡ r.0.0) }
    ensures file { IfOk result (λ r. IsArrival K.tells arrival (K.Body.handle r.1)) }
    ensures spare { IfOk result (λ r. IsSpare K.tells desk.new r.0.0) }
    ensures ids { OnOk result (is_out_of_ids desk.old.plain ≡ false) }
    ensures plain { OnOk result (desk.new.plain ≡ made desk.old.plain) }
    ensures only { (may : May) → OnlyEnters may desk.old.plain desk.new.plain }

    // A refusal, and whether calls may fail.
    ensures worn { IfErr result (λ e. IfWorn e (WasWorn desk.old.plain desk.new.plain)) }
    ensures cause { IfErr result (MayHalt desk.old.faults.may_fail) }
    ensures may { desk.new.faults.may_fail ≡ desk.old.faults.may_fail }
{
    let made = match desk.new_body(alloc) {
        Ok(made) => made,
        Err(PutFault::Full) => unreachable!(),
        Err(PutFault::Worn) => return Err(Halt::Worn),
        Err(PutFault::KeeperFault(slip)) => return Err(Halt::Slip(slip)),
        Err(PutFault::NoMemory) => return Err(Halt::NoMemory),
    };
    let (id, body) = made;
    let mut body = body;
    match copy_held(alloc, desk, path, arrival, &mut body) {
        Ok(()) => Ok((id, body)),
        Err(fault) => Err(halt_of(fault)),
    }
}

// Enters the file at a further path, with a copy of what the one before it holds. Says whether there was room.
#[tactic(auto, using(crate::proofs::Stepping::entered_both))]
fn put_next<S: Site, K: Keeper, T: Joint>(
    alloc: Global,
    desk: &mut Desk<S, K, T>,
    before: &CachePath,
    path: &CachePath,
    arrival: Arrival,
) -> Result<bool, Halt<SlipOf<K>>>
    requires held { HasArrived arrival desk.old.plain.rows before.now }
    requires small { arrival.size ≤ 2 ^ 41 }
    ensures put { IfOk result (λ put. NextAs put arrival path.now desk.old.plain desk.new.plain) }
    ensures only { (may : May) → may path.now arrival.hash.0 arrival.size ≡ true → OnlyEnters may desk.old.plain desk.new.plain }

    // A refusal, and whether calls may fail.
    ensures worn { IfErr result (λ e. IfWorn e (WasWorn desk.old.plain desk.new.plain)) }
    ensures cause { IfErr result (MayHalt desk.old.faults.may_fail) }
    ensures may { desk.new.faults.may_fail ≡ desk.old.faults.may_fail }
{
    let (id, body) = match copy_of(alloc, desk, before, arrival) {
        Ok(made) => made,
        Err(halt) => return Err(halt),
    };
    match put_at(alloc, desk, path, id, body, arrival) {
        Ok(put) => Ok(put),
        Err(fault) => Err(halt_of(fault)),
    }
}

fn texts_of(alloc: Global, paths: &[CachePath]) -> Result<Texts, NoMemory>
    ensures { IfOk result (λ texts. texts ≡ paths.now) }
{
    let mut texts = Texts::new(alloc);
    for i in 0..paths.len() {
        texts.push(alloc, paths[i].as_bytes())?;
    }
    Ok(texts)
}

/// Enters a file at the paths that want it, of which there is one at least. A body has all of it.
#[tactic(auto, using(crate::proofs::Stepping::entered_both, crate::proofs::Stepping::among_place))]
pub fn put_all<S: Site, K: Keeper, T: Joint>(
    alloc: Global,
    desk: &mut Desk<S, K, T>,
    wanted: &[CachePath],
    id: BodyId,
    body: K::Body,
    arrival: Arrival,
) -> Result<FileEnd, Halt<SlipOf<K>>>
    requires some { 0 < length wanted.now }
    requires number { (K.Body.handle body).number ≡ id.0 }
    requires spare { IsSpare K.tells desk.old id.0 }
    requires small { arrival.size ≤ 2 ^ 41 }
    requires file { IsArrival K.tells arrival (K.Body.handle body) }
    ensures did { IfDid (λ d. d ≡ put_all arrival id.0 desk.old.plain wanted.now) result desk.new.plain }
    ensures read { IfOk result (λ end. is_fault end ≡ false) }
    ensures only { (may : May) → MayHave may arrival.hash.0 arrival.size wanted.now → OnlyEnters may desk.old.plain desk.new.plain }

    // A refusal, and whether calls may fail.
    ensures cause { IfErr result (MayHalt desk.old.faults.may_fail) }
    ensures may { desk.new.faults.may_fail ≡ desk.old.faults.may_fail }
{
    match put_at(alloc, desk, &wanted[0], id, body, arrival) {
        Ok(true) => (),
        Ok(false) => return Ok(FileEnd::Full),
        Err(fault) => return Err(halt_of(fault)),
    }
    for i in 1..wanted.len() {
        match put_next(alloc, desk, &wanted[i - 1], &wanted[i], arrival) {
            Ok(true) => (),
            Ok(false) => return Ok(FileEnd::Full),
            Err(halt) => return Err(halt),
        }
    }
    match texts_of(alloc, wanted) {
        Ok(paths) => Ok(FileEnd::Kept { paths }),
        Err(NoMemory) => Err(Halt::NoMemory),
    }
}
