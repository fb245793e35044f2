//! Which of the paths that name a file want it.
//!
//! A path wants a file where it may be served and holds nothing, or another file: what it holds is told by its hash.
ghost use Rattle.std.specs.Prelude.{◌≡◌, ◌++◌, ◌∷◌, [], true, cond, IfOk, OnOk, IfErr};
ghost use Rattle.std.specs.List.{filter};
ghost use Rattle.sha2.specs.Sha256.{sha256};
ghost use Rattle.acng_rows.specs.Rows.{whole_at};
ghost use Rattle.acng_reach.specs.Bodies.{MaySlip};
ghost use Rattle.acng_reach.specs.Desks.{has_whole, text_of};
ghost use Rattle.acng_import.specs.Looks.{shelf_of, has_hash, is_forbidden, is_wanted, HasRead};

use crate::copy::hash_of;
use acng_base::{CachePath, Hash, Texts};
use acng_class::Class;
use acng_desk::{Desk, Joint, RowFault};
use acng_keeper::{KeepFault, Keeper, SlipOf};
use acng_site::Site;
use std::alloc::Global;

fn is_forbidden(class: Class) -> bool
    ensures { result ≡ is_forbidden class }
{
    match class {
        Class::Forbidden => true,
        _ => false,
    }
}

// The hash of what a path holds.
fn held_hash<S: Site, K: Keeper, T: Joint>(
    alloc: Global,
    desk: &mut Desk<S, K, T>,
    path: &CachePath,
) -> Result<Hash, KeepFault<SlipOf<K>>>
    requires held { has_whole desk.old.plain.rows path.now ≡ true }
    ensures hash { IfOk result (λ hash. K.tells ≡ true →
        hash.0 ≡ sha256 (text_of desk.old.kept.bodies (whole_at desk.old.plain.rows path.now))) }
    ensures read { OnOk result (HasRead K.tells desk.old desk.new) }

    // A refusal, and what any answer leaves.
    ensures cause { IfErr result (MaySlip desk.old.faults.may_fail) }
    ensures plain { desk.new.plain ≡ desk.old.plain }
    ensures may { desk.new.faults.may_fail ≡ desk.old.faults.may_fail }
{
    match desk.fetch(alloc, path) {
        Ok(held) => {
            let mut held = held;
            match hash_of(&mut held.body) {
                Ok(hash) => Ok(hash),
                Err(slip) => Err(KeepFault::Slip(slip)),
            }
        }
        Err(RowFault::NotHeld) => unreachable!(),
        Err(RowFault::KeeperFault(slip)) => Err(KeepFault::Slip(slip)),
        Err(RowFault::NoMemory) => Err(KeepFault::NoMemory),
    }
}

// Whether a path holds a file with this hash.
fn has_hash<S: Site, K: Keeper, T: Joint>(
    alloc: Global,
    desk: &mut Desk<S, K, T>,
    path: &CachePath,
    hash: &Hash,
) -> Result<bool, KeepFault<SlipOf<K>>>
    ensures has { IfOk result (λ has. K.tells ≡ true → has ≡ has_hash (shelf_of desk.old) hash.now.0 path.now) }
    ensures read { OnOk result (HasRead K.tells desk.old desk.new) }

    // A refusal, and what any answer leaves.
    ensures cause { IfErr result (MaySlip desk.old.faults.may_fail) }
    ensures plain { desk.new.plain ≡ desk.old.plain }
    ensures may { desk.new.faults.may_fail ≡ desk.old.faults.may_fail }
{
    if desk.row(path).is_none() {
        return Ok(false);
    }
    match held_hash(alloc, desk, path) {
        Ok(found) => Ok(found.0 == hash.0),
        Err(fault) => Err(fault),
    }
}

// Whether a path wants the file with this hash.
fn is_wanted<S: Site, K: Keeper, T: Joint>(
    alloc: Global,
    desk: &mut Desk<S, K, T>,
    path: &CachePath,
    hash: &Hash,
) -> Result<bool, KeepFault<SlipOf<K>>>
    ensures wanted { IfOk result (λ w. K.tells ≡ true → w ≡ is_wanted (shelf_of desk.old) hash.now.0 path.now) }
    ensures read { OnOk result (HasRead K.tells desk.old desk.new) }

    // A refusal, and what any answer leaves.
    ensures cause { IfErr result (MaySlip desk.old.faults.may_fail) }
    ensures plain { desk.new.plain ≡ desk.old.plain }
    ensures may { desk.new.faults.may_fail ≡ desk.old.faults.may_fail }
{
    let Ok(class) = desk.class_of(alloc, path) else {
        return Err(KeepFault::NoMemory);
    };
    if is_forbidden(class) {
        return Ok(false);
    }
    match has_hash(alloc, desk, path, hash) {
        Ok(has) => Ok(!has),
        Err(fault) => Err(fault),
    }
}

// Adds a path, where it wants the file.
fn add_wanted<S: Site, K: Keeper, T: Joint>(
    alloc: Global,
    desk: &mut Desk<S, K, T>,
    wanted: &mut Vec<CachePath>,
    text: &[u8],
    hash: &Hash,
) -> Result<(), KeepFault<SlipOf<K>>>
    ensures added { OnOk result (K.tells ≡ true → wanted.new.items ≡ wanted.old.items
        ++ cond (is_wanted (shelf_of desk.old) hash.now.0 text.now) (text.now ∷ []) []) }
    ensures read { OnOk result (HasRead K.tells desk.old desk.new) }

    // A refusal, and what any answer leaves.
    ensures cause { IfErr result (MaySlip desk.old.faults.may_fail) }
    ensures plain { desk.new.plain ≡ desk.old.plain }
    ensures may { desk.new.faults.may_fail ≡ desk.old.faults.may_fail }
{
    // A named path is one, so memory alone can be wanting.
    let Ok(path) = CachePath::read(alloc, text) else {
        return Err(KeepFault::NoMemory);
    };
    match is_wanted(alloc, desk, &path, hash) {
        Ok(true) => match wanted.push(path) {
            Ok(()) => Ok(()),
            Err(_) => Err(KeepFault::NoMemory),
        },
        Ok(false) => Ok(()),
        Err(fault) => Err(fault),
    }
}

/// Those of the named paths that want the file with this hash, in their order.
pub fn wanted_paths<S: Site, K: Keeper, T: Joint>(
    alloc: Global,
    desk: &mut Desk<S, K, T>,
    named: &Texts,
    hash: &Hash,
) -> Result<Vec<CachePath>, KeepFault<SlipOf<K>>>
    ensures wanted { IfOk result (λ paths. K.tells ≡ true →
        paths.items ≡ filter (is_wanted (shelf_of desk.old) hash.now.0) named.now) }
    ensures read { OnOk result (HasRead K.tells desk.old desk.new) }

    // A refusal, and what any answer leaves.
    ensures cause { IfErr result (MaySlip desk.old.faults.may_fail) }
    ensures plain { desk.new.plain ≡ desk.old.plain }
    ensures may { desk.new.faults.may_fail ≡ desk.old.faults.may_fail }
{
    let mut wanted = Vec::new(alloc);
    for i in 0..named.len() {
        if let Err(fault) = add_wanted(alloc, desk, &mut wanted, named.get(i), hash) {
            return Err(fault);
        }
    }
    Ok(wanted)
}
