//! A cache in memory.
ghost use Rattle.std.specs.Prelude.{◌≡◌, ◌≤◌, ◌^◌, length};
ghost use Rattle.sha2.specs.Sha256.{sha256};

use acng_base::{CachePath, Hash, HashSoFar, Moment};
use acng_conf::{Conf, read_conf};
use acng_desk::Desk;
use acng_keeper::{BodyFile, MemoryKeeper};
use acng_site::{MemoryOrigin, NoGate, Right, Untold};
use std::alloc::Global;

pub type Shop = Desk<Untold, MemoryKeeper, ()>;

fn right(alloc: Global) -> Option<Right<Untold>> {
    match MemoryOrigin::start(alloc, &[], 1, NoGate) {
        Ok((_, right)) => Some(right),
        Err(_) => None,
    }
}

fn conf(alloc: Global, problems: &str) -> Option<Conf> {
    let Ok(text) = format!(in alloc; "ExThreshold: 4\nExAbortOnProblems: {problems}\n") else {
        return None;
    };
    match read_conf(alloc, text.as_bytes(), &[]) {
        Ok(conf) => Some(conf),
        Err(_) => None,
    }
}

#[tactic(auto, using(crate::proofs::Empty::nothing_faithful))]
fn started(alloc: Global, conf: &Conf, right: Right<Untold>, fail: &[u64]) -> Option<Shop> {
    let Ok(keeper) = MemoryKeeper::new(alloc, fail) else {
        return None;
    };
    match Desk::start(alloc, keeper, right, conf, 32) {
        Ok(shop) => Some(shop),
        Err(_) => None,
    }
}

/// An empty cache with this limit of problems, of which the keeper's call with this number fails.
pub fn opened(alloc: Global, problems: &str, fail: &str) -> Option<Shop> {
    let conf = conf(alloc, problems)?;
    let right = right(alloc)?;
    match fail.parse::<u64>() {
        Ok(fail) => started(alloc, &conf, right, &[fail]),
        Err(_) => started(alloc, &conf, right, &[]),
    }
}

fn hash_of(text: &[u8]) -> Hash
    requires { length text.now ≤ 2 ^ 41 }
    ensures { result.0 ≡ sha256 text.now }
{
    let mut hash = HashSoFar::new();
    hash.add(text);
    hash.end()
}

/// Puts a text at a path; false where a call is refused.
pub fn put(alloc: Global, shop: &mut Shop, path: &CachePath, text: &[u8]) -> bool {
    if text.len() > 65_536 {
        return false;
    }
    let Ok((id, body)) = shop.new_body(alloc) else {
        return false;
    };
    let mut body = body;
    let Ok(()) = body.append(alloc, text) else {
        return false;
    };
    let Ok(()) = shop.put_import(alloc, path, id, body, hash_of(text), Moment(5)) else {
        return false;
    };
    true
}
