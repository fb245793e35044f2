//! A desk over memory that holds given files, as imports.
ghost use Rattle.std.specs.Prelude.{◌≡◌, ◌≤◌, ◌^◌, length};
ghost use Rattle.sha2.specs.Sha256.{sha256};

use crate::case::File;
use acng_base::{CachePath, Hash, HashSoFar, MOST_BYTES, Moment};
use acng_conf::read_conf;
use acng_desk::Desk;
use acng_keeper::{BodyFile, MemoryKeeper};
use acng_site::{MemoryOrigin, NoGate, Right, Untold};
use std::alloc::Global;

pub type Shop = Desk<Untold, MemoryKeeper, ()>;

/// A desk of at most so many rows that holds these files. The calls of its keeper with these numbers fail.
pub fn filled(alloc: Global, rows: u32, files: &[File], slips: &[u64]) -> Option<Shop> {
    let mut shop = empty(alloc, rows, slips)?;
    for file in files {
        put(alloc, &mut shop, &file.path, &file.text)?;
    }
    Some(shop)
}

fn right(alloc: Global) -> Option<Right<Untold>> {
    match MemoryOrigin::start(alloc, &[], 1, NoGate) {
        Ok((_, right)) => Some(right),
        Err(_) => None,
    }
}

#[tactic(auto, using(crate::proofs::Empty::nothing_faithful))]
fn empty(alloc: Global, rows: u32, slips: &[u64]) -> Option<Shop> {
    if rows == 0 || rows > 4096 {
        return None;
    }
    let right = right(alloc)?;
    let Ok(conf) = read_conf(alloc, b"", &[]) else {
        return None;
    };
    let Ok(keeper) = MemoryKeeper::new(alloc, slips) else {
        return None;
    };
    match Desk::start(alloc, keeper, right, &conf, rows) {
        Ok(shop) => Some(shop),
        Err(_) => None,
    }
}

fn hash_of(text: &[u8]) -> Hash
    requires { length text.now ≤ 2 ^ 41 }
    ensures { result.0 ≡ sha256 text.now }
{
    let mut hash = HashSoFar::new();
    hash.add(text);
    hash.end()
}

// Puts a file as an import.
fn put(alloc: Global, shop: &mut Shop, path: &CachePath, text: &[u8]) -> Option<()> {
    if text.len() as u64 > MOST_BYTES {
        return None;
    }
    let Ok((id, body)) = shop.new_body(alloc) else {
        return None;
    };
    let mut body = body;
    let Ok(()) = body.append(alloc, text) else {
        return None;
    };
    match shop.put_import(alloc, path, id, body, hash_of(text), Moment(1)) {
        Ok(()) => Some(()),
        Err(_) => None,
    }
}
