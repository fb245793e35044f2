//! The commands on a row, and those that make bodies for imports.
ghost use Rattle.std.specs.Prelude.{◌≡◌, ◌≤◌, ◌^◌, true, [], IfOk, OnOk, length};
ghost use Rattle.sha2.specs.Sha256.{sha256};
ghost use Rattle.acng_desk.specs.Calls.{IsSpare};
ghost use Rattle.acng_desk.specs.Keeps.{IsNobodys};
ghost use Rattle.acng_grow.specs.Stands.{IsImport};
ghost use Rattle.acng_keeper.specs.Handles.{fresh};

use crate::begin::held_text;
use crate::print::{Answer, bytes, word};
use crate::table::{Shop, Table};
use crate::words::{if_moment, moment_in, path_in, text_in};
use acng_base::{CachePath, Hash, Moment};
use acng_desk::{Held, PutFault, RowFault};
use acng_keeper::{BodyFile, BodyId, CallSlip, KeepFault, KeeperSlip, MemoryBody};
use sha2::{Digest, Sha256};
use std::alloc::Global;

fn done_text(alloc: Global, done: Result<(), RowFault<CallSlip>>) -> Answer {
    match done {
        Ok(()) => word(alloc, "done"),
        Err(fault) => row_text(alloc, fault),
    }
}

fn row_text(alloc: Global, fault: RowFault<CallSlip>) -> Answer {
    match fault {
        RowFault::NotHeld => word(alloc, "not held"),
        RowFault::KeeperFault(slip) => Ok(format!(in alloc; "slip {}", slip.call())?),
        RowFault::NoMemory => word(alloc, "memory"),
    }
}

fn put_text(alloc: Global, fault: PutFault<CallSlip>) -> Answer {
    match fault {
        PutFault::Full => word(alloc, "full"),
        PutFault::Worn => word(alloc, "worn"),
        PutFault::KeeperFault(slip) => Ok(format!(in alloc; "slip {}", slip.call())?),
        PutFault::NoMemory => word(alloc, "memory"),
    }
}

fn keep_text(alloc: Global, fault: KeepFault<CallSlip>) -> Answer {
    match fault {
        KeepFault::Slip(slip) => Ok(format!(in alloc; "slip {}", slip.call())?),
        KeepFault::NoMemory => word(alloc, "memory"),
    }
}

// ---- marks, removals and handles

/// `PATH MARK`.
pub fn mark(alloc: Global, table: &mut Table, rest: &str) -> Answer {
    let Some((path, mark)) = rest.split_once(' ') else {
        return word(alloc, "?");
    };
    let (Some(path), Some(mark)) = (path_in(alloc, path), if_moment(mark)) else {
        return word(alloc, "?");
    };
    let done = marked(alloc, &mut table.shop, &path, mark);
    done_text(alloc, done)
}

fn marked(
    alloc: Global,
    shop: &mut Shop,
    path: &CachePath,
    mark: Option<Moment>,
) -> Result<(), RowFault<CallSlip>> {
    shop.set_mark(alloc, path, mark)
}

/// `PATH`.
pub fn remove(alloc: Global, table: &mut Table, rest: &str) -> Answer {
    let Some(path) = path_in(alloc, rest) else {
        return word(alloc, "?");
    };
    let done = removed(alloc, &mut table.shop, &path);
    done_text(alloc, done)
}

fn removed(alloc: Global, shop: &mut Shop, path: &CachePath) -> Result<(), RowFault<CallSlip>> {
    shop.remove(alloc, path)
}

/// `PATH`. The handle is kept.
pub fn fetch(alloc: Global, table: &mut Table, rest: &str) -> Answer {
    let Some(path) = path_in(alloc, rest) else {
        return word(alloc, "?");
    };
    match fetched(alloc, &mut table.shop, &path) {
        Ok(held) => {
            let said = held_text(alloc, &held);
            table.handle = Some(held.body);
            said
        }
        Err(fault) => row_text(alloc, fault),
    }
}

fn fetched(
    alloc: Global,
    shop: &mut Shop,
    path: &CachePath,
) -> Result<Held<MemoryBody>, RowFault<CallSlip>> {
    shop.fetch(alloc, path)
}

/// The text of the handle that was kept last.
pub fn read(alloc: Global, table: &mut Table) -> Answer {
    let Some(body) = &mut table.handle else {
        return word(alloc, "none");
    };
    let mut buf = [0u8; 64];
    match body.read_at(0, &mut buf) {
        Ok(count) => bytes(alloc, &buf[..count]),
        Err(slip) => Ok(format!(in alloc; "slip {}", slip.call())?),
    }
}

// ---- bodies of imports

fn made(alloc: Global, shop: &mut Shop) -> Result<(BodyId, MemoryBody), PutFault<CallSlip>>
    ensures spare { IfOk result (λ r. IsSpare true shop.new r.0.0) }
    ensures body { IfOk result (λ r. ⟦<MemoryBody as BodyFile>⟧.handle r.1 ≡ fresh r.0.0) }
{
    shop.new_body(alloc)
}

/// A body that is left where it is.
pub fn new(alloc: Global, table: &mut Table) -> Answer {
    match made(alloc, &mut table.shop) {
        Ok((id, _)) => Ok(format!(in alloc; "made {}", id.0)?),
        Err(fault) => put_text(alloc, fault),
    }
}

/// `TEXT`: a body with this text is made and dropped.
pub fn drop_one(alloc: Global, table: &mut Table, rest: &str) -> Answer {
    let (id, mut body) = match made(alloc, &mut table.shop) {
        Ok(made) => made,
        Err(fault) => return put_text(alloc, fault),
    };
    let filled = filled(alloc, &mut body, text_in(rest));
    let dropped = dropped(alloc, &mut table.shop, id, body);
    let filled = fill_text(alloc, filled)?;
    match dropped {
        Ok(()) => Ok(format!(in alloc; "dropped {}{filled}", id.0)?),
        Err(fault) => keep_text(alloc, fault),
    }
}

// What is said beside the answer where the bytes weren't put.
fn fill_text(alloc: Global, filled: Result<(), KeepFault<CallSlip>>) -> Answer {
    match filled {
        Ok(()) => word(alloc, ""),
        Err(fault) => {
            let fault = keep_text(alloc, fault)?;
            Ok(format!(in alloc; " after {fault}")?)
        }
    }
}

fn filled(alloc: Global, body: &mut MemoryBody, text: &[u8]) -> Result<(), KeepFault<CallSlip>>
    requires { ⟦<MemoryBody as BodyFile>⟧.handle body.old ≡ fresh (⟦<MemoryBody as BodyFile>⟧.handle body.old).number }
    ensures number { (⟦<MemoryBody as BodyFile>⟧.handle body.new).number ≡ (⟦<MemoryBody as BodyFile>⟧.handle body.old).number }
    ensures bytes { OnOk result ((⟦<MemoryBody as BodyFile>⟧.handle body.new).bytes ≡ text.now) }
    ensures size { OnOk result ((⟦<MemoryBody as BodyFile>⟧.handle body.new).size ≡ length text.now) }
{
    body.append(alloc, text)
}

fn dropped(
    alloc: Global,
    shop: &mut Shop,
    id: BodyId,
    body: MemoryBody,
) -> Result<(), KeepFault<CallSlip>>
    requires number { (⟦<MemoryBody as BodyFile>⟧.handle body).number ≡ id.0 }
    requires spare { IsSpare true shop.old id.0 }
{
    shop.drop_body(alloc, id, body)
}

/// `PATH MOMENT TEXT`: a body with this text is made and imported.
pub fn import(alloc: Global, table: &mut Table, rest: &str) -> Answer {
    let Some((path, rest)) = rest.split_once(' ') else {
        return word(alloc, "?");
    };
    let Some((now, text)) = rest.split_once(' ') else {
        return word(alloc, "?");
    };
    let (Some(path), Some(now)) = (path_in(alloc, path), moment_in(now)) else {
        return word(alloc, "?");
    };
    let text = text_in(text);
    if text.len() > 64 {
        return word(alloc, "?");
    }
    imported(alloc, &mut table.shop, &path, now, text)
}

fn imported(alloc: Global, shop: &mut Shop, path: &CachePath, now: Moment, text: &[u8]) -> Answer
    requires { length text.now ≤ 64 }
{
    let (id, mut body) = match made(alloc, shop) {
        Ok(made) => made,
        Err(fault) => return put_text(alloc, fault),
    };
    if let Err(fault) = filled(alloc, &mut body, text) {
        let dropped = dropped(alloc, shop, id, body);
        let dropped = fill_text(alloc, dropped)?;
        let fault = keep_text(alloc, fault)?;
        return Ok(format!(in alloc; "{fault}{dropped}")?);
    }
    match put(alloc, shop, path, id, body, hash_of(text), now) {
        Ok(()) => Ok(format!(in alloc; "imported {}", id.0)?),
        Err(fault) => put_text(alloc, fault),
    }
}

fn hash_of(text: &[u8]) -> Hash
    ensures { result.0 ≡ sha256 text.now }
{
    Hash(Sha256::digest(text))
}

fn put(
    alloc: Global,
    shop: &mut Shop,
    path: &CachePath,
    id: BodyId,
    body: MemoryBody,
    hash: Hash,
    now: Moment,
) -> Result<(), PutFault<CallSlip>>
    requires number { (⟦<MemoryBody as BodyFile>⟧.handle body).number ≡ id.0 }
    requires spare { IsSpare true shop.old id.0 }
    requires small { (⟦<MemoryBody as BodyFile>⟧.handle body).size ≤ 64 }
    requires import { IsImport hash (⟦<MemoryBody as BodyFile>⟧.handle body).size (⟦<MemoryBody as BodyFile>⟧.handle body).bytes }
{
    shop.put_import(alloc, path, id, body, hash, now)
}
