//! What a folder holds: its names, read one by one, and its heads. Foreign names are passed over, and so are ids that
//! the keeper didn't give.
#![tactic(auto, using(crate::proofs::Below::below))]

ghost use Rattle.std.specs.Prelude.{◌≡◌, ◌+◌, ◌<◌, ◌≤◌, ◌^◌, IfOk, IfSome, max};
ghost use Rattle.acng_keeper.specs.Kept.{IdsBelow};

use crate::id_map::IdMap;
use crate::names::{Kind, id_of};
use acng_base::{FileFault, Text, named};
use std::alloc::Global;
use std::fs;
use std::fs::File;
use std::os::unix::fs::FileExt;
use std::rt::Files;

/// One above the greatest id in the folder.
pub(crate) fn next_in<R: Files<File = File> + AllocGlobal + Clone + Drop>(
    rt: &R,
    folder: &str,
) -> Result<u64, FileFault>
    ensures { IfOk result (λ next. next ≤ 2 ^ 63) }
{
    let mut next = 0;
    for entry in fs::read_dir(rt, folder)? {
        let Some(entry) = named(entry)? else {
            continue;
        };
        if let Some(id) = any_id(entry.file_name()) {
            next = above(next, id);
        }
    }
    Ok(next)
}

// The id of a body or a head.
fn any_id(name: &str) -> Option<u64>
    ensures { IfSome result (λ id. id < 2 ^ 63) }
{
    match id_of(Kind::Body, name.as_bytes()) {
        Some(id) => Some(id),
        None => id_of(Kind::Head, name.as_bytes()),
    }
}

// At least one above the id.
fn above(next: u64, id: u64) -> u64
    requires { id < 2 ^ 63 }
    ensures { result ≡ max next (id + 1) }
{
    next.max(id + 1)
}

/// The heads with ids below the next.
pub(crate) fn heads_in<R: Files<File = File> + AllocGlobal + Clone + Drop>(
    rt: &R,
    alloc: Global,
    folder: &str,
    next: u64,
) -> Result<IdMap<Text>, FileFault>
    ensures { IfOk result (λ heads. IdsBelow next heads) }
{
    let mut heads = IdMap::new(alloc);
    for entry in fs::read_dir(rt, folder)? {
        let Some(entry) = named(entry)? else {
            continue;
        };
        if let Some(id) = id_below(Kind::Head, entry.file_name(), next) {
            let file = File::open(rt, entry.path())?;
            heads.put(id, whole(alloc, &file)?)?;
        }
    }
    Ok(heads)
}

/// The ids of bodies below the next.
pub(crate) fn bodies_in<R: Files<File = File> + AllocGlobal + Clone + Drop>(
    rt: &R,
    alloc: Global,
    folder: &str,
    next: u64,
) -> Result<IdMap<()>, FileFault>
    ensures { IfOk result (λ bodies. IdsBelow next bodies) }
{
    let mut bodies = IdMap::new(alloc);
    for entry in fs::read_dir(rt, folder)? {
        let Some(entry) = named(entry)? else {
            continue;
        };
        if let Some(id) = id_below(Kind::Body, entry.file_name(), next) {
            bodies.put(id, ())?;
        }
    }
    Ok(bodies)
}

// The id of a name of this kind, if it is below the next.
fn id_below(kind: Kind, name: &str, next: u64) -> Option<u64>
    ensures { IfSome result (λ id. id < next) }
{
    let id = id_of(kind, name.as_bytes())?;
    if id < next { Some(id) } else { None }
}

// All bytes of a head's file.
fn whole(alloc: Global, file: &File) -> Result<Text, FileFault> {
    let mut bytes = Vec::new(alloc);
    let mut buf = [0u8; 4096];
    for _ in 0..u64::MAX {
        let count = file.read_at(&mut buf, bytes.len() as u64)?;
        bytes.extend_from_slice(&buf[..count])?;
        if count < buf.len() {
            break;
        }
    }
    Ok(Text::of(bytes))
}
