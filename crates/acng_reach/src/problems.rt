//! The folders that are problems: an index there doesn't read, or its lists of packages are held and aren't read.
ghost use Rattle.std.specs.Prelude.{◌≡◌, ◌||◌, ◌&&◌, List, ℕ, OnOk, IfOk};
ghost use Rattle.std.specs.List.{list_any};
ghost use Rattle.acng_base.specs.Cuts.{is_empty};
ghost use Rattle.acng_reach.specs.Bodies.{ArePaths};
ghost use Rattle.acng_reach.specs.Reaches.{is_live, is_read, is_unread_by, problem_by, is_unread, is_failed, is_lost, is_problem};
ghost use Rattle.acng_reach.specs.Sets.{among};

use crate::bodies::Bodies;
use crate::find::holds;
use crate::index::{Index, Listed};
use crate::name::{by_hash_of, inner, is_packed, place_of};
use crate::set::TextSet;
use acng_base::{CachePath, NoMemory, cut_last};
use std::alloc::Global;

/// The folders that are problems, those of failed paths among them.
pub fn problem_folders<B: Bodies>(
    alloc: Global,
    bodies: &B,
    held: &[CachePath],
    indexes: &[Index],
    failed: &[CachePath],
) -> Result<TextSet, NoMemory>
    requires held { held.now ≡ (B.cache bodies.now).paths }
    requires are_paths { ArePaths (B.cache bodies.now).paths }
    ensures { IfOk result (λ folders. (q : List ℕ) → among q folders ≡ is_problem held.now indexes.now failed.now q) }
{
    let mut folders = TextSet::new(alloc);
    put_top(alloc, &mut folders, is_lost(held, indexes))?;
    for i in 0..failed.len() {
        put_folder(alloc, &mut folders, failed[i].as_bytes())?;
    }
    for j in 0..indexes.len() {
        put_of_index(alloc, bodies, &mut folders, &indexes[j])?;
    }
    Ok(folders)
}

// Bodies are held, and no index among them.
fn is_lost(held: &[CachePath], indexes: &[Index]) -> bool
    ensures { result ≡ is_lost held.now indexes.now }
{
    !held.is_empty() && indexes.is_empty()
}

// The top folder, where that is so.
fn put_top(alloc: Global, folders: &mut TextSet, lost: bool) -> Result<(), NoMemory>
    ensures { OnOk result ((q : List ℕ) → among q folders.new ≡ ((is_empty q && lost) || among q folders.old)) }
{
    if !lost {
        return Ok(());
    }
    folders.put(Vec::new(alloc))
}

// The folder of a path.
fn put_folder(alloc: Global, folders: &mut TextSet, path: &[u8]) -> Result<(), NoMemory>
    ensures { OnOk result ((q : List ℕ) → among q folders.new ≡ (is_failed q path.now || among q folders.old)) }
{
    let (folder, _) = cut_last(path);
    folders.put(Vec::from_slice(alloc, folder)?)
}

fn put_of_index<B: Bodies>(
    alloc: Global,
    bodies: &B,
    folders: &mut TextSet,
    index: &Index,
) -> Result<(), NoMemory>
    requires { ArePaths (B.cache bodies.now).paths }
    ensures { OnOk result ((q : List ℕ) →
        among q folders.new ≡ (problem_by (B.cache bodies.now).paths q index.now || among q folders.old)) }
{
    let (folder, _) = cut_last(index.place.as_bytes());
    match &index.list {
        Some(list) => put_unread(alloc, bodies, folders, folder, &list.items),
        None => put_folder(alloc, folders, index.place.as_bytes()),
    }
}

// The live folders of a list that aren't read.
fn put_unread<B: Bodies>(
    alloc: Global,
    bodies: &B,
    folders: &mut TextSet,
    folder: &[u8],
    list: &[Listed],
) -> Result<(), NoMemory>
    requires { ArePaths (B.cache bodies.now).paths }
    ensures { OnOk result ((q : List ℕ) →
        among q folders.new ≡ (list_any (is_unread (B.cache bodies.now).paths q folder.now list.now) list.now || among q folders.old)) }
{
    let read = read_folders(alloc, list)?;
    put_others(alloc, bodies, folders, &read, folder, list)
}

// The live folders of a list, without these.
fn put_others<B: Bodies>(
    alloc: Global,
    bodies: &B,
    folders: &mut TextSet,
    read: &TextSet,
    folder: &[u8],
    list: &[Listed],
) -> Result<(), NoMemory>
    requires { ArePaths (B.cache bodies.now).paths }
    ensures { OnOk result ((q : List ℕ) → among q folders.new
        ≡ (list_any (is_unread_by (B.cache bodies.now).paths q folder.now read.now) list.now || among q folders.old)) }
{
    for i in 0..list.len() {
        put_if_unread(alloc, bodies, folders, read, folder, &list[i])?;
    }
    Ok(())
}

// The folders of the entries that are read, from the index's own.
fn read_folders(alloc: Global, list: &[Listed]) -> Result<TextSet, NoMemory>
    ensures { IfOk result (λ read. (u : List ℕ) → among u read ≡ list_any (is_read u) list.now) }
{
    let mut read = TextSet::new(alloc);
    for i in 0..list.len() {
        put_if_read(alloc, &mut read, &list[i])?;
    }
    Ok(read)
}

fn put_if_read(alloc: Global, read: &mut TextSet, listed: &Listed) -> Result<(), NoMemory>
    ensures { OnOk result ((u : List ℕ) → among u read.new ≡ (is_read u listed.now || among u read.old)) }
{
    if listed.names.is_none() {
        return Ok(());
    }
    let (within, _) = cut_last(listed.entry.path.as_bytes());
    read.put(Vec::from_slice(alloc, within)?)
}

fn put_if_unread<B: Bodies>(
    alloc: Global,
    bodies: &B,
    folders: &mut TextSet,
    read: &TextSet,
    folder: &[u8],
    listed: &Listed,
) -> Result<(), NoMemory>
    requires { ArePaths (B.cache bodies.now).paths }
    ensures { OnOk result ((q : List ℕ) →
        among q folders.new ≡ (is_unread_by (B.cache bodies.now).paths q folder.now read.now listed.now || among q folders.old)) }
{
    let (within, _) = cut_last(listed.entry.path.as_bytes());
    if read.has(within) || !is_live(alloc, bodies, folder, listed)? {
        return Ok(());
    }
    folders.put(inner(alloc, folder, within)?)
}

// A list of packages, packed or not, that is held.
fn is_live<B: Bodies>(
    alloc: Global,
    bodies: &B,
    folder: &[u8],
    listed: &Listed,
) -> Result<bool, NoMemory>
    requires { ArePaths (B.cache bodies.now).paths }
    ensures { IfOk result (λ live. live ≡ is_live (B.cache bodies.now).paths folder.now listed.now) }
{
    if !is_packed(listed.entry.path.as_bytes()) {
        return Ok(false);
    }
    let place = place_of(alloc, folder, &listed.entry)?;
    let by_hash = by_hash_of(alloc, folder, &listed.entry)?;
    Ok(holds(bodies, place) || holds(bodies, by_hash))
}
