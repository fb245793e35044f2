//! The paths that current indexes reach.
ghost use Rattle.std.specs.Prelude.{◌≡◌, ◌||◌, ◌&&◌, List, ℕ, OnOk, IfOk};
ghost use Rattle.std.specs.List.{list_any};
ghost use Rattle.acng_base.specs.Names.{folder_of};
ghost use Rattle.acng_reach.specs.Names.{base_of};
ghost use Rattle.acng_reach.specs.Reaches.{is_name, given_by_entry, given_by, is_diff_in, has_folder, is_in, is_reached};
ghost use Rattle.acng_reach.specs.Sets.{same, among};

use crate::index::{Index, Listed};
use crate::name::{base_of, by_hash_of, is_diff, joined, place_of, sibling};
use crate::set::TextSet;
use acng_base::{CachePath, NoMemory, cut_last};
use acng_index::Named;
use std::alloc::Global;

/// The paths that the indexes reach, where these paths are held.
pub fn reached_paths(
    alloc: Global,
    held: &[CachePath],
    indexes: &[Index],
) -> Result<TextSet, NoMemory>
    ensures { IfOk result (λ paths. (q : List ℕ) → among q paths ≡ is_reached held.now indexes.now q) }
{
    let mut paths = TextSet::new(alloc);
    let mut folders = TextSet::new(alloc);
    for i in 0..indexes.len() {
        put_given(alloc, &mut paths, &indexes[i])?;
        put_folders(alloc, &mut folders, &indexes[i])?;
    }
    put_beside(alloc, &mut paths, &folders, held)?;
    Ok(paths)
}

// What an index gives: itself, its signature, and its entries.
fn put_given(alloc: Global, paths: &mut TextSet, index: &Index) -> Result<(), NoMemory>
    ensures { OnOk result ((q : List ℕ) → among q paths.new ≡ (given_by q index.now || among q paths.old)) }
{
    let place = index.place.as_bytes();
    let (folder, _) = cut_last(place);
    paths.put(Vec::from_slice(alloc, place)?)?;
    paths.put(sibling(alloc, place, b"Release.gpg")?)?;
    match &index.list {
        Some(list) => put_entries(alloc, paths, folder, &list.items),
        None => Ok(()),
    }
}

fn put_entries(
    alloc: Global,
    paths: &mut TextSet,
    folder: &[u8],
    list: &[Listed],
) -> Result<(), NoMemory>
    ensures { OnOk result ((q : List ℕ) →
        among q paths.new ≡ (list_any (given_by_entry folder.now q) list.now || among q paths.old)) }
{
    for i in 0..list.len() {
        put_entry(alloc, paths, folder, &list[i])?;
    }
    Ok(())
}

fn put_entry(
    alloc: Global,
    paths: &mut TextSet,
    folder: &[u8],
    listed: &Listed,
) -> Result<(), NoMemory>
    ensures { OnOk result ((q : List ℕ) → among q paths.new ≡ (given_by_entry folder.now q listed.now || among q paths.old)) }
{
    paths.put(place_of(alloc, folder, &listed.entry)?)?;
    paths.put(by_hash_of(alloc, folder, &listed.entry)?)?;
    match &listed.names {
        Some(names) => put_names(alloc, paths, base_of(folder), names.list()),
        None => Ok(()),
    }
}

// Each name of a list of packages, from the base.
fn put_names(
    alloc: Global,
    paths: &mut TextSet,
    base: &[u8],
    names: &[Named],
) -> Result<(), NoMemory>
    ensures { OnOk result ((q : List ℕ) → among q paths.new ≡ (list_any (is_name base.now q) names.now || among q paths.old)) }
{
    for i in 0..names.len() {
        paths.put(joined(alloc, base, names[i].path.as_bytes())?)?;
    }
    Ok(())
}

// The folders of an index's lists of differences.
fn put_folders(alloc: Global, folders: &mut TextSet, index: &Index) -> Result<(), NoMemory>
    ensures { OnOk result ((f : List ℕ) → among f folders.new ≡ (has_folder f index.now || among f folders.old)) }
{
    let (folder, _) = cut_last(index.place.as_bytes());
    match &index.list {
        Some(list) => put_folders_of(alloc, folders, folder, &list.items),
        None => Ok(()),
    }
}

fn put_folders_of(
    alloc: Global,
    folders: &mut TextSet,
    folder: &[u8],
    list: &[Listed],
) -> Result<(), NoMemory>
    ensures { OnOk result ((f : List ℕ) →
        among f folders.new ≡ (list_any (is_diff_in folder.now f) list.now || among f folders.old)) }
{
    for i in 0..list.len() {
        put_folder(alloc, folders, folder, &list[i])?;
    }
    Ok(())
}

fn put_folder(
    alloc: Global,
    folders: &mut TextSet,
    folder: &[u8],
    listed: &Listed,
) -> Result<(), NoMemory>
    ensures { OnOk result ((f : List ℕ) → among f folders.new ≡ (is_diff_in folder.now f listed.now || among f folders.old)) }
{
    if !is_diff(listed.entry.path.as_bytes()) {
        return Ok(());
    }
    let place = place_of(alloc, folder, &listed.entry)?;
    let (within, _) = cut_last(&place);
    folders.put(Vec::from_slice(alloc, within)?)
}

// Each held path in one of these folders.
fn put_beside(
    alloc: Global,
    paths: &mut TextSet,
    folders: &TextSet,
    held: &[CachePath],
) -> Result<(), NoMemory>
    ensures { OnOk result ((q : List ℕ) →
        among q paths.new ≡ (list_any (is_in folders.now q) held.now || among q paths.old)) }
{
    for i in 0..held.len() {
        put_if_in(alloc, paths, folders, &held[i])?;
    }
    Ok(())
}

fn put_if_in(
    alloc: Global,
    paths: &mut TextSet,
    folders: &TextSet,
    path: &CachePath,
) -> Result<(), NoMemory>
    ensures { OnOk result ((q : List ℕ) → among q paths.new ≡ (is_in folders.now q path.now || among q paths.old)) }
{
    let (folder, _) = cut_last(path.as_bytes());
    if !folders.has(folder) {
        return Ok(());
    }
    paths.put(Vec::from_slice(alloc, path.as_bytes())?)
}
