//! The paths that current indexes name for a file, by its hash and size.
//!
//! It is a walk over the kept lists: what an import asks comes once a file, and a second table would hold each name twice.
ghost use Rattle.std.specs.Prelude.{◌≡◌, ◌||◌, ◌&&◌, Some, List, ℕ, OnOk, IfOk};
ghost use Rattle.std.specs.List.{list_any};
ghost use Rattle.acng_reach.specs.Names.{base_of, place_of};
ghost use Rattle.acng_reach.specs.Bodies.{ArePaths};
ghost use Rattle.acng_reach.specs.Reaches.{is_file, names_file, named_by_entry, named_by, some, is_named};
ghost use Rattle.acng_reach.specs.Paths.{IsPath};
ghost use Rattle.acng_reach.specs.Sets.{same, among};

use crate::index::{Index, Listed};
use crate::name::{base_of, joined, place_of};
use crate::set::TextSet;
use acng_base::{CachePath, Hash, NoMemory, cut_last};
use acng_index::Named;
use std::alloc::Global;

/// The paths that the indexes name for a file.
pub fn named_paths(
    alloc: Global,
    indexes: &[Index],
    hash: &Hash,
    size: u64,
) -> Result<TextSet, NoMemory>
    ensures named { IfOk result (λ paths. (q : List ℕ) → IsPath q →
        among q paths ≡ is_named indexes.now hash.now.0 size q) }
    ensures are_paths { IfOk result (λ paths. ArePaths paths) }
{
    let mut paths = TextSet::new(alloc);
    for i in 0..indexes.len() {
        put_of_index(alloc, &mut paths, hash, size, &indexes[i])?;
    }
    Ok(paths)
}

fn put_of_index(
    alloc: Global,
    paths: &mut TextSet,
    hash: &Hash,
    size: u64,
    index: &Index,
) -> Result<(), NoMemory>
    ensures named { OnOk result ((q : List ℕ) → IsPath q →
        among q paths.new ≡ (named_by hash.now.0 size q index.now || among q paths.old)) }
    ensures are_paths { OnOk result (ArePaths paths.old → ArePaths paths.new) }
{
    let (folder, _) = cut_last(index.place.as_bytes());
    match &index.list {
        Some(list) => put_entries(alloc, paths, hash, size, folder, &list.items),
        None => Ok(()),
    }
}

fn put_entries(
    alloc: Global,
    paths: &mut TextSet,
    hash: &Hash,
    size: u64,
    folder: &[u8],
    list: &[Listed],
) -> Result<(), NoMemory>
    ensures named { OnOk result ((q : List ℕ) → IsPath q →
        among q paths.new ≡ (list_any (named_by_entry folder.now hash.now.0 size q) list.now || among q paths.old)) }
    ensures are_paths { OnOk result (ArePaths paths.old → ArePaths paths.new) }
{
    for i in 0..list.len() {
        put_entry(alloc, paths, hash, size, folder, &list[i])?;
    }
    Ok(())
}

fn put_entry(
    alloc: Global,
    paths: &mut TextSet,
    hash: &Hash,
    size: u64,
    folder: &[u8],
    listed: &Listed,
) -> Result<(), NoMemory>
    ensures named { OnOk result ((q : List ℕ) → IsPath q →
        among q paths.new ≡ (named_by_entry folder.now hash.now.0 size q listed.now || among q paths.old)) }
    ensures are_paths { OnOk result (ArePaths paths.old → ArePaths paths.new) }
{
    put_itself(alloc, paths, hash, size, folder, listed)?;
    put_listed(alloc, paths, hash, size, folder, listed)
}

// The names in an entry's file that are this one.
fn put_listed(
    alloc: Global,
    paths: &mut TextSet,
    hash: &Hash,
    size: u64,
    folder: &[u8],
    listed: &Listed,
) -> Result<(), NoMemory>
    ensures named { OnOk result ((q : List ℕ) → IsPath q → among q paths.new
        ≡ (some (names_file (base_of folder.now) hash.now.0 size q) listed.now.names || among q paths.old)) }
    ensures are_paths { OnOk result (ArePaths paths.old → ArePaths paths.new) }
{
    match &listed.names {
        Some(names) => put_names(alloc, paths, hash, size, base_of(folder), names.list()),
        None => Ok(()),
    }
}

// The entry's own file, where it is this one.
fn put_itself(
    alloc: Global,
    paths: &mut TextSet,
    hash: &Hash,
    size: u64,
    folder: &[u8],
    listed: &Listed,
) -> Result<(), NoMemory>
    ensures named { OnOk result ((q : List ℕ) → IsPath q → among q paths.new
        ≡ ((same q (place_of folder.now listed.now.entry)
        && is_file hash.now.0 size (Some listed.now.entry.hash) (Some listed.now.entry.size)) || among q paths.old)) }
    ensures are_paths { OnOk result (ArePaths paths.old → ArePaths paths.new) }
{
    if !is_file(hash, size, Some(listed.entry.hash), Some(listed.entry.size)) {
        return Ok(());
    }
    put_path(paths, place_of(alloc, folder, &listed.entry)?)
}

// Each name of a list of packages that is this file.
fn put_names(
    alloc: Global,
    paths: &mut TextSet,
    hash: &Hash,
    size: u64,
    base: &[u8],
    names: &[Named],
) -> Result<(), NoMemory>
    ensures named { OnOk result ((q : List ℕ) → IsPath q →
        among q paths.new ≡ (list_any (names_file base.now hash.now.0 size q) names.now || among q paths.old)) }
    ensures are_paths { OnOk result (ArePaths paths.old → ArePaths paths.new) }
{
    for i in 0..names.len() {
        put_name(alloc, paths, hash, size, base, &names[i])?;
    }
    Ok(())
}

fn put_name(
    alloc: Global,
    paths: &mut TextSet,
    hash: &Hash,
    size: u64,
    base: &[u8],
    name: &Named,
) -> Result<(), NoMemory>
    ensures named { OnOk result ((q : List ℕ) → IsPath q →
        among q paths.new ≡ (names_file base.now hash.now.0 size q name.now || among q paths.old)) }
    ensures are_paths { OnOk result (ArePaths paths.old → ArePaths paths.new) }
{
    if !is_file(hash, size, name.hash, name.size) {
        return Ok(());
    }
    put_path(paths, joined(alloc, base, name.path.as_bytes())?)
}

fn is_file(hash: &Hash, size: u64, its_hash: Option<Hash>, its_size: Option<u64>) -> bool
    ensures { result ≡ is_file hash.now.0 size its_hash its_size }
{
    let Some(its_hash) = its_hash else {
        return false;
    };
    let Some(its_size) = its_size else {
        return false;
    };
    its_hash.0 == hash.0 && its_size == size
}

// Puts the text in, where it is a path.
fn put_path(paths: &mut TextSet, text: Vec<u8>) -> Result<(), NoMemory>
    ensures named { OnOk result ((q : List ℕ) → IsPath q →
        among q paths.new ≡ (same q text.items || among q paths.old)) }
    ensures are_paths { OnOk result (ArePaths paths.old → ArePaths paths.new) }
{
    if CachePath::refusal(&text).is_some() {
        return Ok(());
    }
    paths.put(text)
}
