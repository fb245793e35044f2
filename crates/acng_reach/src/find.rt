//! The current indexes among the held bodies, with what their lists say.
//!
//! One body is in memory at a time: each is read into the same buffer. What is kept of an index is its entries and the
//! names in its lists of packages.
ghost use Rattle.std.specs.Prelude.{◌≡◌, ◌≤◌, ◌^◌, ◌++◌, true, length, cond, codes, option_map, IfOk, OnOk, IfErr};
ghost use Rattle.sha2.specs.Sha256.{sha256};
ghost use Rattle.acng_base.specs.Names.{folder_of};
ghost use Rattle.acng_index.specs.Gives.{Gives};
ghost use Rattle.acng_index.specs.Releases.{release};
ghost use Rattle.acng_index.specs.Frames.{inrelease};
ghost use Rattle.acng_reach.specs.Names.{is_last};
ghost use Rattle.acng_reach.specs.Bodies.{ArePaths, MaySlip};
ghost use Rattle.acng_reach.specs.Caches.{is_held, is_current, read_by_name, is_listed, names_in, names_at, names_of, listed_by, list_by, index_at, found_at, indexes};

use crate::bodies::Bodies;
use crate::index::{Index, Listed, Lists};
use crate::name::{by_hash_of, is_last, is_packages, place_of, sibling};
use acng_base::{CachePath, Hash, HashSoFar, MOST_BYTES, NoMemory, cut_last};
use acng_index::{
    IndexEntry, IndexFault, Names, Release, read_inrelease, read_packages, read_release,
};
use acng_keeper::KeepFault;
use std::alloc::Global;

/// The current indexes, in the byte order of their paths. The list is that of all held paths.
pub fn find_indexes<B: Bodies>(
    alloc: Global,
    bodies: &mut B,
    held: &[CachePath],
) -> Result<Vec<Index>, KeepFault<B::Slip>>
    requires held { held.now ≡ (B.cache bodies.old).paths }
    requires are_paths { ArePaths (B.cache bodies.old).paths }
    ensures indexes { IfOk result (λ xs. B.tells ≡ true → xs.items ≡ indexes (B.cache bodies.old)) }

    // A refusal, and what any answer leaves.
    ensures cause { IfErr result (MaySlip (B.rest bodies.old).may_slip) }
    ensures same { B.cache bodies.new ≡ B.cache bodies.old }
    ensures rests { B.rest bodies.new ≡ B.rest bodies.old }
{
    let mut text = Vec::new(alloc);
    let mut found = Vec::new(alloc);
    for i in 0..held.len() {
        if let Err(fault) = add_index(alloc, bodies, &mut text, &mut found, &held[i]) {
            return Err(fault);
        }
    }
    Ok(found)
}

// Adds the index at a held path, where that is a current one.
fn add_index<B: Bodies>(
    alloc: Global,
    bodies: &mut B,
    text: &mut Vec<u8>,
    found: &mut Vec<Index>,
    path: &CachePath,
) -> Result<(), KeepFault<B::Slip>>
    requires held { is_held (B.cache bodies.old) path.now ≡ true }
    requires are_paths { ArePaths (B.cache bodies.old).paths }
    ensures added { OnOk result (B.tells ≡ true →
        found.new.items ≡ found.old.items ++ found_at (B.cache bodies.old) path.now) }
    ensures cause { IfErr result (MaySlip (B.rest bodies.old).may_slip) }
    ensures same { B.cache bodies.new ≡ B.cache bodies.old }
    ensures rests { B.rest bodies.new ≡ B.rest bodies.old }
{
    let Ok(current) = is_current(alloc, bodies, path) else {
        return Err(KeepFault::NoMemory);
    };
    if !current {
        return Ok(());
    }
    let index = match read_index(alloc, bodies, text, path) {
        Ok(index) => index,
        Err(fault) => return Err(fault),
    };
    let Ok(()) = found.push(index) else {
        return Err(KeepFault::NoMemory);
    };
    Ok(())
}

// An `InRelease`, or a `Release` without one beside it.
fn is_current<B: Bodies>(alloc: Global, bodies: &B, path: &CachePath) -> Result<bool, NoMemory>
    requires { ArePaths (B.cache bodies.now).paths }
    ensures { IfOk result (λ current. current ≡ is_current (B.cache bodies.now) path.now) }
{
    if is_last(b"InRelease", path.as_bytes()) {
        return Ok(true);
    }
    if !is_last(b"Release", path.as_bytes()) {
        return Ok(false);
    }
    let beside = sibling(alloc, path.as_bytes(), b"InRelease")?;
    Ok(!holds(bodies, beside))
}

/// Whether the text is a held path.
pub fn holds<B: Bodies>(bodies: &B, text: Vec<u8>) -> bool
    requires { ArePaths (B.cache bodies.now).paths }
    ensures { result ≡ is_held (B.cache bodies.now) text.items }
{
    match CachePath::of(text) {
        Ok(path) => bodies.holds(&path),
        Err(_) => false,
    }
}

fn read_index<B: Bodies>(
    alloc: Global,
    bodies: &mut B,
    text: &mut Vec<u8>,
    path: &CachePath,
) -> Result<Index, KeepFault<B::Slip>>
    requires held { is_held (B.cache bodies.old) path.now ≡ true }
    requires are_paths { ArePaths (B.cache bodies.old).paths }
    ensures index { IfOk result (λ x. B.tells ≡ true → x ≡ index_at (B.cache bodies.old) path.now) }
    ensures cause { IfErr result (MaySlip (B.rest bodies.old).may_slip) }
    ensures same { B.cache bodies.new ≡ B.cache bodies.old }
    ensures rests { B.rest bodies.new ≡ B.rest bodies.old }
{
    let list = match read_list(alloc, bodies, text, path) {
        Ok(list) => list,
        Err(fault) => return Err(fault),
    };
    match path.again(alloc) {
        Ok(place) => Ok(Index { place, list }),
        Err(NoMemory) => Err(KeepFault::NoMemory),
    }
}

// What the index at a held path lists; None where it doesn't read.
fn read_list<B: Bodies>(
    alloc: Global,
    bodies: &mut B,
    text: &mut Vec<u8>,
    path: &CachePath,
) -> Result<Option<Lists>, KeepFault<B::Slip>>
    requires held { is_held (B.cache bodies.old) path.now ≡ true }
    requires are_paths { ArePaths (B.cache bodies.old).paths }
    ensures list { IfOk result (λ list. B.tells ≡ true → list ≡ option_map (list_by (B.cache bodies.old) (folder_of path.now))
        (read_by_name path.now ((B.cache bodies.old).text path.now))) }
    ensures cause { IfErr result (MaySlip (B.rest bodies.old).may_slip) }
    ensures same { B.cache bodies.new ≡ B.cache bodies.old }
    ensures rests { B.rest bodies.new ≡ B.rest bodies.old }
{
    if let Err(fault) = bodies.read(alloc, path, text) {
        return Err(fault);
    }
    match read_by_name(alloc, path.as_bytes(), text) {
        Ok(None) => Ok(None),
        Ok(Some(release)) => {
            let (folder, _) = cut_last(path.as_bytes());
            match list_of(alloc, bodies, text, folder, &release) {
                Ok(list) => Ok(Some(list)),
                Err(fault) => Err(fault),
            }
        }
        Err(NoMemory) => Err(KeepFault::NoMemory),
    }
}

fn read_by_name(alloc: Global, path: &[u8], text: &[u8]) -> Result<Option<Release>, NoMemory>
    ensures { IfOk result (λ r. r ≡ read_by_name path.now text.now) }
{
    match read_either(alloc, path, text) {
        Ok(release) => Ok(Some(release)),
        Err(IndexFault::NoMemory) => Err(NoMemory),
        Err(_) => Ok(None),
    }
}

fn read_either(alloc: Global, path: &[u8], text: &[u8]) -> Result<Release, IndexFault>
    ensures { Gives (cond (is_last (codes "InRelease") path.now) (inrelease text.now) (release text.now)) result }
{
    if is_last(b"InRelease", path) {
        read_inrelease(alloc, text)
    } else {
        read_release(alloc, text)
    }
}

// The entries of a release, each with the names in its file.
fn list_of<B: Bodies>(
    alloc: Global,
    bodies: &mut B,
    text: &mut Vec<u8>,
    folder: &[u8],
    release: &Release,
) -> Result<Lists, KeepFault<B::Slip>>
    requires { ArePaths (B.cache bodies.old).paths }
    ensures list { IfOk result (λ list. B.tells ≡ true → list ≡ list_by (B.cache bodies.old) folder.now release.now) }
    ensures cause { IfErr result (MaySlip (B.rest bodies.old).may_slip) }
    ensures same { B.cache bodies.new ≡ B.cache bodies.old }
    ensures rests { B.rest bodies.new ≡ B.rest bodies.old }
{
    let entries = release.entries();
    let mut items = Vec::new(alloc);
    for i in 0..entries.len() {
        let listed = match listed_of(alloc, bodies, text, folder, &entries[i]) {
            Ok(listed) => listed,
            Err(fault) => return Err(fault),
        };
        let Ok(()) = items.push(listed) else {
            return Err(KeepFault::NoMemory);
        };
    }
    Ok(Lists { items })
}

fn listed_of<B: Bodies>(
    alloc: Global,
    bodies: &mut B,
    text: &mut Vec<u8>,
    folder: &[u8],
    entry: &IndexEntry,
) -> Result<Listed, KeepFault<B::Slip>>
    requires { ArePaths (B.cache bodies.old).paths }
    ensures listed { IfOk result (λ l. B.tells ≡ true → l ≡ listed_by (B.cache bodies.old) folder.now entry.now) }
    ensures cause { IfErr result (MaySlip (B.rest bodies.old).may_slip) }
    ensures same { B.cache bodies.new ≡ B.cache bodies.old }
    ensures rests { B.rest bodies.new ≡ B.rest bodies.old }
{
    let names = match names_of(alloc, bodies, text, folder, entry) {
        Ok(names) => names,
        Err(fault) => return Err(fault),
    };
    let Ok(path) = entry.path.again(alloc) else {
        return Err(KeepFault::NoMemory);
    };
    let entry = IndexEntry {
        hash: entry.hash,
        size: entry.size,
        path,
    };
    Ok(Listed { entry, names })
}

// The names of an entry, whose file is held at its path or at its name by hash.
fn names_of<B: Bodies>(
    alloc: Global,
    bodies: &mut B,
    text: &mut Vec<u8>,
    folder: &[u8],
    entry: &IndexEntry,
) -> Result<Option<Names>, KeepFault<B::Slip>>
    requires { ArePaths (B.cache bodies.old).paths }
    ensures names { IfOk result (λ names. B.tells ≡ true → names ≡ names_of (B.cache bodies.old) folder.now entry.now) }
    ensures cause { IfErr result (MaySlip (B.rest bodies.old).may_slip) }
    ensures same { B.cache bodies.new ≡ B.cache bodies.old }
    ensures rests { B.rest bodies.new ≡ B.rest bodies.old }
{
    if !is_packages(entry.path.as_bytes()) {
        return Ok(None);
    }
    let Ok(place) = place_of(alloc, folder, entry) else {
        return Err(KeepFault::NoMemory);
    };
    let Ok(by_hash) = by_hash_of(alloc, folder, entry) else {
        return Err(KeepFault::NoMemory);
    };
    match names_at(alloc, bodies, text, entry, place) {
        Ok(Some(names)) => Ok(Some(names)),
        Ok(None) => names_at(alloc, bodies, text, entry, by_hash),
        Err(fault) => Err(fault),
    }
}

// The names of an entry by the file at a path, where that is held and is the entry's.
fn names_at<B: Bodies>(
    alloc: Global,
    bodies: &mut B,
    text: &mut Vec<u8>,
    entry: &IndexEntry,
    place: Vec<u8>,
) -> Result<Option<Names>, KeepFault<B::Slip>>
    requires { ArePaths (B.cache bodies.old).paths }
    ensures names { IfOk result (λ names. B.tells ≡ true → names ≡ names_at (B.cache bodies.old) entry.now place.items) }
    ensures cause { IfErr result (MaySlip (B.rest bodies.old).may_slip) }
    ensures same { B.cache bodies.new ≡ B.cache bodies.old }
    ensures rests { B.rest bodies.new ≡ B.rest bodies.old }
{
    let Ok(path) = CachePath::of(place) else {
        return Ok(None);
    };
    if !bodies.holds(&path) {
        return Ok(None);
    }
    if let Err(fault) = bodies.read(alloc, &path, text) {
        return Err(fault);
    }
    match names_in(alloc, entry, text) {
        Ok(names) => Ok(names),
        Err(NoMemory) => Err(KeepFault::NoMemory),
    }
}

// The names in the text of a list of packages, where it is the entry's and reads.
fn names_in(alloc: Global, entry: &IndexEntry, text: &[u8]) -> Result<Option<Names>, NoMemory>
    ensures { IfOk result (λ names. names ≡ names_in entry.now text.now) }
{
    if !is_listed(entry, text) {
        return Ok(None);
    }
    match read_packages(alloc, text) {
        Ok(names) => Ok(Some(names)),
        Err(IndexFault::NoMemory) => Err(NoMemory),
        Err(_) => Ok(None),
    }
}

// Whether the text has the entry's size and hash.
fn is_listed(entry: &IndexEntry, text: &[u8]) -> bool
    ensures { result ≡ is_listed entry.now text.now }
{
    text.len() as u64 == entry.size && entry.size <= MOST_BYTES && hash_of(text).0 == entry.hash.0
}

fn hash_of(text: &[u8]) -> Hash
    requires { length text.now ≤ 2 ^ 41 }
    ensures { result.0 ≡ sha256 text.now }
{
    let mut hash = HashSoFar::new();
    hash.add(text);
    hash.end()
}
