//! The entries of a Release: a hash, a size and a path on each line of its list (Debian wiki, RepositoryFormat).
ghost use Rattle.acng_base.specs.Fields.{length_of};
ghost use Rattle.acng_base.specs.Cuts.{pieces, words};
ghost use Rattle.acng_index.specs.Texts.{hash_of, or_refuse};
ghost use Rattle.acng_index.specs.Releases.{entry_by, entry_of, line_entries, entries_of};
ghost use Rattle.acng_index.specs.Gives.{Gives, GivesItems, Adds};

use crate::fault::IndexFault;
use crate::text::{read_hash, read_path};
use acng_base::{CachePath, Hash, next_line_feed, read_length, words};
use std::alloc::Global;

/// A file that a Release lists.
#[derive(Debug, Drop)]
pub struct IndexEntry {
    /// Its SHA-256.
    pub hash: Hash,
    /// Its bytes, at most 2^41.
    pub size: u64,
    /// Its path from the folder of the Release.
    pub path: CachePath,
}

/// The entries of a list whose first line has this number.
pub fn read_entries(alloc: Global, value: &[u8], first: u64) -> Result<Vec<IndexEntry>, IndexFault>
    ensures { GivesItems (entries_of first (pieces value.now)) result }
{
    let mut entries = Vec::new(alloc);
    let mut line = first;
    let mut start = 0;
    while let Some(len) = next_line_feed(&value[start..]) {
        if let Err(fault) = add_line(alloc, &mut entries, &value[start..start + len], line) {
            return Err(fault);
        }
        let Some(next) = line.checked_add(1) else {
            return Err(IndexFault::NoMemory);
        };
        line = next;
        start += len + 1;
    }
    match add_line(alloc, &mut entries, &value[start..], line) {
        Ok(()) => Ok(entries),
        Err(fault) => Err(fault),
    }
}

// Adds the entry of a line; an empty line has none.
fn add_line(
    alloc: Global,
    entries: &mut Vec<IndexEntry>,
    text: &[u8],
    line: u64,
) -> Result<(), IndexFault>
    ensures { Adds (line_entries line text.now) entries.old.items entries.new.items result }
{
    if text.is_empty() {
        return Ok(());
    }
    match read_entry(alloc, text, line) {
        Ok(entry) => match entries.push(entry) {
            Ok(()) => Ok(()),
            Err(_) => Err(IndexFault::NoMemory),
        },
        Err(fault) => Err(fault),
    }
}

fn read_entry(alloc: Global, text: &[u8], line: u64) -> Result<IndexEntry, IndexFault>
    ensures { Gives (or_refuse (IndexFault.BadEntry line) (entry_of (words text.now))) result }
{
    let Ok(words) = words(alloc, text) else {
        return Err(IndexFault::NoMemory);
    };
    if words.len() != 3 {
        return Err(IndexFault::BadEntry { line });
    }
    entry(
        alloc,
        words[0].as_bytes(),
        words[1].as_bytes(),
        words[2].as_bytes(),
        line,
    )
}

fn entry(
    alloc: Global,
    hash: &[u8],
    size: &[u8],
    path: &[u8],
    line: u64,
) -> Result<IndexEntry, IndexFault>
    ensures { Gives (or_refuse (IndexFault.BadEntry line) (entry_by path.now (hash_of hash.now) (length_of size.now))) result }
{
    let Some(hash) = read_hash(hash) else {
        return Err(IndexFault::BadEntry { line });
    };
    let Some(size) = read_length(size) else {
        return Err(IndexFault::BadEntry { line });
    };
    match read_path(alloc, path) {
        Ok(Some(path)) => Ok(IndexEntry { hash, size, path }),
        Ok(None) => Err(IndexFault::BadEntry { line }),
        Err(_) => Err(IndexFault::NoMemory),
    }
}
