//! A file that a list of packages names.
ghost use Rattle.std.specs.Prelude.{◌≡◌, ◌<◌, IfSome, length, option_map};
ghost use Rattle.acng_base.specs.Fields.{length_of};
ghost use Rattle.acng_stanza.specs.Stanzas.{nth};
ghost use Rattle.acng_index.specs.Texts.{hash_of};
ghost use Rattle.acng_index.specs.Packages.{plain_name, path_of, maybe, named_of};
ghost use Rattle.acng_index.specs.Gives.{Gives};

use crate::fault::IndexFault;
use crate::text::{begins_as, read_hash, read_path};
use acng_base::{CachePath, Hash, read_length};
use acng_stanza::Stanza;
use std::alloc::Global;

/// A file that a list of packages names.
#[derive(Debug, Drop)]
pub struct Named {
    /// Its path from the base of the repository.
    pub path: CachePath,
    /// Its bytes, at most 2^41, where the list tells them.
    pub size: Option<u64>,
    /// Its SHA-256, where the list tells it.
    pub hash: Option<Hash>,
}

/// The file that a stanza names.
pub fn named_of(alloc: Global, stanza: &Stanza) -> Result<Named, IndexFault>
    ensures { Gives (named_of stanza.now) result }
{
    let Some(i) = stanza.place_of(b"Filename") else {
        return Err(IndexFault::NoFilename {
            line: first_line(stanza),
        });
    };
    let path = match path_of(alloc, stanza, i) {
        Ok(path) => path,
        Err(fault) => return Err(fault),
    };
    let size = match size_of(stanza, stanza.place_of(b"Size")) {
        Ok(size) => size,
        Err(fault) => return Err(fault),
    };
    match hash_of(stanza, stanza.place_of(b"SHA256")) {
        Ok(hash) => Ok(Named { path, size, hash }),
        Err(fault) => Err(fault),
    }
}

fn first_line(stanza: &Stanza) -> u64
    ensures { result ≡ (nth stanza.now 0).line }
{
    if stanza.is_empty() { 0 } else { stanza.line(0) }
}

fn path_of(alloc: Global, stanza: &Stanza, i: usize) -> Result<CachePath, IndexFault>
    requires { i < length stanza.now }
    ensures { Gives (path_of (nth stanza.now i)) result }
{
    match read_path(alloc, plain_name(stanza.value(i))) {
        Ok(Some(path)) => Ok(path),
        Ok(None) => Err(IndexFault::BadName {
            line: stanza.line(i),
        }),
        Err(_) => Err(IndexFault::NoMemory),
    }
}

// Without a `./` in front.
fn plain_name(text: &[u8]) -> &[u8]
    ensures { result.now ≡ plain_name text.now }
{
    if begins_as(b"./", text) {
        &text[2..]
    } else {
        text
    }
}

fn size_of(stanza: &Stanza, place: Option<usize>) -> Result<Option<u64>, IndexFault>
    requires { IfSome place (λ i. i < length stanza.now) }
    ensures { result ≡ maybe length_of (option_map (nth stanza.now) place) }
{
    let Some(i) = place else {
        return Ok(None);
    };
    match read_length(stanza.value(i)) {
        Some(size) => Ok(Some(size)),
        None => Err(IndexFault::BadField {
            line: stanza.line(i),
        }),
    }
}

fn hash_of(stanza: &Stanza, place: Option<usize>) -> Result<Option<Hash>, IndexFault>
    requires { IfSome place (λ i. i < length stanza.now) }
    ensures { result ≡ maybe hash_of (option_map (nth stanza.now) place) }
{
    let Some(i) = place else {
        return Ok(None);
    };
    match read_hash(stanza.value(i)) {
        Some(hash) => Ok(Some(hash)),
        None => Err(IndexFault::BadField {
            line: stanza.line(i),
        }),
    }
}
