//! The paths that an index gives, from its own folder and from the base of its repository.
ghost use Rattle.std.specs.Prelude.{◌≡◌, ◌++◌, codes, IfOk};
ghost use Rattle.hex.specs.Hex.{encode_lower};
ghost use Rattle.acng_reach.specs.Names.{joined, beneath, sibling, inner, base_of, place_of, by_hash_of, is_packed, is_packages, is_diff, is_last};

use acng_base::{Hash, NoMemory, base_name, cut_last, last_segment};
use acng_index::IndexEntry;
use std::alloc::Global;

/// A path below a folder, whether that has a name or not.
pub fn joined(alloc: Global, folder: &[u8], path: &[u8]) -> Result<Vec<u8>, NoMemory>
    ensures { IfOk result (λ text. text.items ≡ joined folder.now path.now) }
{
    let mut text = Vec::with_capacity(alloc, folder.len() + 1 + path.len())?;
    text.extend_from_slice(folder)?;
    text.push(b'/')?;
    text.extend_from_slice(path)?;
    Ok(text)
}

/// A path below a folder; the top one has no name, and no slash behind it.
pub fn beneath(alloc: Global, folder: &[u8], path: &[u8]) -> Result<Vec<u8>, NoMemory>
    ensures { IfOk result (λ text. text.items ≡ beneath folder.now path.now) }
{
    if folder.is_empty() {
        return Ok(Vec::from_slice(alloc, path)?);
    }
    joined(alloc, folder, path)
}

/// Another file of the same folder.
pub fn sibling(alloc: Global, path: &[u8], name: &[u8]) -> Result<Vec<u8>, NoMemory>
    ensures { IfOk result (λ text. text.items ≡ sibling path.now name.now) }
{
    let (folder, _) = cut_last(path);
    beneath(alloc, folder, name)
}

/// A folder below another one, or that one itself.
pub fn inner(alloc: Global, above: &[u8], folder: &[u8]) -> Result<Vec<u8>, NoMemory>
    ensures { IfOk result (λ text. text.items ≡ inner above.now folder.now) }
{
    if folder.is_empty() {
        return Ok(Vec::from_slice(alloc, above)?);
    }
    joined(alloc, above, folder)
}

pub fn is_last(name: &[u8], path: &[u8]) -> bool
    ensures { result ≡ is_last name.now path.now }
{
    last_segment(path) == name
}

/// A list of packages, as it is or packed.
pub fn is_packed(path: &[u8]) -> bool
    ensures { result ≡ is_packed path.now }
{
    base_name(path) == b"Packages".as_slice()
}

/// A list of packages as it is.
pub fn is_packages(path: &[u8]) -> bool
    ensures { result ≡ is_packages path.now }
{
    is_last(b"Packages", path)
}

/// The list of a folder of differences.
pub fn is_diff(path: &[u8]) -> bool
    ensures { result ≡ is_diff path.now }
{
    let (folder, last) = cut_last(path);
    last == b"Index".as_slice() && last_segment(folder).ends_with(b".diff")
}

/// The place of an entry's file.
pub fn place_of(alloc: Global, folder: &[u8], entry: &IndexEntry) -> Result<Vec<u8>, NoMemory>
    ensures { IfOk result (λ text. text.items ≡ place_of folder.now entry.now) }
{
    joined(alloc, folder, entry.path.as_bytes())
}

/// The name of an entry's file by its hash.
pub fn by_hash_of(alloc: Global, folder: &[u8], entry: &IndexEntry) -> Result<Vec<u8>, NoMemory>
    ensures { IfOk result (λ text. text.items ≡ by_hash_of folder.now entry.now) }
{
    let (within, _) = cut_last(entry.path.as_bytes());
    let name = hash_name(alloc, &entry.hash)?;
    let path = beneath(alloc, within, &name)?;
    joined(alloc, folder, &path)
}

// The name of a file by its hash, from the folder above.
fn hash_name(alloc: Global, hash: &Hash) -> Result<Vec<u8>, NoMemory>
    ensures { IfOk result (λ text. text.items ≡ codes "by-hash/SHA256/" ++ encode_lower hash.now.0) }
{
    let digits = digits(hash);
    let mut text = Vec::with_capacity(alloc, 79)?;
    text.extend_from_slice(b"by-hash/SHA256/")?;
    text.extend_from_slice(&digits)?;
    Ok(text)
}

fn digits(hash: &Hash) -> [u8; 64]
    ensures { result ≡ encode_lower hash.now.0 }
{
    let mut digits = [0; 64];
    let Ok(()) = hex::encode_to_slice(hash.0, &mut digits) else {
        unreachable!();
    };
    digits
}

/// The base of a repository, by the folder of its index: what stands before the last segment `dists`, or all of it.
pub fn base_of(folder: &[u8]) -> &[u8]
    ensures { result.now ≡ base_of folder.now }
{
    let mut rest = folder;
    while let Some(at) = rest.iter().rposition(|b| *b == b'/') {
        if &rest[at + 1..] == b"dists".as_slice() {
            return &rest[..at];
        }
        rest = &rest[..at];
    }
    if rest == b"dists".as_slice() {
        b""
    } else {
        folder
    }
}
