//! The texts inside indexes: hashes, paths and fixed fronts.
ghost use Rattle.std.specs.Prelude.{◌≡◌, IfOk, Some, None, cond};
ghost use Rattle.acng_index.specs.Texts.{hash_of, is_path};
ghost use Rattle.acng_index.specs.Packages.{begins_as};

use acng_base::{CachePath, Hash, NoMemory, PathFault};
use hex::FromHex;
use std::alloc::Global;

/// The hash that 64 hexadecimal digits write, in either case.
pub fn read_hash(text: &[u8]) -> Option<Hash>
    ensures { result ≡ hash_of text.now }
{
    match <[u8; 32]>::from_hex(text) {
        Ok(bytes) => Some(Hash(bytes)),
        Err(_) => None,
    }
}

/// The path that a text is; None where it is none.
pub fn read_path(alloc: Global, text: &[u8]) -> Result<Option<CachePath>, NoMemory>
    ensures { IfOk result (λ path. path ≡ cond (is_path text.now) (Some text.now) None) }
{
    match CachePath::read(alloc, text) {
        Ok(path) => Ok(Some(path)),
        Err(PathFault::NoMemory) => Err(NoMemory),
        Err(_) => Ok(None),
    }
}

/// Whether a text begins with these bytes.
pub fn begins_as(front: &[u8], text: &[u8]) -> bool
    ensures { result ≡ begins_as front.now text.now }
{
    text.starts_with(front)
}
