//! What an index reads as, in print, and short forms of long texts.

use acng_index::{IndexFault, Names, Release};
use std::alloc::Global;
use std::process::Abort;
use std::test::Fail;

// The SHA-256 of `abc` (FIPS 180-4), in either case. Its first byte is 186.
const HASH: &[u8] = b"ba7816bf8f01cfea414140de5dae2223b00361a396177a9cb410ff61f20015ad";

const UPPER: &[u8] = b"BA7816BF8F01CFEA414140DE5DAE2223B00361A396177A9CB410FF61F20015AD";

/// A text in which `#` stands for 64 digits of a hash, `^` for the same in capitals, `<` for the line that begins a
/// frame, and `>` for the line of the signature.
pub fn long(alloc: Global, short: &[u8]) -> Result<Vec<u8>, Fail> {
    let mut text = Vec::new(alloc);
    for byte in short {
        match *byte {
            b'#' => text.extend_from_slice(HASH)?,
            b'^' => text.extend_from_slice(UPPER)?,
            b'<' => text.extend_from_slice(b"-----BEGIN PGP SIGNED MESSAGE-----")?,
            b'>' => text.extend_from_slice(b"-----BEGIN PGP SIGNATURE-----")?,
            other => text.push(other)?,
        }
    }
    Ok(text)
}

/// What an index reads as, in print, or its refusal.
pub type Printed = Result<Vec<u8>, IndexFault>;

/// Each entry as `FIRST:SIZE:PATH;` with the hash's first byte, and `+` where files can be had by their hashes.
pub fn print_release(alloc: Global, found: Result<Release, IndexFault>) -> Result<Printed, Fail> {
    let release = match found {
        Ok(release) => release,
        Err(fault) => return Ok(Err(fault)),
    };
    let mut out = Vec::new(alloc);
    for entry in release.entries() {
        let numbers = format!(in alloc; "{}:{}:", entry.hash.0[0], entry.size)?;
        out.extend_from_slice(numbers.as_bytes())?;
        out.extend_from_slice(entry.path.as_bytes())?;
        out.push(b';')?;
    }
    if release.by_hash() {
        out.push(b'+')?;
    }
    Ok(Ok(out))
}

/// Each name as `PATH:SIZE:FIRST;` with the hash's first byte; what a list doesn't tell is left out.
pub fn print_names(alloc: Global, found: Result<Names, IndexFault>) -> Result<Printed, Fail> {
    let names = match found {
        Ok(names) => names,
        Err(fault) => return Ok(Err(fault)),
    };
    let mut out = Vec::new(alloc);
    for named in names.list() {
        out.extend_from_slice(named.path.as_bytes())?;
        out.push(b':')?;
        if let Some(size) = named.size {
            out.extend_from_slice(format!(in alloc; "{size}")?.as_bytes())?;
        }
        out.push(b':')?;
        if let Some(hash) = named.hash {
            out.extend_from_slice(format!(in alloc; "{}", hash.0[0])?.as_bytes())?;
        }
        out.push(b';')?;
    }
    Ok(Ok(out))
}

/// That a text reads as it is to.
pub fn expect(rt: &impl Abort, text: &[u8], found: Printed, wanted: Result<&[u8], IndexFault>) {
    match (found, wanted) {
        (Ok(print), Ok(wanted)) => assert_eq!(rt; print.as_slice(), wanted, "{text:?}"),
        (Err(fault), Err(wanted)) => assert_eq!(rt; fault, wanted, "{text:?}"),
        (Ok(_), Err(_)) => panic!(rt; "{text:?} is read"),
        (Err(fault), Ok(_)) => panic!(rt; "{text:?} is refused by {fault:?}"),
    }
}
