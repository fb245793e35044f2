//! The repository of a number: its package files, the index that names some of them, and the signed list that names the
//! index.
//!
//! For each k below the number there is a package `pK`, which the index names, and for each k that 3 divides a package `oK`
//! that nothing names. So it is known before a run what an expiration has to keep.
ghost use Rattle.std.specs.Prelude.{◌≡◌, ◌++◌, OnOk, IfOk, decimal};
ghost use Rattle.acng_cli.specs.Repository.{pool_path, package_text, package_of, others_at, packages_at, packages_below, names, sums, stanza, stanzas_below};
ghost use Rattle.acng_cli.specs.Repository.{digits_of as digits_of_bytes, release_text, index, release, files_of};

use acng_base::{NoMemory, Text};
use itoa::Buffer;
use sha2::{Digest, Sha256};
use std::alloc::Global;

/// A file of a repository: its path below the host, without a slash in front, and its bytes.
#[derive(Debug, Drop)]
pub struct RepositoryFile {
    pub path: Text,
    pub bytes: Text,
}

/// The files of the repository of a number: the packages by rising k, the index, and the list.
pub(crate) fn repository(alloc: Global, number: u32) -> Result<Vec<RepositoryFile>, NoMemory>
    ensures { IfOk result (λ files. files.items ≡ files_of number) }
{
    let mut files = Vec::new(alloc);
    let mut names = Vec::new(alloc);
    for k in 0..number {
        push_packages(alloc, &mut files, k)?;
        push_stanza(alloc, &mut names, k)?;
    }
    let list = release(alloc, names.as_slice())?;
    files.push(index(alloc, names)?)?;
    files.push(list)?;
    Ok(files)
}

// ---- packages

// The packages of k.
fn push_packages(alloc: Global, files: &mut Vec<RepositoryFile>, k: u32) -> Result<(), NoMemory>
    ensures { OnOk result (files.new.items ≡ files.old.items ++ packages_at k) }
{
    files.push(package_of(alloc, b"p", k)?)?;
    push_other(alloc, files, k)?;
    Ok(())
}

// The package of k that nothing names, where there is one.
fn push_other(alloc: Global, files: &mut Vec<RepositoryFile>, k: u32) -> Result<(), NoMemory>
    ensures { OnOk result (files.new.items ≡ files.old.items ++ others_at k) }
{
    if k % 3 == 0 {
        files.push(package_of(alloc, b"o", k)?)?;
    }
    Ok(())
}

fn package_of(alloc: Global, kind: &[u8], k: u32) -> Result<RepositoryFile, NoMemory>
    ensures { IfOk result (λ file. file ≡ package_of kind.now k) }
{
    let mut path = Vec::new(alloc);
    push(&mut path, b"debian/")?;
    push_pool_path(&mut path, kind, k)?;
    Ok(RepositoryFile {
        path: Text::of(path),
        bytes: Text::of(package_text(alloc, kind, k)?),
    })
}

// The path of a package below the repository's folder.
fn push_pool_path(out: &mut Vec<u8>, kind: &[u8], k: u32) -> Result<(), NoMemory>
    ensures { OnOk result (out.new.items ≡ out.old.items ++ pool_path kind.now k) }
{
    push(out, b"pool/main/")?;
    push(out, kind)?;
    push(out, b"/")?;
    push(out, kind)?;
    push_number(out, u64::from(k))?;
    push(out, b"_1_all.deb")
}

// The kind, the number and a line end.
fn package_text(alloc: Global, kind: &[u8], k: u32) -> Result<Vec<u8>, NoMemory>
    ensures { IfOk result (λ text. text.items ≡ package_text kind.now k) }
{
    let mut text = Vec::new(alloc);
    push(&mut text, kind)?;
    push_number(&mut text, u64::from(k))?;
    push(&mut text, b"\n")?;
    Ok(text)
}

// ---- the index

// What the index says of the package of k.
fn push_stanza(alloc: Global, out: &mut Vec<u8>, k: u32) -> Result<(), NoMemory>
    ensures { OnOk result (out.new.items ≡ out.old.items ++ stanza k) }
{
    let text = package_text(alloc, b"p", k)?;
    push_names(out, k)?;
    push_sums(alloc, out, text.as_slice())
}

fn push_names(out: &mut Vec<u8>, k: u32) -> Result<(), NoMemory>
    ensures { OnOk result (out.new.items ≡ out.old.items ++ names k) }
{
    push(out, b"Package: p")?;
    push_number(out, u64::from(k))?;
    push(out, b"\nFilename: ")?;
    push_pool_path(out, b"p", k)
}

// The size of a file and its hash.
fn push_sums(alloc: Global, out: &mut Vec<u8>, text: &[u8]) -> Result<(), NoMemory>
    ensures { OnOk result (out.new.items ≡ out.old.items ++ sums text.now) }
{
    push(out, b"\nSize: ")?;
    push_number(out, text.len() as u64)?;
    push(out, b"\nSHA256: ")?;
    push_hash(alloc, out, text)?;
    push(out, b"\n\n")
}

fn index(alloc: Global, names: Vec<u8>) -> Result<RepositoryFile, NoMemory>
    ensures { IfOk result (λ file. file ≡ index names.items) }
{
    Ok(RepositoryFile {
        path: Text::copy(alloc, b"debian/dists/stable/main/binary-all/Packages")?,
        bytes: Text::of(names),
    })
}

// ---- the signed list

fn release(alloc: Global, names: &[u8]) -> Result<RepositoryFile, NoMemory>
    ensures { IfOk result (λ file. file ≡ release names.now) }
{
    Ok(RepositoryFile {
        path: Text::copy(alloc, b"debian/dists/stable/InRelease")?,
        bytes: Text::of(release_text(alloc, names)?),
    })
}

// The frame of a signed text, and in it the hash, the size and the path of the index.
fn release_text(alloc: Global, names: &[u8]) -> Result<Vec<u8>, NoMemory>
    ensures { IfOk result (λ text. text.items ≡ release_text names.now) }
{
    let mut text = Vec::new(alloc);
    push(
        &mut text,
        b"-----BEGIN PGP SIGNED MESSAGE-----\nHash: SHA256\n\nSHA256:\n ",
    )?;
    push_hash(alloc, &mut text, names)?;
    push(&mut text, b" ")?;
    push_number(&mut text, names.len() as u64)?;
    push(
        &mut text,
        b" main/binary-all/Packages\n-----BEGIN PGP SIGNATURE-----\n",
    )?;
    Ok(text)
}

// ---- pieces

pub(crate) fn push(out: &mut Vec<u8>, piece: &[u8]) -> Result<(), NoMemory>
    ensures { OnOk result (out.new.items ≡ out.old.items ++ piece.now) }
{
    out.extend_from_slice(piece)?;
    Ok(())
}

pub(crate) fn push_number(out: &mut Vec<u8>, n: u64) -> Result<(), NoMemory>
    ensures { OnOk result (out.new.items ≡ out.old.items ++ decimal n) }
{
    let mut buffer = Buffer::new();
    push(out, buffer.format(n).as_bytes())
}

// The SHA-256 of the bytes in 64 digits.
fn push_hash(alloc: Global, out: &mut Vec<u8>, bytes: &[u8]) -> Result<(), NoMemory>
    ensures { OnOk result (out.new.items ≡ out.old.items ++ digits_of_bytes bytes.now) }
{
    let digits = hex::encode(alloc, Sha256::digest(bytes))?;
    push(out, digits.as_bytes())
}
