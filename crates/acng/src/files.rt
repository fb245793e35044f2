//! The configuration file and the list files beside it.
//!
//! List files are the regular files of the configuration file's folder, without itself, in the byte order of their
//! names; names that aren't UTF-8 are passed over. A configuration that isn't there counts as empty under its default
//! name alone, and then no list file is read.

use acng_base::{FileFault, Text, named};
use acng_conf::ListFile;
use std::alloc::Global;
use std::fs::File;
use std::io::ErrorKind;
use std::path::AsPath;
use std::rt::Files;
use std::{fs, str};

/// A path of the words. Words are UTF-8, or they aren't read.
pub fn path_of(path: &Text) -> &str {
    str::from_utf8(path.as_bytes()).unwrap_or("")
}

/// Whether a word names a configuration file.
pub fn is_conf_option(word: &Text) -> bool {
    word.as_bytes().starts_with(b"--conf")
}

/// The configuration file. None where it isn't there under its default name.
pub fn open_conf(
    files: &impl Files<File = File>,
    path: &str,
    is_default: bool,
) -> Result<Option<File>, FileFault> {
    match File::open(files, path) {
        Ok(file) => Ok(Some(file)),
        Err(error) if is_default && error.kind() == ErrorKind::NotFound => Ok(None),
        Err(error) => Err(FileFault::from(error)),
    }
}

/// The list files beside the configuration file.
pub fn lists_beside<R: Files<File = File> + AllocGlobal + Clone + Drop>(
    rt: &R,
    alloc: Global,
    path: &str,
) -> Result<Vec<ListFile>, FileFault> {
    let (folder, own) = split(path);
    let mut lists = Vec::new(alloc);
    for entry in fs::read_dir(rt, folder)? {
        let Some(entry) = named(entry)? else {
            continue;
        };
        if entry.file_name() != own && is_regular(rt, entry.path())? {
            let name = Text::copy(alloc, entry.file_name().as_bytes())?;
            let bytes = Text::of(fs::read(rt, entry.path())?);
            let Ok(()) = lists.push(ListFile { name, bytes }) else {
                return Err(FileFault::NoMemory);
            };
        }
    }
    lists.sort_unstable_by(|a, b| a.name.as_bytes().cmp(b.name.as_bytes()));
    Ok(lists)
}

// A link to nothing isn't a regular file, nor is one that was removed meanwhile.
fn is_regular<P: AsPath>(files: &impl Files<File = File>, path: P) -> Result<bool, FileFault> {
    match fs::metadata(files, path) {
        Ok(about) => Ok(about.is_file()),
        Err(error) if error.kind() == ErrorKind::NotFound => Ok(false),
        Err(error) => Err(FileFault::from(error)),
    }
}

// The folder of a file, and its name there.
fn split(path: &str) -> (&str, &str) {
    match path.rsplit_once('/') {
        Some(("", name)) => ("/", name),
        Some((folder, name)) => (folder, name),
        None => (".", path),
    }
}
