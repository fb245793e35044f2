//! The found files of a folder: its regular files, in the byte order of their names. Names that aren't UTF-8 are passed over,
//! as the standard library gives none of them.
//!
//! A finder over a folder tells nothing of bytes. One file is open at a time.
ghost use Rattle.std.specs.Prelude.{◌≡◌, ◌<◌, [], false, length, IfOk};
ghost use Rattle.std.specs.Io.{ReadsAtMost};

use crate::finder::Finder;
use acng_base::{Failed, FileFault, Text, Texts, named};
use std::alloc::Global;
use std::fs::File;
use std::io::ErrorKind;
use std::os::unix::fs::FileExt;
use std::path::AsPath;
use std::rt::Files;
use std::{fs, str};

/// The regular files of a folder.
#[derive(Drop)]
pub struct FolderFinder<R: Files<File = File> + AllocGlobal + Clone + Drop> {
    rt: R,
    folder: String,
    names: Texts,
    // The file that was read last, and its place.
    last: Option<(usize, File)>,
    faults: u64,
}

// A link to nothing isn't a regular file, nor is one that was removed meanwhile.
fn is_regular<P: AsPath>(files: &impl Files<File = File>, path: P) -> Result<bool, FileFault> {
    match fs::metadata(files, path) {
        Ok(about) => Ok(about.is_file()),
        Err(error) if error.kind() == ErrorKind::NotFound => Ok(false),
        Err(error) => Err(FileFault::from(error)),
    }
}

// The names of the regular files, in byte order.
fn names_in<R: Files<File = File> + AllocGlobal + Clone + Drop>(
    rt: &R,
    alloc: Global,
    folder: &str,
) -> Result<Vec<Text>, FileFault> {
    let mut found = Vec::new(alloc);
    let entries = match fs::read_dir(rt, folder) {
        Ok(entries) => entries,
        Err(error) if error.kind() == ErrorKind::NotFound => return Ok(found),
        Err(error) => return Err(FileFault::from(error)),
    };
    for entry in entries {
        let Some(entry) = named(entry)? else {
            continue;
        };
        if is_regular(rt, entry.path())? {
            let name = Text::copy(alloc, entry.file_name().as_bytes())?;
            let Ok(()) = found.push(name) else {
                return Err(FileFault::NoMemory);
            };
        }
    }
    found.sort_unstable_by(|a, b| a.as_bytes().cmp(b.as_bytes()));
    Ok(found)
}

impl<R: Files<File = File> + AllocGlobal + Clone + Drop> FolderFinder<R> {
    /// The regular files of a folder. A folder that isn't there has none.
    pub fn new(rt: R, alloc: Global, folder: &str) -> Result<FolderFinder<R>, FileFault>
        ensures { IfOk result (λ f. ⟦<FolderFinder<R> as Finder>⟧.faults f ≡ 0) }
    {
        let found = names_in(&rt, alloc, folder)?;
        let mut names = Texts::new(alloc);
        for i in 0..found.len() {
            names.push(alloc, found[i].as_bytes())?;
        }
        Ok(FolderFinder {
            rt,
            folder: String::from_str(alloc, folder)?,
            names,
            last: None,
            faults: 0,
        })
    }

    // Opens the file at a place.
    fn open(&self, i: usize) -> Result<File, FileFault>
        requires { i < length self.now.names }
    {
        let folder = self.folder.as_str();
        let Ok(name) = str::from_utf8(self.names.get(i)) else {
            return Err(FileFault::Failed);
        };
        let path = format!(in self.rt.alloc(); "{folder}/{name}")?;
        Ok(File::open(&self.rt, path.as_str())?)
    }

    // Reads the file at a place, which is open from then on.
    fn read(&mut self, i: usize, from: u64, buf: &mut [u8]) -> Result<usize, FileFault>
        requires { i < length self.old.names }
        ensures bound { ReadsAtMost result buf.new }
        ensures same { self.new ≡ record self.old { last = self.new.last } }
    {
        let file = match self.last.take() {
            Some((place, file)) if place == i => file,
            _ => self.open(i)?,
        };
        let count = file.read_at(buf, from)?;
        self.last = Some((i, file));
        Ok(count)
    }
}

impl<R: Files<File = File> + AllocGlobal + Clone + Drop> Finder for FolderFinder<R> {
    ghost tells = { false };

    ghost names = { λ f. f.names };

    ghost bodies = { λ f. [] };

    ghost faults = { λ f. f.faults };

    fn count(&self) -> usize {
        self.names.len()
    }

    fn name(&self, i: usize) -> &[u8] {
        self.names.get(i)
    }

    fn read_at(&mut self, i: usize, from: u64, buf: &mut [u8]) -> Result<usize, Failed> {
        match self.read(i, from, buf) {
            Ok(count) => Ok(count),
            Err(_) => {
                self.faults = self.faults.saturating_add(1);
                Err(Failed)
            }
        }
    }
}
