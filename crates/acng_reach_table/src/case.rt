//! A case of the table.

use crate::broken;
use acng_base::{CachePath, Hash, Text};
use hex::FromHex;
use std::alloc::Global;
use std::io;

/// A held path with its bytes.
#[derive(Drop)]
pub struct File {
    pub path: CachePath,
    pub text: Vec<u8>,
}

/// A file that is asked for, with the first digits of its hash.
#[derive(Drop)]
pub struct Ask {
    pub hash: Hash,
    pub size: u64,
    pub digits: String,
}

/// A found file.
#[derive(Drop)]
pub struct Found {
    pub name: Text,
    pub text: Vec<u8>,
}

#[derive(Drop)]
pub struct Case {
    /// The most rows of the desk.
    pub rows: u32,
    pub held: Vec<File>,
    pub failed: Vec<CachePath>,
    pub tried: Vec<CachePath>,
    pub asks: Vec<Ask>,
    pub found: Vec<Found>,
    /// The numbers of the reads of found files that fail.
    pub fail: Vec<u64>,
    /// The numbers of the keeper's calls that fail.
    pub slips: Vec<u64>,
}

impl Case {
    pub fn new(alloc: Global) -> Case {
        Case {
            rows: 4096,
            held: Vec::new(alloc),
            failed: Vec::new(alloc),
            tried: Vec::new(alloc),
            asks: Vec::new(alloc),
            found: Vec::new(alloc),
            fail: Vec::new(alloc),
            slips: Vec::new(alloc),
        }
    }

    /// Takes a line, which says by its first byte what it is.
    pub fn take(&mut self, alloc: Global, line: &str) -> io::Result<()> {
        if let Some(text) = line.strip_prefix("|") {
            return self.add_line(text);
        }
        if let Some(text) = line.strip_prefix("+ ") {
            return self.add_file(alloc, text);
        }
        if let Some(text) = line.strip_prefix("! ") {
            return add_path(alloc, &mut self.failed, text);
        }
        if let Some(text) = line.strip_prefix("? ") {
            return add_path(alloc, &mut self.tried, text);
        }
        if let Some(text) = line.strip_prefix("# ") {
            return self.add_ask(alloc, text);
        }
        self.take_import(alloc, line)
    }

    // A line that says something of an import.
    fn take_import(&mut self, alloc: Global, line: &str) -> io::Result<()> {
        if let Some(text) = line.strip_prefix("@ ") {
            return self.add_found(alloc, text);
        }
        if let Some(text) = line.strip_prefix(">") {
            return self.add_found_line(text);
        }
        if let Some(text) = line.strip_prefix("~ ") {
            self.fail.push(number_of(text)?)?;
            return Ok(());
        }
        if let Some(text) = line.strip_prefix("^ ") {
            self.slips.push(number_of(text)?)?;
            return Ok(());
        }
        match line.strip_prefix("% ") {
            Some(text) => self.limit(number_of(text)?),
            None => Err(broken()),
        }
    }

    fn limit(&mut self, rows: u64) -> io::Result<()> {
        if rows == 0 || rows > 4096 {
            return Err(broken());
        }
        self.rows = rows as u32;
        Ok(())
    }

    fn add_found(&mut self, alloc: Global, name: &str) -> io::Result<()> {
        let Ok(name) = Text::copy(alloc, name.as_bytes()) else {
            return Err(broken());
        };
        let text = Vec::new(alloc);
        self.found.push(Found { name, text })?;
        Ok(())
    }

    // A line of the last found file.
    fn add_found_line(&mut self, text: &str) -> io::Result<()> {
        match self.found.last_mut() {
            Some(found) => {
                found.text.extend_from_slice(text.as_bytes())?;
                found.text.push(b'\n')?;
                Ok(())
            }
            None => Err(broken()),
        }
    }

    // A line of the last file.
    fn add_line(&mut self, text: &str) -> io::Result<()> {
        match self.held.last_mut() {
            Some(file) => {
                file.text.extend_from_slice(text.as_bytes())?;
                file.text.push(b'\n')?;
                Ok(())
            }
            None => Err(broken()),
        }
    }

    fn add_file(&mut self, alloc: Global, text: &str) -> io::Result<()> {
        let path = path_of(alloc, text)?;
        let text = Vec::new(alloc);
        self.held.push(File { path, text })?;
        Ok(())
    }

    fn add_ask(&mut self, alloc: Global, text: &str) -> io::Result<()> {
        let Some((digits, size)) = text.split_once(' ') else {
            return Err(broken());
        };
        let (Ok(bytes), Ok(size)) = (<[u8; 32]>::from_hex(digits), size.parse::<u64>()) else {
            return Err(broken());
        };
        let digits = String::from_str(alloc, digits.get(..8).unwrap_or(""))?;
        let hash = Hash(bytes);
        self.asks.push(Ask { hash, size, digits })?;
        Ok(())
    }
}

fn number_of(text: &str) -> io::Result<u64> {
    match text.parse::<u64>() {
        Ok(number) => Ok(number),
        Err(_) => Err(broken()),
    }
}

fn path_of(alloc: Global, text: &str) -> io::Result<CachePath> {
    match CachePath::read(alloc, text.as_bytes()) {
        Ok(path) => Ok(path),
        Err(_) => Err(broken()),
    }
}

fn add_path(alloc: Global, paths: &mut Vec<CachePath>, text: &str) -> io::Result<()> {
    paths.push(path_of(alloc, text)?)?;
    Ok(())
}
