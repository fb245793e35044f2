//! The files that may be put: a letter, a path and a text in each line.
use acng_base::{CachePath, NoMemory};
use std::alloc::Global;

// What stands behind a letter.
fn line_of<'a>(files: &'a str, letter: &str) -> Option<&'a str> {
    for line in files.lines() {
        if let Some((name, rest)) = line.split_once(' ')
            && name == letter
        {
            return Some(rest);
        }
    }
    None
}

/// The path of a letter.
pub fn path_of(alloc: Global, files: &str, letter: &str) -> Option<CachePath> {
    let (path, _) = line_of(files, letter)?.split_once(' ')?;
    match CachePath::read(alloc, path.as_bytes()) {
        Ok(path) => Some(path),
        Err(_) => None,
    }
}

/// The text of a letter.
pub fn text_of(alloc: Global, files: &str, letter: &str) -> Result<Vec<u8>, NoMemory> {
    let mut bytes = Vec::new(alloc);
    let Some((_, text)) = line_of(files, letter).and_then(|line| line.split_once(' ')) else {
        return Ok(bytes);
    };
    for byte in text.bytes() {
        bytes.push(if byte == b';' { b'\n' } else { byte })?;
    }
    Ok(bytes)
}
