//! Runs of expiration over a cache in memory. Standard input has files and lists of steps, with an empty line between two.
//!
//! The files come first, a line for each: a letter, its path, and its text, in which `;` stands for a line end. The first line
//! of a list is `list NAME PROBLEMS FAIL`: the limit of problems, and the number of the keeper's call that fails or `-`. A body
//! may be unreached for four days. Each further line is a step:
//!
//!     put LETTER             the file is put, at moment 5
//!     run MOMENT             a run, which says its line
//!     reads LETTER MOMENT    a reader of the file begins, a run says its line, and the reader says what it got
//!     show                   each held path with its size and its mark, and how many there are
#![tactic(auto)]

mod cache;
mod files;
mod steps;

use std::io;

fn main(rt: HostRuntime) -> io::Result<()> {
    let alloc = rt.alloc();
    let text = io::read_to_string(alloc, rt.reader())?;
    let Some((files, lists)) = text.as_str().split_once("\n\n") else {
        return Ok(());
    };
    for list in lists.split("\n\n") {
        match steps::said(alloc, files, list) {
            Ok(said) => print!(rt; "{said}")?,
            Err(_) => return Err(io::Error::from(io::ErrorKind::OutOfMemory)),
        }
    }
    Ok(())
}
