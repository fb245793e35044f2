//! Prints what caches reach and name, and which folders are problems in them, and what an import makes of them: the table of
//! `acng_reach` and `acng_import`.
//!
//! Standard input has a case after another. A line begins with what it says: `=` the name of the case, `+` a held path, whose
//! bytes are the lines with `|` that follow, each with a line feed, `!` a failed path, `?` a further path to try, `#` a hash
//! and a size to ask for, `@` a found file, whose bytes are the lines with `>` that follow, `~` the number of a read of found
//! files that fails, `^` the number of a call of the keeper that fails, `%` the most rows, and `.` alone the end of the case.
//! Where there are found files, they are imported; where a call of the keeper fails, nothing is asked before the import.
#![tactic(auto)]

mod case;
mod found;
mod shop;

use acng_base::{CachePath, Texts};
use acng_reach::Reach;
use case::{Ask, Case};
use found::{show_held, show_import};
use shop::{Shop, filled};
use std::alloc::Global;
use std::{io, str};

fn main(rt: HostRuntime) -> io::Result<()> {
    let alloc = rt.alloc();
    let mut case = Case::new(alloc);
    for line in rt.lines(alloc) {
        let line = line?;
        if line.as_str() != "." {
            take(&rt, alloc, &mut case, line.as_str())?;
        } else {
            show(&rt, alloc, &case)?;
            case = Case::new(alloc);
        }
    }
    Ok(())
}

fn take(rt: &impl Print, alloc: Global, case: &mut Case, line: &str) -> io::Result<()> {
    if line.starts_with("= ") {
        return println!(rt; "{line}");
    }
    case.take(alloc, line)
}

// What the cache of a case reaches and names, and its problems.
fn show(rt: &impl Print, alloc: Global, case: &Case) -> io::Result<()> {
    let Some(shop) = filled(alloc, case.rows, &case.held, &case.slips) else {
        return Err(broken());
    };
    let mut shop = shop;
    show_shop(rt, alloc, &mut shop, case)
}

fn show_shop(rt: &impl Print, alloc: Global, shop: &mut Shop, case: &Case) -> io::Result<()> {
    if case.slips.is_empty() {
        show_reach(rt, alloc, shop, case)?;
    }
    if case.found.is_empty() {
        return Ok(());
    }
    show_import(rt, alloc, shop, case)?;
    show_held(rt, alloc, shop)
}

fn show_reach(rt: &impl Print, alloc: Global, shop: &mut Shop, case: &Case) -> io::Result<()> {
    let Some(reach) = reach_of(alloc, shop, case) else {
        return Err(broken());
    };
    for file in &case.held {
        show_reached(rt, &reach, &file.path)?;
    }
    for path in &case.tried {
        show_reached(rt, &reach, path)?;
    }
    show_problems(rt, reach.problems())?;
    for ask in &case.asks {
        show_named(rt, alloc, &reach, ask)?;
    }
    Ok(())
}

fn reach_of(alloc: Global, shop: &mut Shop, case: &Case) -> Option<Reach> {
    match Reach::of(alloc, shop, &case.failed) {
        Ok(reach) => Some(reach),
        Err(_) => None,
    }
}

pub fn broken() -> io::Error {
    io::Error::from(io::ErrorKind::InvalidInput)
}

pub fn text_of(bytes: &[u8]) -> &str {
    match str::from_utf8(bytes) {
        Ok(text) => text,
        Err(_) => "?",
    }
}

fn show_reached(rt: &impl Print, reach: &Reach, path: &CachePath) -> io::Result<()> {
    if !reach.reached(path) {
        return Ok(());
    }
    let path = text_of(path.as_bytes());
    println!(rt; "reached {path}")
}

fn show_problems(rt: &impl Print, problems: &Texts) -> io::Result<()> {
    for i in 0..problems.len() {
        let problem = text_of(problems.get(i));
        println!(rt; "problem [{problem}]")?;
    }
    Ok(())
}

fn show_named(rt: &impl Print, alloc: Global, reach: &Reach, ask: &Ask) -> io::Result<()> {
    let Ask { hash, size, digits } = ask;
    let digits = digits.as_str();
    println!(rt; "asked {digits} {size}")?;
    let Ok(paths) = reach.named(alloc, hash, *size) else {
        return Err(broken());
    };
    for i in 0..paths.len() {
        let path = text_of(paths.get(i));
        println!(rt; "named {path}")?;
    }
    Ok(())
}
