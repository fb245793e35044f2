//! The import of a case's found files, and what the desk holds after it.

use crate::case::{Case, Found};
use crate::shop::Shop;
use crate::{broken, text_of};
use acng_base::{CachePath, Moment, Text, Texts};
use acng_head::Label;
use acng_import::{MemoryFinder, import, print_imported};
use acng_reach::held_paths;
use std::alloc::Global;
use std::io;

fn names_of(alloc: Global, found: &[Found]) -> Option<Texts> {
    let mut names = Texts::new(alloc);
    for file in found {
        let Ok(()) = names.push(alloc, file.name.as_bytes()) else {
            return None;
        };
    }
    Some(names)
}

fn bodies_of(alloc: Global, found: &[Found]) -> Option<Texts> {
    let mut bodies = Texts::new(alloc);
    for file in found {
        let Ok(()) = bodies.push(alloc, &file.text) else {
            return None;
        };
    }
    Some(bodies)
}

fn finder_of(alloc: Global, case: &Case) -> Option<MemoryFinder> {
    let names = names_of(alloc, &case.found)?;
    let bodies = bodies_of(alloc, &case.found)?;
    if names.len() != bodies.len() {
        return None;
    }
    match MemoryFinder::new(alloc, &names, &bodies, &case.fail) {
        Ok(finder) => Some(finder),
        Err(_) => None,
    }
}

// The printed lines of the import.
fn imported(alloc: Global, shop: &mut Shop, finder: &mut MemoryFinder) -> Option<Text> {
    let imported = import(alloc, shop, finder, Moment(2));
    match print_imported(alloc, finder, &imported) {
        Ok(text) => Some(text),
        Err(_) => None,
    }
}

pub fn show_import(rt: &impl Print, alloc: Global, shop: &mut Shop, case: &Case) -> io::Result<()> {
    let Some(finder) = finder_of(alloc, case) else {
        return Err(broken());
    };
    let mut finder = finder;
    let Some(text) = imported(alloc, shop, &mut finder) else {
        return Err(broken());
    };
    for line in text_of(text.as_bytes()).lines() {
        println!(rt; "{line}")?;
    }
    Ok(())
}

/// The held paths, each with its size and the first byte of its hash.
pub fn show_held(rt: &impl Print, alloc: Global, shop: &Shop) -> io::Result<()> {
    let Ok(paths) = held_paths(alloc, shop) else {
        return Err(broken());
    };
    for path in &paths {
        show_row(rt, shop, path)?;
    }
    Ok(())
}

fn show_row(rt: &impl Print, shop: &Shop, path: &CachePath) -> io::Result<()> {
    let Some(row) = shop.row(path) else {
        return Err(broken());
    };
    let Label::Imported { sha256, size } = row.label else {
        return Err(broken());
    };
    let path = text_of(path.as_bytes());
    let first = sha256.0[0];
    println!(rt; "holds {path} {size} {first}")
}
