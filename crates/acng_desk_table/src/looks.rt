//! The commands that only look, and what is shown of the rows and of the keeper.
use crate::print::{Answer, bytes, facts, if_moment, if_number, label, word};
use crate::table::{Shop, Table};
use crate::view::{Stored, View};
use crate::words::path_in;
use acng_base::{CachePath, NoMemory};
use acng_class::Class;
use acng_desk::RowFacts;
use acng_grow::Facts;
use acng_head::{Head, read_head};
use std::alloc::Global;

/// `PATH`.
pub fn row(alloc: Global, table: &Table, rest: &str) -> Answer {
    let Some(path) = path_in(alloc, rest) else {
        return word(alloc, "?");
    };
    match table.shop.row(&path) {
        Some(row) => row_text(alloc, &row),
        None => word(alloc, "-"),
    }
}

fn row_text(alloc: Global, row: &RowFacts) -> Answer {
    let label = label(alloc, &row.label)?;
    let facts = facts(alloc, &row.facts)?;
    let mark = if_moment(alloc, row.mark)?;
    Ok(format!(in alloc;
        "{} {label} {} {facts} {} {mark}",
        row.id.0, row.size, row.checked.0
    )?)
}

/// `PATH`, or `-` for none.
pub fn next(alloc: Global, table: &Table, rest: &str) -> Answer {
    let after = path_in(alloc, rest);
    let after = if rest == "-" { None } else { after.as_ref() };
    match table.shop.next_path(after) {
        Some(path) => bytes(alloc, path.as_bytes()),
        None => word(alloc, "-"),
    }
}

pub fn count(alloc: Global, table: &Table) -> Answer {
    if_number(alloc, Some(u64::from(table.shop.count())))
}

/// `PATH`.
pub fn class(alloc: Global, table: &Table, rest: &str) -> Answer {
    let Some(path) = path_in(alloc, rest) else {
        return word(alloc, "?");
    };
    match table.shop.class_of(alloc, &path) {
        Ok(Class::Solid) => word(alloc, "solid"),
        Ok(Class::Volatile) => word(alloc, "volatile"),
        Ok(Class::Forbidden) => word(alloc, "forbidden"),
        Err(NoMemory) => word(alloc, "memory"),
    }
}

/// All rows with a whole body, how many rows there are, and all that the keeper has, a line each.
pub fn show(alloc: Global, table: &Table, out: &mut String) -> Result<(), NoMemory> {
    show_rows(alloc, &table.shop, out)?;
    let count = format!(in alloc; "count {}\n", table.shop.count())?;
    out.push_str(count.as_str())?;
    show_keeper(alloc, &table.view, out)
}

fn show_rows(alloc: Global, shop: &Shop, out: &mut String) -> Result<(), NoMemory> {
    let mut after: Option<CachePath> = None;
    for _ in 0..shop.count() {
        let Some(path) = shop.next_path(after.as_ref()) else {
            return Ok(());
        };
        let path = path.again(alloc)?;
        if let Some(row) = shop.row(&path) {
            let name = bytes(alloc, path.as_bytes())?;
            let row = row_text(alloc, &row)?;
            let line = format!(in alloc; "row {name} {row}\n")?;
            out.push_str(line.as_str())?;
        }
        after = Some(path);
    }
    Ok(())
}

fn show_keeper(alloc: Global, view: &View, out: &mut String) -> Result<(), NoMemory> {
    let Ok(items) = view.items.try_borrow() else {
        return Ok(());
    };
    for (id, stored) in items.iter() {
        if stored.head.is_none() && stored.sealed.is_none() && !stored.loose {
            continue;
        }
        let head = stored_text(alloc, stored)?;
        let body = body_text(alloc, stored)?;
        let line = format!(in alloc; "kept {id} {body} {head}\n")?;
        out.push_str(line.as_str())?;
    }
    Ok(())
}

fn body_text(alloc: Global, stored: &Stored) -> Answer {
    match stored.sealed {
        Some(size) => Ok(format!(in alloc; "sealed:{size}")?),
        None if stored.loose => word(alloc, "loose"),
        None => word(alloc, "gone"),
    }
}

// What the head says.
fn stored_text(alloc: Global, stored: &Stored) -> Answer {
    let Some(text) = &stored.head else {
        return word(alloc, "-");
    };
    match read_head(alloc, text.as_bytes())? {
        Some(head) => head_text(alloc, head),
        None => word(alloc, "torn"),
    }
}

fn head_text(alloc: Global, head: Head) -> Answer {
    let path = bytes(alloc, head.path.as_bytes())?;
    let label = label(alloc, &head.label)?;
    let mark = if_moment(alloc, head.mark)?;
    let said = Facts {
        total: Some(head.size),
        modified: head.modified,
        tag: head.tag,
    };
    let facts = facts(alloc, &said)?;
    Ok(format!(in alloc; "{path} {label} {facts} {} {mark}", head.checked.0)?)
}
