//! Runs one list.
use crate::begin::begin;
use crate::calls::{drop_one, fetch, import, mark, new, read, remove};
use crate::load::{lose, settle};
use crate::looks::{class, count, next, row, show};
use crate::print::{Answer, word};
use crate::start::start;
use crate::table::{Out, Outs, Shop, Table};
use crate::view::View;
use acng_base::NoMemory;
use std::alloc::Global;
use std::sync::Arc;

/// What the calls of a list answer, a line each.
pub fn run(alloc: Global, list: &str) -> Answer {
    let mut out = String::new(alloc);
    let (header, rest) = list.split_once('\n').unwrap_or((list, ""));
    let view = Arc::new(alloc, View::new(alloc))?;
    let seen = Arc::try_clone(&view)?;
    let header = header.strip_prefix("list ").unwrap_or("");
    if let Some(shop) = start(alloc, header, seen, &mut out)? {
        let mut table = Table {
            shop,
            outs: Outs::none(),
            handle: None,
            view,
        };
        let done = lines(alloc, &mut table, rest, &mut out);
        close(alloc, table);
        done?;
    }
    Ok(out)
}

fn lines(alloc: Global, table: &mut Table, text: &str, out: &mut String) -> Result<(), NoMemory> {
    for line in text.lines() {
        let answer = answer(alloc, table, line)?;
        out.push_str(answer.as_str())?;
        out.push_str("\n")?;
        if answer.as_str().contains("slip") || line == "show" {
            show(alloc, table, out)?;
        }
    }
    out.push_str("end\n")?;
    show(alloc, table, out)
}

fn answer(alloc: Global, table: &mut Table, line: &str) -> Answer {
    let (name, rest) = line.split_once(' ').unwrap_or((line, ""));
    match name {
        "begin" => begin(alloc, table, rest),
        "settle" => settle(alloc, table, rest),
        "mark" => mark(alloc, table, rest),
        "remove" => remove(alloc, table, rest),
        "import" => import(alloc, table, rest),
        "drop" => drop_one(alloc, table, rest),
        "new" => new(alloc, table),
        _ => look(alloc, table, name, rest),
    }
}

fn look(alloc: Global, table: &mut Table, name: &str, rest: &str) -> Answer {
    match name {
        "fetch" => fetch(alloc, table, rest),
        "read" => read(alloc, table),
        "row" => row(alloc, table, rest),
        "next" => next(alloc, table, rest),
        "count" => count(alloc, table),
        "class" => class(alloc, table, rest),
        "show" => word(alloc, "show"),
        _ => word(alloc, "?"),
    }
}

// Settles what is out.
fn close(alloc: Global, table: Table) {
    let Table {
        shop,
        outs,
        handle: _,
        view: _,
    } = table;
    let Outs {
        first,
        second,
        third,
    } = outs;
    let mut shop = shop;
    settle_out(alloc, &mut shop, first);
    settle_out(alloc, &mut shop, second);
    settle_out(alloc, &mut shop, third);
}

fn settle_out(alloc: Global, shop: &mut Shop, out: Option<Out>) {
    match out {
        Some(out) => lose(alloc, shop, out),
        None => {}
    }
}
