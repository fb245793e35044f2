//! The steps of a list, and what they say.
use crate::cache::{Shop, opened, put};
use crate::files::{path_of, text_of};
use acng_base::{CachePath, Moment, NoMemory};
use acng_expire::expire_line;
use acng_keeper::{BodyFile, MemoryBody};
use acng_reach::held_paths;
use std::alloc::Global;

/// What a list says.
pub fn said(alloc: Global, files: &str, list: &str) -> Result<String, NoMemory> {
    let mut out = String::new(alloc);
    let mut lines = list.lines();
    let Some(first) = lines.next() else {
        return Ok(out);
    };
    say(&mut out, first)?;
    let Some(shop) = opened_by(alloc, first) else {
        say(&mut out, "not started")?;
        return Ok(out);
    };
    let mut shop = shop;
    for line in lines {
        step(alloc, files, &mut shop, &mut out, line)?;
    }
    Ok(out)
}

fn say(out: &mut String, text: &str) -> Result<(), NoMemory> {
    out.push_str(text)?;
    out.push('\n')?;
    Ok(())
}

fn opened_by(alloc: Global, line: &str) -> Option<Shop> {
    let mut words = line.split(' ');
    let _ = words.next();
    let _ = words.next();
    let problems = words.next()?;
    let fail = words.next()?;
    opened(alloc, problems, fail)
}

fn step(
    alloc: Global,
    files: &str,
    shop: &mut Shop,
    out: &mut String,
    line: &str,
) -> Result<(), NoMemory> {
    let (word, rest) = line.split_once(' ').unwrap_or((line, ""));
    match word {
        "put" => put_step(alloc, files, shop, out, rest),
        "run" => run_step(alloc, shop, out, rest),
        "reads" => read_step(alloc, files, shop, out, rest),
        "show" => show_step(alloc, shop, out),
        _ => say(out, "no step"),
    }
}

fn put_step(
    alloc: Global,
    files: &str,
    shop: &mut Shop,
    out: &mut String,
    letter: &str,
) -> Result<(), NoMemory> {
    let text = text_of(alloc, files, letter)?;
    let Some(path) = path_of(alloc, files, letter) else {
        return say(out, "no file");
    };
    if put(alloc, shop, &path, text.as_slice()) {
        return Ok(());
    }
    say(out, "put refused")
}

fn run_step(
    alloc: Global,
    shop: &mut Shop,
    out: &mut String,
    moment: &str,
) -> Result<(), NoMemory> {
    let Ok(moment) = moment.parse::<u64>() else {
        return say(out, "no moment");
    };
    run_at(alloc, shop, out, moment)
}

fn run_at(alloc: Global, shop: &mut Shop, out: &mut String, now: u64) -> Result<(), NoMemory> {
    let line = expire_line(alloc, shop, Moment(now))?;
    let slip = if line.slip().is_some() {
        " by a slip"
    } else {
        ""
    };
    let at = line.moment().0;
    let text = format!(in alloc; "{at}: {}{slip}", line.as_bytes().escape_ascii())?;
    say(out, text.as_str())
}

// The handle of a file.
fn handle_of(alloc: Global, shop: &mut Shop, path: &CachePath) -> Option<MemoryBody> {
    match shop.fetch(alloc, path) {
        Ok(held) => Some(held.body),
        Err(_) => None,
    }
}

fn read_step(
    alloc: Global,
    files: &str,
    shop: &mut Shop,
    out: &mut String,
    rest: &str,
) -> Result<(), NoMemory> {
    let (letter, moment) = rest.split_once(' ').unwrap_or((rest, ""));
    let Some(path) = path_of(alloc, files, letter) else {
        return say(out, "no file");
    };
    let Some(body) = handle_of(alloc, shop, &path) else {
        return say(out, "not fetched");
    };
    run_step(alloc, shop, out, moment)?;
    say_text(alloc, body, out)
}

fn say_text(alloc: Global, body: MemoryBody, out: &mut String) -> Result<(), NoMemory> {
    let mut body = body;
    let mut bytes = [0u8; 64];
    let Ok(count) = body.read_at(0, &mut bytes) else {
        return say(out, "no read");
    };
    let text = format!(in alloc; "read {}", bytes[..count].escape_ascii())?;
    say(out, text.as_str())
}

fn show_step(alloc: Global, shop: &Shop, out: &mut String) -> Result<(), NoMemory> {
    let paths = held_paths(alloc, shop)?;
    for path in &paths {
        show_row(alloc, shop, path, out)?;
    }
    let text = format!(in alloc; "rows {}", shop.count())?;
    say(out, text.as_str())
}

fn show_row(
    alloc: Global,
    shop: &Shop,
    path: &CachePath,
    out: &mut String,
) -> Result<(), NoMemory> {
    let Some(row) = shop.row(path) else {
        return say(out, "no row");
    };
    let name = path.as_bytes().escape_ascii();
    let text = match row.mark {
        Some(mark) => format!(in alloc; "{name} {} {}", row.size, mark.0)?,
        None => format!(in alloc; "{name} {} -", row.size)?,
    };
    say(out, text.as_str())
}
