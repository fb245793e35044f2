//! Which report pages a request may get: a row for each held file in the order of their paths, the row's size that of an
//! edition, and a last row with their number and the sum of their sizes; before them the line of the run that was asked for.
use crate::heads::page_head;
use crate::law::Judged;
use crate::places::{Kind, LAST_EDITION, PLACES, Place, place_of};
use crate::tally::{Served, Wrong};
use acng_expire::ExpireLine;
use acng_serve::{Cause, Note};
use std::alloc::Global;
use std::str;

const TOP: &str = "<!DOCTYPE html><html><head><title>acng report</title></head><body><pre>\n";

const END: &str = "</pre></body></html>\n";

/// A request for the page: its moment, whether it asks for a run, and whether calls of the keeper fail.
#[derive(Clone, Copy)]
pub struct Visit {
    pub moment: u64,
    pub runs: bool,
    pub fails: bool,
}

/// Checks the page, which is the last reply of its connection, and its note.
pub fn check_page<Q>(alloc: Global, visit: Visit, note: &Note<Q>, rest: &[u8]) -> Judged {
    let Cause::Page { page, run } = &note.cause else {
        return Err(Wrong::Cause);
    };
    check_run(visit, page.first(), run.as_ref())?;
    if note.status != 200 {
        return Err(Wrong::Status);
    }
    if note.entry.is_some() || note.label.is_some() || note.part.is_some() {
        return Err(Wrong::Entry);
    }
    let len = page.as_bytes().len();
    let head = page_head(alloc, len)?;
    let body = rest
        .strip_prefix(head.as_str().as_bytes())
        .ok_or(Wrong::Head)?;
    if body != page.as_bytes() {
        return Err(Wrong::Body);
    }
    if note.sent != len as u64 || !note.whole {
        return Err(Wrong::Sent);
    }
    let removed = check_text(visit, body).ok_or(Wrong::Page)?;
    Ok((rest.len(), Served::Page { removed }))
}

// The run is one of the request's moment, and its line stands first; or no run was asked for, and nothing stands first.
fn check_run<Q>(visit: Visit, first: &[u8], run: Option<&ExpireLine<Q>>) -> Result<(), Wrong> {
    let lawful = match run {
        Some(run) => visit.runs && run.moment().0 == visit.moment && run.as_bytes() == first,
        None => !visit.runs && first.is_empty(),
    };
    if lawful { Ok(()) } else { Err(Wrong::Cause) }
}

// Reads a page. Says how many files its run removed.
fn check_text(visit: Visit, body: &[u8]) -> Option<u64> {
    let text = str::from_utf8(body).ok()?;
    let text = text.strip_prefix(TOP)?.strip_suffix(END)?;
    if !visit.runs {
        check_rows(text)?;
        return Some(0);
    }
    let (line, table) = text.split_once('\n')?;
    let marked = check_rows(table)?;
    if let Some(rest) = line.strip_prefix("stopped removed ") {
        return rest.parse::<u64>().ok().filter(|_| visit.fails);
    }
    let (removed, told) = line.strip_prefix("done removed ")?.split_once(" marked ")?;
    if told.parse::<u64>().ok()? != marked {
        return None;
    }
    removed.parse::<u64>().ok()
}

// What the rows before a place of a table say.
#[derive(Clone, Copy)]
struct Sum<'a> {
    path: &'a str,
    rows: u64,
    bytes: u64,
    marked: u64,
}

// Reads a table. Says how many of its files have a mark.
fn check_rows(table: &str) -> Option<u64> {
    let mut sum = Sum {
        path: "",
        rows: 0,
        bytes: 0,
        marked: 0,
    };
    let mut ended = false;
    for line in table.lines() {
        if ended {
            return None;
        }
        match line.strip_prefix("rows ") {
            Some(rest) => ended = is_last(rest, sum),
            None => sum = after_row(line, sum)?,
        }
    }
    ended.then_some(sum.marked)
}

// Whether the last row is right.
fn is_last(rest: &str, sum: Sum<'_>) -> bool {
    match rest.split_once(" bytes ") {
        Some((rows, bytes)) => {
            rows.parse::<u64>().ok() == Some(sum.rows)
                && bytes.parse::<u64>().ok() == Some(sum.bytes)
        }
        None => false,
    }
}

// The sum behind a further row.
fn after_row<'a>(line: &'a str, sum: Sum<'a>) -> Option<Sum<'a>> {
    let (path, rest) = line.split_once(' ')?;
    let (size, rest) = rest.split_once(' ')?;
    let (class, mark) = rest.split_once(' ')?;
    let size = size.parse::<u64>().ok()?;
    if path.as_bytes() <= sum.path.as_bytes() || !is_held(path, size, class) {
        return None;
    }
    let marked = match mark {
        "-" => 0,
        _ => mark.parse::<u64>().ok().map(|_| 1)?,
    };
    Some(Sum {
        path,
        rows: sum.rows.saturating_add(1),
        bytes: sum.bytes.saturating_add(size),
        marked: sum.marked.saturating_add(marked),
    })
}

// Whether a file of this path, size and class may be held.
fn is_held(path: &str, size: u64, class: &str) -> bool {
    for number in 0..PLACES {
        let place = place_of(number);
        if place.path == path {
            return place.comes_whole() && place.class() == class && has_size(place, size);
        }
    }
    false
}

fn has_size(place: Place, size: u64) -> bool {
    let most = match place.kind {
        Kind::Index => place.length(LAST_EDITION),
        _ => place.len,
    };
    place.len <= size && size <= most
}
