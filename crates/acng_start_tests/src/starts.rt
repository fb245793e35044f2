//! What a start makes of stored heads and bodies.
ghost use Rattle.std.specs.Prelude.{◌≡◌, ◌≢◌, ◌<◌, ◌≤◌, length, IfOk};
ghost use Rattle.acng_desk.specs.Keeps.{IsIdle};

use crate::folder::{Folder, counts, fill, no_folder, opened, path_of};
use acng_base::{Moment, Texts};
use acng_class::Class;
use acng_conf::{Conf, read_conf};
use acng_desk::{Begun, Desk, StartCause, StartFault};
use acng_head::Label;
use acng_keeper::SlipOf;
use acng_site::{MemoryOrigin, NoGate, Right, Untold};
use std::alloc::Global;
use std::fs;
use std::process::Abort;
use std::test::Fail;

type Shop = Desk<Untold, Folder, ()>;

/// The right of an origin that has nothing.
fn right(rt: &impl Abort, alloc: Global) -> Right<Untold> {
    match MemoryOrigin::start(alloc, &[], 1, NoGate) {
        Ok((_, right)) => right,
        Err(_) => panic!(rt; "there is memory"),
    }
}

fn conf(rt: &impl Abort, alloc: Global) -> Conf {
    match read_conf(alloc, b"", &[]) {
        Ok(conf) => conf,
        Err(_) => panic!(rt; "the configuration reads"),
    }
}

// The rows of the paths, each as `LETTER ID:SIZE@CHECKED,FIRST-LAST`, and how many there are.
fn rows(rt: &impl Abort, alloc: Global, shop: &Shop) -> Result<String, Fail> {
    let mut rows = String::new(alloc);
    for name in ['a', 'b'] {
        let Some(row) = shop.row(&path_of(rt, alloc, name)) else {
            continue;
        };
        let Label::Fetched { first, last } = row.label else {
            panic!(rt; "a download");
        };
        let row = format!(in alloc;
            "{name}{}:{}@{},{first}-{last} ",
            row.id.0, row.size, row.checked.0
        )?;
        rows.push_str(row.as_str())?;
    }
    rows.push_str(format!(in alloc; "#{}", shop.count())?.as_str())?;
    Ok(rows)
}

// The desk that a start gives.
fn desk(
    rt: &impl Abort,
    alloc: Global,
    keeper: Folder,
    limit: u32,
) -> Result<Shop, StartFault<Folder, SlipOf<Folder>>>
    requires some { 1 ≤ limit }
    requires few { limit ≤ 4 }
    ensures idle { IfOk result (λ shop. IsIdle shop.plain) }
{
    let conf = conf(rt, alloc);
    Desk::start(alloc, keeper, right(rt, alloc), &conf, limit)
}

// How many heads and bodies its keeper has.
fn left(rt: &impl Abort, alloc: Global, shop: Shop) -> (usize, usize)
    requires idle { IsIdle shop.plain }
{
    let mut keeper = shop.into_keeper();
    counts(rt, alloc, &mut keeper)
}

fn refusal<P>(alloc: Global, cause: &StartCause<P>) -> Result<String, Fail> {
    match cause {
        StartCause::TooMany { count } => Ok(format!(in alloc; "too many {count}")?),
        StartCause::KeeperFault(_) => Ok(format!(in alloc; "fault")?),
        StartCause::NoMemory => Ok(format!(in alloc; "no memory")?),
    }
}

// What a start answers: the rows, and then how many heads and bodies are left.
fn start(rt: &impl Abort, alloc: Global, keeper: Folder, limit: u32) -> Result<String, Fail>
    requires some { 1 ≤ limit }
    requires few { limit ≤ 4 }
{
    match desk(rt, alloc, keeper, limit) {
        Ok(shop) => {
            let rows = rows(rt, alloc, &shop);
            let (heads, bodies) = left(rt, alloc, shop);
            let rows = rows?;
            Ok(format!(in alloc; "{rows} {heads} {bodies}")?)
        }
        Err(fault) => refusal(alloc, &fault.cause),
    }
}

// What is stored, the limit, and what a start answers: nothing; one good head; two of one path; the same, but the greater
// id is of another size; a head without a body; a body without a head; a body shorter and one longer than its head says; a
// torn head; an unsealed body; an empty file and the last attempt; more rows than the limit, and as many.
const STARTS: &str = "\
|4|#0 0 0
a:3:abc:s:7|4|a0:3@10,7-7 #1 1 1
a:3:abc:s:7 a:2:xy:s:8|4|a1:2@10,8-8 #1 1 1
a:3:abc:s:7 a:2:xyz:s:8|4|a0:3@10,7-7 #1 1 1
a:3:abc:s:7 b:2:xy:n:8|4|a0:3@10,7-7 #1 1 1
a:3:abc:s:7 -:0:xy:s:8|4|a0:3@10,7-7 #1 1 1
a:3:abc:s:7 b:3:xy:s:8|4|a0:3@10,7-7 #1 1 1
a:3:abc:s:7 b:2:xyz:s:8|4|a0:3@10,7-7 #1 1 1
a:3:abc:t:7 b:2:xy:s:8|4|b1:2@10,8-8 #1 1 1
a:3:abc:s:7 -:0:xy:o:8|4|a0:3@10,7-7 #1 1 1
b:0::s:1 a:1:x:s:9223372036854775807|4|a1:1@10,9223372036854775807-9223372036854775807 b0:0@10,1-1 #2 2 2
a:3:abc:s:7 b:2:xy:s:8|1|too many 2
a:3:abc:s:7 b:2:xy:t:8|1|a0:3@10,7-7 #1 1 1";

// Stores what a line says in a new folder, and compares what a start answers, and another after it.
fn holds(rt: &impl Abort, host: &HostRuntime, line: &str) -> Result<(), Fail> {
    let alloc = host.alloc();
    let mut fields = line.split('|');
    let items = fields.next().ok_or("items")?;
    let limit = if fields.next() == Some("1") { 1 } else { 4 };
    let wanted = fields.next().ok_or("an answer")?;
    let folder = no_folder(host)?;
    let mut keeper = opened(host, folder.as_str())?;
    fill(rt, alloc, &mut keeper, items);
    assert_eq!(rt; start(rt, alloc, keeper, limit)?.as_str(), wanted, "{line}");
    let keeper = opened(host, folder.as_str())?;
    assert_eq!(rt;
        start(rt, alloc, keeper, limit)?.as_str(),
        wanted,
        "{line}, again"
    );
    fs::remove_dir_all(host, folder.as_str())?;
    Ok(())
}

#[test]
fn a_start_keeps_the_good_heads_and_nothing_else(rt: HostRuntime) -> Result<(), Fail> {
    for line in STARTS.lines() {
        holds(&rt, &rt, line)?;
    }
    Ok(())
}

// How a call for a path is let in, in a letter.
fn letter(rt: &impl Abort, alloc: Global, shop: &mut Shop, name: char) -> char {
    let mut origins = Texts::new(alloc);
    assert!(rt; origins.push(alloc, b"http://h/a").is_ok());
    assert!(rt; !origins.is_empty());
    let path = path_of(rt, alloc, name);
    match shop.begin(alloc, &path, Class::Solid, &origins, Moment(20), ()) {
        Begun::Lead(ticket, _entry) => panic!(rt; "try {}", ticket.first_try()),
        Begun::Kept(_held, _entry) => 'k',
        Begun::Join(_token, _entry) => 'j',
        Begun::Offline(_) => 'o',
        Begun::Full(_) => 'f',
        Begun::Worn(_) => 'w',
        Begun::KeeperFault(_) => 's',
        Begun::NoMemory => 'm',
    }
}

// The letters of two calls behind a start.
fn letters(rt: &impl Abort, alloc: Global, keeper: Folder) -> (char, char) {
    match desk(rt, alloc, keeper, 4) {
        Ok(mut shop) => {
            let first = letter(rt, alloc, &mut shop, 'b');
            (first, letter(rt, alloc, &mut shop, 'a'))
        }
        Err(_) => panic!(rt; "the desk starts"),
    }
}

#[test]
fn after_the_last_attempt_what_is_held_is_served(rt: HostRuntime) -> Result<(), Fail> {
    let alloc = rt.alloc();
    let folder = no_folder(&rt)?;
    let mut keeper = opened(&rt, folder.as_str())?;
    fill(&rt, alloc, &mut keeper, "a:1:x:s:9223372036854775807");
    assert_eq!(rt; letters(&rt, alloc, keeper), ('w', 'k'));
    fs::remove_dir_all(&rt, folder.as_str())?;
    Ok(())
}
