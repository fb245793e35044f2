//! The run of a script: each of its requests is let in, and loads the file where the desk says so.
ghost use Rattle.std.specs.Prelude.{◌≡◌, ◌≢◌};
ghost use Rattle.acng_class.specs.declared.class.Class.TheVariants.{Forbidden};
ghost use Rattle.acng_desk.specs.Tickets.{IsUnused};

use crate::mirror::{Mirror, Notes, new_notes, start};
use crate::script::Script;
use crate::told::{
    put, put_bytes, put_end, put_facts, put_label, put_number, put_row, put_ticket, settled_name,
};
use acng_base::{CachePath, FileFault, Moment, first_bytes};
use acng_class::Class;
use acng_conf::{Conf, read_conf};
use acng_desk::{Begun, Desk, Held, Info, Ticket};
use acng_fetch::load_owned;
use acng_grow::{Growing, Taken};
use acng_keeper::{BodyFile, MemoryBody, MemoryKeeper};
use acng_site::{AttemptSlip, Right, Untold};
use std::alloc::Global;

type TableDesk = Desk<Untold, MemoryKeeper, ()>;

type TableBody = Growing<Untold, MemoryBody, AttemptSlip>;

type TableTicket = Ticket<Untold, MemoryBody>;

/// What a script made.
pub fn run(alloc: Global, script: &Script) -> Result<String, FileFault> {
    let notes = new_notes(alloc)?;
    put_note(&notes, script.name.as_str())?;
    run_desk(alloc, script, &notes)?;
    put_note(&notes, "\n\n")?;
    taken(alloc, &notes)
}

// The requests of a script, over a mirror and a desk of their own.
fn run_desk(alloc: Global, script: &Script, notes: &Notes) -> Result<(), FileFault> {
    let (mirror, right) = start(alloc, script, notes)?;
    let conf = conf_of(alloc, script.conf.as_str())?;
    let mut desk = open(alloc, right, &conf)?;
    ask_all(alloc, &mut desk, &mirror, script, notes)
}

fn ask_all(
    alloc: Global,
    desk: &mut TableDesk,
    mirror: &Mirror,
    script: &Script,
    notes: &Notes,
) -> Result<(), FileFault> {
    for moment in script.asks.iter() {
        put_note(notes, "\nask")?;
        ask(alloc, desk, mirror, script, *moment, notes)?;
    }
    Ok(())
}

// What was written down, which is taken out.
fn taken(alloc: Global, notes: &Notes) -> Result<String, FileFault> {
    match notes.try_replace(String::new(alloc)) {
        Ok(told) => Ok(told),
        Err(_) => Err(FileFault::Failed),
    }
}

fn put_note(notes: &Notes, text: &str) -> Result<(), FileFault> {
    match notes.try_borrow_mut() {
        Ok(mut guard) => put(&mut guard, text),
        Err(_) => Err(FileFault::Failed),
    }
}

fn conf_of(alloc: Global, text: &str) -> Result<Conf, FileFault> {
    match read_conf(alloc, text.as_bytes(), &[]) {
        Ok(conf) => Ok(conf),
        Err(_) => Err(FileFault::Failed),
    }
}

// A desk over an empty keeper.
#[tactic(auto, using(crate::proofs::Empty::nothing_faithful))]
fn open(alloc: Global, right: Right<Untold>, conf: &Conf) -> Result<TableDesk, FileFault> {
    let keeper = MemoryKeeper::new(alloc, &[])?;
    match Desk::start(alloc, keeper, right, conf, 8) {
        Ok(desk) => Ok(desk),
        Err(_) => Err(FileFault::Failed),
    }
}

fn class_of(volatile: bool) -> Class
    ensures { result ≢ Forbidden }
{
    if volatile {
        Class::Volatile
    } else {
        Class::Solid
    }
}

fn path_of(alloc: Global) -> Result<CachePath, FileFault> {
    match CachePath::read(alloc, b"m/f") {
        Ok(path) => Ok(path),
        Err(_) => Err(FileFault::Failed),
    }
}

// One request at a moment.
fn ask(
    alloc: Global,
    desk: &mut TableDesk,
    mirror: &Mirror,
    script: &Script,
    moment: u64,
    notes: &Notes,
) -> Result<(), FileFault> {
    let path = path_of(alloc)?;
    if script.origins.is_empty() {
        return Err(FileFault::Failed);
    }
    let class = class_of(script.volatile);
    match desk.begin(alloc, &path, class, &script.origins, Moment(moment), ()) {
        Begun::Kept(held, _entry) => tell_kept(notes, held),
        Begun::Lead(ticket, _entry) => load(alloc, desk, mirror, path, ticket, notes),
        Begun::Join((), _entry) => Err(FileFault::Failed),
        Begun::Offline(_brim) => Err(FileFault::Failed),
        Begun::Full(_brim) => Err(FileFault::Failed),
        Begun::Worn(_brim) => Err(FileFault::Failed),
        Begun::KeeperFault(_slip) => Err(FileFault::Failed),
        Begun::NoMemory => Err(FileFault::NoMemory),
    }
}

// Loads the file by a ticket. The ticket has to be spent, so what can't be printed is said behind that.
fn load(
    alloc: Global,
    desk: &mut TableDesk,
    mirror: &Mirror,
    path: CachePath,
    ticket: TableTicket,
    notes: &Notes,
) -> Result<(), FileFault>
    requires unused { IsUnused ticket }
    requires path { path ≡ ticket.info.path }
{
    let told = tell_ticket(notes, ticket.info());
    let mut body = Growing::new(path);
    let loaded = load_owned(alloc, ticket, mirror, &mut body, desk);
    told?;
    tell_body(notes, &mut body)?;
    put_note(notes, "\n settled")?;
    put_note(notes, settled_name(&loaded.settled))?;
    tell_row(notes, desk, body.path())
}

// ---- what is told

fn tell_ticket(notes: &Notes, info: &Info) -> Result<(), FileFault> {
    match notes.try_borrow_mut() {
        Ok(mut guard) => put_ticket(&mut guard, info),
        Err(_) => Err(FileFault::Failed),
    }
}

fn tell_body(notes: &Notes, body: &mut TableBody) -> Result<(), FileFault> {
    let mut buf = [0u8; 4096];
    let count = match body.take(0, &mut buf) {
        Taken::Bytes(count) => count,
        _ => 0,
    };
    match notes.try_borrow_mut() {
        Ok(mut guard) => put_body(&mut guard, body, first_bytes(&buf, count)),
        Err(_) => Err(FileFault::Failed),
    }
}

fn put_body(told: &mut String, body: &TableBody, bytes: &[u8]) -> Result<(), FileFault> {
    put(told, "\n end")?;
    put_end(told, body.stage(), &body.shown())?;
    put_number(told, body.len())?;
    put_label(told, body.label())?;
    put_facts(told, &body.facts())?;
    put_bytes(told, body.url().unwrap_or(b""))?;
    put_bytes(told, bytes)
}

fn tell_row(notes: &Notes, desk: &TableDesk, path: &CachePath) -> Result<(), FileFault> {
    match notes.try_borrow_mut() {
        Ok(mut guard) => put_row(&mut guard, desk.row(path)),
        Err(_) => Err(FileFault::Failed),
    }
}

fn tell_kept(notes: &Notes, held: Held<MemoryBody>) -> Result<(), FileFault> {
    let mut buf = [0u8; 4096];
    let mut held = held;
    let count = held.body.read_at(0, &mut buf).unwrap_or(0);
    match notes.try_borrow_mut() {
        Ok(mut guard) => put_kept(&mut guard, &held, first_bytes(&buf, count)),
        Err(_) => Err(FileFault::Failed),
    }
}

fn put_kept(told: &mut String, held: &Held<MemoryBody>, bytes: &[u8]) -> Result<(), FileFault> {
    put(told, " kept")?;
    put_number(told, held.size)?;
    put_label(told, Some(held.label))?;
    put_facts(told, &held.facts)?;
    put_bytes(told, bytes)
}
