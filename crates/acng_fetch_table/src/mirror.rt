//! The mirror of a script, and what is written down of the asks that it gets.
ghost use Rattle.std.specs.Prelude.{◌≡◌, ◌<◌, IfSome};
ghost use Rattle.acng_base.specs.Moments.{moment_limit};
ghost use Rattle.acng_site.specs.Dials.{DialsFor};

use crate::script::Script;
use crate::told::{put, put_bytes, put_number};
use acng_base::{FileFault, NoMemory};
use acng_site::{
    Ask, Conn, Dial, Gate, MemoryOrigin, Origin, OriginSlip, Request, Right, Site, Try, Untold,
};
use std::alloc::Global;
use std::cell::RefCell;
use std::rc::Rc;
use std::str::from_utf8;

/// What was written down.
pub type Notes = Rc<RefCell<String>>;

/// The origin that answers by a script.
pub type Mirror = Noted<MemoryOrigin<Untold, Reads>>;

/// Writes down how many bytes were given before each read.
#[derive(Drop)]
pub struct Reads {
    notes: Notes,
}

impl Gate for Reads {
    fn pass(&self, attempt: u64, given: u64) {
        let _ = attempt;
        if let Ok(mut guard) = self.notes.try_borrow_mut() {
            let told: &mut String = &mut guard;
            let _ = put_number(told, given);
        }
    }
}

/// An origin, of which each ask is written down.
#[derive(Drop)]
pub struct Noted<O> {
    origin: O,
    notes: Notes,
}

impl<S: Site, O: Origin<S>> Origin<S> for Noted<O> {
    type Slip = O::Slip;

    type Conn = O::Conn;

    fn dial(&self, alloc: Global, attempt: Try<S>, ask: &Ask) -> Dial<O::Conn, O::Slip>
        requires since { IfSome ask.now.since (λ moment. moment.0 < moment_limit) }
        ensures answer { DialsFor S.Site ⟦<O::Conn as Conn>⟧ ⟦<O::Slip as OriginSlip>⟧ attempt.number ask.now result }
    {
        note(alloc, &self.notes, attempt.number(), ask);
        self.origin.dial(alloc, attempt, ask)
    }
}

// Writes down the URL of an ask, and the fields that it adds to each request.
fn note(alloc: Global, notes: &Notes, number: u64, ask: &Ask)
    requires since { IfSome ask.now.since (λ moment. moment.0 < moment_limit) }
{
    let Ok(request) = Request::of(alloc, ask) else {
        return;
    };
    let Ok(mut guard) = notes.try_borrow_mut() else {
        return;
    };
    let told: &mut String = &mut guard;
    let _ = put_ask(told, number, ask.url.as_bytes(), request.text.as_bytes());
}

// The number of an attempt, the URL, and the lines of a request behind those that each has.
fn put_ask(told: &mut String, number: u64, url: &[u8], request: &[u8]) -> Result<(), FileFault> {
    put(told, "\n")?;
    put_number(told, number)?;
    put_bytes(told, url)?;
    if let Ok(text) = from_utf8(request) {
        if let Some((_, fields)) = text.split_once("Connection: close\r\n") {
            put_fields(told, fields)?;
        }
    }
    put(told, ":")
}

fn put_fields(told: &mut String, fields: &str) -> Result<(), FileFault> {
    for field in fields.trim_end().lines() {
        put(told, " [")?;
        put(told, field)?;
        put(told, "]")?;
    }
    Ok(())
}

/// Notes of which nothing is written yet.
pub fn new_notes(alloc: Global) -> Result<Notes, NoMemory> {
    let notes = Rc::new(alloc, RefCell::new(String::new(alloc)))?;
    Ok(notes)
}

/// The mirror of a script, and the right to its attempts.
pub fn start(
    alloc: Global,
    script: &Script,
    notes: &Notes,
) -> Result<(Mirror, Right<Untold>), FileFault> {
    let gate = Reads {
        notes: Rc::clone(notes)?,
    };
    let (origin, right) = MemoryOrigin::<Untold, Reads>::start(
        alloc,
        script.rules.as_slice(),
        script.cut.max(1),
        gate,
    )?;
    let notes = Rc::clone(notes)?;
    Ok((Noted { origin, notes }, right))
}
