//! The one that loads a body which others follow, over memory and a site that tells nothing.
use acng_base::{CachePath, NoMemory, PathFault, Text};
use acng_grow::{Facts, Growing, Seen, Shared, Stage, Why};
use acng_head::Label;
use acng_keeper::{KeepFault, Keeper, MemoryBody, MemoryKeeper};
use acng_site::{AttemptSlip, Untold};
use std::alloc::Global;
use std::sync::Wait;

/// A body over memory, and one behind its lock.
pub type Grown = Growing<Untold, MemoryBody, AttemptSlip>;

pub type Body = Shared<Untold, MemoryBody, AttemptSlip>;

/// Why a test's body couldn't be made.
#[derive(Debug, Drop)]
pub enum Unmade {
    Path,
    Memory,
    Keeper,
}

impl From<NoMemory> for Unmade {
    fn from(_: NoMemory) -> Unmade {
        Unmade::Memory
    }
}

impl From<PathFault> for Unmade {
    fn from(_: PathFault) -> Unmade {
        Unmade::Path
    }
}

impl<P: Drop> From<KeepFault<P>> for Unmade {
    fn from(_: KeepFault<P>) -> Unmade {
        Unmade::Keeper
    }
}

/// How a body is loaded: in pieces of so many bytes, to its end or until it breaks off.
#[derive(Clone, Copy)]
pub struct How {
    pub piece: usize,
    pub whole: bool,
}

/// Loads a body with a text, and tells of each change.
pub fn load<R: Wait>(
    rt: &R,
    alloc: Global,
    body: &Body,
    text: &[u8],
    how: How,
) -> Result<(), Unmade> {
    begin(rt, alloc, body)?;
    if how.piece == 0 {
        return Err(Unmade::Path);
    }
    for piece in text.chunks(how.piece) {
        add(rt, alloc, body, piece)?;
    }
    end(rt, body, how.whole)
}

// Opens the body by attempt 3.
fn begin<R: Wait>(rt: &R, alloc: Global, body: &Body) -> Result<(), Unmade> {
    let mut keeper = MemoryKeeper::new(alloc, &[])?;
    let (_, file) = keeper.create(alloc)?;
    let url = Text::copy(alloc, b"http://h/a")?;
    let path = CachePath::read(alloc, b"h/a")?;
    let plan = Seen {
        url: None,
        stage: Stage::Opening,
        label: None,
        facts: Facts::none(),
        size: 0,
        shown: None,
    };
    body.hold_as(rt, &path, None, &plan)
        .begin_body(file, url, 3, Facts::none());
    body.tell();
    Ok(())
}

fn add<R: Wait>(rt: &R, alloc: Global, body: &Body, piece: &[u8]) -> Result<(), Unmade> {
    let added = add_to(alloc, &mut *body.hold(rt), piece);
    body.tell();
    added
}

// Puts a piece at the end of a body that runs.
fn add_to(alloc: Global, body: &mut Grown, piece: &[u8]) -> Result<(), Unmade> {
    if body.len() > 1_000_000 || piece.len() > 1_000_000 || body.facts().total.is_some() {
        return Err(Unmade::Memory);
    }
    match body.stage() {
        Stage::Running => {
            body.add(alloc, piece)?;
            Ok(())
        }
        _ => Err(Unmade::Keeper),
    }
}

// Ends the body, whole or before its last byte came.
fn end<R: Wait>(rt: &R, body: &Body, whole: bool) -> Result<(), Unmade> {
    let ended = if whole {
        finish(&mut *body.hold(rt))
    } else {
        break_off(&mut *body.hold(rt))
    };
    body.tell();
    ended
}

fn finish(body: &mut Grown) -> Result<(), Unmade> {
    if body.facts().total.is_some() {
        return Err(Unmade::Memory);
    }
    match body.stage() {
        Stage::Running => {
            body.finish();
            Ok(())
        }
        _ => Err(Unmade::Keeper),
    }
}

fn break_off(body: &mut Grown) -> Result<(), Unmade> {
    let Some(Label::Fetched { last, .. }) = body.label() else {
        return Err(Unmade::Memory);
    };
    if last > 3 {
        return Err(Unmade::Memory);
    }
    match body.stage() {
        Stage::Running => {
            body.cut(Why::Early { attempt: 3 });
            Ok(())
        }
        _ => Err(Unmade::Keeper),
    }
}
