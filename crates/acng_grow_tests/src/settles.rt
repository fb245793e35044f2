//! The end of a body: its file is made durable and sealed, a held file is kept, and the plan of a body is compared.
ghost use Rattle.std.specs.Prelude.{◌≡◌, Some, None};
ghost use Rattle.acng_grow.specs.Effects.{opening as opening_seen};

use crate::bodies::{Body, Unmade, opening, running, send};
use acng_base::{CachePath, Text};
use acng_grow::{Facts, Seen, Stage};
use acng_head::Label;
use acng_keeper::{BodyFile, BodyId, Keeper, MemoryBody, MemoryKeeper};
use std::alloc::Global;
use std::test::Fail;

const LABEL: Label = Label::Fetched { first: 3, last: 3 };

fn two_bytes() -> Facts
    ensures { result ≡ record { total = Some 2; modified = None; tag = None } }
{
    Facts {
        total: Some(2),
        modified: None,
        tag: None,
    }
}

// A keeper whose first body is sealed by a growing one of two bytes.
fn sealed(alloc: Global) -> Result<MemoryKeeper, Unmade> {
    let mut keeper = MemoryKeeper::new(alloc, &[])?;
    let mut body = opening(alloc)?;
    seal(alloc, &mut keeper, &mut body)?;
    Ok(keeper)
}

fn seal(alloc: Global, keeper: &mut MemoryKeeper, body: &mut Body) -> Result<(), Unmade>
    requires { body.old.seen ≡ opening_seen }
{
    let url = Text::copy(alloc, b"http://h/a")?;
    if keeper.next_id() != 0 {
        return Err(Unmade::Keeper);
    }
    let (_, file) = keeper.create(alloc)?;
    body.begin_body(file, url, 3, two_bytes());
    body.add(alloc, b"ab")?;
    body.finish();
    if body.flush().is_err() {
        return Err(Unmade::Keeper);
    }
    Ok(body.seal(alloc, keeper)?)
}

// A held file is kept by another body, and sent from its second byte on.
fn is_kept(alloc: Global, held: MemoryBody) -> Result<bool, Unmade> {
    if held.len() != 2 {
        return Ok(false);
    }
    let mut body = opening(alloc)?;
    body.same(held, LABEL, two_bytes());
    Ok(send(alloc, &mut body, 1)?.as_slice() == b"b".as_slice() && body.label() == Some(LABEL))
}

fn seals_and_keeps(alloc: Global) -> Result<bool, Unmade> {
    let mut keeper = sealed(alloc)?;
    let bodies = keeper.list_bodies(alloc)?;
    Ok(bodies.len() == 1 && keeper.next_id() == 1)
}

#[test]
fn a_whole_body_is_sealed(rt: HostRuntime) -> Result<(), Fail> {
    assert!(rt; matches!(seals_and_keeps(rt.alloc()), Ok(true)));
    Ok(())
}

// A file of two bytes.
fn held(alloc: Global) -> Result<MemoryBody, Unmade> {
    let mut keeper = MemoryKeeper::new(alloc, &[])?;
    let (_, mut file) = keeper.create(alloc)?;
    file.append(alloc, b"ab")?;
    Ok(file)
}

#[test]
fn a_held_file_is_kept(rt: HostRuntime) -> Result<(), Fail> {
    let alloc = rt.alloc();
    let Ok(file) = held(alloc) else {
        assert!(rt; false, "the file is there");
        return Ok(());
    };
    assert!(rt; matches!(is_kept(alloc, file), Ok(true)));
    Ok(())
}

// Which of two flushes is refused, where the keeper's call of this number fails. The body is made by the calls 0 and 1.
fn refused_flush(alloc: Global, failing: u64) -> Result<Option<u64>, Unmade> {
    let mut body: Body = running(alloc, &[failing], b"ab", None)?;
    for flush in 0..2u64 {
        if body.flush().is_err() {
            return Ok(Some(flush));
        }
    }
    Ok(None)
}

#[test]
fn a_flush_is_one_call_of_the_file(rt: HostRuntime) -> Result<(), Fail> {
    let alloc = rt.alloc();
    assert!(rt; matches!(refused_flush(alloc, 2), Ok(Some(0))));
    assert!(rt; matches!(refused_flush(alloc, 3), Ok(Some(1))));
    assert!(rt; matches!(refused_flush(alloc, 4), Ok(None)));
    Ok(())
}

// Whether the body of three bytes is to be seen so.
fn shows(alloc: Global, file: u64, stage: Stage, size: u64, first: u64) -> Result<bool, Unmade> {
    let body: Body = running(alloc, &[], b"abc", None)?;
    let plan = Seen {
        url: Some(Text::copy(alloc, b"http://h/a")?),
        stage,
        label: Some(Label::Fetched { first, last: 3 }),
        facts: Facts::none(),
        size,
        shown: None,
    };
    Ok(body.shows(&CachePath::read(alloc, b"h/a")?, Some(BodyId(file)), &plan))
}

#[test]
fn a_body_shows_its_plan_alone(rt: HostRuntime) -> Result<(), Fail> {
    let alloc = rt.alloc();
    assert!(rt; matches!(shows(alloc, 0, Stage::Running, 3, 3), Ok(true)));
    assert!(rt; matches!(shows(alloc, 1, Stage::Running, 3, 3), Ok(false))); // another file
    assert!(rt; matches!(shows(alloc, 0, Stage::Cut, 3, 3), Ok(false)));
    assert!(rt; matches!(shows(alloc, 0, Stage::Running, 2, 3), Ok(false)));
    assert!(rt; matches!(shows(alloc, 0, Stage::Running, 3, 2), Ok(false)));
    Ok(())
}
