//! A body in each of its stages.
ghost use Rattle.std.specs.Prelude.{◌≡◌, ◌≤◌, Some};
ghost use Rattle.acng_head.specs.declared.head.Label.TheVariants.{Fetched};
ghost use Rattle.acng_grow.specs.declared.facts.Stage.TheVariants.{Running};
ghost use Rattle.acng_grow.specs.Effects.{opening as opening_seen};

use crate::bodies::{Body, Unmade, opening, running, send};
use acng_base::CachePath;
use acng_grow::{Asked, Shown, Taken, Why};
use acng_head::Label;
use std::alloc::Global;
use std::test::Fail;

// What `take` gives from a place into a buffer of so many bytes: a letter, and the bytes.
fn taken(body: &mut Body, from: u64, room: usize) -> (char, [u8; 4])
    requires { (1 ≤ room) × (room ≤ 4) }
    ensures { body.new.seen ≡ body.old.seen }
{
    let mut buf = *b"----";
    let letter = match body.take(from, &mut buf[..room]) {
        Taken::Bytes(1) => '1',
        Taken::Bytes(2) => '2',
        Taken::Bytes(3) => '3',
        Taken::Bytes(_) => '4',
        Taken::NotYet => 'n',
        Taken::Done => 'd',
        Taken::Cut => 'c',
        Taken::Slip(_) => 's',
    };
    (letter, buf)
}

// The bytes of a body of three of four bytes, while it runs and after it was cut.
fn runs_and_is_cut(alloc: Global) -> Result<bool, Unmade> {
    let mut body = running(alloc, &[], b"abc", Some(4))?;
    let runs = taken(&mut body, 1, 2) == ('2', *b"bc--") && taken(&mut body, 3, 2).0 == 'n';
    body.cut(Why::Early { attempt: 3 });
    let ends = taken(&mut body, 3, 2).0 == 'c' && taken(&mut body, 0, 3) == ('3', *b"abc-");
    Ok(runs && ends)
}

#[test]
fn a_running_body_gives_its_bytes_and_a_cut_one_keeps_them(rt: HostRuntime) -> Result<(), Fail> {
    assert!(rt; matches!(runs_and_is_cut(rt.alloc()), Ok(true)));
    Ok(())
}

// Past the end of a whole body of three bytes, and its two last ones as they are sent.
fn is_done(alloc: Global) -> Result<bool, Unmade> {
    let mut body = running(alloc, &[], b"abc", Some(3))?;
    body.finish();
    let done = taken(&mut body, 3, 1).0 == 'd' && taken(&mut body, 9, 1).0 == 'd';
    let last = taken(&mut body, 2, 4) == ('1', *b"c---");
    Ok(done && last && send(alloc, &mut body, 1)?.as_slice() == b"bc".as_slice())
}

#[test]
fn a_whole_body_is_done_past_its_end(rt: HostRuntime) -> Result<(), Fail> {
    assert!(rt; matches!(is_done(rt.alloc()), Ok(true)));
    Ok(())
}

// Whether an asked body of these attempts is told of.
fn is_told(
    alloc: Global,
    body: &Body,
    path: &[u8],
    first_try: u64,
    old: Option<Label>,
) -> Result<bool, Unmade> {
    let asked = Asked {
        path: CachePath::read(alloc, path)?,
        first_try,
        old,
    };
    Ok(body.look(&asked).is_some())
}

// A path, the first attempt and the old label that are asked for, and whether a body of attempt 3 at `h/a` is told of.
const ASKED: &[(&[u8], u64, Option<Label>, bool)] = &[
    (b"h/a", 3, None, true),
    (b"h/a", 0, None, true),
    (b"h/a", 4, None, false),
    (b"h/a", 4, Some(Label::Fetched { first: 3, last: 3 }), true),
    (b"h/a", 4, Some(Label::Fetched { first: 2, last: 3 }), false),
    (b"h/b", 3, None, false),
];

// The first row of them that doesn't hold.
fn wrong_row(alloc: Global, body: &Body) -> Result<Option<usize>, Unmade> {
    for (at, (path, first_try, old, told)) in ASKED.iter().enumerate() {
        if is_told(alloc, body, path, *first_try, *old)? != *told {
            return Ok(Some(at));
        }
    }
    Ok(None)
}

fn wrong_row_of_a_running_one(alloc: Global) -> Result<Option<usize>, Unmade> {
    let body = running(alloc, &[], b"abc", None)?;
    wrong_row(alloc, &body)
}

fn tells_of_an_opening_one(alloc: Global) -> Result<bool, Unmade> {
    let body = opening(alloc)?;
    is_told(alloc, &body, b"h/a", 3, None)
}

#[test]
fn a_look_tells_of_the_asked_body_alone(rt: HostRuntime) -> Result<(), Fail> {
    assert!(rt; matches!(wrong_row_of_a_running_one(rt.alloc()), Ok(None)));
    assert!(rt; matches!(tells_of_an_opening_one(rt.alloc()), Ok(false)));
    Ok(())
}

fn is_refused(alloc: Global) -> Result<bool, Unmade> {
    let mut body = opening(alloc)?;
    let opens = taken(&mut body, 0, 1).0 == 'n';
    body.refuse(Why::Gone { attempt: 7 });
    let told = matches!(body.shown(), Some(Shown::Gone { attempt: 7 }));
    Ok(opens && told && taken(&mut body, 0, 1).0 == 'c')
}

#[test]
fn a_body_is_refused_with_its_cause(rt: HostRuntime) -> Result<(), Fail> {
    assert!(rt; matches!(is_refused(rt.alloc()), Ok(true)));
    Ok(())
}

// A body of three of four bytes is cut, and attempt 9 goes on with its file.
fn goes_on(alloc: Global) -> Result<bool, Unmade> {
    let mut body = running(alloc, &[], b"abc", Some(4))?;
    let mut next = opening(alloc)?;
    hands_on(alloc, &mut body, &mut next)
}

fn hands_on(alloc: Global, body: &mut Body, next: &mut Body) -> Result<bool, Unmade>
    requires running { body.old.seen.stage ≡ Running }
    requires label { body.old.seen.label ≡ Some (Fetched 3 3) }
    requires size { body.old.seen.size ≡ 3 }
    requires total { body.old.seen.facts.total ≡ Some 4 }
    requires opening { next.old.seen ≡ opening_seen }
{
    body.keeps();
    body.cut(Why::NoMemory);
    let Some(part) = body.move_out() else {
        return Ok(false);
    };
    let Label::Fetched { first, .. } = part.label else {
        return Ok(false);
    };
    let left = body.url().is_none() && taken(body, 0, 1).0 == 'c';
    next.go_on(part.body, part.url, first, 9, part.facts);
    next.add(alloc, b"d")?;
    next.finish();
    let label = next.label() == Some(Label::Fetched { first: 3, last: 9 });
    Ok(left && label && taken(next, 0, 4) == ('4', *b"abcd"))
}

#[test]
fn a_cut_body_hands_its_file_on_and_another_goes_on_with_it(rt: HostRuntime) -> Result<(), Fail> {
    assert!(rt; matches!(goes_on(rt.alloc()), Ok(true)));
    Ok(())
}
