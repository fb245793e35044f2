//! What a look under a lock finds of the asked body.
//!
//! A lock tells its next user only what a body keeps, so what is found says only what stays true. Where a body isn't the
//! asked one, or has nothing to give yet, nothing is found, and the follower waits.
ghost use Rattle.std.specs.Prelude.{◌≡◌, ◌&&◌, ◌+◌, ◌<◌, ◌≤◌, true, false, length, IfSome, IsSomeAnd, OnSome, Some};
ghost use Rattle.acng_head.specs.declared.head.Label.TheVariants.{Fetched};
ghost use Rattle.acng_grow.specs.Agrees.{agrees, label_agrees};
ghost use Rattle.acng_grow.specs.Looks.{LookStands};
ghost use Rattle.acng_grow.specs.Turns.{FoundStands, IsShort};

use crate::asked::{Asked, Look};
use crate::growing::Growing;
use crate::owned::{room_for, take_piece};
use crate::sending::{FRAME, PIECE};
use crate::taking::Taken;
use crate::why::Shown;
use acng_head::Label;
use acng_keeper::BodyFile;
use acng_site::{OriginSlip, Site};

/// What a follower finds.
#[derive(Drop)]
pub(crate) enum Found<Q> {
    /// So many bytes of the file stand in its frame.
    Bytes(usize),
    /// No byte is left of the part.
    Whole,
    /// The body ended before the part did; this is why.
    Cut(Shown),
    /// The body's file failed.
    Slip(Q),
}

/// What a follower finds of a body with this last attempt.
#[derive(Drop)]
pub(crate) struct Turn<Q> {
    pub(crate) last: u64,
    pub(crate) found: Found<Q>,
}

/// What is to be seen of the asked body, once it has opened or was refused.
pub(crate) fn find_head<S: Site, F: BodyFile, P: OriginSlip>(
    body: &Growing<S, F, P>,
    asked: &Asked,
) -> Option<Look>
    ensures { IfSome result (LookStands S.Site asked.now) }
{
    body.keeps();
    let look = body.look(asked)?;
    Some(look)
}

/// What there is of the part from a place on, in a frame.
pub(crate) fn find_piece<S: Site, F: BodyFile, P: OriginSlip>(
    body: &mut Growing<S, F, P>,
    asked: &Asked,
    first: u64,
    place: u64,
    to: Option<u64>,
    frame: &mut [u8],
) -> Option<Turn<F::Slip>>
    requires room { 65556 ≤ length frame.old }
    ensures found { IfSome result (λ t. FoundStands S.Site ((S.tells && F.tells) ≡ true) asked.now (S.instance first asked.now.path)
        place to frame.new t.found) }
    ensures label { IfSome result (λ t. label_agrees asked.now.first_try asked.now.old (Some (Fetched first t.last)) ≡ true) }
    ensures len { length frame.new ≡ length frame.old }
{
    body.keeps();
    let _ = body.len();
    let last = last_of(body, asked, first)?;
    if is_past(place, to) {
        return Some(Turn {
            last,
            found: Found::Whole,
        });
    }
    match take_piece(body, place, frame, room_before(place, to)) {
        Taken::Bytes(count) => Some(Turn {
            last,
            found: Found::Bytes(count),
        }),
        Taken::NotYet => None,
        Taken::Done => match to {
            Some(_) => None,
            None => Some(Turn {
                last,
                found: Found::Whole,
            }),
        },
        Taken::Cut => match body.shown() {
            Some(shown) => Some(Turn {
                last,
                found: Found::Cut(shown),
            }),
            None => unreachable!(),
        },
        Taken::Slip(slip) => Some(Turn {
            last,
            found: Found::Slip(slip),
        }),
    }
}

// The last attempt of the body's label, where the body is the asked one and its first attempt is this one.
fn last_of<S: Site, F: BodyFile, P: OriginSlip>(
    body: &Growing<S, F, P>,
    asked: &Asked,
    first: u64,
) -> Option<u64>
    ensures path { OnSome result (body.now.path ≡ asked.now.path) }
    ensures label { IfSome result (λ last. body.now.seen.label ≡ Some (Fetched first last)) }
    ensures agrees { OnSome result (agrees asked.now body.now ≡ true) }
{
    if !body.agrees(asked) {
        return None;
    }
    let Some(Label::Fetched { first: found, last }) = body.label() else {
        return None;
    };
    if found != first {
        return None;
    }
    Some(last)
}

// Whether a place is at the asked end or past it.
fn is_past(place: u64, to: Option<u64>) -> bool
    ensures past { result ≡ true → IsSomeAnd to (λ t. t ≤ place) }
    ensures short { result ≡ false → IsShort place to }
{
    match to {
        Some(to) => to <= place,
        None => false,
    }
}

// How many bytes fit in a frame and are before the asked end.
fn room_before(place: u64, to: Option<u64>) -> usize
    requires short { IsShort place to }
    ensures some { 0 < result }
    ensures fits { result ≤ 65536 }
    ensures within { IfSome to (λ t. place + result ≤ t) }
{
    match to {
        Some(to) => room_for(to - place, FRAME),
        None => PIECE,
    }
}
