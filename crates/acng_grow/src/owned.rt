//! The sending of a body that grows no further to a client.
ghost use Rattle.std.specs.Prelude.{◌≡◌, ◌≢◌, ◌⊎◌, ◌+◌, ◌-◌, ◌<◌, ◌≤◌, true, length, take, drop, IfSome};
ghost use Rattle.std.specs.Io.KnownBytes.{Keeps};
ghost use Rattle.acng_grow.specs.declared.facts.Stage.TheVariants as stage;
ghost use Rattle.acng_grow.specs.Grown.{text_of};
ghost use Rattle.acng_grow.specs.Takes.{TakesAs, IfBytes, OnSlip, Rests, FileFailed};
ghost use Rattle.acng_grow.specs.Follows.{end_at as end_of, is_there as is_there_of, FollowsAs, OnFileSlip, FaultRose};

use crate::facts::Stage;
use crate::growing::Growing;
use crate::sending::{
    BACK, FRAME, FRONT, SMALL_FRAME, SMALL_PIECE, Sending, send_last, send_piece,
};
use crate::taking::Taken;
use crate::why::Shown;
use acng_base::Link;
use acng_head::Label;
use acng_keeper::BodyFile;
use acng_site::{OriginSlip, Site};

/// How the sending ended.
#[derive(Debug, Drop)]
pub enum FollowStop<Q> {
    /// The whole part was sent.
    Whole,
    /// The body ended before the part did; this is why.
    Cut(Shown),
    /// The body's file failed.
    Slip(Q),
    /// The client failed.
    ClientFault,
}

/// What was sent: so many bytes of the part, of a body with this label.
#[derive(Debug, Drop)]
pub struct Followed<Q> {
    pub sent: u64,
    pub label: Option<Label>,
    pub stop: FollowStop<Q>,
}

/// Sends the bytes of a body that grows no further, from a place up to and without another one, or to the end. It holds
/// one frame on its own stack: a small one where few bytes are asked, since a frame is cleared before it is used.
pub fn follow_owned<S: Site, F: BodyFile, P: OriginSlip, L: Link>(
    body: &mut Growing<S, F, P>,
    from: u64,
    to: Option<u64>,
    sending: Sending,
    client: &mut L,
) -> Followed<F::Slip>
    requires opened { body.old.seen.stage ≢ stage.Opening }
    requires grown { body.old.seen.stage ≢ stage.Running }
    requires within { IfSome to (λ t. (body.old.seen.stage ≡ stage.Whole) ⊎ (body.old.seen.stage ≡ stage.Same)
        → t ≤ body.old.seen.size) }
    ensures sends { FollowsAs (F.tells ≡ true) sending body.old from to (L.written client.old) (L.written client.new) result }
    ensures label { result.label ≡ body.old.seen.label }

    // What a fault comes with, and what stays.
    ensures slip { OnFileSlip result.stop (FileFailed body.old.file body.new.file) }
    ensures fault { FaultRose result.stop (L.faults client.old) (L.faults client.new) }
    ensures rests { Rests body.old body.new }
    ensures others { Keeps (L.left client.old) (L.left client.new) }
{
    if end_at(body.len(), to).saturating_sub(from) <= SMALL_PIECE as u64 {
        let mut frame = [0u8; SMALL_FRAME];
        return follow_by(body, from, to, sending, client, &mut frame);
    }
    let mut frame = [0u8; FRAME];
    follow_by(body, from, to, sending, client, &mut frame)
}

// The same, piece by piece through this frame.
fn follow_by<S: Site, F: BodyFile, P: OriginSlip, L: Link>(
    body: &mut Growing<S, F, P>,
    from: u64,
    to: Option<u64>,
    sending: Sending,
    client: &mut L,
    frame: &mut [u8],
) -> Followed<F::Slip>
    requires room { 20 < length frame.old }
    requires opened { body.old.seen.stage ≢ stage.Opening }
    requires grown { body.old.seen.stage ≢ stage.Running }
    requires within { IfSome to (λ t. (body.old.seen.stage ≡ stage.Whole) ⊎ (body.old.seen.stage ≡ stage.Same)
        → t ≤ body.old.seen.size) }
    ensures sends { FollowsAs (F.tells ≡ true) sending body.old from to (L.written client.old) (L.written client.new) result }
    ensures label { result.label ≡ body.old.seen.label }

    // What a fault comes with, and what stays.
    ensures slip { OnFileSlip result.stop (FileFailed body.old.file body.new.file) }
    ensures fault { FaultRose result.stop (L.faults client.old) (L.faults client.new) }
    ensures rests { Rests body.old body.new }
    ensures others { Keeps (L.left client.old) (L.left client.new) }
{
    let label = body.label();
    let most = end_at(body.len(), to).saturating_sub(from);
    let mut sent = 0u64;
    while sent < most {
        match take_piece(body, from + sent, frame, room_for(most - sent, frame.len())) {
            Taken::Bytes(count) => {
                let (taken, outcome) = send_piece(sending, client, frame, count);
                sent += taken as u64;
                if let Err(_) = outcome {
                    return ended(sent, label, FollowStop::ClientFault);
                }
            }
            Taken::Slip(slip) => return ended(sent, label, FollowStop::Slip(slip)),
            Taken::NotYet | Taken::Done | Taken::Cut => unreachable!(),
        }
    }
    if !is_there(body.stage(), body.len(), from, to) {
        let Some(shown) = body.shown() else {
            unreachable!();
        };
        return ended(sent, label, FollowStop::Cut(shown));
    }
    if let Err(_) = send_last(sending, client) {
        return ended(sent, label, FollowStop::ClientFault);
    }
    ended(sent, label, FollowStop::Whole)
}

pub(crate) fn ended<Q>(sent: u64, label: Option<Label>, stop: FollowStop<Q>) -> Followed<Q>
    ensures { result ≡ record { sent = sent; label = label; stop = stop } }
{
    Followed { sent, label, stop }
}

// How many of so many bytes fit in a frame of that length.
pub(crate) fn room_for(left: u64, frame: usize) -> usize
    requires some { 0 < left }
    requires room { 20 < frame }
    ensures some { 0 < result }
    ensures fits { 20 + result ≤ frame }
    ensures few { result ≤ left }
{
    left.min((frame - FRONT - BACK) as u64) as usize
}

// Takes a piece of so many bytes at most into its place in a frame.
pub(crate) fn take_piece<S: Site, F: BodyFile, P: OriginSlip>(
    body: &mut Growing<S, F, P>,
    from: u64,
    frame: &mut [u8],
    room: usize,
) -> Taken<F::Slip>
    requires some { 0 < room }
    requires fits { 20 + room ≤ length frame.old }
    ensures cases { TakesAs body.old from room result }
    ensures bytes { F.tells ≡ true → IfBytes result (λ n. take n (drop 18 frame.new) ≡ take n (drop from (text_of body.old))) }
    ensures slip { OnSlip result (FileFailed body.old.file body.new.file) }
    ensures rests { Rests body.old body.new }
    ensures len { length frame.new ≡ length frame.old }
{
    body.take(from, &mut frame[FRONT..FRONT + room])
}

// Where the asked part ends, as far as the body goes.
fn end_at(size: u64, to: Option<u64>) -> u64
    ensures { result ≡ end_of size to }
{
    match to {
        Some(to) => to.min(size),
        None => size,
    }
}

// Whether the asked part is there whole.
fn is_there(stage: Stage, size: u64, from: u64, to: Option<u64>) -> bool
    ensures { result ≡ is_there_of stage size from to }
{
    match to {
        Some(to) => to <= size || to <= from,
        None => matches!(stage, Stage::Whole | Stage::Same),
    }
}
