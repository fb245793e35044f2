//! Replies whose body a growing body gives.
ghost use Rattle.std.specs.Prelude.{◌≡◌, ◌≢◌, ◌⊎◌, ◌≤◌, ℕ, true, false, IfSome, None, Some};
ghost use Rattle.std.specs.Io.KnownBytes.{Keeps};
ghost use Rattle.acng_grow.specs.declared.facts.Stage.TheVariants as stage;
ghost use Rattle.acng_grow.specs.Takes.{Rests, FileFailed};
ghost use Rattle.acng_grow.specs.Follows.{OnFileSlip, FaultRose};
ghost use Rattle.acng_reply.specs.declared.pick.Pick.TheVariants.{NoPart};
ghost use Rattle.acng_reply.specs.Picks.{IsPicked};
ghost use Rattle.acng_reply.specs.Parted.{SendsPart, has_part, is_alone, stop_of as stop_of_outcome};
ghost use Rattle.acng_reply.specs.Replies.{sent_by};

use crate::head::{file_head, sending_of};
use crate::line::Line;
use crate::manner::Manner;
use crate::pick::Pick;
use crate::send::{send_head, send_line};
use acng_base::{Failed, Link};
use acng_grow::{FollowStop, Followed, Growing, follow_owned};
use acng_head::Label;
use acng_keeper::BodyFile;
use acng_site::{OriginSlip, Site};

/// Sends what a pick says of a body that grows no further: the head in one write, and then the part as the head frames
/// it. Nothing follows the head of a 304 and of a reply to HEAD.
pub fn send_part<S: Site, F: BodyFile, P: OriginSlip, L: Link>(
    body: &mut Growing<S, F, P>,
    manner: Manner,
    pick: Pick,
    client: &mut L,
) -> Followed<F::Slip>
    requires opened { body.old.seen.stage ≢ stage.Opening }
    requires grown { body.old.seen.stage ≢ stage.Running }
    requires picked { IsPicked body.old.seen.facts pick }
    ensures sends { SendsPart F.tells manner pick body.old (sent_by L.Link client.old client.new) result }
    ensures label { result.label ≡ body.old.seen.label }

    // What a fault comes with, and what stays.
    ensures slip { OnFileSlip result.stop (FileFailed body.old.file body.new.file) }
    ensures fault { FaultRose result.stop (L.faults client.old) (L.faults client.new) }
    ensures rests { Rests body.old body.new }
    ensures others { Keeps (L.left client.old) (L.left client.new) }
{
    match pick {
        Pick::NoPart { total, .. } => send_no_part(body, manner, pick, total, client),
        Pick::Section { .. } if !manner.bare => send_behind(body, manner, pick, client),
        Pick::All if !manner.bare => send_behind(body, manner, pick, client),
        _ => send_alone(body, manner, pick, client),
    }
}

// Sends the head, and then the part.
fn send_behind<S: Site, F: BodyFile, P: OriginSlip, L: Link>(
    body: &mut Growing<S, F, P>,
    manner: Manner,
    pick: Pick,
    client: &mut L,
) -> Followed<F::Slip>
    requires opened { body.old.seen.stage ≢ stage.Opening }
    requires grown { body.old.seen.stage ≢ stage.Running }
    requires picked { IsPicked body.old.seen.facts pick }
    requires full { has_part manner pick ≡ true }
    ensures sends { SendsPart F.tells manner pick body.old (sent_by L.Link client.old client.new) result }
    ensures label { result.label ≡ body.old.seen.label }

    // What a fault comes with, and what stays.
    ensures slip { OnFileSlip result.stop (FileFailed body.old.file body.new.file) }
    ensures fault { FaultRose result.stop (L.faults client.old) (L.faults client.new) }
    ensures rests { Rests body.old body.new }
    ensures others { Keeps (L.left client.old) (L.left client.new) }
{
    body.keeps();
    let head = file_head(manner, &body.facts(), pick);
    let sending = sending_of(manner, head.framing);
    if let Err(_) = send_head(&head, client) {
        return nothing_sent(body.label(), FollowStop::ClientFault);
    }
    let (from, to) = pick.range();
    follow_owned(body, from, to, sending, client)
}

// Sends the head alone.
fn send_alone<S: Site, F: BodyFile, P: OriginSlip, L: Link>(
    body: &Growing<S, F, P>,
    manner: Manner,
    pick: Pick,
    client: &mut L,
) -> Followed<F::Slip>
    requires alone { is_alone manner pick ≡ true }
    ensures sends { SendsPart F.tells manner pick body.now (sent_by L.Link client.old client.new) result }
    ensures label { result.label ≡ body.now.seen.label }
    ensures slip { OnFileSlip result.stop (FileFailed body.now.file body.now.file) }
    ensures fault { FaultRose result.stop (L.faults client.old) (L.faults client.new) }
    ensures others { Keeps (L.left client.old) (L.left client.new) }
{
    body.keeps();
    let sent = send_head(&file_head(manner, &body.facts(), pick), client);
    nothing_sent(body.label(), stop_of(sent))
}

// Sends the line that says that there is no part.
fn send_no_part<S: Site, F: BodyFile, P: OriginSlip, L: Link>(
    body: &Growing<S, F, P>,
    manner: Manner,
    pick: Pick,
    total: u64,
    client: &mut L,
) -> Followed<F::Slip>
    requires { (from : ℕ) × (pick ≡ NoPart from total) }
    ensures sends { SendsPart F.tells manner pick body.now (sent_by L.Link client.old client.new) result }
    ensures label { result.label ≡ body.now.seen.label }
    ensures slip { OnFileSlip result.stop (FileFailed body.now.file body.now.file) }
    ensures fault { FaultRose result.stop (L.faults client.old) (L.faults client.new) }
    ensures others { Keeps (L.left client.old) (L.left client.new) }
{
    body.keeps();
    let (sent, outcome) = send_line(manner, Line::NoPart { total }, client);
    Followed {
        sent,
        label: body.label(),
        stop: stop_of(outcome),
    }
}

pub(crate) fn nothing_sent<Q>(label: Option<Label>, stop: FollowStop<Q>) -> Followed<Q>
    ensures { result ≡ record { sent = 0; label = label; stop = stop } }
{
    Followed {
        sent: 0,
        label,
        stop,
    }
}

// How the sending of a text ended.
pub(crate) fn stop_of<Q>(outcome: Result<(), Failed>) -> FollowStop<Q>
    ensures { result ≡ stop_of_outcome outcome }
{
    match outcome {
        Ok(()) => FollowStop::Whole,
        Err(_) => FollowStop::ClientFault,
    }
}
