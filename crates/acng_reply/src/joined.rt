//! Replies whose body is followed through its lock, while another one loads it.
ghost use Rattle.std.specs.Prelude.{◌≡◌, ◌≢◌, ◌&&◌, ◌⊎◌, ℕ, Bool, List, true, false, length, IfSome, IsSomeAnd, Some};
ghost use Rattle.std.specs.Io.KnownBytes.{Keeps};
ghost use Rattle.acng_grow.specs.declared.owned.FollowStop.TheVariants as stop;
ghost use Rattle.acng_grow.specs.Agrees.{label_agrees};
ghost use Rattle.acng_grow.specs.Follows.{FaultRose};
ghost use Rattle.acng_grow.specs.Keeps.{IsDated};
ghost use Rattle.acng_grow.specs.Stands.{file_of};
ghost use Rattle.acng_grow.specs.Turns.{IsLabelOf};
ghost use Rattle.acng_reply.specs.declared.pick.Pick.TheVariants.{NoPart};
ghost use Rattle.acng_reply.specs.Joined.{CutStands, FollowsPart, IsKnown, range_in as range_in_of};
ghost use Rattle.acng_reply.specs.Parted.{has_part, is_alone};
ghost use Rattle.acng_reply.specs.Picks.{IsPicked};
ghost use Rattle.acng_reply.specs.Replies.{sent_by};

use crate::head::{file_head, sending_of};
use crate::line::Line;
use crate::manner::Manner;
use crate::part::{nothing_sent, stop_of};
use crate::pick::Pick;
use crate::send::{send_head, send_line};
use acng_base::Link;
use acng_grow::{Asked, Facts, FollowStop, Followed, Shared, follow};
use acng_head::Label;
use acng_keeper::BodyFile;
use acng_site::{OriginSlip, Site};
use std::sync::Wait;

/// Sends what a pick says of a body, by a look at it: the head in one write, and then the part as it comes. Nothing follows
/// the head of a 304 and of a reply to HEAD. No lock is held while the link is written.
pub fn follow_part<R: Wait, S: Site, F: BodyFile, P: OriginSlip, L: Link>(
    rt: &R,
    shared: &Shared<S, F, P>,
    asked: &Asked,
    label: Label,
    facts: &Facts,
    manner: Manner,
    pick: Pick,
    client: &mut L,
) -> Followed<F::Slip>
    requires agrees { label_agrees asked.now.first_try asked.now.old (Some label) ≡ true }
    requires dated { IsDated facts.now }
    requires picked { IsPicked facts.now pick }
    requires known { IsKnown (S.tells && F.tells) facts.now (file_of S.Site asked.now.path label) }
    ensures sends { FollowsPart (S.tells && F.tells) manner pick facts.now (file_of S.Site asked.now.path label)
        (sent_by L.Link client.old client.new) result }
    ensures cause { CutStands S.Site asked.now result.stop }
    ensures label { IsSomeAnd result.label (IsLabelOf asked.now label) }

    // What a fault comes with, and what stays.
    ensures fault { FaultRose result.stop (L.faults client.old) (L.faults client.new) }
    ensures others { Keeps (L.left client.old) (L.left client.new) }
{
    match pick {
        Pick::NoPart { total, .. } => send_no_part(label, facts, manner, pick, total, client),
        Pick::Section { .. } if !manner.bare => {
            follow_behind(rt, shared, asked, label, facts, manner, pick, client)
        }
        Pick::All if !manner.bare => {
            follow_behind(rt, shared, asked, label, facts, manner, pick, client)
        }
        _ => send_alone(label, facts, manner, pick, client),
    }
}

// Sends the head, and then the part.
fn follow_behind<R: Wait, S: Site, F: BodyFile, P: OriginSlip, L: Link>(
    rt: &R,
    shared: &Shared<S, F, P>,
    asked: &Asked,
    label: Label,
    facts: &Facts,
    manner: Manner,
    pick: Pick,
    client: &mut L,
) -> Followed<F::Slip>
    requires agrees { label_agrees asked.now.first_try asked.now.old (Some label) ≡ true }
    requires dated { IsDated facts.now }
    requires picked { IsPicked facts.now pick }
    requires known { IsKnown (S.tells && F.tells) facts.now (file_of S.Site asked.now.path label) }
    requires full { has_part manner pick ≡ true }
    ensures sends { FollowsPart (S.tells && F.tells) manner pick facts.now (file_of S.Site asked.now.path label)
        (sent_by L.Link client.old client.new) result }
    ensures cause { CutStands S.Site asked.now result.stop }
    ensures label { IsSomeAnd result.label (IsLabelOf asked.now label) }
    ensures fault { FaultRose result.stop (L.faults client.old) (L.faults client.new) }
    ensures others { Keeps (L.left client.old) (L.left client.new) }
{
    let head = file_head(manner, facts, pick);
    let sending = sending_of(manner, head.framing);
    if let Err(_) = send_head(&head, client) {
        return nothing_sent(Some(label), FollowStop::ClientFault);
    }
    let (from, to) = range_in(facts, pick);
    follow(rt, shared, asked, label, from, to, sending, client)
}

// Where the bytes that are followed begin, and where they stop, where that is known.
fn range_in(facts: &Facts, pick: Pick) -> (u64, Option<u64>)
    ensures { result ≡ range_in_of facts.now pick }
{
    match pick {
        Pick::All => (0, facts.total),
        _ => pick.range(),
    }
}

// Sends the head alone.
fn send_alone<Q, L: Link>(
    label: Label,
    facts: &Facts,
    manner: Manner,
    pick: Pick,
    client: &mut L,
) -> Followed<Q>
    requires dated { IsDated facts.now }
    requires alone { is_alone manner pick ≡ true }
    ensures sends { (told : Bool) (file : List ℕ) → IsKnown told facts.now file
        → FollowsPart told manner pick facts.now file (sent_by L.Link client.old client.new) result }
    ensures label { result.label ≡ Some label }
    ensures stop { (result.stop ≡ stop.Whole) ⊎ (result.stop ≡ stop.ClientFault) }
    ensures fault { FaultRose result.stop (L.faults client.old) (L.faults client.new) }
    ensures others { Keeps (L.left client.old) (L.left client.new) }
{
    let sent = send_head(&file_head(manner, facts, pick), client);
    nothing_sent(Some(label), stop_of(sent))
}

// Sends the line that says that there is no part.
fn send_no_part<Q, L: Link>(
    label: Label,
    facts: &Facts,
    manner: Manner,
    pick: Pick,
    total: u64,
    client: &mut L,
) -> Followed<Q>
    requires { (from : ℕ) × (pick ≡ NoPart from total) }
    ensures sends { (told : Bool) (file : List ℕ) → IsKnown told facts.now file
        → FollowsPart told manner pick facts.now file (sent_by L.Link client.old client.new) result }
    ensures label { result.label ≡ Some label }
    ensures stop { (result.stop ≡ stop.Whole) ⊎ (result.stop ≡ stop.ClientFault) }
    ensures fault { FaultRose result.stop (L.faults client.old) (L.faults client.new) }
    ensures others { Keeps (L.left client.old) (L.left client.new) }
{
    let (sent, outcome) = send_line(manner, Line::NoPart { total }, client);
    Followed {
        sent,
        label: Some(label),
        stop: stop_of(outcome),
    }
}
