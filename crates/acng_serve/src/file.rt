//! The reply of a body that has ended: what the request picks of it, or why it broke off.
ghost use Rattle.std.specs.Prelude.{◌≡◌, ◌≢◌, None};
ghost use Rattle.std.specs.Io.KnownBytes.{Keeps};
ghost use Rattle.acng_grow.specs.declared.facts.Stage.TheVariants as stage;
ghost use Rattle.acng_reply.specs.Picks.{IsPicked, pick as pick_of, is_kept};
ghost use Rattle.acng_reply.specs.Replies.{sent_by};
ghost use Rattle.acng_serve.specs.Causes.{stop_cause, pick_cause as pick_cause_of};
ghost use Rattle.acng_serve.specs.Notes.{SendsFound, SendsPick, is_whole as is_whole_of, LinkTold};

use crate::note::{Cause, Note};
use crate::refuse::refuse;
use acng_base::Link;
use acng_desk::Entry;
use acng_grow::{FollowStop, Followed, Growing};
use acng_keeper::BodyFile;
use acng_reply::{Manner, Pick, send_part};
use acng_request::Request;
use acng_site::{OriginSlip, Site};

/// Sends what a request gets of a body that has ended, for which it was let in.
pub(crate) fn send_found<S: Site, F: BodyFile, P: OriginSlip, L: Link>(
    body: &mut Growing<S, F, P>,
    manner: Manner,
    request: &Request,
    entry: Entry,
    client: &mut L,
) -> Note<F::Slip>
    requires opened { body.old.seen.stage ≢ stage.Opening }
    requires grown { body.old.seen.stage ≢ stage.Running }
    ensures sends { SendsFound F.tells manner request.now entry body.old result (sent_by L.Link client.old client.new) }
    ensures others { Keeps (L.left client.old) (L.left client.new) }
    ensures fault { LinkTold result (L.faults client.old) (L.faults client.new) }
{
    body.keeps();
    let label = body.label();
    match body.shown() {
        Some(shown) => refuse(manner, Cause::Load(shown), label, Some(entry), client),
        None => {
            let pick = Pick::of(request, body.stage(), &body.facts());
            send_pick(body, manner, pick, entry, client)
        }
    }
}

// Sends the part of a whole body that was picked.
fn send_pick<S: Site, F: BodyFile, P: OriginSlip, L: Link>(
    body: &mut Growing<S, F, P>,
    manner: Manner,
    pick: Pick,
    entry: Entry,
    client: &mut L,
) -> Note<F::Slip>
    requires opened { body.old.seen.stage ≢ stage.Opening }
    requires grown { body.old.seen.stage ≢ stage.Running }
    requires unshown { body.old.seen.shown ≡ None }
    requires picked { IsPicked body.old.seen.facts pick }
    ensures sends { SendsPick F.tells manner pick entry body.old result (sent_by L.Link client.old client.new) }
    ensures others { Keeps (L.left client.old) (L.left client.new) }
    ensures fault { LinkTold result (L.faults client.old) (L.faults client.new) }
{
    let Followed { sent, label, stop } = send_part(body, manner, pick, client);
    let whole = is_whole(&stop);
    Note {
        status: pick.status(),
        cause: cause_of(stop, pick),
        label,
        entry: Some(entry),
        part: pick.part(),
        sent,
        whole,
    }
}

pub(crate) fn is_whole<Q>(stop: &FollowStop<Q>) -> bool
    ensures { result ≡ is_whole_of stop.now }
{
    matches!(stop, FollowStop::Whole)
}

// Why the sending ended.
pub(crate) fn cause_of<Q: Drop>(stop: FollowStop<Q>, pick: Pick) -> Cause<Q>
    ensures { result ≡ stop_cause pick stop }
{
    match stop {
        FollowStop::Whole => pick_cause(pick),
        FollowStop::Cut(shown) => Cause::Load(shown),
        FollowStop::Slip(slip) => Cause::KeeperSlip(slip),
        FollowStop::ClientFault => Cause::ClientFault,
    }
}

fn pick_cause<Q>(pick: Pick) -> Cause<Q>
    ensures { result ≡ pick_cause_of pick }
{
    match pick {
        Pick::Unmodified => Cause::NotModified,
        Pick::NoPart { from, total } => Cause::NoPart { from, total },
        Pick::Section { .. } | Pick::All => Cause::Served,
    }
}
