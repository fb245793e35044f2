//! The answer to one request, with the desk to itself.
//!
//! The moment is taken first, and then the target is read, the file's class looked up, and the desk asked. A body is loaded
//! before it is sent, and what settling it answers doesn't change the reply. A page is of the desk as the request leaves it. No
//! ticket is out before or after.
ghost use Rattle.std.specs.Prelude.{◌≡◌, ◌≢◌, ◌≤◌, ◌⊎◌, ℕ, true, length, All};
ghost use Rattle.std.specs.Io.KnownBytes.{Keeps};
ghost use Rattle.acng_base.specs.Moments.{Ticks};
ghost use Rattle.acng_base.specs.declared.clock.Moment.{Moment};
ghost use Rattle.acng_site.specs.Honest.{IsHonest};
ghost use Rattle.acng_conf.specs.Settings.{rules_of};
ghost use Rattle.acng_class.specs.declared.class.Class.TheVariants.{Forbidden};
ghost use Rattle.acng_remap.specs.Origins.{ServesTargets};
ghost use Rattle.acng_keeper.specs.Slips.{Later};
ghost use Rattle.acng_desk.specs.Tickets.{IsUnused};
ghost use Rattle.acng_desk.specs.Begins.{IsHeld};
ghost use Rattle.acng_reply.specs.Manners.{manner_of};
ghost use Rattle.acng_reply.specs.Replies.{sent_by};
ghost use Rattle.acng_desk.specs.Keeps.{IsIdle};
ghost use Rattle.acng_serve.specs.Notes.{LinkTold, SendsFound};
ghost use Rattle.acng_serve.specs.Files.{AnswersFile, held_grown, LoadsFound};
ghost use Rattle.acng_serve.specs.Answers.{AnswersAt, AnswersOne};
ghost use Rattle.acng_serve.specs.Pages.{RunsDesk, LacksRun, ShowsDesk};

use crate::file::send_found;
use crate::note::{Cause, Note};
use crate::page::{expire_and_show, send_report, show};
use crate::refuse::refuse;
use crate::way::{Way, way_of};
use acng_base::{CachePath, Clock, Link, Moment, NoMemory, Texts};
use acng_class::{Class, Classes};
use acng_conf::Conf;
use acng_desk::{Begun, Desk, Entry, Held, Ticket};
use acng_fetch::load_owned;
use acng_grow::Growing;
use acng_keeper::{BodyFile, Keeper, SlipOf};
use acng_reply::Manner;
use acng_request::Request;
use acng_site::{Origin, OriginSlip, Site};
use std::alloc::Global;

/// Answers one request, as the last of its connection.
///
/// The note and the reply are a function of the request, the configuration, what the desk has, the site and the moment.
/// They yield to a failed call of the keeper, a failed link and want of memory.
pub fn answer_one<S: Site, K: Keeper, O: Origin<S>, C: Clock, L: Link>(
    alloc: Global,
    desk: &mut Desk<S, K, ()>,
    conf: &Conf,
    origin: &O,
    clock: &mut C,
    request: &Request,
    client: &mut L,
) -> Note<SlipOf<K>>
    requires idle { IsIdle desk.old.plain }
    requires rules { desk.old.plain.rules ≡ rules_of conf.now }
    requires serves { S.tells ≡ true → ServesTargets conf.now S.serves }
    requires honest { S.tells ≡ true → IsHonest S.Site }
    ensures answers { AnswersOne S.Site K.tells conf.now (manner_of true request.now) request.now (C.coming clock.old) (C.coming clock.new)
        desk.old desk.new result (sent_by L.Link client.old client.new) }
    ensures idle { IsIdle desk.new.plain }
    ensures rules { desk.new.plain.rules ≡ desk.old.plain.rules }
    ensures others { Keeps (L.left client.old) (L.left client.new) }
    ensures fault { LinkTold result (L.faults client.old) (L.faults client.new) }
{
    let manner = Manner::of(request).closing();
    answer_in(alloc, desk, conf, origin, clock, manner, request, client)
}

/// Answers one request in a manner. The moment is taken first.
pub(crate) fn answer_in<S: Site, K: Keeper, O: Origin<S>, C: Clock, L: Link>(
    alloc: Global,
    desk: &mut Desk<S, K, ()>,
    conf: &Conf,
    origin: &O,
    clock: &mut C,
    manner: Manner,
    request: &Request,
    client: &mut L,
) -> Note<SlipOf<K>>
    requires idle { IsIdle desk.old.plain }
    requires serves { S.tells ≡ true → ServesTargets conf.now S.serves }
    requires honest { S.tells ≡ true → IsHonest S.Site }
    ensures answers { AnswersOne S.Site K.tells conf.now manner request.now (C.coming clock.old) (C.coming clock.new)
        desk.old desk.new result (sent_by L.Link client.old client.new) }
    ensures idle { IsIdle desk.new.plain }
    ensures rules { desk.new.plain.rules ≡ desk.old.plain.rules }
    ensures others { Keeps (L.left client.old) (L.left client.new) }
    ensures fault { LinkTold result (L.faults client.old) (L.faults client.new) }
{
    let now = clock.now();
    answer_at(alloc, desk, conf, origin, now, manner, request, client)
}

/// Answers one request at a moment.
pub(crate) fn answer_at<S: Site, K: Keeper, O: Origin<S>, L: Link>(
    alloc: Global,
    desk: &mut Desk<S, K, ()>,
    conf: &Conf,
    origin: &O,
    now: Moment,
    manner: Manner,
    request: &Request,
    client: &mut L,
) -> Note<SlipOf<K>>
    requires idle { IsIdle desk.old.plain }
    requires serves { S.tells ≡ true → ServesTargets conf.now S.serves }
    requires honest { S.tells ≡ true → IsHonest S.Site }
    ensures answers { AnswersAt S.Site K.tells conf.now manner request.now now desk.old desk.new result
        (sent_by L.Link client.old client.new) }
    ensures idle { IsIdle desk.new.plain }
    ensures others { Keeps (L.left client.old) (L.left client.new) }
    ensures fault { LinkTold result (L.faults client.old) (L.faults client.new) }
{
    desk.keeps();
    let Ok(mut classes) = Classes::of(alloc, conf) else {
        return refuse(manner, Cause::NoMemory, None, None, client);
    };
    match way_of(alloc, conf, &mut classes, request) {
        Way::File {
            path,
            origins,
            class,
        } => answer_file(
            alloc, desk, origin, now, manner, request, path, class, &origins, client,
        ),
        Way::Page => answer_page(alloc, desk, manner, client),
        Way::Run => answer_run(alloc, desk, now, manner, client),
        Way::Refusal(cause) => refuse(manner, cause, None, None, client),
    }
}

// Answers a request for the page.
fn answer_page<S: Site, K: Keeper, L: Link>(
    alloc: Global,
    desk: &mut Desk<S, K, ()>,
    manner: Manner,
    client: &mut L,
) -> Note<SlipOf<K>>
    ensures shows { ShowsDesk manner desk.old desk.new result (sent_by L.Link client.old client.new) }
    ensures others { Keeps (L.left client.old) (L.left client.new) }
    ensures fault { LinkTold result (L.faults client.old) (L.faults client.new) }
{
    match show(alloc, desk) {
        Ok(report) => send_report(manner, report, client),
        Err(NoMemory) => refuse(manner, Cause::NoMemory, None, None, client),
    }
}

// Answers a request for a run and the page of what it leaves.
fn answer_run<S: Site, K: Keeper, L: Link>(
    alloc: Global,
    desk: &mut Desk<S, K, ()>,
    now: Moment,
    manner: Manner,
    client: &mut L,
) -> Note<SlipOf<K>>
    requires idle { IsIdle desk.old.plain }
    ensures runs { RunsDesk K.tells manner now desk.old desk.new result (sent_by L.Link client.old client.new)
        ⊎ LacksRun K.tells manner now desk.old desk.new result (sent_by L.Link client.old client.new) }
    ensures idle { IsIdle desk.new.plain }
    ensures others { Keeps (L.left client.old) (L.left client.new) }
    ensures fault { LinkTold result (L.faults client.old) (L.faults client.new) }
{
    match expire_and_show(alloc, desk, now) {
        Ok(report) => send_report(manner, report, client),
        Err(NoMemory) => refuse(manner, Cause::NoMemory, None, None, client),
    }
}

// Answers a request for a file.
fn answer_file<S: Site, K: Keeper, O: Origin<S>, L: Link>(
    alloc: Global,
    desk: &mut Desk<S, K, ()>,
    origin: &O,
    now: Moment,
    manner: Manner,
    request: &Request,
    path: CachePath,
    class: Class,
    origins: &Texts,
    client: &mut L,
) -> Note<SlipOf<K>>
    requires idle { IsIdle desk.old.plain }
    requires class { class ≢ Forbidden }
    requires some { 1 ≤ length origins.now }
    requires serve { S.tells ≡ true → All (λ u. S.serves u path ≡ true) origins.now }
    requires honest { S.tells ≡ true → IsHonest S.Site }
    ensures answers { AnswersFile S.Site K.tells manner request.now path class origins.now now desk.old desk.new result
        (sent_by L.Link client.old client.new) }
    ensures idle { IsIdle desk.new.plain }
    ensures others { Keeps (L.left client.old) (L.left client.new) }
    ensures fault { LinkTold result (L.faults client.old) (L.faults client.new) }
{
    match desk.begin(alloc, &path, class, origins, now, ()) {
        Begun::Kept(held, entry) => {
            answer_held::<S, K::Body, O::Slip, L>(path, held, manner, request, entry, client)
        }
        Begun::Lead(ticket, entry) => {
            answer_loaded(
                alloc, desk, origin, path, ticket, manner, request, entry, client,
            )
        }
        Begun::Join(_, _) => unreachable!(),
        Begun::Offline(brim) => refuse(manner, Cause::Offline(brim), None, None, client),
        Begun::Full(brim) => refuse(manner, Cause::Full(brim), None, None, client),
        Begun::Worn(brim) => refuse(manner, Cause::Worn(brim), None, None, client),
        Begun::KeeperFault(slip) => refuse(manner, Cause::KeeperSlip(slip), None, None, client),
        Begun::NoMemory => refuse(manner, Cause::NoMemory, None, None, client),
    }
}

// Sends a body that is held. It is followed as any other: as one that a download kept.
pub(crate) fn answer_held<S: Site, F: BodyFile, P: OriginSlip, L: Link>(
    path: CachePath,
    held: Held<F>,
    manner: Manner,
    request: &Request,
    entry: Entry,
    client: &mut L,
) -> Note<F::Slip>
    requires held { IsHeld S.Site F.handle F.tells path held }
    ensures sends { SendsFound F.tells manner request.now entry (held_grown F.handle F.faults path held) result
        (sent_by L.Link client.old client.new) }
    ensures others { Keeps (L.left client.old) (L.left client.new) }
    ensures fault { LinkTold result (L.faults client.old) (L.faults client.new) }
{
    let Held {
        body: file,
        label,
        facts,
        ..
    } = held;
    let mut body: Growing<S, F, P> = Growing::new(path);
    body.same(file, label, facts);
    send_found(&mut body, manner, request, entry, client)
}

// Loads a body and sends it.
fn answer_loaded<S: Site, K: Keeper, O: Origin<S>, L: Link>(
    alloc: Global,
    desk: &mut Desk<S, K, ()>,
    origin: &O,
    path: CachePath,
    ticket: Ticket<S, K::Body>,
    manner: Manner,
    request: &Request,
    entry: Entry,
    client: &mut L,
) -> Note<SlipOf<K>>
    requires honest { S.tells ≡ true → IsHonest S.Site }
    requires unused { IsUnused ticket }
    requires path { path ≡ ticket.info.path }
    ensures loads { LoadsFound S.Site K.tells ticket manner request.now entry desk.old desk.new result
        (sent_by L.Link client.old client.new) }
    ensures later { Later desk.old.faults desk.new.faults }
    ensures others { Keeps (L.left client.old) (L.left client.new) }
    ensures fault { LinkTold result (L.faults client.old) (L.faults client.new) }
{
    let mut body = Growing::new(path);
    let _loaded = load_owned(alloc, ticket, origin, &mut body, desk);
    body.keeps();
    send_found(&mut body, manner, request, entry, client)
}
