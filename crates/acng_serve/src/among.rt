//! The answer to one request among others that use the desk at the same time.
//!
//! The desk's lock is held for one call, which lets the request in. A body that is held is sent without a lock. A body that
//! is being loaded is followed as it comes, by whoever let it be loaded and by those that join. A page is made under the lock,
//! behind the run that is asked for, and sent without it. What a lock's user saw may be
//! otherwise for the next one, so an answer rests on what was handed out under the lock, and on looks at the body that was
//! asked for.
ghost use Rattle.std.specs.Prelude.{◌≡◌, ◌≢◌, ◌≤◌, ◌⊎◌, true, false, length, All, Some, IfOk};
ghost use Rattle.std.specs.Io.KnownBytes.{Keeps};
ghost use Rattle.acng_site.specs.Honest.{IsHonest};
ghost use Rattle.acng_class.specs.declared.class.Class.TheVariants.{Forbidden};
ghost use Rattle.acng_remap.specs.Origins.{ServesTargets};
ghost use Rattle.acng_grow.specs.Looks.{LookStands};
ghost use Rattle.acng_desk.specs.Tickets.{IsUnused};
ghost use Rattle.acng_reply.specs.Replies.{sent_by};
ghost use Rattle.acng_serve.specs.Notes.{LinkTold};
ghost use Rattle.acng_serve.specs.Lawful.{FileNote, LacksNote, PageNote, RunNote};
ghost use Rattle.acng_serve.specs.Among.{AnswersAmong, FileAmong, LawfulAt, look_by};
ghost use Rattle.acng_serve.specs.Pages.{IsSomePage, IsSomeRun};

use crate::answer::answer_held;
use crate::file::{cause_of, is_whole};
use crate::house::House;
use crate::note::{Cause, Note};
use crate::page::{Report, expire_and_show, send_report, show};
use crate::refuse::refuse;
use crate::way::{Way, way_of};
use acng_base::{CachePath, Clock, Link, Moment, NoMemory, Texts};
use acng_class::{Class, Classes};
use acng_desk::{Begun, Entry, Ticket};
use acng_fetch::{Job, Joined, Loaders, load};
use acng_grow::{Facts, Followed, Look, Shared, Stage, await_head};
use acng_head::Label;
use acng_keeper::{BodyFile, Keeper, SlipOf};
use acng_reply::{Manner, Pick, follow_part};
use acng_request::Request;
use acng_site::{Origin, OriginSlip, Site};
use std::alloc::Global;
use std::sync::{Arc, Wait};

/// Answers one request in a manner, at a moment that is taken first.
pub(crate) fn answer_among<R, S, K, O, G, C, L>(
    rt: &R,
    alloc: Global,
    house: &House<S, K, O::Slip>,
    origin: &O,
    loaders: &G,
    clock: &mut C,
    manner: Manner,
    request: &Request,
    client: &mut L,
) -> Note<SlipOf<K>>
where
    R: Wait,
    S: Site,
    K: Keeper,
    O: Origin<S>,
    G: Loaders<Job<S, K, O::Slip>>,
    C: Clock,
    L: Link,
    requires serves { S.tells ≡ true → ServesTargets house.now S.serves }
    requires honest { S.tells ≡ true → IsHonest S.Site }
    ensures answers { AnswersAmong S.Site K.tells house.now manner request.now (C.coming clock.old) (C.coming clock.new) result
        (sent_by L.Link client.old client.new) }
    ensures others { Keeps (L.left client.old) (L.left client.new) }
    ensures fault { LinkTold result (L.faults client.old) (L.faults client.new) }
{
    let now = clock.now();
    answer_among_at(
        rt, alloc, house, origin, loaders, now, manner, request, client,
    )
}

// The same at the moment.
fn answer_among_at<R, S, K, O, G, L>(
    rt: &R,
    alloc: Global,
    house: &House<S, K, O::Slip>,
    origin: &O,
    loaders: &G,
    now: Moment,
    manner: Manner,
    request: &Request,
    client: &mut L,
) -> Note<SlipOf<K>>
where
    R: Wait,
    S: Site,
    K: Keeper,
    O: Origin<S>,
    G: Loaders<Job<S, K, O::Slip>>,
    L: Link,
    requires serves { S.tells ≡ true → ServesTargets house.now S.serves }
    requires honest { S.tells ≡ true → IsHonest S.Site }
    ensures answers { LawfulAt S.Site K.tells house.now manner request.now now result (sent_by L.Link client.old client.new) }
    ensures others { Keeps (L.left client.old) (L.left client.new) }
    ensures fault { LinkTold result (L.faults client.old) (L.faults client.new) }
{
    let Ok(mut classes) = Classes::of(alloc, house.conf()) else {
        return refuse(manner, Cause::NoMemory, None, None, client);
    };
    match way_of(alloc, house.conf(), &mut classes, request) {
        Way::File {
            path,
            origins,
            class,
        } => answer_file_among(
            rt, alloc, house, origin, loaders, now, manner, request, path, class, &origins, client,
        ),
        Way::Page => answer_page_among(rt, alloc, house, manner, client),
        Way::Run => answer_run_among(rt, alloc, house, now, manner, client),
        Way::Refusal(cause) => refuse(manner, cause, None, None, client),
    }
}

// Answers a request for the page.
fn answer_page_among<R: Wait, S: Site, K: Keeper, P: OriginSlip, L: Link>(
    rt: &R,
    alloc: Global,
    house: &House<S, K, P>,
    manner: Manner,
    client: &mut L,
) -> Note<SlipOf<K>>
    ensures note { PageNote manner result (sent_by L.Link client.old client.new)
        ⊎ LacksNote manner result (sent_by L.Link client.old client.new) }
    ensures others { Keeps (L.left client.old) (L.left client.new) }
    ensures fault { LinkTold result (L.faults client.old) (L.faults client.new) }
{
    match show_among(rt, alloc, house) {
        Ok(report) => send_report(manner, report, client),
        Err(NoMemory) => refuse(manner, Cause::NoMemory, None, None, client),
    }
}

// The page of the desk. The lock is let go with the call.
fn show_among<R: Wait, S: Site, K: Keeper, P: OriginSlip>(
    rt: &R,
    alloc: Global,
    house: &House<S, K, P>,
) -> Result<Report<SlipOf<K>>, NoMemory>
    ensures { IfOk result (λ report. IsSomePage report.page report.run) }
{
    let mut desk = house.desk().lock(rt);
    show(alloc, &mut *desk)
}

// Answers a request for a run and the page of what it leaves.
fn answer_run_among<R: Wait, S: Site, K: Keeper, P: OriginSlip, L: Link>(
    rt: &R,
    alloc: Global,
    house: &House<S, K, P>,
    now: Moment,
    manner: Manner,
    client: &mut L,
) -> Note<SlipOf<K>>
    ensures note { RunNote K.tells manner now result (sent_by L.Link client.old client.new)
        ⊎ LacksNote manner result (sent_by L.Link client.old client.new) }
    ensures others { Keeps (L.left client.old) (L.left client.new) }
    ensures fault { LinkTold result (L.faults client.old) (L.faults client.new) }
{
    match run_among(rt, alloc, house, now) {
        Ok(report) => send_report(manner, report, client),
        Err(NoMemory) => refuse(manner, Cause::NoMemory, None, None, client),
    }
}

// A run over the desk, and its page. The lock is held through both, and let go with the call.
fn run_among<R: Wait, S: Site, K: Keeper, P: OriginSlip>(
    rt: &R,
    alloc: Global,
    house: &House<S, K, P>,
    now: Moment,
) -> Result<Report<SlipOf<K>>, NoMemory>
    ensures { IfOk result (λ report. IsSomeRun K.tells now report.page report.run) }
{
    let mut desk = house.desk().lock(rt);
    expire_and_show(alloc, &mut *desk, now)
}

// Answers a request for a file.
fn answer_file_among<R, S, K, O, G, L>(
    rt: &R,
    alloc: Global,
    house: &House<S, K, O::Slip>,
    origin: &O,
    loaders: &G,
    now: Moment,
    manner: Manner,
    request: &Request,
    path: CachePath,
    class: Class,
    origins: &Texts,
    client: &mut L,
) -> Note<SlipOf<K>>
where
    R: Wait,
    S: Site,
    K: Keeper,
    O: Origin<S>,
    G: Loaders<Job<S, K, O::Slip>>,
    L: Link,
    requires class { class ≢ Forbidden }
    requires some { 1 ≤ length origins.now }
    requires serve { S.tells ≡ true → All (λ u. S.serves u path ≡ true) origins.now }
    requires honest { S.tells ≡ true → IsHonest S.Site }
    ensures answers { FileAmong S.Site K.tells manner request.now path now result (sent_by L.Link client.old client.new) }
    ensures others { Keeps (L.left client.old) (L.left client.new) }
    ensures fault { LinkTold result (L.faults client.old) (L.faults client.new) }
{
    let Ok(holders) = holders_of(alloc, &path) else {
        return refuse(manner, Cause::NoMemory, None, None, client);
    };
    let Holders {
        token,
        loaded,
        followed,
    } = holders;
    let begun = house
        .desk()
        .lock(rt)
        .begin(alloc, &path, class, origins, now, token);
    match begun {
        Begun::Kept(held, entry) => {
            answer_held::<S, K::Body, O::Slip, L>(path, held, manner, request, entry, client)
        }
        Begun::Join(joined, entry) => send_joined(rt, &joined.body, manner, request, entry, client),
        Begun::Lead(ticket, entry) => {
            start_load(rt, alloc, house, origin, loaders, ticket, loaded);
            send_joined(rt, &followed, manner, request, entry, client)
        }
        Begun::Offline(brim) => refuse(manner, Cause::Offline(brim), None, None, client),
        Begun::Full(brim) => refuse(manner, Cause::Full(brim), None, None, client),
        Begun::Worn(brim) => refuse(manner, Cause::Worn(brim), None, None, client),
        Begun::KeeperFault(slip) => refuse(manner, Cause::KeeperSlip(slip), None, None, client),
        Begun::NoMemory => refuse(manner, Cause::NoMemory, None, None, client),
    }
}

// The holders of a body that may come to be loaded: for the desk, for the loader, and for this session.
struct Holders<S: Site, F: BodyFile, P: OriginSlip> {
    token: Joined<S, F, P>,
    loaded: Joined<S, F, P>,
    followed: Arc<Shared<S, F, P>>,
}

// They are made before the desk is asked, since nothing may fail between a ticket and its load.
fn holders_of<S: Site, F: BodyFile, P: OriginSlip>(
    alloc: Global,
    path: &CachePath,
) -> Result<Holders<S, F, P>, NoMemory> {
    let followed = Shared::new(alloc, path.again(alloc)?)?;
    let token = Joined {
        body: Arc::try_clone(&followed).map_err(|_| NoMemory)?,
    };
    let loaded = Joined {
        body: Arc::try_clone(&followed).map_err(|_| NoMemory)?,
    };
    Ok(Holders {
        token,
        loaded,
        followed,
    })
}

// Hands the download over, or runs it here.
fn start_load<R, S, K, O, G>(
    rt: &R,
    alloc: Global,
    house: &House<S, K, O::Slip>,
    origin: &O,
    loaders: &G,
    ticket: Ticket<S, K::Body>,
    body: Joined<S, K::Body, O::Slip>,
)
where
    R: Wait,
    S: Site,
    K: Keeper,
    O: Origin<S>,
    G: Loaders<Job<S, K, O::Slip>>,
    requires honest { S.tells ≡ true → IsHonest S.Site }
    requires unused { IsUnused ticket }
{
    if let Err(job) = loaders.hand(Job::new(ticket, body)) {
        let (ticket, joined) = job.into_parts();
        let _ = load(rt, alloc, ticket, origin, &joined.body, house.desk());
    }
}

// Sends what a request gets of a body that is loaded, as it comes.
fn send_joined<R: Wait, S: Site, F: BodyFile, P: OriginSlip, L: Link>(
    rt: &R,
    shared: &Shared<S, F, P>,
    manner: Manner,
    request: &Request,
    entry: Entry,
    client: &mut L,
) -> Note<F::Slip>
    requires led { entry.kept ≡ false }
    ensures note { FileNote S.Site F.tells manner request.now entry.asked.path result (sent_by L.Link client.old client.new) }
    ensures entry { result.entry ≡ Some entry }
    ensures others { Keeps (L.left client.old) (L.left client.new) }
    ensures fault { LinkTold result (L.faults client.old) (L.faults client.new) }
{
    let Look {
        stage,
        facts,
        label,
        shown,
    } = await_head(rt, shared, entry.asked());
    match shown {
        Some(shown) => refuse(manner, Cause::Load(shown), label, Some(entry), client),
        None => match label {
            Some(label) => send_look(
                rt, shared, label, stage, &facts, manner, request, entry, client,
            ),
            None => unreachable!(),
        },
    }
}

// Sends what a request gets of a body by a look at it.
fn send_look<R: Wait, S: Site, F: BodyFile, P: OriginSlip, L: Link>(
    rt: &R,
    shared: &Shared<S, F, P>,
    label: Label,
    stage: Stage,
    facts: &Facts,
    manner: Manner,
    request: &Request,
    entry: Entry,
    client: &mut L,
) -> Note<F::Slip>
    requires led { entry.kept ≡ false }
    requires look { LookStands S.Site entry.asked (look_by label stage facts.now) }
    ensures note { FileNote S.Site F.tells manner request.now entry.asked.path result (sent_by L.Link client.old client.new) }
    ensures entry { result.entry ≡ Some entry }
    ensures others { Keeps (L.left client.old) (L.left client.new) }
    ensures fault { LinkTold result (L.faults client.old) (L.faults client.new) }
{
    let pick = Pick::of(request, stage, facts);
    let Followed { sent, label, stop } = follow_part(
        rt,
        shared,
        entry.asked(),
        label,
        facts,
        manner,
        pick,
        client,
    );
    let whole = is_whole(&stop);
    Note {
        status: pick.status(),
        cause: cause_of(stop, pick),
        label,
        entry: Some(entry),
        part: pick.part(),
        sent,
        whole,
    }
}
