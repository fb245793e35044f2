//! The load of a body that others follow: the same download as that of a body which one owner has, through locks.
//!
//! Each effect is a critical section under the body's lock. The end is one under the desk's lock and then the body's: the
//! desk's always comes first, so that no two threads wait for each other. What a disk takes its time for is done before: a
//! whole body's bytes are made durable under its own lock alone, so that nobody who begins waits for a disk.
//!
//! A lock tells its next user only what its type keeps. What this loader did to the body stands in its own plan; each look
//! compares the body with that, and a look that finds another body gives its locks back and waits. Nobody else changes a
//! body whose ticket is out, so that doesn't come.
ghost use Rattle.std.specs.Prelude.{◌≡◌, ◌+◌, true};
ghost use Rattle.acng_site.specs.Honest.{IsHonest};
ghost use Rattle.acng_grow.specs.Agrees.{label_agrees, cause_agrees};
ghost use Rattle.acng_desk.specs.Settles.{IsLoaded, was_label};
ghost use Rattle.acng_desk.specs.Tickets.{IsUnused, errand_of};
ghost use Rattle.acng_fetch.specs.Leads.{EndsAs, IsFiled};
ghost use Rattle.acng_fetch.specs.Loads.{IsEnded};
ghost use Rattle.acng_fetch.specs.LoadsBy.{LoadsThrough};

use crate::downloading::{close_unbegun, download};
use crate::loader::Loader;
use crate::locked::LockedLead;
use crate::ticketed::{Loaded, order_of};
use acng_base::NoMemory;
use acng_desk::{Desk, Joint, Settled, Ticket};
use acng_grow::{Growing, Seen, Shared, Stage};
use acng_keeper::{BodyFile, BodyId, Keeper, SlipOf};
use acng_site::{Origin, OriginSlip, Site};
use std::alloc::Global;
use std::sync::{Arc, Mutex, Wait};

/// A holder of a body that many follow.
#[derive(Drop)]
pub struct Joined<S: Site, F: BodyFile, P: OriginSlip> {
    pub body: Arc<Shared<S, F, P>>,
}

impl<S: Site, F: BodyFile, P: OriginSlip> Joint for Joined<S, F, P> {
    fn again(&self) -> Result<Joined<S, F, P>, NoMemory> {
        match Arc::try_clone(&self.body) {
            Ok(body) => Ok(Joined { body }),
            Err(_) => Err(NoMemory),
        }
    }
}

// What a loader leaves: its ticket, the id of the body's file, and what is to be seen of the body.
struct Left<S: Site, F: BodyFile> {
    ticket: Ticket<S, F>,
    file: Option<BodyId>,
    plan: Seen,
}

// The body's end, as a desk may settle it.
fn into_left<R: Wait, S: Site, F: BodyFile, P: OriginSlip>(
    loader: Loader<LockedLead<'_, R, S, F, P>>,
) -> Left<S, F>
    requires ended { IsEnded (errand_of loader.body.ticket.info) loader.body.ticket.info.first loader.plan
        (loader.body.ticket.info.first + 16) }
    requires agrees { loader.body.grown.seen ≡ loader.plan }
    ensures ticket { result.ticket ≡ loader.entry.body.ticket }
    ensures plan { result.plan ≡ loader.entry.plan }
    ensures ends { EndsAs result.ticket result.file result.plan }
    ensures label { label_agrees result.ticket.info.first (was_label result.ticket.info) result.plan.label ≡ true }
    ensures cause { cause_agrees result.ticket.info.first result.plan.shown ≡ true }
{
    let Loader { plan, body } = loader;
    let (ticket, file) = body.into_parts();
    ticket.keeps();
    Left { ticket, file, plan }
}

// Loads the body by the ticket's download.
fn load_body<R: Wait, S: Site, F: BodyFile, P: OriginSlip, O: Origin<S, Slip = P>>(
    rt: &R,
    alloc: Global,
    ticket: Ticket<S, F>,
    origin: &O,
    shared: &Shared<S, F, P>,
) -> Left<S, F>
    requires honest { S.tells ≡ true → IsHonest S.Site }
    requires unused { IsUnused ticket }
    ensures info { result.ticket.info ≡ ticket.info }
    ensures ends { EndsAs result.ticket result.file result.plan }
    ensures loaded { S.tells ≡ true → IsLoaded S.Site result.ticket result.plan }
    ensures label { label_agrees ticket.info.first (was_label ticket.info) result.plan.label ≡ true }
    ensures cause { cause_agrees ticket.info.first result.plan.shown ≡ true }
{
    ticket.keeps();
    let order = order_of(alloc, &ticket);
    let mut loader = Loader::new(LockedLead::new(rt, shared, ticket));
    match order {
        Ok(order) => {
            download(alloc, &order, origin, &mut loader);
            into_left(loader)
        }
        Err(_) => {
            close_unbegun(&mut loader);
            into_left(loader)
        }
    }
}

// Makes a whole body's bytes durable. Where it is refused, the settling meets the refusal.
fn flush_whole<R: Wait, S: Site, F: BodyFile, P: OriginSlip>(
    rt: &R,
    left: &Left<S, F>,
    shared: &Shared<S, F, P>,
) {
    if let Stage::Whole = left.plan.stage {
        let mut body = shared.hold_as(rt, left.ticket.path(), left.file, &left.plan);
        let _ = body.flush();
    }
}

// Spends the ticket in one section, over a body that was found as its loader left it.
fn settle_found<S: Site, K: Keeper, P: OriginSlip, T: Joint>(
    alloc: Global,
    left: Left<S, K::Body>,
    body: &mut Growing<S, K::Body, P>,
    house: &mut Desk<S, K, T>,
) -> Settled<SlipOf<K>>
    requires path { body.old.path ≡ left.ticket.info.path }
    requires file { IsFiled left.file body.old }
    requires seen { body.old.seen ≡ left.plan }
    requires ends { EndsAs left.ticket left.file left.plan }
    requires loaded { S.tells ≡ true → IsLoaded S.Site left.ticket left.plan }
    requires label { label_agrees left.ticket.info.first (was_label left.ticket.info) left.plan.label ≡ true }
    requires cause { cause_agrees left.ticket.info.first left.plan.shown ≡ true }
    ensures loads { LoadsThrough S.Site left.ticket result }
{
    let Left {
        ticket,
        file: _,
        plan: _,
    } = left;
    house.settle(alloc, ticket, body)
}

// Spends the ticket under the desk's lock and then the body's.
fn settle_through<R: Wait, S: Site, K: Keeper, P: OriginSlip, T: Joint>(
    rt: &R,
    alloc: Global,
    left: Left<S, K::Body>,
    shared: &Shared<S, K::Body, P>,
    desk: &Mutex<Desk<S, K, T>>,
) -> Settled<SlipOf<K>>
    requires ends { EndsAs left.ticket left.file left.plan }
    requires loaded { S.tells ≡ true → IsLoaded S.Site left.ticket left.plan }
    requires label { label_agrees left.ticket.info.first (was_label left.ticket.info) left.plan.label ≡ true }
    requires cause { cause_agrees left.ticket.info.first left.plan.shown ≡ true }
    ensures { LoadsThrough S.Site left.ticket result }
{
    for _ in rt.forever() {
        let mut house = desk.lock(rt);
        let mut body = shared.hold(rt);
        if body.shows(left.ticket.path(), left.file, &left.plan) {
            return settle_found(alloc, left, &mut *body, &mut *house);
        }
        drop(house);
        let _ = shared.rest(rt, body);
    }
    unreachable!()
}

/// Loads the body of a ticket by all attempts of its download while others follow it, and settles the ticket. Attempts that
/// are left are given up. The body is one that opens, for the ticket's path, and nobody else changes it.
pub fn load<R: Wait, S: Site, K: Keeper, O: Origin<S>, T: Joint>(
    rt: &R,
    alloc: Global,
    ticket: Ticket<S, K::Body>,
    origin: &O,
    shared: &Shared<S, K::Body, O::Slip>,
    desk: &Mutex<Desk<S, K, T>>,
) -> Loaded<SlipOf<K>>
    requires honest { S.tells ≡ true → IsHonest S.Site }
    requires unused { IsUnused ticket }
    ensures { LoadsThrough S.Site ticket result.settled }
{
    let left = load_body(rt, alloc, ticket, origin, shared);
    flush_whole(rt, &left, shared);
    let settled = settle_through(rt, alloc, left, shared, desk);
    Loaded { settled }
}
