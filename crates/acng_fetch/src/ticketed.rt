//! The load of a body that one owner has: a ticket goes in, the attempts are made, and the desk settles the ticket.
ghost use Rattle.std.specs.Prelude.{◌≡◌, true, IfOk, option_map};
ghost use Rattle.acng_site.specs.Honest.{IsHonest};
ghost use Rattle.acng_keeper.specs.Slips.{Later};
ghost use Rattle.acng_grow.specs.declared.facts.Stage.TheVariants.{Opening};
ghost use Rattle.acng_grow.specs.Agrees.{label_agrees, cause_agrees};
ghost use Rattle.acng_desk.specs.Settles.{Ends, IsFault, IsLoaded, was_label};
ghost use Rattle.acng_desk.specs.Tickets.{IsUnused, errand_of, first_in, held_of, last_in, part_of};
ghost use Rattle.acng_fetch.specs.LoadsBy.{LoadsBy};

use crate::downloading::download;
use crate::lead::Led;
use crate::loader::Loader;
use crate::order::{OldOrder, Order, PartOrder};
use acng_base::{CachePath, NoMemory, Text, Texts};
use acng_desk::{Desk, OldFile, PartFile, Settled, Ticket};
use acng_grow::{Growing, Why};
use acng_head::Label;
use acng_keeper::{BodyFile, Keeper, SlipOf};
use acng_site::{Origin, OriginSlip, Site};
use std::alloc::Global;

/// How a load ended.
#[derive(Debug, Drop)]
pub struct Loaded<P> {
    pub settled: Settled<P>,
}

fn origins_again(alloc: Global, origins: &Texts) -> Result<Texts, NoMemory>
    ensures { IfOk result (λ again. again ≡ origins.now) }
{
    let mut again = Texts::new(alloc);
    for i in 0..origins.len() {
        again.push(alloc, origins.get(i))?;
    }
    Ok(again)
}

fn attempts_of(label: Label) -> (u64, u64)
    ensures { result ≡ (first_in label, last_in label) }
{
    match label {
        Label::Fetched { first, last } => (first, last),
        Label::Imported { .. } => (0, 0),
    }
}

fn part_order(alloc: Global, part: &PartFile) -> Result<PartOrder, NoMemory>
    ensures { IfOk result (λ order. order ≡ part_of part.now) }
{
    let (first, last) = attempts_of(part.label);
    Ok(PartOrder {
        url: Text::copy(alloc, part.url.as_bytes())?,
        first,
        last,
        facts: part.facts.again(),
        size: part.len,
    })
}

fn part_orders(alloc: Global, part: &Option<PartFile>) -> Result<Option<PartOrder>, NoMemory>
    ensures { IfOk result (λ order. order ≡ option_map part_of part.now) }
{
    match part {
        Some(part) => Ok(Some(part_order(alloc, part)?)),
        None => Ok(None),
    }
}

fn old_order(old: &Option<OldFile>) -> Option<OldOrder>
    ensures { result ≡ option_map held_of old.now }
{
    match old {
        Some(old) => Some(OldOrder {
            label: old.label,
            facts: old.facts.again(),
            size: old.size,
        }),
        None => None,
    }
}

// What the ticket is for.
pub(crate) fn order_of<S: Site, F: BodyFile>(
    alloc: Global,
    ticket: &Ticket<S, F>,
) -> Result<Order, NoMemory>
    ensures { IfOk result (λ order. order ≡ errand_of ticket.now.info) }
{
    let info = ticket.info();
    Ok(Order {
        origins: origins_again(alloc, &info.origins)?,
        redir_max: info.redir_max,
        part: part_orders(alloc, &info.part)?,
        old: old_order(&info.was),
    })
}

// Makes a body for the path by the ticket's download.
fn load_lead<S: Site, F: BodyFile, P: OriginSlip, O: Origin<S, Slip = P>>(
    alloc: Global,
    ticket: Ticket<S, F>,
    origin: &O,
    order: &Order,
    path: CachePath,
) -> (Ticket<S, F>, Growing<S, F, P>)
    requires honest { S.tells ≡ true → IsHonest S.Site }
    requires unused { IsUnused ticket }
    requires order { order.now ≡ errand_of ticket.info }
    requires path { path ≡ ticket.info.path }
    ensures info { result.0.info ≡ ticket.info }
    ensures ends { Ends result.0 result.1 }
    ensures loaded { S.tells ≡ true → IsLoaded S.Site result.0 result.1.seen }
    ensures label { label_agrees ticket.info.first (was_label ticket.info) result.1.seen.label ≡ true }
    ensures cause { cause_agrees ticket.info.first result.1.seen.shown ≡ true }
{
    ticket.keeps();
    let mut loader = Loader::new(Led::new(ticket, Growing::new(path)));
    download(alloc, order, origin, &mut loader);
    let Loader { plan: _, body } = loader;
    body.into_parts()
}

// Closes a body that didn't open, since memory was refused.
fn close_unopened<S: Site, F: BodyFile, P: OriginSlip>(
    ticket: &Ticket<S, F>,
    body: &mut Growing<S, F, P>,
)
    requires unused { IsUnused ticket.now }
    requires opening { body.old.seen.stage ≡ Opening }
    requires path { body.old.path ≡ ticket.now.info.path }
    ensures ends { Ends ticket.now body.new }
    ensures loaded { IsFault body.new.seen.shown }
    ensures label { label_agrees ticket.now.info.first (was_label ticket.now.info) body.new.seen.label ≡ true }
    ensures cause { cause_agrees ticket.now.info.first body.new.seen.shown ≡ true }
{
    body.keeps();
    body.refuse(Why::NoMemory);
}

// Loads the body by the ticket's download, and gives the ticket back.
fn load_into<S: Site, F: BodyFile, P: OriginSlip, O: Origin<S, Slip = P>>(
    alloc: Global,
    ticket: Ticket<S, F>,
    origin: &O,
    body: &mut Growing<S, F, P>,
) -> Ticket<S, F>
    requires honest { S.tells ≡ true → IsHonest S.Site }
    requires unused { IsUnused ticket }
    requires opening { body.old.seen.stage ≡ Opening }
    requires path { body.old.path ≡ ticket.info.path }
    ensures info { result.info ≡ ticket.info }
    ensures ends { Ends result body.new }
    ensures loaded { S.tells ≡ true → IsLoaded S.Site result body.new.seen }
    ensures label { label_agrees ticket.info.first (was_label ticket.info) body.new.seen.label ≡ true }
    ensures cause { cause_agrees ticket.info.first body.new.seen.shown ≡ true }
{
    let Ok(order) = order_of(alloc, &ticket) else {
        close_unopened(&ticket, body);
        return ticket;
    };
    let Ok(path) = body.path().again(alloc) else {
        close_unopened(&ticket, body);
        return ticket;
    };
    let (ticket, grown) = load_lead(alloc, ticket, origin, &order, path);
    *body = grown;
    ticket
}

/// Loads the body of a ticket by all attempts of its download, and settles the ticket. Attempts that are left are given up.
pub fn load_owned<S: Site, K: Keeper, O: Origin<S>>(
    alloc: Global,
    ticket: Ticket<S, K::Body>,
    origin: &O,
    body: &mut Growing<S, K::Body, O::Slip>,
    desk: &mut Desk<S, K, ()>,
) -> Loaded<SlipOf<K>>
    requires honest { S.tells ≡ true → IsHonest S.Site }
    requires unused { IsUnused ticket }
    requires opening { body.old.seen.stage ≡ Opening }
    requires path { body.old.path ≡ ticket.info.path }
    ensures loads { LoadsBy S.Site ticket desk.old desk.new body.new }
    ensures later { Later desk.old.faults desk.new.faults }
{
    let ticket = load_into(alloc, ticket, origin, body);
    let settled = desk.settle(alloc, ticket, body);
    Loaded { settled }
}
