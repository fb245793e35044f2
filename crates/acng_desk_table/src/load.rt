//! The command `settle`: a body is loaded by a ticket, ends, and the ticket is settled by it.
ghost use Rattle.std.specs.Prelude.{◌≡◌, ◌≤◌, ◌+◌, ◌-◌, ◌^◌, true, IfSome, IsSome};
ghost use Rattle.std.proofs.Props.{props};
ghost use Rattle.acng_grow.specs.declared.facts.Stage.TheVariants as stage;
ghost use Rattle.acng_grow.specs.Effects.{last_of};
ghost use Rattle.acng_grow.specs.Grown.{number_of};
ghost use Rattle.acng_grow.specs.Keeps.{IsDated};
ghost use Rattle.acng_desk.specs.Settles.{Ends};
ghost use Rattle.acng_desk.specs.Tickets.{IsUnused};
ghost use Rattle.acng_desk_table.specs.Leads.{IsLoading, IsOver};

use crate::print::{Answer, cause, facts, stage, word};
use crate::table::{Lead, Load, Out, Shop, Table};
use crate::words::{facts_in, text_in};
use acng_base::{CachePath, NoMemory, Text};
use acng_desk::Settled;
use acng_grow::{Facts, Growing, Why};
use acng_head::Label;
use acng_keeper::{CallSlip, KeepFault, KeeperSlip};
use std::alloc::Global;

// How bytes end.
#[derive(Clone, Copy)]
enum End {
    Whole,
    Early,
    NoMemory,
}

// What the new body gets: these bytes, of a file of which this is known.
#[derive(Drop)]
struct NewWay<'a> {
    end: End,
    facts: Facts,
    url: Text,
    text: &'a [u8],
    ghost dated: { IsDated facts } by { Prim.hlevel props },
}

// What becomes of the body.
#[derive(Drop)]
enum Way<'a> {
    New(NewWay<'a>),
    /// The partial body gets these bytes.
    On(End, &'a [u8]),
    /// The old body is still the file.
    Same,
    /// The origin says that the file is gone.
    Gone,
    /// Memory was refused.
    Lost,
}

fn end_in(word: &str) -> Option<End> {
    match word {
        "whole" => Some(End::Whole),
        "early" => Some(End::Early),
        "memory" => Some(End::NoMemory),
        _ => None,
    }
}

// `END TOTAL TAG DATE TEXT`.
fn new_way(alloc: Global, rest: &str) -> Option<NewWay<'_>> {
    let mut words = rest.split(' ');
    let end = end_in(words.next()?)?;
    let facts = facts_in(words.next()?, words.next()?, words.next()?)?;
    let text = text_in(words.next()?);
    let url = Text::copy(alloc, b"http://o/").ok()?;
    Some(NewWay {
        end,
        facts,
        url,
        text,
    })
}

// `END TEXT`.
fn on_way(rest: &str) -> Option<Way<'_>> {
    let (end, text) = rest.split_once(' ')?;
    Some(Way::On(end_in(end)?, text_in(text)))
}

fn way_in<'a>(alloc: Global, name: &str, rest: &'a str) -> Option<Way<'a>> {
    match name {
        "new" => Some(Way::New(new_way(alloc, rest)?)),
        "on" => on_way(rest),
        "same" => Some(Way::Same),
        "gone" => Some(Way::Gone),
        "lost" => Some(Way::Lost),
        _ => None,
    }
}

/// Settles a ticket, and says how: `SLOT WAY ..`.
pub fn settle(alloc: Global, table: &mut Table, rest: &str) -> Answer {
    let Some((slot, rest)) = rest.split_once(' ') else {
        return word(alloc, "?");
    };
    let Ok(slot) = slot.parse::<u64>() else {
        return word(alloc, "?");
    };
    let (name, rest) = rest.split_once(' ').unwrap_or((rest, ""));
    let Some(way) = way_in(alloc, name, rest) else {
        return word(alloc, "?");
    };
    let Some(out) = table.outs.take(slot) else {
        return word(alloc, "none");
    };
    let Out { path, ticket } = out;
    let (ticket, mut load) = loaded(alloc, path, ticket, way);
    let said = load_text(alloc, &load);
    let settled = ended(alloc, &mut table.shop, ticket, &mut load);
    let settled = settled_text(alloc, settled)?;
    let said = said?;
    Ok(format!(in alloc; "{settled} of {said}")?)
}

/// Settles a ticket of which nothing came.
pub fn lose(alloc: Global, shop: &mut Shop, out: Out) {
    let Out { path, ticket } = out;
    let mut load = lost(path, &ticket);
    let _settled = ended(alloc, shop, ticket, &mut load);
}

fn ended(alloc: Global, shop: &mut Shop, ticket: Lead, load: &mut Load) -> Settled<CallSlip>
    requires { Ends ticket load.old }
{
    shop.settle(alloc, ticket, load)
}

fn settled_text(alloc: Global, settled: Settled<CallSlip>) -> Answer {
    match settled {
        Settled::Kept => word(alloc, "kept"),
        Settled::Same => word(alloc, "same"),
        Settled::Partial => word(alloc, "partial"),
        Settled::Dropped => word(alloc, "dropped"),
        Settled::KeeperFault(slip) => Ok(format!(in alloc; "slip {}", slip.call())?),
        Settled::NoMemory => word(alloc, "memory"),
    }
}

// What is to be seen of a body.
fn load_text(alloc: Global, load: &Load) -> Answer {
    let stage = stage(load.stage());
    let label = crate::print::if_label(alloc, &load.label())?;
    let facts = facts(alloc, &load.facts())?;
    let cause = cause(alloc, &load.shown())?;
    Ok(format!(in alloc; "{stage} {label} {} {facts} {cause}", load.len())?)
}

// ---- loading

// The body ends by the ticket, in this way, or as if memory was refused where the ticket hasn't what the way needs.
fn loaded(alloc: Global, path: CachePath, ticket: Lead, way: Way<'_>) -> (Lead, Load)
    requires at { path ≡ ticket.info.path }
    requires unused { IsUnused ticket }
    ensures { Ends result.0 result.1 }
{
    let mut ticket = ticket;
    let load = match way {
        Way::New(way) => load_new(alloc, path, &mut ticket, way),
        Way::On(end, text) => load_on(alloc, path, &mut ticket, end, text),
        Way::Same => load_same(path, &mut ticket),
        Way::Gone => gone(path, &ticket),
        Way::Lost => lost(path, &ticket),
    };
    (ticket, load)
}

fn lost(path: CachePath, ticket: &Lead) -> Load
    requires at { path ≡ ticket.now.info.path }
    requires unused { IsUnused ticket.now }
    ensures { Ends ticket.now result }
{
    let _ = ticket.tries_left();
    let mut load: Load = Growing::new(path);
    load.refuse(Why::NoMemory);
    load
}

fn gone(path: CachePath, ticket: &Lead) -> Load
    requires at { path ≡ ticket.now.info.path }
    requires unused { IsUnused ticket.now }
    ensures { Ends ticket.now result }
{
    let attempt = ticket.first_try();
    let mut load: Load = Growing::new(path);
    load.refuse(Why::Gone { attempt });
    load
}

fn load_same(path: CachePath, ticket: &mut Lead) -> Load
    requires at { path ≡ ticket.old.info.path }
    requires unused { IsUnused ticket.old }
    ensures { Ends ticket.new result }
{
    ticket.keeps();
    let Some(label) = ticket.old_label() else {
        return lost(path, ticket);
    };
    let Some(facts) = ticket.old_facts() else {
        return lost(path, ticket);
    };
    let Some(body) = ticket.take_old() else {
        return lost(path, ticket);
    };
    let mut load: Load = Growing::new(path);
    load.same(body, label, facts);
    load
}

fn load_new(alloc: Global, path: CachePath, ticket: &mut Lead, way: NewWay<'_>) -> Load
    requires at { path ≡ ticket.old.info.path }
    requires unused { IsUnused ticket.old }
    ensures { Ends ticket.new result }
{
    let NewWay {
        end,
        facts,
        url,
        text,
    } = way;
    let attempt = ticket.first_try();
    let mut load = opened(path, ticket, attempt, url, facts);
    grown(alloc, &mut load, text, end, attempt);
    load
}

// The new body, opened by the first attempt.
fn opened(path: CachePath, ticket: &mut Lead, attempt: u64, url: Text, facts: Facts) -> Load
    requires at { path ≡ ticket.old.info.path }
    requires unused { IsUnused ticket.old }
    requires attempt { attempt ≡ ticket.old.info.first }
    requires dated { IsDated facts }
    ensures running { result.seen.stage ≡ stage.Running }
    ensures loading { IsLoading ticket.new result }
    ensures attempt { last_of result.seen.label ≡ attempt }
    ensures bound { attempt ≤ 2 ^ 63 - 16 }
{
    ticket.keeps();
    let Some(body) = ticket.take_new() else {
        unreachable!();
    };
    let mut load: Load = Growing::new(path);
    load.begin_body(body, url, attempt, facts);
    load
}

fn load_on(alloc: Global, path: CachePath, ticket: &mut Lead, end: End, text: &[u8]) -> Load
    requires at { path ≡ ticket.old.info.path }
    requires unused { IsUnused ticket.old }
    ensures { Ends ticket.new result }
{
    let attempt = ticket.first_try();
    if ticket.partial_len().is_none() {
        return lost(path, ticket);
    }
    let mut load = gone_on(path, ticket, attempt);
    grown(alloc, &mut load, text, end, attempt);
    load
}

// The partial body, with which the first attempt goes on.
fn gone_on(path: CachePath, ticket: &mut Lead, attempt: u64) -> Load
    requires at { path ≡ ticket.old.info.path }
    requires unused { IsUnused ticket.old }
    requires part { IsSome ticket.old.info.part }
    requires attempt { attempt ≡ ticket.old.info.first }
    ensures running { result.seen.stage ≡ stage.Running }
    ensures loading { IsLoading ticket.new result }
    ensures attempt { last_of result.seen.label ≡ attempt }
    ensures bound { attempt ≤ 2 ^ 63 - 16 }
{
    ticket.keeps();
    let Some(part) = ticket.take_partial() else {
        unreachable!();
    };
    let Label::Fetched { first, last: _ } = part.label else {
        unreachable!();
    };
    let mut load: Load = Growing::new(path);
    load.go_on(part.body, part.url, first, attempt, part.facts);
    load
}

// ---- bytes

// Puts the bytes, and ends the body. Where a call of its file fails, it is cut for that.
fn grown(alloc: Global, load: &mut Load, text: &[u8], end: End, attempt: u64)
    requires running { load.old.seen.stage ≡ stage.Running }
    requires attempt { last_of load.old.seen.label ≡ attempt }
    ensures path { load.new.path ≡ load.old.path }
    ensures file { number_of load.new ≡ number_of load.old }
    ensures label { load.new.seen.label ≡ load.old.seen.label }
    ensures over { IsOver load.new.seen.stage }
{
    match put(alloc, load, text) {
        Ok(()) => end_with(load, end, attempt),
        Err(KeepFault::Slip(slip)) => load.cut(Why::Keeper(slip)),
        Err(KeepFault::NoMemory) => load.cut(Why::NoMemory),
    }
}

// No byte is put where they are more than the file has.
fn put(alloc: Global, load: &mut Load, text: &[u8]) -> Result<(), KeepFault<CallSlip>>
    requires running { load.old.seen.stage ≡ stage.Running }
    ensures path { load.new.path ≡ load.old.path }
    ensures file { number_of load.new ≡ number_of load.old }
    ensures label { load.new.seen.label ≡ load.old.seen.label }
    ensures running { load.new.seen.stage ≡ stage.Running }
{
    if text.is_empty() || !fits(load, text.len()) {
        return Ok(());
    }
    load.add(alloc, text)
}

fn fits(load: &Load, more: usize) -> bool
    ensures small { result ≡ true → load.now.seen.size + more ≤ 2 ^ 41 }
    ensures room { result ≡ true → IfSome load.now.seen.facts.total (λ t. load.now.seen.size + more ≤ t) }
{
    if load.len() > 1 << 40 || more > 1 << 20 {
        return false;
    }
    let size = load.len() + more as u64;
    match load.facts().total {
        Some(total) => size <= total,
        None => true,
    }
}

fn end_with(load: &mut Load, end: End, attempt: u64)
    requires running { load.old.seen.stage ≡ stage.Running }
    requires attempt { last_of load.old.seen.label ≡ attempt }
    ensures path { load.new.path ≡ load.old.path }
    ensures file { number_of load.new ≡ number_of load.old }
    ensures label { load.new.seen.label ≡ load.old.seen.label }
    ensures over { IsOver load.new.seen.stage }
{
    match end {
        End::Whole if is_full(load) => load.finish(),
        End::NoMemory => load.cut(Why::NoMemory),
        _ => load.cut(Why::Early { attempt }),
    }
}

// Whether it has as many bytes as the file, as far as that is known.
fn is_full(load: &Load) -> bool
    ensures { result ≡ true → IfSome load.now.seen.facts.total (λ t. t ≡ load.now.seen.size) }
{
    match load.facts().total {
        Some(total) => total == load.len(),
        None => true,
    }
}
