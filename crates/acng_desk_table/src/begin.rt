//! The command `begin`: a call is let in, and a ticket that is given out is kept for a later command.
ghost use Rattle.std.specs.Prelude.{◌≡◌, ◌≢◌, ◌<◌, length};
ghost use Rattle.acng_class.specs.declared.class.Class.TheVariants.{Forbidden};
ghost use Rattle.acng_desk.specs.Tickets.{IsUnused};
ghost use Rattle.acng_desk_table.specs.Leads.{IfLead};

use crate::load::lose;
use crate::print::{Answer, facts, if_label, if_number, label, word};
use crate::table::{Lead, Out, Shop, Table};
use crate::words::{class_in, moment_in, path_in};
use acng_base::{CachePath, Moment, NoMemory, Texts};
use acng_class::Class;
use acng_desk::{Begun, BrimKind, Entry, Held, Info};
use acng_keeper::{CallSlip, KeeperSlip, MemoryBody};
use acng_site::Untold;
use std::alloc::Global;

type Answered = Begun<Untold, MemoryBody, CallSlip, ()>;

// A call for a path: where its ticket is kept, and when it comes.
#[derive(Drop)]
struct Call {
    slot: u64,
    path: CachePath,
    class: Class,
    now: Moment,
    ghost passed: { class ≢ Forbidden },
}

fn call_of(alloc: Global, rest: &str) -> Option<Call> {
    let mut words = rest.split(' ');
    let slot = words.next()?.parse::<u64>().ok()?;
    let path = path_in(alloc, words.next()?)?;
    let class = class_in(words.next()?)?;
    let now = moment_in(words.next()?)?;
    Some(Call {
        slot,
        path,
        class,
        now,
    })
}

/// Begins at the desk, and says how.
pub fn begin(alloc: Global, table: &mut Table, rest: &str) -> Answer {
    let Some(call) = call_of(alloc, rest) else {
        return word(alloc, "?");
    };
    if table.outs.has(call.slot) {
        return word(alloc, "busy");
    }
    let own = call.path.again(alloc)?;
    let mut origins = Texts::new(alloc);
    origins.push(alloc, b"http://o/")?;
    let begun = asked(alloc, &mut table.shop, &own, call.class, &origins, call.now);
    told(alloc, table, call.slot, own, begun)
}

// Where a ticket is given out, nothing was taken from it yet.
fn asked(
    alloc: Global,
    shop: &mut Shop,
    path: &CachePath,
    class: Class,
    origins: &Texts,
    now: Moment,
) -> Answered
    requires class { class ≢ Forbidden }
    requires origins { 0 < length origins.now }
    ensures path { IfLead result (λ t. path.now ≡ t.info.path) }
    ensures unused { IfLead result (λ t. IsUnused t) }
{
    shop.begin(alloc, path, class, origins, now, ())
}

fn told(alloc: Global, table: &mut Table, slot: u64, own: CachePath, begun: Answered) -> Answer
    requires path { IfLead begun (λ t. own ≡ t.info.path) }
    requires unused { IfLead begun (λ t. IsUnused t) }
{
    match begun {
        Begun::Lead(ticket, entry) => led(alloc, table, slot, own, ticket, &entry),
        Begun::Kept(held, entry) => {
            let answer = kept(alloc, &held, &entry);
            table.handle = Some(held.body);
            answer
        }
        Begun::Join(_, entry) => {
            let entry = entry_text(alloc, &entry)?;
            Ok(format!(in alloc; "join {entry}")?)
        }
        Begun::Offline(brim) | Begun::Full(brim) | Begun::Worn(brim) => {
            word(alloc, brim_text(brim.kind()))
        }
        Begun::KeeperFault(slip) => Ok(format!(in alloc; "slip {}", slip.call())?),
        Begun::NoMemory => word(alloc, "memory"),
    }
}

fn brim_text(kind: BrimKind) -> &'static str {
    match kind {
        BrimKind::Offline => "offline",
        BrimKind::Full => "full",
        BrimKind::Worn => "worn",
    }
}

// The first try, the old label and the moment of the call.
fn entry_text(alloc: Global, entry: &Entry) -> Answer {
    let asked = entry.asked();
    let first = asked.first_try;
    let old = if_label(alloc, &asked.old)?;
    let moment = entry.moment().0;
    Ok(format!(in alloc; "{first} {old} {moment}")?)
}

fn kept(alloc: Global, held: &Held<MemoryBody>, entry: &Entry) -> Answer {
    let file = held_text(alloc, held)?;
    let entry = entry_text(alloc, entry)?;
    Ok(format!(in alloc; "kept {file} for {entry}")?)
}

/// What a desk tells of a whole body.
pub fn held_text(alloc: Global, held: &Held<MemoryBody>) -> Answer {
    let label = label(alloc, &held.label)?;
    let facts = facts(alloc, &held.facts)?;
    Ok(format!(in alloc; "{} {label} {} {facts}", held.id.0, held.size)?)
}

// Keeps the ticket, and says what is in it.
fn led(
    alloc: Global,
    table: &mut Table,
    slot: u64,
    path: CachePath,
    ticket: Lead,
    entry: &Entry,
) -> Answer
    requires at { path ≡ ticket.info.path }
    requires unused { IsUnused ticket }
{
    let said = info_text(alloc, ticket.info());
    if let Some(out) = table.outs.put(slot, Out { path, ticket }) {
        lose(alloc, &mut table.shop, out);
    }
    let said = said?;
    let entry = entry_text(alloc, entry)?;
    Ok(format!(in alloc; "lead {said} for {entry}")?)
}

// The new body, and the old and the partial one.
fn info_text(alloc: Global, info: &Info) -> Answer {
    let old = old_text(alloc, info)?;
    let part = part_text(alloc, info)?;
    Ok(format!(in alloc; "{} from {} over {old} and {part}", info.fresh, info.first)?)
}

fn old_text(alloc: Global, info: &Info) -> Answer {
    let Some(old) = &info.was else {
        return word(alloc, "-");
    };
    let label = label(alloc, &old.label)?;
    let facts = facts(alloc, &old.facts)?;
    Ok(format!(in alloc; "{} {label} {} {facts}", old.id, old.size)?)
}

fn part_text(alloc: Global, info: &Info) -> Answer {
    let Some(part) = &info.part else {
        return word(alloc, "-");
    };
    let label = label(alloc, &part.label)?;
    let facts = facts(alloc, &part.facts)?;
    Ok(format!(in alloc; "{} {label} {} {facts}", part.id, part.len)?)
}
