//! The first line of a list: a desk is started over an empty keeper.
ghost use Rattle.std.specs.Prelude.{◌≡◌, ◌≤◌, true, IfOk, IfErr};
ghost use Rattle.acng_desk.specs.Starts.{most_rows};
ghost use Rattle.acng_grow.specs.Faithful.{IsFaithful};
ghost use Rattle.acng_keeper.specs.Kept.{nothing};

use crate::keeper::SeenKeeper;
use crate::table::{Shop, Store};
use crate::view::View;
use acng_base::NoMemory;
use acng_conf::{Conf, read_conf};
use acng_desk::{Desk, StartCause, StartFault};
use acng_keeper::{CallSlip, Keeper, KeeperSlip, MemoryKeeper};
use acng_site::{MemoryOrigin, NoGate, Right, Site, Untold};
use std::alloc::Global;
use std::sync::Arc;

// How a list begins: at most so many rows, the first try's number, which call of the keeper fails, and the configuration, or `-`.
#[derive(Drop)]
struct Header<'a> {
    rows: u32,
    first: u64,
    fail: Option<u64>,
    conf: &'a str,
    ghost some: { 1 ≤ rows },
    ghost most: { rows ≤ most_rows },
}

// `ROWS FIRST FAIL CONF`.
fn header_of(line: &str) -> Option<Header<'_>> {
    let (rows, rest) = line.split_once(' ')?;
    let (first, rest) = rest.split_once(' ')?;
    let (fail, conf) = rest.split_once(' ')?;
    let rows = rows.parse::<u32>().ok()?;
    if rows < 1 || rows > 1_048_576 {
        return None;
    }
    Some(Header {
        rows,
        first: first.parse::<u64>().ok()?,
        fail: fail.parse::<u64>().ok(),
        conf,
    })
}

fn conf_of(alloc: Global, line: &str) -> Option<Conf> {
    let text = if line == "-" { "" } else { line };
    read_conf(alloc, text.as_bytes(), &[]).ok()
}

fn unread(out: &mut String) -> Result<Option<Shop>, NoMemory> {
    out.push_str("?\n")?;
    Ok(None)
}

/// Starts a desk, a second time where the first is refused, and says how.
pub fn start(
    alloc: Global,
    line: &str,
    view: Arc<View>,
    out: &mut String,
) -> Result<Option<Shop>, NoMemory> {
    let Some(header) = header_of(line) else {
        return unread(out);
    };
    let Some(conf) = conf_of(alloc, header.conf) else {
        return unread(out);
    };
    let right = right(alloc, header.first)?;
    let keeper = empty(alloc, header.fail, view)?;
    match started(alloc, keeper, right, &conf, header.rows) {
        Ok(shop) => taken(shop, out),
        Err(fault) => start_again(alloc, fault, &header, &conf, out),
    }
}

fn taken(shop: Shop, out: &mut String) -> Result<Option<Shop>, NoMemory> {
    match out.push_str("started\n") {
        Ok(()) => Ok(Some(shop)),
        Err(_) => Err(NoMemory),
    }
}

fn start_again(
    alloc: Global,
    fault: StartFault<Store, CallSlip>,
    header: &Header<'_>,
    conf: &Conf,
    out: &mut String,
) -> Result<Option<Shop>, NoMemory>
    requires { IsFaithful ⟦<Untold as Site>⟧ (⟦<Store as Keeper>⟧.kept fault.keeper) }
{
    say(alloc, &fault.cause, out)?;
    let right = right(alloc, header.first)?;
    match started(alloc, fault.keeper, right, conf, header.rows) {
        Ok(shop) => taken(shop, out),
        Err(fault) => {
            say(alloc, &fault.cause, out)?;
            Ok(None)
        }
    }
}

fn say(alloc: Global, cause: &StartCause<CallSlip>, out: &mut String) -> Result<(), NoMemory> {
    let line = match cause {
        StartCause::KeeperFault(slip) => format!(in alloc; "slip {}\n", slip.call())?,
        StartCause::TooMany { count } => format!(in alloc; "too many {count}\n")?,
        StartCause::NoMemory => format!(in alloc; "memory\n")?,
    };
    out.push_str(line.as_str())?;
    Ok(())
}

// A keeper with nothing.
#[tactic(auto, using(crate::proofs::Empty::nothing_faithful))]
fn empty(alloc: Global, fail: Option<u64>, view: Arc<View>) -> Result<Store, NoMemory>
    ensures { IfOk result (λ keeper. IsFaithful ⟦<Untold as Site>⟧ (⟦<Store as Keeper>⟧.kept keeper)) }
{
    let keeper = match fail {
        Some(number) => MemoryKeeper::new(alloc, &[number])?,
        None => MemoryKeeper::new(alloc, &[])?,
    };
    Ok(SeenKeeper::new(keeper, view))
}

// The right to the attempts from this number on.
fn right(alloc: Global, first: u64) -> Result<Right<Untold>, NoMemory> {
    let (_, mut right) = MemoryOrigin::<Untold, NoGate>::start(alloc, &[], 1, NoGate)?;
    right.skip_to(first);
    Ok(right)
}

fn started(
    alloc: Global,
    keeper: Store,
    right: Right<Untold>,
    conf: &Conf,
    rows: u32,
) -> Result<Shop, StartFault<Store, CallSlip>>
    requires some { 1 ≤ rows }
    requires most { rows ≤ most_rows }
    requires faithful { IsFaithful ⟦<Untold as Site>⟧ (⟦<Store as Keeper>⟧.kept keeper) }
    ensures { IfErr result (λ e. IsFaithful ⟦<Untold as Site>⟧ (⟦<Store as Keeper>⟧.kept e.keeper)) }
{
    Desk::start(alloc, keeper, right, conf, rows)
}
