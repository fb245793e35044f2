//! A download, attempt by attempt.
ghost use Rattle.std.specs.Prelude.{◌≡◌, ◌+◌, ◌-◌, ◌<◌, ◌≤◌, ℕ, Bool, List, true, length, None, Some, if◌then◌else◌};
ghost use Rattle.std.specs.Prelude.{IfOk, IfErr, IfSome, IsSome, OnOk};
ghost use Rattle.acng_base.specs.Answers.{answer_limit, reading};
ghost use Rattle.acng_answer.specs.Reader.{due, rest};
ghost use Rattle.acng_answer.specs.Stages.{without_interim};
ghost use Rattle.acng_base.specs.Moments.{moment_limit};
ghost use Rattle.acng_site.specs.Honest.{IsHonest, heard};
ghost use Rattle.acng_grow.specs.declared.facts.Seen.{Seen};
ghost use Rattle.acng_grow.specs.Effects.{Errand, Part, opening, runs};
ghost use Rattle.acng_grow.specs.Download.{On, ask_of, begins, goes_on, left_of as left_after, since_of, turn, worn};
ghost use Rattle.acng_answer.specs.Blocks.{IsBounded};
ghost use Rattle.acng_grow.specs.Keeps.{attempts_end};
ghost use Rattle.acng_grow.specs.Allowed.{AllAllowed};
ghost use Rattle.acng_fetch.specs.Answering.{MayTurn};
ghost use Rattle.acng_fetch.specs.Events.{IsReady, left_of};
ghost use Rattle.acng_fetch.specs.Fits.{Fits};
ghost use Rattle.acng_fetch.specs.Loads.{AfterIn, FaultsIn, IsEnded, IsFault, IsLoaded, IsTried, StandsIn, Turns, stand_of};
ghost use Rattle.acng_fetch.specs.Orders.{ErrandKeeps};
ghost use Rattle.acng_fetch.specs.Stocks.{Agrees};

use crate::attempt::{TurnOf, headed, headless};
use crate::decision::tag_again;
use crate::exchange::{End, Event, Exchange, Intake, new_intake};
use crate::grows::Grows;
use crate::loader::{FaultOf, Loader, SlipIn};
use crate::order::Order;
use crate::standing::{Standing, Turned};
use acng_answer::AnswerHead;
use acng_base::{NoMemory, Text};
use acng_grow::{Stage, Why};
use acng_keeper::{KeepFault, KeeperSlip};
use acng_site::{Ask, Conn, Dial, Origin, OriginSlip, Try};
use std::alloc::Global;

// What is asked at a URL before the body opens: the partial body's rest, or all.
fn ask_at(order: &Order, ranged: bool, url: Text) -> Ask
    ensures ranged { (p : Part) → (if ranged then order.now.part else None) ≡ Some p
        → result ≡ record { url = url; from = p.size; tag = p.facts.tag; since = None } }
    ensures whole { (if ranged then order.now.part else None) ≡ None
        → result ≡ record { url = url; from = 0; tag = None; since = since_of order.now } }
{
    if ranged {
        if let Some(part) = &order.part {
            return Ask {
                url,
                from: part.size,
                tag: tag_again(&part.facts.tag),
                since: None,
            };
        }
    }
    Ask {
        url,
        from: 0,
        tag: None,
        since: order.since(),
    }
}

// What is asked from here.
fn ask_for<B: Grows>(
    alloc: Global,
    order: &Order,
    loader: &Loader<B>,
    standing: &Standing<B::Slip, SlipIn<B>>,
) -> Result<Ask, NoMemory>
    requires keeps { ErrandKeeps B.Site.Site (B.stock loader.now.body).path (B.stock loader.now.body).next order.now }
    ensures ask { IfOk result (λ ask. ask
        ≡ ask_of order.now (stand_of B.Slip.number B.File.Slip.number order.now loader.now.plan standing.now)) }
    ensures since { IfOk result (λ ask. IfSome ask.since (λ moment. moment.0 < moment_limit)) }
{
    match standing {
        Standing::Asking { ranged, url, .. } => {
            let url = Text::copy(alloc, url.as_bytes())?;
            Ok(ask_at(order, *ranged, url))
        }
        Standing::Going { .. } => {
            let bytes: &[u8] = match &loader.plan.url {
                Some(url) => url.as_bytes(),
                None => &[],
            };
            let url = Text::copy(alloc, bytes)?;
            Ok(Ask {
                url,
                from: loader.plan.size,
                tag: tag_again(&loader.plan.facts.tag),
                since: None,
            })
        }
    }
}

// Reads one answer, and does what it brings.
fn answered<B: Grows, C: Conn<Slip = B::Slip>>(
    alloc: Global,
    order: &Order,
    loader: &mut Loader<B>,
    standing: Standing<B::Slip, SlipIn<B>>,
    exchange: &mut Exchange<C>,
    attempt: u64,
) -> TurnOf<B>
    requires ready { IsReady exchange.old }
    requires fresh { exchange.old.reader.head ≡ None }
    requires limit { exchange.old.reader.limit ≡ answer_limit }
    requires number { C.number exchange.old.conn ≡ attempt }
    requires tells { B.Site.tells ≡ true → C.tells ≡ true }
    requires stands { StandsIn B.Slip.number B.File.Slip.number (B.stock loader.old.body).first loader.old.plan
        (B.full loader.old.body) attempt standing }
    requires agrees { Agrees (B.seen loader.old.body) loader.old.plan }
    requires errand { (B.stock loader.old.body).errand ≡ order.now }
    requires bounded { attempt < attempts_end }
    requires later { (B.stock loader.old.body).first ≤ attempt }
    requires keeps { ErrandKeeps B.Site.Site (B.stock loader.old.body).path attempt order.now }
    requires allowed { MayTurn B.Site.Site (B.stock loader.old.body) order.now loader.old.plan
        (turn order.now attempt
        (stand_of B.Slip.number B.File.Slip.number order.now loader.old.plan standing) (left_of C.Conn exchange.old)) }
    ensures turns { IfOk result (λ turned. B.Site.tells ≡ true → Turns B.Slip.number B.File.Slip.number order.now
        (turn order.now attempt
        (stand_of B.Slip.number B.File.Slip.number order.now loader.old.plan standing) (left_of C.Conn exchange.old))
        loader.old.plan loader.new.plan turned) }
    ensures stands { IfOk result (λ turned. AfterIn B.Slip.number B.File.Slip.number order.now (B.stock loader.old.body).first
        loader.new.plan (B.full loader.new.body) (attempt + 1) turned) }
    ensures fault { IfErr result (λ fault. FaultsIn (B.stock loader.old.body).first loader.new.plan (attempt + 1) fault) }
    ensures agrees { Agrees (B.seen loader.new.body) loader.new.plan }
    ensures stock { B.stock loader.new.body ≡ B.stock loader.old.body }
{
    match exchange.next() {
        Event::Head => {
            let head = told(exchange);
            let turned = headed(alloc, order, loader, standing, exchange, attempt, &head)?;
            Ok(turned)
        }
        Event::Body { start: _, stop: _ } => unreachable!(),
        Event::Ended(end) => {
            let turned = headless(alloc, order, loader, standing, attempt, end)?;
            Ok(turned)
        }
    }
}

// What is told of the head.
fn told<C: Conn>(exchange: &Exchange<C>) -> AnswerHead
    requires { IsSome exchange.now.reader.head }
    ensures head { exchange.now.reader.head ≡ Some result }
    ensures bounds { IsBounded result }
{
    match exchange.head() {
        Some(head) => AnswerHead {
            status: head.status,
            length: head.length,
            range: head.range,
            tag: tag_again(&head.tag),
            modified: head.modified,
        },
        None => unreachable!(),
    }
}

// Spends the attempt on what is asked, and does what the answer brings.
fn attempted<B: Grows, O: Origin<B::Site, Slip = B::Slip>>(
    alloc: Global,
    order: &Order,
    origin: &O,
    loader: &mut Loader<B>,
    standing: Standing<B::Slip, SlipIn<B>>,
    attempt: Try<B::Site>,
    ask: &Ask,
    intake: Intake,
) -> TurnOf<B>
    requires ask { ask.now ≡ ask_of order.now (stand_of B.Slip.number B.File.Slip.number order.now loader.old.plan standing) }
    requires since { IfSome ask.now.since (λ moment. moment.0 < moment_limit) }
    requires reads { (ended : Bool) (text : List ℕ)
        → rest intake.reader ended text ≡ without_interim (reading text ended answer_limit) }
    requires limit { (intake.reader.limit ≡ answer_limit) × (intake.reader.at ≡ 0) }
    requires fresh { (intake.reader.head ≡ None) × (due intake.reader ≡ None) }
    requires room { 0 < length intake.buf.items }
    requires stands { StandsIn B.Slip.number B.File.Slip.number (B.stock loader.old.body).first loader.old.plan
        (B.full loader.old.body) attempt.number standing }
    requires agrees { Agrees (B.seen loader.old.body) loader.old.plan }
    requires errand { (B.stock loader.old.body).errand ≡ order.now }
    requires bounded { attempt.number < attempts_end }
    requires later { (B.stock loader.old.body).first ≤ attempt.number }
    requires keeps { ErrandKeeps B.Site.Site (B.stock loader.old.body).path attempt.number order.now }
    requires allowed { MayTurn B.Site.Site (B.stock loader.old.body) order.now loader.old.plan
        (turn order.now attempt.number
        (stand_of B.Slip.number B.File.Slip.number order.now loader.old.plan standing)
        (heard B.Site.Site attempt.number
        (ask_of order.now (stand_of B.Slip.number B.File.Slip.number order.now loader.old.plan standing)))) }
    ensures turns { IfOk result (λ turned. B.Site.tells ≡ true → Turns B.Slip.number B.File.Slip.number order.now
        (turn order.now attempt.number
        (stand_of B.Slip.number B.File.Slip.number order.now loader.old.plan standing)
        (heard B.Site.Site attempt.number
        (ask_of order.now (stand_of B.Slip.number B.File.Slip.number order.now loader.old.plan standing))))
        loader.old.plan loader.new.plan turned) }
    ensures stands { IfOk result (λ turned. AfterIn B.Slip.number B.File.Slip.number order.now (B.stock loader.old.body).first
        loader.new.plan (B.full loader.new.body) (attempt.number + 1) turned) }
    ensures fault { IfErr result (λ fault. FaultsIn (B.stock loader.old.body).first loader.new.plan (attempt.number + 1) fault) }
    ensures agrees { Agrees (B.seen loader.new.body) loader.new.plan }
    ensures stock { B.stock loader.new.body ≡ B.stock loader.old.body }
{
    let number = attempt.number();
    match origin.dial(alloc, attempt, ask) {
        Dial::Up(conn) => {
            let mut exchange = Exchange::new(conn, intake.reader, intake.buf);
            let turned = answered(alloc, order, loader, standing, &mut exchange, number)?;
            Ok(turned)
        }
        Dial::Fault(slip) => {
            let turned = headless(alloc, order, loader, standing, number, End::Slip(slip))?;
            Ok(turned)
        }
        Dial::NoMemory => Err(KeepFault::NoMemory),
    }
}

// One attempt, and what it leaves of the attempts.
fn attempt_once<B: Grows, O: Origin<B::Site, Slip = B::Slip>>(
    alloc: Global,
    order: &Order,
    origin: &O,
    loader: &mut Loader<B>,
    standing: Standing<B::Slip, SlipIn<B>>,
) -> TurnOf<B>
    requires left { 1 ≤ (B.stock loader.old.body).left }
    requires bounded { (B.stock loader.old.body).next < attempts_end }
    requires later { (B.stock loader.old.body).first ≤ (B.stock loader.old.body).next }
    requires stands { StandsIn B.Slip.number B.File.Slip.number (B.stock loader.old.body).first loader.old.plan
        (B.full loader.old.body) (B.stock loader.old.body).next standing }
    requires agrees { Agrees (B.seen loader.old.body) loader.old.plan }
    requires errand { (B.stock loader.old.body).errand ≡ order.now }
    requires keeps { ErrandKeeps B.Site.Site (B.stock loader.old.body).path (B.stock loader.old.body).next order.now }
    requires allowed { MayTurn B.Site.Site (B.stock loader.old.body) order.now loader.old.plan
        (turn order.now (B.stock loader.old.body).next
        (stand_of B.Slip.number B.File.Slip.number order.now loader.old.plan standing)
        (heard B.Site.Site (B.stock loader.old.body).next
        (ask_of order.now (stand_of B.Slip.number B.File.Slip.number order.now loader.old.plan standing)))) }
    ensures turns { IfOk result (λ turned. B.Site.tells ≡ true → Turns B.Slip.number B.File.Slip.number order.now
        (turn order.now (B.stock loader.old.body).next
        (stand_of B.Slip.number B.File.Slip.number order.now loader.old.plan standing)
        (heard B.Site.Site (B.stock loader.old.body).next
        (ask_of order.now (stand_of B.Slip.number B.File.Slip.number order.now loader.old.plan standing))))
        loader.old.plan loader.new.plan turned) }
    ensures stands { IfOk result (λ turned. AfterIn B.Slip.number B.File.Slip.number order.now (B.stock loader.old.body).first
        loader.new.plan (B.full loader.new.body) ((B.stock loader.old.body).next + 1) turned) }
    ensures fault { IfErr result (λ fault. FaultsIn (B.stock loader.old.body).first loader.new.plan
        ((B.stock loader.old.body).next + 1) fault) }
    ensures agrees { Agrees (B.seen loader.new.body) loader.new.plan }
    ensures stock { OnOk result (B.stock loader.new.body ≡ record (B.stock loader.old.body) {
      next = (B.stock loader.old.body).next + 1;
      left = (B.stock loader.old.body).left - 1;
    }) }
    ensures path { (B.stock loader.new.body).path ≡ (B.stock loader.old.body).path }
    ensures first { (B.stock loader.new.body).first ≡ (B.stock loader.old.body).first }
    ensures info { (B.stock loader.new.body).info ≡ (B.stock loader.old.body).info }
{
    let ask = ask_for(alloc, order, loader, &standing)?;
    let intake = new_intake(alloc)?;
    let attempt = loader.body.next_try();
    let turned = attempted(
        alloc, order, origin, loader, standing, attempt, &ask, intake,
    )?;
    Ok(turned)
}

// The end for want of an attempt.
fn wear_out<B: Grows>(order: &Order, loader: &mut Loader<B>, standing: Standing<B::Slip, SlipIn<B>>)
    requires tried { IsTried standing }
    requires stands { StandsIn B.Slip.number B.File.Slip.number (B.stock loader.old.body).first loader.old.plan
        (B.full loader.old.body) (B.stock loader.old.body).next standing }
    requires agrees { Agrees (B.seen loader.old.body) loader.old.plan }
    requires allowed { B.Site.tells ≡ true → AllAllowed B.Site.Site (B.stock loader.old.body).path order.now loader.old.plan
        (worn (stand_of B.Slip.number B.File.Slip.number order.now loader.old.plan standing)) }
    ensures plan { runs order.now (worn (stand_of B.Slip.number B.File.Slip.number order.now loader.old.plan standing)) loader.old.plan
        ≡ loader.new.plan }
    ensures ended { IsEnded order.now (B.stock loader.old.body).first loader.new.plan (B.stock loader.old.body).next }
    ensures agrees { Agrees (B.seen loader.new.body) loader.new.plan }
    ensures stock { B.stock loader.new.body ≡ B.stock loader.old.body }
{
    let _ = order;
    match standing {
        Standing::Asking { last, .. } => match last {
            Some(why) => loader.refuse(why),
            None => unreachable!(),
        },
        Standing::Going { kept } => loader.cut(kept),
    }
}

// Attempts until one brings an end, or none is left.
fn try_on<B: Grows, O: Origin<B::Site, Slip = B::Slip>>(
    alloc: Global,
    order: &Order,
    origin: &O,
    loader: &mut Loader<B>,
    standing: Standing<B::Slip, SlipIn<B>>,
) -> Result<(), FaultOf<B>>
    requires some { 1 ≤ (B.stock loader.old.body).left }
    requires bounded { (B.stock loader.old.body).next + (B.stock loader.old.body).left ≤ attempts_end }
    requires first { (B.stock loader.old.body).first ≡ (B.stock loader.old.body).next }
    requires stands { StandsIn B.Slip.number B.File.Slip.number (B.stock loader.old.body).first loader.old.plan
        (B.full loader.old.body) (B.stock loader.old.body).next standing }
    requires agrees { Agrees (B.seen loader.old.body) loader.old.plan }
    requires errand { (B.stock loader.old.body).errand ≡ order.now }
    requires keeps { ErrandKeeps B.Site.Site (B.stock loader.old.body).path (B.stock loader.old.body).next order.now }
    requires honest { B.Site.tells ≡ true → IsHonest B.Site.Site }
    requires fits { B.Site.tells ≡ true → Fits B.Site.Site (B.stock loader.old.body).path order.now (B.stock loader.old.body).next
        (On (stand_of B.Slip.number B.File.Slip.number order.now loader.old.plan standing)) loader.old.plan }
    ensures plan { OnOk result (B.Site.tells ≡ true → runs order.now (goes_on (heard B.Site.Site) order.now
        (B.stock loader.old.body).left (B.stock loader.old.body).next
        (On (stand_of B.Slip.number B.File.Slip.number order.now loader.old.plan standing))) loader.old.plan ≡ loader.new.plan) }
    ensures left { OnOk result (B.Site.tells ≡ true → left_after (heard B.Site.Site) order.now
        (B.stock loader.old.body).left (B.stock loader.old.body).next
        (On (stand_of B.Slip.number B.File.Slip.number order.now loader.old.plan standing)) ≡ (B.stock loader.new.body).left) }
    ensures ended { OnOk result (IsEnded order.now (B.stock loader.old.body).first loader.new.plan
        ((B.stock loader.old.body).next + (B.stock loader.old.body).left)) }
    ensures fault { IfErr result (λ fault. FaultsIn (B.stock loader.old.body).first loader.new.plan
        ((B.stock loader.old.body).next + (B.stock loader.old.body).left) fault) }
    ensures agrees { Agrees (B.seen loader.new.body) loader.new.plan }
    ensures path { (B.stock loader.new.body).path ≡ (B.stock loader.old.body).path }
    ensures first { (B.stock loader.new.body).first ≡ (B.stock loader.old.body).first }
    ensures info { (B.stock loader.new.body).info ≡ (B.stock loader.old.body).info }
{
    let mut standing = standing;
    loop {
        if loader.body.tries_left() == 0 {
            wear_out(order, loader, standing);
            return Ok(());
        }
        let turned = attempt_once(alloc, order, origin, loader, standing)?;
        match turned {
            Turned::Done => return Ok(()),
            Turned::Again(next) => standing = next,
        }
    }
}

// Where a download begins: with the partial body, where there is one.
fn first_standing<P: OriginSlip, Q: KeeperSlip>(
    alloc: Global,
    order: &Order,
) -> Result<Standing<P, Q>, NoMemory>
    requires origins { 0 < length order.now.origins }
    ensures stands { (first n : ℕ) (p : Seen) (full : Bool) → p ≡ opening → full ≡ true
        → IfOk result (λ standing. StandsIn P.number Q.number first p full n standing) }
    ensures begins { (p : Seen) → IfOk result (λ standing.
        begins order.now.origins order.now.part ≡ On (stand_of P.number Q.number order.now p standing)) }
{
    match &order.part {
        Some(part) => {
            let url = Text::copy(alloc, part.url.as_bytes())?;
            Ok(Standing::Asking {
                last: None,
                ranged: true,
                url,
                next: 0,
                followed: 0,
            })
        }
        None => {
            let url = Text::copy(alloc, order.origins.get(0))?;
            Ok(Standing::Asking {
                last: None,
                ranged: false,
                url,
                next: 1,
                followed: 0,
            })
        }
    }
}

// Closes a body by a fault of its file or want of memory.
fn close_by<B: Grows>(order: &Order, loader: &mut Loader<B>, fault: FaultOf<B>)
    requires faults { (n : ℕ) × FaultsIn (B.stock loader.old.body).first loader.old.plan n fault }
    requires agrees { Agrees (B.seen loader.old.body) loader.old.plan }
    ensures shown { IsFault loader.new.plan.shown }
    ensures ended { (n : ℕ) → FaultsIn (B.stock loader.old.body).first loader.old.plan n fault
        → IsEnded order.now (B.stock loader.old.body).first loader.new.plan n }
    ensures agrees { Agrees (B.seen loader.new.body) loader.new.plan }
    ensures stock { B.stock loader.new.body ≡ B.stock loader.old.body }
{
    let _ = order;
    match fault {
        KeepFault::Slip(slip) => loader.cut(Why::Keeper(slip)),
        KeepFault::NoMemory => match loader.plan.stage {
            Stage::Opening => loader.refuse(Why::NoMemory),
            _ => loader.cut(Why::NoMemory),
        },
    }
}

/// Closes a body that didn't open, since memory was refused before the first attempt.
pub(crate) fn close_unbegun<B: Grows>(loader: &mut Loader<B>)
    requires opening { loader.old.plan ≡ opening }
    requires agrees { Agrees (B.seen loader.old.body) loader.old.plan }
    ensures shown { IsFault loader.new.plan.shown }
    ensures ended { (e : Errand) (first n : ℕ) → IsEnded e first loader.new.plan n }
    ensures agrees { Agrees (B.seen loader.new.body) loader.new.plan }
    ensures stock { B.stock loader.new.body ≡ B.stock loader.old.body }
{
    loader.refuse(Why::NoMemory);
}

/// Loads a body: it ends as the download says, with the attempts left that this leaves, or a fault of its file or want of
/// memory closed it.
pub fn download<B: Grows, O: Origin<B::Site, Slip = B::Slip>>(
    alloc: Global,
    order: &Order,
    origin: &O,
    loader: &mut Loader<B>,
)
    requires some { 1 ≤ (B.stock loader.old.body).left }
    requires bounded { (B.stock loader.old.body).next + (B.stock loader.old.body).left ≤ attempts_end }
    requires first { (B.stock loader.old.body).first ≡ (B.stock loader.old.body).next }
    requires origins { 0 < length order.now.origins }
    requires opening { loader.old.plan ≡ opening }
    requires full { B.full loader.old.body ≡ true }
    requires agrees { Agrees (B.seen loader.old.body) loader.old.plan }
    requires errand { (B.stock loader.old.body).errand ≡ order.now }
    requires keeps { ErrandKeeps B.Site.Site (B.stock loader.old.body).path (B.stock loader.old.body).next order.now }
    requires honest { B.Site.tells ≡ true → IsHonest B.Site.Site }
    ensures loaded { B.Site.tells ≡ true → IsLoaded B.Site.Site order.now (B.stock loader.old.body).left
        (B.stock loader.old.body).next (B.stock loader.new.body).left loader.new.plan }
    ensures ended { IsEnded order.now (B.stock loader.old.body).first loader.new.plan
        ((B.stock loader.old.body).next + (B.stock loader.old.body).left) }
    ensures agrees { Agrees (B.seen loader.new.body) loader.new.plan }
    ensures path { (B.stock loader.new.body).path ≡ (B.stock loader.old.body).path }
    ensures first { (B.stock loader.new.body).first ≡ (B.stock loader.old.body).first }
    ensures info { (B.stock loader.new.body).info ≡ (B.stock loader.old.body).info }
{
    let standing = match first_standing(alloc, order) {
        Ok(standing) => standing,
        Err(_) => {
            close_by(order, loader, KeepFault::NoMemory);
            return;
        }
    };
    if let Err(fault) = try_on(alloc, order, origin, loader, standing) {
        close_by(order, loader, fault);
    }
}
