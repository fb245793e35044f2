//! One attempt: what its answer makes of the body.
//!
//! Each function that makes the effects of a turn requires, where the site tells, that these effects are all allowed, and
//! ensures that it made them.
ghost use Rattle.std.specs.Prelude.{◌≡◌, ◌+◌, ◌-◌, ◌^◌, ◌<◌, ◌≤◌, ℕ, Bool, true, length, drop, Some, None};
ghost use Rattle.std.specs.Prelude.{IfSome, IfOk, IfErr, OnOk, IsSome};
ghost use Rattle.std.specs.Prelude.{if◌then◌else◌};
ghost use Rattle.acng_answer.specs.Reader.{due, due_told};
ghost use Rattle.acng_answer.specs.Blocks.{IsBounded};
ghost use Rattle.acng_base.specs.Answers.{answer_limit};
ghost use Rattle.acng_site.specs.Places.{place_of};
ghost use Rattle.acng_grow.specs.declared.facts.Seen.{Seen};
ghost use Rattle.acng_grow.specs.declared.why.Shown.TheVariants as shown;
ghost use Rattle.acng_grow.specs.Causes.{shown_of, may_refuse, named};
ghost use Rattle.acng_grow.specs.Effects.{Errand, Start, GoOn, Resume, Cut, opening, last_of};
ghost use Rattle.acng_grow.specs.Download.{On, Asking, Going, cause_of, ends, led_by};
ghost use Rattle.acng_grow.specs.Download.{next_origin as next_origin_of, headless as headless_of};
ghost use Rattle.acng_grow.specs.Keeps.{HasTotal, IsDated, attempts_end};
ghost use Rattle.acng_grow.specs.Allowed.{AllAllowed};
ghost use Rattle.acng_fetch.specs.Answering.{IsHeaded, MayTurn, takes, heads};
ghost use Rattle.acng_fetch.specs.Decisions.{decides_told, verdict_told, IsVerdict};
ghost use Rattle.acng_fetch.specs.Events.{IfSlipEnd, left_of, outcome_of};
ghost use Rattle.acng_fetch.specs.Loads.{AfterIn, FaultsIn, GoesIn, RunsIn, StandsIn, Turns, follows, url_of, stand_of};
ghost use Rattle.acng_fetch.specs.Orders.{ErrandKeeps, PartKeeps};
ghost use Rattle.acng_fetch.specs.Rooms.{Room, IfWhole};
ghost use Rattle.acng_fetch.specs.Stocks.{Agrees};

use crate::decision::{Decision, decide, is_rest};
use crate::exchange::{End, Event, Exchange};
use crate::grows::Grows;
use crate::loader::{FaultOf, Loader, SlipIn, WhyOf};
use crate::order::{Order, PartOrder};
use crate::standing::{Standing, Turned};
use acng_answer::AnswerHead;
use acng_base::Text;
use acng_grow::{Facts, Why};
use acng_keeper::{BodyFile, KeepFault, KeeperSlip};
use acng_site::{Conn, OriginSlip, Place};
use std::alloc::Global;

/// What an attempt makes of a body, or why its file or memory was refused.
pub type TurnOf<B> = Result<Turned<<B as Grows>::Slip, SlipIn<B>>, FaultOf<B>>;

// The next origin, or the end where there is none.
fn next_origin<B: Grows>(
    alloc: Global,
    order: &Order,
    loader: &mut Loader<B>,
    attempt: u64,
    why: WhyOf<B>,
    next: usize,
    followed: u32,
) -> TurnOf<B>
    requires opening { loader.old.plan ≡ opening }
    requires full { B.full loader.old.body ≡ true }
    requires agrees { Agrees (B.seen loader.old.body) loader.old.plan }
    requires refuses { may_refuse (shown_of B.Slip.number B.File.Slip.number 0 why) ≡ true }
    requires names { named (shown_of B.Slip.number B.File.Slip.number 0 why) ≡ Some attempt }
    requires later { (B.stock loader.old.body).first ≤ attempt }
    requires allowed { MayTurn B.Site.Site (B.stock loader.old.body) order.now loader.old.plan
        (next_origin_of (shown_of B.Slip.number B.File.Slip.number 0 why) (drop next order.now.origins) followed) }
    ensures turns { IfOk result (λ turned. Turns B.Slip.number B.File.Slip.number order.now
        (next_origin_of (shown_of B.Slip.number B.File.Slip.number 0 why) (drop next order.now.origins) followed)
        loader.old.plan loader.new.plan turned) }
    ensures stands { IfOk result (λ turned. AfterIn B.Slip.number B.File.Slip.number order.now (B.stock loader.old.body).first
        loader.new.plan (B.full loader.new.body) (attempt + 1) turned) }
    ensures fault { IfErr result (λ fault. FaultsIn (B.stock loader.old.body).first loader.new.plan (attempt + 1) fault) }
    ensures agrees { Agrees (B.seen loader.new.body) loader.new.plan }
    ensures stock { B.stock loader.new.body ≡ B.stock loader.old.body }
{
    let _ = attempt;
    if next < order.origins.len() {
        let Ok(url) = Text::copy(alloc, order.origins.get(next)) else {
            return Err(KeepFault::NoMemory);
        };
        Ok(Turned::Again(Standing::Asking {
            last: Some(why),
            ranged: false,
            url,
            next: next + 1,
            followed,
        }))
    } else {
        loader.refuse(why);
        Ok(Turned::Done)
    }
}

fn why_of<P: OriginSlip, Q: KeeperSlip>(attempt: u64, end: End<P>) -> Why<P, Q>
    requires slip { IfSlipEnd end (λ p. P.number p ≡ attempt) }
    ensures cause { (last : ℕ) → shown_of P.number Q.number last result ≡ cause_of attempt (outcome_of end) }
    ensures names { (last : ℕ) → named (shown_of P.number Q.number last result) ≡ Some attempt }
{
    match end {
        End::Whole | End::Early => Why::Early { attempt },
        End::Bad { at } => Why::Bad { attempt, at },
        End::Slip(slip) => Why::Origin(slip),
    }
}

// Takes the body of an answer.
fn take_body<B: Grows, C: Conn<Slip = B::Slip>>(
    alloc: Global,
    order: &Order,
    loader: &mut Loader<B>,
    exchange: &mut Exchange<C>,
    attempt: u64,
) -> Result<End<B::Slip>, FaultOf<B>>
    requires answer { IsHeaded C.Conn B.Site.tells attempt exchange.old }
    requires running { RunsIn (B.stock loader.old.body).first loader.old.plan (attempt + 1) }
    requires later { (B.stock loader.old.body).first ≤ attempt }
    requires agrees { Agrees (B.seen loader.old.body) loader.old.plan }
    requires room { Room loader.old.plan.facts.total (due exchange.old.reader) loader.old.plan.size exchange.old.reader.at
        exchange.old.reader.limit }
    requires allowed { MayTurn B.Site.Site (B.stock loader.old.body) order.now loader.old.plan
        (takes attempt (url_of loader.old.plan) loader.old.plan.facts loader.old.plan.size (left_of C.Conn exchange.old)) }
    ensures taken { OnOk result (B.Site.tells ≡ true →
        loader.new.plan ≡ record loader.old.plan { size = loader.old.plan.size + length (left_of C.Conn exchange.old).body }) }
    ensures ends { IfOk result (λ end. B.Site.tells ≡ true → (left_of C.Conn exchange.old).outcome ≡ outcome_of end) }
    ensures total { IfOk result (λ end. IfWhole end (HasTotal loader.new.plan.facts loader.new.plan.size)) }
    ensures slip { IfOk result (λ end. IfSlipEnd end (λ p. B.Slip.number p ≡ attempt)) }
    ensures allowed { IfOk result (λ end. B.Site.tells ≡ true
        → AllAllowed B.Site.Site (B.stock loader.new.body).path order.now loader.new.plan
        (ends attempt (url_of loader.new.plan) loader.new.plan.facts loader.new.plan.size (outcome_of end)).effects) }
    ensures running { RunsIn (B.stock loader.old.body).first loader.new.plan (attempt + 1) }
    ensures agrees { Agrees (B.seen loader.new.body) loader.new.plan }
    ensures stock { B.stock loader.new.body ≡ B.stock loader.old.body }
{
    let _ = order;
    loop {
        match exchange.next() {
            Event::Body { start, stop } => loader.add(alloc, exchange.bytes(start, stop))?,
            Event::Ended(end) => return Ok(end),
            Event::Head => unreachable!(),
        }
    }
}

// What the end of a body that is taken brings.
fn close<B: Grows>(
    order: &Order,
    loader: &mut Loader<B>,
    attempt: u64,
    end: End<B::Slip>,
) -> Turned<B::Slip, SlipIn<B>>
    requires slip { IfSlipEnd end (λ p. B.Slip.number p ≡ attempt) }
    requires total { IfWhole end (HasTotal loader.old.plan.facts loader.old.plan.size) }
    requires running { RunsIn (B.stock loader.old.body).first loader.old.plan (attempt + 1) }
    requires later { (B.stock loader.old.body).first ≤ attempt }
    requires agrees { Agrees (B.seen loader.old.body) loader.old.plan }
    requires allowed { MayTurn B.Site.Site (B.stock loader.old.body) order.now loader.old.plan
        (ends attempt (url_of loader.old.plan) loader.old.plan.facts loader.old.plan.size (outcome_of end)) }
    ensures turns { Turns B.Slip.number B.File.Slip.number order.now
        (ends attempt (url_of loader.old.plan) loader.old.plan.facts loader.old.plan.size (outcome_of end))
        loader.old.plan loader.new.plan result }
    ensures stands { AfterIn B.Slip.number B.File.Slip.number order.now (B.stock loader.old.body).first
        loader.new.plan (B.full loader.new.body) (attempt + 1) result }
    ensures agrees { Agrees (B.seen loader.new.body) loader.new.plan }
    ensures stock { B.stock loader.new.body ≡ B.stock loader.old.body }
{
    let _ = order;
    let resumes = loader.plan.facts.tag.is_some() && loader.plan.facts.total.is_some();
    match end {
        End::Whole => {
            loader.finish();
            Turned::Done
        }
        End::Bad { at } => {
            loader.cut(Why::Bad { attempt, at });
            Turned::Done
        }
        End::Early => {
            if resumes {
                return Turned::Again(Standing::Going {
                    kept: Why::Early { attempt },
                });
            }
            loader.cut(Why::Early { attempt });
            Turned::Done
        }
        End::Slip(slip) => {
            if resumes {
                return Turned::Again(Standing::Going {
                    kept: Why::Origin(slip),
                });
            }
            loader.cut(Why::Origin(slip));
            Turned::Done
        }
    }
}

/// What an attempt without a whole head brings.
pub(crate) fn headless<B: Grows>(
    alloc: Global,
    order: &Order,
    loader: &mut Loader<B>,
    standing: Standing<B::Slip, SlipIn<B>>,
    attempt: u64,
    end: End<B::Slip>,
) -> TurnOf<B>
    requires slip { IfSlipEnd end (λ p. B.Slip.number p ≡ attempt) }
    requires stands { StandsIn B.Slip.number B.File.Slip.number (B.stock loader.old.body).first loader.old.plan
        (B.full loader.old.body) attempt standing }
    requires later { (B.stock loader.old.body).first ≤ attempt }
    requires agrees { Agrees (B.seen loader.old.body) loader.old.plan }
    requires allowed { MayTurn B.Site.Site (B.stock loader.old.body) order.now loader.old.plan
        (headless_of attempt (stand_of B.Slip.number B.File.Slip.number order.now loader.old.plan standing) (outcome_of end)) }
    ensures turns { IfOk result (λ turned. Turns B.Slip.number B.File.Slip.number order.now
        (headless_of attempt (stand_of B.Slip.number B.File.Slip.number order.now loader.old.plan standing) (outcome_of end))
        loader.old.plan loader.new.plan turned) }
    ensures stands { IfOk result (λ turned. AfterIn B.Slip.number B.File.Slip.number order.now (B.stock loader.old.body).first
        loader.new.plan (B.full loader.new.body) (attempt + 1) turned) }
    ensures fault { IfErr result (λ fault. FaultsIn (B.stock loader.old.body).first loader.new.plan (attempt + 1) fault) }
    ensures agrees { Agrees (B.seen loader.new.body) loader.new.plan }
    ensures stock { B.stock loader.new.body ≡ B.stock loader.old.body }
{
    match standing {
        Standing::Asking {
            last: _,
            ranged: _,
            url: _,
            next,
            followed,
        } => {
            let turned = next_origin(
                alloc,
                order,
                loader,
                attempt,
                why_of(attempt, end),
                next,
                followed,
            )?;
            Ok(turned)
        }
        Standing::Going { kept: _ } => match end {
            End::Bad { at } => {
                loader.cut(Why::Bad { attempt, at });
                Ok(Turned::Done)
            }
            end => Ok(Turned::Again(Standing::Going {
                kept: why_of(attempt, end),
            })),
        },
    }
}

// Takes a body to its end.
fn flow<B: Grows, C: Conn<Slip = B::Slip>>(
    alloc: Global,
    order: &Order,
    loader: &mut Loader<B>,
    exchange: &mut Exchange<C>,
    attempt: u64,
) -> TurnOf<B>
    requires answer { IsHeaded C.Conn B.Site.tells attempt exchange.old }
    requires running { RunsIn (B.stock loader.old.body).first loader.old.plan (attempt + 1) }
    requires later { (B.stock loader.old.body).first ≤ attempt }
    requires agrees { Agrees (B.seen loader.old.body) loader.old.plan }
    requires room { Room loader.old.plan.facts.total (due exchange.old.reader) loader.old.plan.size exchange.old.reader.at
        exchange.old.reader.limit }
    requires allowed { MayTurn B.Site.Site (B.stock loader.old.body) order.now loader.old.plan
        (takes attempt (url_of loader.old.plan) loader.old.plan.facts loader.old.plan.size (left_of C.Conn exchange.old)) }
    ensures turns { IfOk result (λ turned. B.Site.tells ≡ true → Turns B.Slip.number B.File.Slip.number order.now
        (takes attempt (url_of loader.old.plan) loader.old.plan.facts loader.old.plan.size (left_of C.Conn exchange.old))
        loader.old.plan loader.new.plan turned) }
    ensures stands { IfOk result (λ turned. AfterIn B.Slip.number B.File.Slip.number order.now (B.stock loader.old.body).first
        loader.new.plan (B.full loader.new.body) (attempt + 1) turned) }
    ensures fault { IfErr result (λ fault. FaultsIn (B.stock loader.old.body).first loader.new.plan (attempt + 1) fault) }
    ensures agrees { Agrees (B.seen loader.new.body) loader.new.plan }
    ensures stock { B.stock loader.new.body ≡ B.stock loader.old.body }
{
    let end = take_body(alloc, order, loader, exchange, attempt)?;
    Ok(close(order, loader, attempt, end))
}

fn begin<B: Grows, C: Conn<Slip = B::Slip>>(
    alloc: Global,
    order: &Order,
    loader: &mut Loader<B>,
    exchange: &mut Exchange<C>,
    attempt: u64,
    url: Text,
    facts: Facts,
) -> TurnOf<B>
    requires answer { IsHeaded C.Conn B.Site.tells attempt exchange.old }
    requires opening { loader.old.plan ≡ opening }
    requires full { B.full loader.old.body ≡ true }
    requires agrees { Agrees (B.seen loader.old.body) loader.old.plan }
    requires bounded { attempt < attempts_end }
    requires later { (B.stock loader.old.body).first ≤ attempt }
    requires dated { IsDated facts }
    requires room { Room facts.total (due exchange.old.reader) 0 exchange.old.reader.at exchange.old.reader.limit }
    requires allowed { MayTurn B.Site.Site (B.stock loader.old.body) order.now loader.old.plan
        (led_by (Start attempt url facts) (takes attempt url facts 0 (left_of C.Conn exchange.old))) }
    ensures turns { IfOk result (λ turned. B.Site.tells ≡ true → Turns B.Slip.number B.File.Slip.number order.now
        (led_by (Start attempt url facts) (takes attempt url facts 0 (left_of C.Conn exchange.old)))
        loader.old.plan loader.new.plan turned) }
    ensures stands { IfOk result (λ turned. AfterIn B.Slip.number B.File.Slip.number order.now (B.stock loader.old.body).first
        loader.new.plan (B.full loader.new.body) (attempt + 1) turned) }
    ensures fault { IfErr result (λ fault. FaultsIn (B.stock loader.old.body).first loader.new.plan (attempt + 1) fault) }
    ensures agrees { Agrees (B.seen loader.new.body) loader.new.plan }
    ensures stock { B.stock loader.new.body ≡ B.stock loader.old.body }
{
    loader.start(alloc, attempt, url, facts)?;
    let turned = flow(alloc, order, loader, exchange, attempt)?;
    Ok(turned)
}

fn go_on<B: Grows, C: Conn<Slip = B::Slip>>(
    alloc: Global,
    order: &Order,
    loader: &mut Loader<B>,
    exchange: &mut Exchange<C>,
    attempt: u64,
    part: &PartOrder,
) -> TurnOf<B>
    requires answer { IsHeaded C.Conn B.Site.tells attempt exchange.old }
    requires opening { loader.old.plan ≡ opening }
    requires full { B.full loader.old.body ≡ true }
    requires agrees { Agrees (B.seen loader.old.body) loader.old.plan }
    requires bounded { attempt < attempts_end }
    requires later { (B.stock loader.old.body).first ≤ attempt }
    requires errand { (B.stock loader.old.body).errand ≡ order.now }
    requires part { order.now.part ≡ Some part.now }
    requires keeps { PartKeeps B.Site.Site (B.stock loader.old.body).path attempt part.now }
    requires room { Room part.now.facts.total (due exchange.old.reader) part.now.size exchange.old.reader.at
        exchange.old.reader.limit }
    requires allowed { MayTurn B.Site.Site (B.stock loader.old.body) order.now loader.old.plan
        (led_by (GoOn attempt) (takes attempt part.now.url part.now.facts part.now.size (left_of C.Conn exchange.old))) }
    ensures turns { IfOk result (λ turned. B.Site.tells ≡ true → Turns B.Slip.number B.File.Slip.number order.now
        (led_by (GoOn attempt) (takes attempt part.now.url part.now.facts part.now.size (left_of C.Conn exchange.old)))
        loader.old.plan loader.new.plan turned) }
    ensures stands { IfOk result (λ turned. AfterIn B.Slip.number B.File.Slip.number order.now (B.stock loader.old.body).first
        loader.new.plan (B.full loader.new.body) (attempt + 1) turned) }
    ensures fault { IfErr result (λ fault. FaultsIn (B.stock loader.old.body).first loader.new.plan (attempt + 1) fault) }
    ensures agrees { Agrees (B.seen loader.new.body) loader.new.plan }
    ensures stock { B.stock loader.new.body ≡ B.stock loader.old.body }
{
    loader.go_on(alloc, attempt, part)?;
    let turned = flow(alloc, order, loader, exchange, attempt)?;
    Ok(turned)
}

fn resume<B: Grows, C: Conn<Slip = B::Slip>>(
    alloc: Global,
    order: &Order,
    loader: &mut Loader<B>,
    exchange: &mut Exchange<C>,
    attempt: u64,
) -> TurnOf<B>
    requires answer { IsHeaded C.Conn B.Site.tells attempt exchange.old }
    requires running { RunsIn (B.stock loader.old.body).first loader.old.plan (attempt + 1) }
    requires agrees { Agrees (B.seen loader.old.body) loader.old.plan }
    requires bounded { attempt < attempts_end }
    requires later { (B.stock loader.old.body).first ≤ attempt }
    requires room { Room loader.old.plan.facts.total (due exchange.old.reader) loader.old.plan.size exchange.old.reader.at
        exchange.old.reader.limit }
    requires allowed { MayTurn B.Site.Site (B.stock loader.old.body) order.now loader.old.plan
        (led_by (Resume attempt) (takes attempt (url_of loader.old.plan) loader.old.plan.facts loader.old.plan.size
        (left_of C.Conn exchange.old))) }
    ensures turns { IfOk result (λ turned. B.Site.tells ≡ true → Turns B.Slip.number B.File.Slip.number order.now
        (led_by (Resume attempt) (takes attempt (url_of loader.old.plan) loader.old.plan.facts loader.old.plan.size
        (left_of C.Conn exchange.old)))
        loader.old.plan loader.new.plan turned) }
    ensures stands { IfOk result (λ turned. AfterIn B.Slip.number B.File.Slip.number order.now (B.stock loader.old.body).first
        loader.new.plan (B.full loader.new.body) (attempt + 1) turned) }
    ensures fault { IfErr result (λ fault. FaultsIn (B.stock loader.old.body).first loader.new.plan (attempt + 1) fault) }
    ensures agrees { Agrees (B.seen loader.new.body) loader.new.plan }
    ensures stock { B.stock loader.new.body ≡ B.stock loader.old.body }
{
    loader.resume(attempt);
    let turned = flow(alloc, order, loader, exchange, attempt)?;
    Ok(turned)
}

fn redirected<P: OriginSlip, Q: KeeperSlip>(
    attempt: u64,
    ranged: bool,
    url: Text,
    next: usize,
    followed: u32,
) -> Turned<P, Q>
    requires { followed < 2 ^ 32 - 1 }
    ensures follows { (e : Errand) (p : Seen) → follows P.number Q.number e p result
        ≡ On (Asking (Some (shown.Redirects attempt)) (if ranged then e.part else None) url (drop next e.origins) (followed + 1)) }
    ensures stands { (e : Errand) (first n : ℕ) (p : Seen) (full : Bool) → first ≤ attempt → attempt < n → p ≡ opening
        → full ≡ true → AfterIn P.number Q.number e first p full n result }
{
    Turned::Again(Standing::Asking {
        last: Some(Why::Redirects { attempt }),
        ranged,
        url,
        next,
        followed: followed + 1,
    })
}

// What a whole head brings before the body opens, and the body behind it.
fn open_by<B: Grows, C: Conn<Slip = B::Slip>>(
    alloc: Global,
    order: &Order,
    loader: &mut Loader<B>,
    exchange: &mut Exchange<C>,
    attempt: u64,
    decision: Decision<B::Slip, SlipIn<B>>,
    ranged: bool,
    url: Text,
    next: usize,
    followed: u32,
    head: &AnswerHead,
) -> TurnOf<B>
    requires answer { IsHeaded C.Conn B.Site.tells attempt exchange.old }
    requires head { exchange.old.reader.head ≡ Some head.now }
    requires due { due exchange.old.reader ≡ due_told head.now }
    requires bounds { IsBounded head.now }
    requires limit { exchange.old.reader.limit ≡ answer_limit }
    requires opening { loader.old.plan ≡ opening }
    requires full { B.full loader.old.body ≡ true }
    requires agrees { Agrees (B.seen loader.old.body) loader.old.plan }
    requires bounded { attempt < attempts_end }
    requires later { (B.stock loader.old.body).first ≤ attempt }
    requires errand { (B.stock loader.old.body).errand ≡ order.now }
    requires keeps { ErrandKeeps B.Site.Site (B.stock loader.old.body).path attempt order.now }
    requires decides { IsVerdict B.Slip.number B.File.Slip.number order.now attempt head.now followed
        (verdict_told order.now attempt (if ranged then order.now.part else None) url followed head.now
        (place_of url exchange.old.reader.location)) decision }
    requires allowed { MayTurn B.Site.Site (B.stock loader.old.body) order.now loader.old.plan
        (decides_told attempt (if ranged then order.now.part else None) url (drop next order.now.origins) followed head.now
        (left_of C.Conn exchange.old).body (left_of C.Conn exchange.old).outcome
        (verdict_told order.now attempt (if ranged then order.now.part else None) url followed head.now
        (place_of url exchange.old.reader.location))) }
    ensures turns { IfOk result (λ turned. B.Site.tells ≡ true → Turns B.Slip.number B.File.Slip.number order.now
        (decides_told attempt (if ranged then order.now.part else None) url (drop next order.now.origins) followed head.now
        (left_of C.Conn exchange.old).body (left_of C.Conn exchange.old).outcome
        (verdict_told order.now attempt (if ranged then order.now.part else None) url followed head.now
        (place_of url exchange.old.reader.location)))
        loader.old.plan loader.new.plan turned) }
    ensures stands { IfOk result (λ turned. AfterIn B.Slip.number B.File.Slip.number order.now (B.stock loader.old.body).first
        loader.new.plan (B.full loader.new.body) (attempt + 1) turned) }
    ensures fault { IfErr result (λ fault. FaultsIn (B.stock loader.old.body).first loader.new.plan (attempt + 1) fault) }
    ensures agrees { Agrees (B.seen loader.new.body) loader.new.plan }
    ensures stock { B.stock loader.new.body ≡ B.stock loader.old.body }
{
    let _most = order.redir_max;
    match decision {
        Decision::Begins(facts) => {
            let turned = begin(alloc, order, loader, exchange, attempt, url, facts)?;
            Ok(turned)
        }
        Decision::GoesOn => match &order.part {
            Some(part) => {
                let turned = go_on(alloc, order, loader, exchange, attempt, part)?;
                Ok(turned)
            }
            None => unreachable!(),
        },
        Decision::Stays => match &order.old {
            Some(old) => {
                loader.same(old);
                Ok(Turned::Done)
            }
            None => unreachable!(),
        },
        Decision::Follows(to) => Ok(redirected(attempt, ranged, to, next, followed)),
        Decision::Passes(why) => {
            let turned = next_origin(alloc, order, loader, attempt, why, next, followed)?;
            Ok(turned)
        }
    }
}

// What a whole head brings while the body runs, and the rest of the body behind it.
fn going<B: Grows, C: Conn<Slip = B::Slip>>(
    alloc: Global,
    order: &Order,
    loader: &mut Loader<B>,
    exchange: &mut Exchange<C>,
    attempt: u64,
    kept: WhyOf<B>,
    head: &AnswerHead,
) -> TurnOf<B>
    requires answer { IsHeaded C.Conn B.Site.tells attempt exchange.old }
    requires head { exchange.old.reader.head ≡ Some head.now }
    requires due { due exchange.old.reader ≡ due_told head.now }
    requires bounds { IsBounded head.now }
    requires limit { exchange.old.reader.limit ≡ answer_limit }
    requires goes { GoesIn B.Slip.number B.File.Slip.number (B.stock loader.old.body).first loader.old.plan attempt kept }
    requires agrees { Agrees (B.seen loader.old.body) loader.old.plan }
    requires bounded { attempt < attempts_end }
    requires later { (B.stock loader.old.body).first ≤ attempt }
    requires allowed { MayTurn B.Site.Site (B.stock loader.old.body) order.now loader.old.plan
        (heads order.now attempt (Going (url_of loader.old.plan) loader.old.plan.facts loader.old.plan.size
        (shown_of B.Slip.number B.File.Slip.number (last_of loader.old.plan.label) kept)) head.now exchange.old.reader.location
        (left_of C.Conn exchange.old)) }
    ensures turns { IfOk result (λ turned. B.Site.tells ≡ true → Turns B.Slip.number B.File.Slip.number order.now
        (heads order.now attempt (Going (url_of loader.old.plan) loader.old.plan.facts loader.old.plan.size
        (shown_of B.Slip.number B.File.Slip.number (last_of loader.old.plan.label) kept)) head.now exchange.old.reader.location
        (left_of C.Conn exchange.old))
        loader.old.plan loader.new.plan turned) }
    ensures stands { IfOk result (λ turned. AfterIn B.Slip.number B.File.Slip.number order.now (B.stock loader.old.body).first
        loader.new.plan (B.full loader.new.body) (attempt + 1) turned) }
    ensures fault { IfErr result (λ fault. FaultsIn (B.stock loader.old.body).first loader.new.plan (attempt + 1) fault) }
    ensures agrees { Agrees (B.seen loader.new.body) loader.new.plan }
    ensures stock { B.stock loader.new.body ≡ B.stock loader.old.body }
{
    let goes_on = head.status == 206
        && is_rest(loader.plan.size, loader.plan.facts.total, head.range);
    if goes_on {
        let turned = resume(alloc, order, loader, exchange, attempt)?;
        Ok(turned)
    } else {
        loader.cut(kept);
        Ok(Turned::Done)
    }
}

/// What a whole head brings, and the body behind it.
pub(crate) fn headed<B: Grows, C: Conn<Slip = B::Slip>>(
    alloc: Global,
    order: &Order,
    loader: &mut Loader<B>,
    standing: Standing<B::Slip, SlipIn<B>>,
    exchange: &mut Exchange<C>,
    attempt: u64,
    head: &AnswerHead,
) -> TurnOf<B>
    requires answer { IsHeaded C.Conn B.Site.tells attempt exchange.old }
    requires head { exchange.old.reader.head ≡ Some head.now }
    requires due { due exchange.old.reader ≡ due_told head.now }
    requires bounds { IsBounded head.now }
    requires limit { exchange.old.reader.limit ≡ answer_limit }
    requires stands { StandsIn B.Slip.number B.File.Slip.number (B.stock loader.old.body).first loader.old.plan
        (B.full loader.old.body) attempt standing }
    requires agrees { Agrees (B.seen loader.old.body) loader.old.plan }
    requires bounded { attempt < attempts_end }
    requires later { (B.stock loader.old.body).first ≤ attempt }
    requires errand { (B.stock loader.old.body).errand ≡ order.now }
    requires keeps { ErrandKeeps B.Site.Site (B.stock loader.old.body).path attempt order.now }
    requires allowed { MayTurn B.Site.Site (B.stock loader.old.body) order.now loader.old.plan
        (heads order.now attempt (stand_of B.Slip.number B.File.Slip.number order.now loader.old.plan standing) head.now
        exchange.old.reader.location (left_of C.Conn exchange.old)) }
    ensures turns { IfOk result (λ turned. B.Site.tells ≡ true → Turns B.Slip.number B.File.Slip.number order.now
        (heads order.now attempt (stand_of B.Slip.number B.File.Slip.number order.now loader.old.plan standing) head.now
        exchange.old.reader.location (left_of C.Conn exchange.old))
        loader.old.plan loader.new.plan turned) }
    ensures stands { IfOk result (λ turned. AfterIn B.Slip.number B.File.Slip.number order.now (B.stock loader.old.body).first
        loader.new.plan (B.full loader.new.body) (attempt + 1) turned) }
    ensures fault { IfErr result (λ fault. FaultsIn (B.stock loader.old.body).first loader.new.plan (attempt + 1) fault) }
    ensures agrees { Agrees (B.seen loader.new.body) loader.new.plan }
    ensures stock { B.stock loader.new.body ≡ B.stock loader.old.body }
{
    match standing {
        Standing::Asking {
            last: _,
            ranged,
            url,
            next,
            followed,
        } => {
            let Ok(place) = Place::of(alloc, url.as_bytes(), exchange.location()) else {
                return Err(KeepFault::NoMemory);
            };
            let decision = decide(order, attempt, ranged, &url, followed, head, place);
            let turned = open_by(
                alloc, order, loader, exchange, attempt, decision, ranged, url, next, followed,
                head,
            )?;
            Ok(turned)
        }
        Standing::Going { kept } => {
            let turned = going(alloc, order, loader, exchange, attempt, kept, head)?;
            Ok(turned)
        }
    }
}
