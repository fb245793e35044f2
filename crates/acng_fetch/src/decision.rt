//! What a whole head decides before the body opens.
//!
//! | head | decision |
//! |---|---|
//! | 206 to an ask with a tag at the partial body's own URL, for the rest of it | the partial body is gone on with |
//! | 200 | the body begins |
//! | 304 to an ask with a moment | the held body is kept |
//! | 301, 302, 303, 307, 308 with a Location to `http` | the same ask there, as long as redirects may be followed |
//! | each other | the next origin |
ghost use Rattle.std.specs.Prelude.{◌≡◌, ◌<◌, ℕ, Some, None, if◌then◌else◌, ◌&&◌, ◌==◌, is_some};
ghost use Rattle.acng_site.specs.Places.{is_redirect as is_redirect_of};
ghost use Rattle.acng_grow.specs.Causes.{is_gone as is_gone_of};
ghost use Rattle.acng_grow.specs.Effects.{Errand};
ghost use Rattle.acng_grow.specs.Download.{since_of, is_rest as is_rest_of, other_status, redirect_to};
ghost use Rattle.acng_fetch.specs.Decisions.{facts_told, plain_told, continues_told, verdict_told, IsVerdict};

use crate::order::{Order, PartOrder};
use acng_answer::AnswerHead;
use acng_base::{Tag, Text};
use acng_grow::{Facts, Why};
use acng_keeper::KeeperSlip;
use acng_site::{OriginSlip, Place};

/// What a head decides.
#[derive(Debug, Drop)]
pub enum Decision<P, Q> {
    Begins(Facts),
    GoesOn,
    Stays,
    Follows(Text),
    Passes(Why<P, Q>),
}

fn is_redirect(status: u16) -> bool
    ensures { result ≡ is_redirect_of status }
{
    status == 301 || status == 302 || status == 303 || status == 307 || status == 308
}

fn is_gone(status: u16) -> bool
    ensures { result ≡ is_gone_of status }
{
    status == 404 || status == 410
}

/// Whether a range is the rest from a place to the end of a known total.
pub(crate) fn is_rest(from: u64, total: Option<u64>, range: Option<(u64, u64, u64)>) -> bool
    ensures { result ≡ is_rest_of from total range }
{
    match (total, range) {
        (Some(total), Some((first, last, of))) => first == from
            && last < total
            && last + 1 == total
            && of == total,
        _ => false,
    }
}

// What a 200 says of its file.
fn facts_in(head: &AnswerHead) -> Facts
    ensures { result ≡ facts_told head.now }
{
    let total = if head.status == 200 {
        head.length
    } else {
        None
    };
    Facts {
        total,
        modified: head.modified,
        tag: tag_again(&head.tag),
    }
}

pub(crate) fn tag_again(tag: &Option<Tag>) -> Option<Tag>
    ensures { result ≡ tag.now }
{
    match tag {
        Some(tag) => Some(tag.again()),
        None => None,
    }
}

fn other<P: OriginSlip, Q: KeeperSlip>(attempt: u64, head: &AnswerHead) -> Decision<P, Q>
    ensures { (e : Errand) (followed : ℕ) → IsVerdict P.number Q.number e attempt head.now followed
        (other_status attempt head.now.status) result }
{
    let status = head.status;
    if is_gone(status) {
        Decision::Passes(Why::Gone { attempt })
    } else {
        Decision::Passes(Why::Status { attempt, status })
    }
}

fn redirect<P: OriginSlip, Q: KeeperSlip>(
    order: &Order,
    attempt: u64,
    head: &AnswerHead,
    followed: u32,
    place: Place,
) -> Decision<P, Q>
    ensures { IsVerdict P.number Q.number order.now attempt head.now followed
        (redirect_to attempt order.now head.now.status followed place) result }
{
    let status = head.status;
    match place {
        Place::Absent | Place::Stray => Decision::Passes(Why::Status { attempt, status }),
        Place::Secure => Decision::Passes(Why::TlsRedirect { attempt }),
        Place::At(url) => {
            if followed < order.redir_max {
                Decision::Follows(url)
            } else {
                Decision::Passes(Why::Redirects { attempt })
            }
        }
    }
}

// The lines that every ask has.
fn plain<P: OriginSlip, Q: KeeperSlip>(
    order: &Order,
    attempt: u64,
    head: &AnswerHead,
    followed: u32,
    place: Place,
) -> Decision<P, Q>
    ensures { IsVerdict P.number Q.number order.now attempt head.now followed
        (plain_told order.now attempt followed head.now place) result }
{
    if head.status == 200 {
        Decision::Begins(facts_in(head))
    } else if is_redirect(head.status) {
        redirect(order, attempt, head, followed, place)
    } else {
        other(attempt, head)
    }
}

fn is_kept(order: &Order, status: u16) -> bool
    ensures { result ≡ ((status == 304) && is_some (since_of order.now)) }
{
    status == 304 && order.since().is_some()
}

fn is_own(part: &PartOrder, url: &Text, head: &AnswerHead) -> bool
    ensures { result ≡ continues_told part.now url.now head.now }
{
    head.status == 206
        && part.facts.tag.is_some()
        && url.as_bytes() == part.url.as_bytes()
        && is_rest(part.size, part.facts.total, head.range)
}

fn decide_ranged<P: OriginSlip, Q: KeeperSlip>(
    order: &Order,
    part: &PartOrder,
    attempt: u64,
    url: &Text,
    followed: u32,
    head: &AnswerHead,
    place: Place,
) -> Decision<P, Q>
    requires part { order.now.part ≡ Some part.now }
    ensures { IsVerdict P.number Q.number order.now attempt head.now followed
        (verdict_told order.now attempt (Some part.now) url.now followed head.now place) result }
{
    if is_own(part, url, head) {
        Decision::GoesOn
    } else {
        plain(order, attempt, head, followed, place)
    }
}

fn decide_whole<P: OriginSlip, Q: KeeperSlip>(
    order: &Order,
    attempt: u64,
    url: &Text,
    followed: u32,
    head: &AnswerHead,
    place: Place,
) -> Decision<P, Q>
    ensures { IsVerdict P.number Q.number order.now attempt head.now followed
        (verdict_told order.now attempt None url.now followed head.now place) result }
{
    let _ = url;
    if is_kept(order, head.status) {
        Decision::Stays
    } else {
        plain(order, attempt, head, followed, place)
    }
}

/// What the head of an answer decides that was asked at a URL, for the partial body's rest or for all.
pub(crate) fn decide<P: OriginSlip, Q: KeeperSlip>(
    order: &Order,
    attempt: u64,
    ranged: bool,
    url: &Text,
    followed: u32,
    head: &AnswerHead,
    place: Place,
) -> Decision<P, Q>
    ensures { IsVerdict P.number Q.number order.now attempt head.now followed
        (verdict_told order.now attempt (if ranged then order.now.part else None) url.now followed head.now place) result }
{
    if ranged {
        match &order.part {
            Some(part) => decide_ranged(order, part, attempt, url, followed, head, place),
            None => decide_whole(order, attempt, url, followed, head, place),
        }
    } else {
        decide_whole(order, attempt, url, followed, head, place)
    }
}
