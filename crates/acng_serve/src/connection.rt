//! One connection among others, over a house that they share: up to 1,000 requests, one after another.
//!
//! The connection is served as one that has a desk to itself (`session_owned`): the bytes read as heads, each of which gets
//! its reply, in order. What a request gets is lawful, whoever else uses the desk: that is all that a lock lets be said.
ghost use Rattle.std.specs.Prelude.{◌≡◌, ◌==◌, ◌<◌, true, length, vec_capacity};
ghost use Rattle.acng_site.specs.Honest.{IsHonest};
ghost use Rattle.acng_remap.specs.Origins.{ServesTargets};
ghost use Rattle.acng_serve.specs.Among.{by_house};
ghost use Rattle.acng_serve.specs.Sessions.{IsSession};
ghost use Rattle.acng_serve.specs.Turns.{Turned};

use crate::among::answer_among;
use crate::house::House;
use crate::note::Cause;
use crate::notes::{SessionEnd, SessionStop};
use crate::owned::{MOST_REQUESTS, Turn, ended, manner_in, replied};
use crate::refuse::answer_unread;
use acng_base::{Clock, Link};
use acng_fetch::{Job, Loaders};
use acng_keeper::{Keeper, SlipOf};
use acng_request::{Got, HeadBuf, read_request};
use acng_site::{Origin, Site};
use std::alloc::Global;
use std::sync::Wait;

/// Serves one connection among others.
///
/// The client's bytes read as heads, one behind another. Each gets its reply, in order, and each reply its note. Each note is
/// lawful for its request: a body that was sent is a front of one file of the request's path, and whole where the note says
/// so; a cause is what became of an attempt for that path; a limit of the desk was met for that path. A request's moment is
/// taken once its head is read, and no other. No lock is held while the link is read or written.
pub fn session<R, S, K, O, G, C, L>(
    rt: &R,
    alloc: Global,
    house: &House<S, K, O::Slip>,
    origin: &O,
    loaders: &G,
    clock: &mut C,
    client: &mut L,
) -> SessionEnd<SlipOf<K>>
where
    R: Wait,
    S: Site,
    K: Keeper,
    O: Origin<S>,
    G: Loaders<Job<S, K, O::Slip>>,
    C: Clock,
    L: Link,
    requires serves { S.tells ≡ true → ServesTargets house.now S.serves }
    requires honest { S.tells ≡ true → IsHonest S.Site }
    ensures session { IsSession (by_house S.Site K.tells house.now) L.Link client.old client.new (C.coming clock.old)
        (C.coming clock.new) result.notes result.stop }
{
    let Ok(mut notes) = Vec::with_capacity(alloc, MOST_REQUESTS) else {
        return ended(Vec::new(alloc), SessionStop::NoMemory);
    };
    let Ok(mut buf) = HeadBuf::new(alloc) else {
        return ended(notes, SessionStop::NoMemory);
    };
    let mut more = MOST_REQUESTS;
    while more > 0 {
        more -= 1;
        match serve_next_among(
            rt, alloc, house, origin, loaders, clock, client, &mut buf, more,
        ) {
            Turn::Goes(note) => notes.push_reserved(note),
            Turn::Closes(note, stop) => {
                notes.push_reserved(note);
                return ended(notes, stop);
            }
            Turn::Over(stop) => return ended(notes, stop),
        }
    }
    ended(notes, SessionStop::Limit)
}

// Reads the next head and replies to it. So many more may follow.
fn serve_next_among<R, S, K, O, G, C, L>(
    rt: &R,
    alloc: Global,
    house: &House<S, K, O::Slip>,
    origin: &O,
    loaders: &G,
    clock: &mut C,
    client: &mut L,
    buf: &mut HeadBuf,
    more: usize,
) -> Turn<SlipOf<K>>
where
    R: Wait,
    S: Site,
    K: Keeper,
    O: Origin<S>,
    G: Loaders<Job<S, K, O::Slip>>,
    C: Clock,
    L: Link,
    requires serves { S.tells ≡ true → ServesTargets house.now S.serves }
    requires honest { S.tells ≡ true → IsHonest S.Site }
    ensures { Turned (by_house S.Site K.tells house.now) L.Link (more == 0) client.old client.new buf.old buf.new
        (C.coming clock.old) (C.coming clock.new) result }
{
    match read_request(alloc, client, buf) {
        Got::Request(request) => {
            let manner = manner_in(&request, more);
            let note = answer_among(
                rt, alloc, house, origin, loaders, clock, manner, &request, client,
            );
            replied(note, manner.close, more)
        }
        Got::Refused(fault) => replied(answer_unread(Cause::Head(fault), client), true, more),
        Got::Ended => Turn::Over(SessionStop::ClientEnded),
        Got::ClientFault => Turn::Over(SessionStop::ClientFault),
        Got::NoMemory => Turn::Over(SessionStop::NoMemory),
    }
}
