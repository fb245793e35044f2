//! One connection, with the desk to itself: up to 1,000 requests, one after another.
//!
//! A head is read from what is held of the link, and the link is read only where that decides nothing: a client may wait for
//! its reply. A request's moment is taken once its head is read. The connection is over behind a reply whose head says so,
//! behind one that was cut, behind a report page, behind the last reply that it may have, and where no head comes any more.
ghost use Rattle.std.specs.Prelude.{◌≡◌, ◌==◌, ◌||◌, ◌<◌, not, true, length, vec_capacity};
ghost use Rattle.acng_site.specs.Honest.{IsHonest};
ghost use Rattle.acng_conf.specs.Settings.{rules_of};
ghost use Rattle.acng_remap.specs.Origins.{ServesTargets};
ghost use Rattle.acng_desk.specs.Keeps.{IsIdle};
ghost use Rattle.acng_reply.specs.Manners.{manner_of};
ghost use Rattle.acng_serve.specs.Causes.{is_client_fault as is_client_fault_of, is_page};
ghost use Rattle.acng_serve.specs.Sessions.{IsSession, by_desk, standing, most_requests, when, stop_after as stop_after_of};
ghost use Rattle.acng_serve.specs.Turns.{Turned, turn_of};

use crate::answer::answer_in;
use crate::note::{Cause, Note};
use crate::notes::{Notes, SessionEnd, SessionStop};
use crate::refuse::answer_unread;
use acng_base::{Clock, Link};
use acng_conf::Conf;
use acng_desk::Desk;
use acng_keeper::{Keeper, SlipOf};
use acng_reply::Manner;
use acng_request::{Got, HeadBuf, Request, read_request};
use acng_site::{Origin, Site};
use std::alloc::Global;

/// The most requests of a connection.
pub(crate) const MOST_REQUESTS: usize = 1_000;

/// What comes of one turn of a connection.
#[derive(Drop)]
pub(crate) enum Turn<Q> {
    /// A head got its reply, and the connection goes on.
    Goes(Note<Q>),
    /// A head got its reply, behind which the connection is over.
    Closes(Note<Q>, SessionStop),
    /// No head came.
    Over(SessionStop),
}

/// Serves one connection.
///
/// The client's bytes read as heads, one behind another. Each gets its reply, in order, and each reply its note: a request
/// as `answer_one` answers it over what the requests before it left. Only the last reply that the connection may have closes
/// for that reason.
pub fn session_owned<S: Site, K: Keeper, O: Origin<S>, C: Clock, L: Link>(
    alloc: Global,
    desk: &mut Desk<S, K, ()>,
    conf: &Conf,
    origin: &O,
    clock: &mut C,
    client: &mut L,
) -> SessionEnd<SlipOf<K>>
    requires idle { IsIdle desk.old.plain }
    requires rules { desk.old.plain.rules ≡ rules_of conf.now }
    requires serves { S.tells ≡ true → ServesTargets conf.now S.serves }
    requires honest { S.tells ≡ true → IsHonest S.Site }
    ensures session { IsSession (by_desk S.Site K.tells conf.now) L.Link client.old client.new (standing desk.old (C.coming clock.old))
        (standing desk.new (C.coming clock.new)) result.notes result.stop }
    ensures idle { IsIdle desk.new.plain }
    ensures rules { desk.new.plain.rules ≡ desk.old.plain.rules }
{
    let Ok(mut notes) = Vec::with_capacity(alloc, MOST_REQUESTS) else {
        return ended(Vec::new(alloc), SessionStop::NoMemory);
    };
    let Ok(mut buf) = HeadBuf::new(alloc) else {
        return ended(notes, SessionStop::NoMemory);
    };
    let mut more = MOST_REQUESTS;
    while more > 0 {
        more -= 1;
        match serve_next(alloc, desk, conf, origin, clock, client, &mut buf, more) {
            Turn::Goes(note) => notes.push_reserved(note),
            Turn::Closes(note, stop) => {
                notes.push_reserved(note);
                return ended(notes, stop);
            }
            Turn::Over(stop) => return ended(notes, stop),
        }
    }
    ended(notes, SessionStop::Limit)
}

pub(crate) fn ended<Q>(notes: Vec<Note<Q>>, stop: SessionStop) -> SessionEnd<Q>
    ensures notes { result.notes ≡ notes.items }
    ensures stop { result.stop ≡ stop }
{
    SessionEnd {
        notes: Notes::of(notes),
        stop,
    }
}

// Reads the next head and replies to it. So many more may follow.
fn serve_next<S: Site, K: Keeper, O: Origin<S>, C: Clock, L: Link>(
    alloc: Global,
    desk: &mut Desk<S, K, ()>,
    conf: &Conf,
    origin: &O,
    clock: &mut C,
    client: &mut L,
    buf: &mut HeadBuf,
    more: usize,
) -> Turn<SlipOf<K>>
    requires idle { IsIdle desk.old.plain }
    requires serves { S.tells ≡ true → ServesTargets conf.now S.serves }
    requires honest { S.tells ≡ true → IsHonest S.Site }
    ensures turned { Turned (by_desk S.Site K.tells conf.now) L.Link (more == 0) client.old client.new buf.old buf.new
        (standing desk.old (C.coming clock.old)) (standing desk.new (C.coming clock.new)) result }
    ensures idle { IsIdle desk.new.plain }
    ensures rules { desk.new.plain.rules ≡ desk.old.plain.rules }
{
    match read_request(alloc, client, buf) {
        Got::Request(request) => {
            let manner = manner_in(&request, more);
            let note = answer_in(alloc, desk, conf, origin, clock, manner, &request, client);
            replied(note, manner.close, more)
        }
        Got::Refused(fault) => replied(answer_unread(Cause::Head(fault), client), true, more),
        Got::Ended => Turn::Over(SessionStop::ClientEnded),
        Got::ClientFault => Turn::Over(SessionStop::ClientFault),
        Got::NoMemory => Turn::Over(SessionStop::NoMemory),
    }
}

// The last reply of a connection closes it.
pub(crate) fn manner_in(request: &Request, more: usize) -> Manner
    ensures { result ≡ manner_of (more == 0) request.now }
{
    let manner = Manner::of(request);
    if more == 0 { manner.closing() } else { manner }
}

// A turn with a reply, whose manner closes the connection or not. A page always does.
pub(crate) fn replied<Q>(note: Note<Q>, close: bool, more: usize) -> Turn<Q>
    ensures { result ≡ turn_of note (when (close || is_page note.cause || not note.whole)
        (stop_after_of (is_client_fault_of note.cause) (more == 0))) }
{
    let stop = stop_after(note.cause.is_client_fault(), more == 0);
    if close || note.cause.is_page() || !note.whole {
        Turn::Closes(note, stop)
    } else {
        Turn::Goes(note)
    }
}

// Why a connection is over behind a reply.
fn stop_after(fault: bool, last: bool) -> SessionStop
    ensures { result ≡ stop_after_of fault last }
{
    match (fault, last) {
        (true, _) => SessionStop::ClientFault,
        (false, true) => SessionStop::Limit,
        (false, false) => SessionStop::Closed,
    }
}
