//! One request of a link, and one reply to it, over a desk.
ghost use Rattle.std.specs.Prelude.{◌≡◌, true, Some, None};
ghost use Rattle.acng_site.specs.Honest.{IsHonest};
ghost use Rattle.acng_conf.specs.Settings.{rules_of};
ghost use Rattle.acng_remap.specs.Origins.{ServesTargets};
ghost use Rattle.acng_desk.specs.Keeps.{IsIdle};
ghost use Rattle.acng_cli.specs.Once.{RanOnce};

use acng_base::{Clock, Link};
use acng_conf::Conf;
use acng_desk::Desk;
use acng_keeper::{Keeper, SlipOf};
use acng_request::{Got, HeadBuf, read_request};
use acng_serve::{Cause, Note, answer_one, answer_unread};
use acng_site::{Origin, Site};
use std::alloc::Global;

/// How a run ended.
#[derive(Clone, Copy, Debug, PartialEq, Eq)]
pub enum OnceStop {
    /// A reply was made, or a front of one that the link broke off.
    Replied,
    /// The link ended before a request's head was whole.
    ClientEnded,
    /// The link failed before a request was read or refused.
    ClientFault,
}

/// What is told of a run. The note is there exactly where the stop is `Replied`.
#[derive(Debug, Drop)]
pub struct Once<Q> {
    pub note: Option<Note<Q>>,
    pub stop: OnceStop,
}

/// Reads one request, answers it over the desk, and returns.
///
/// What the client's bytes ask decides, and the answer is `answer_one`'s, as that to the last request of a connection. A
/// head that is refused gets its line, and then desk and clock aren't touched.
pub fn run_once<S: Site, K: Keeper, O: Origin<S>, C: Clock, L: Link>(
    alloc: Global,
    desk: &mut Desk<S, K, ()>,
    conf: &Conf,
    origin: &O,
    clock: &mut C,
    client: &mut L,
) -> Once<SlipOf<K>>
    requires idle { IsIdle desk.old.plain }
    requires rules { desk.old.plain.rules ≡ rules_of conf.now }
    requires serves { S.tells ≡ true → ServesTargets conf.now S.serves }
    requires honest { S.tells ≡ true → IsHonest S.Site }
    ensures ran { RanOnce S.Site K.tells L.Link conf.now
        (record { client = client.old; coming = C.coming clock.old; desk = desk.old })
        (record { client = client.new; coming = C.coming clock.new; desk = desk.new }) result }
    ensures idle { IsIdle desk.new.plain }
{
    let Ok(mut buf) = HeadBuf::new(alloc) else {
        return replied(answer_unread(Cause::NoMemory, client));
    };
    match read_request(alloc, client, &mut buf) {
        Got::Request(request) => {
            replied(answer_one(alloc, desk, conf, origin, clock, &request, client))
        }
        Got::Ended => unanswered(OnceStop::ClientEnded),
        Got::ClientFault => unanswered(OnceStop::ClientFault),
        Got::Refused(fault) => replied(answer_unread(Cause::Head(fault), client)),
        Got::NoMemory => replied(answer_unread(Cause::NoMemory, client)),
    }
}

fn replied<Q>(note: Note<Q>) -> Once<Q>
    ensures { result ≡ record { note = Some note; stop = OnceStop.Replied } }
{
    Once {
        note: Some(note),
        stop: OnceStop::Replied,
    }
}

fn unanswered<Q>(stop: OnceStop) -> Once<Q>
    ensures { result ≡ record { note = None; stop = stop } }
{
    Once { note: None, stop }
}
