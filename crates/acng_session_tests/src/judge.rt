//! The check of a connection: what was written falls into one reply for each note, in order, each of which is lawful for its
//! request, and the connection ended where it was to.
use crate::law::{Case, Judged, check_file};
use crate::pages::{Visit, check_page};
use crate::places::place_of;
use crate::tally::{Served, Tally, Wrong};
use crate::wishes::{Form, REQUESTS, Wish, moment_of, wish_of};
use acng_serve::{Note, SessionEnd, SessionStop};
use std::alloc::Global;
use std::sync::{Mutex, Wait};

/// What a crowd does: the seed of its requests, and whether calls of the keeper fail.
#[derive(Clone, Copy, Debug)]
pub struct Plan {
    pub seed: u64,
    pub fails: bool,
}

/// One of the clients, which has got so many replies.
#[derive(Clone, Copy)]
pub struct Client {
    pub plan: Plan,
    pub number: u64,
    pub done: u64,
}

/// Checks a connection of a client, and counts its replies.
pub fn judge<R: Wait, Q>(
    rt: &R,
    alloc: Global,
    client: Client,
    end: &SessionEnd<Q>,
    written: &[u8],
    tally: &Mutex<Tally>,
) {
    let mut at = 0usize;
    for i in 0..end.notes.len() {
        let request = client.done.saturating_add(i as u64);
        let rest = written.get(at..).unwrap_or(b"");
        match check(alloc, client, request, end.notes.get(i), rest) {
            Ok((taken, served)) => {
                at = at.saturating_add(taken);
                tally.lock(rt).count(served);
            }
            Err(wrong) => {
                tally.lock(rt).accuse(client.number, request, wrong);
                return;
            }
        }
    }
    if at != written.len() {
        tally
            .lock(rt)
            .accuse(client.number, client.done, Wrong::Surplus);
    }
    if !ends_well(client, end) {
        tally
            .lock(rt)
            .accuse(client.number, client.done, Wrong::Stop);
    }
}

// Checks a reply and its note.
fn check<Q>(alloc: Global, client: Client, request: u64, note: &Note<Q>, rest: &[u8]) -> Judged {
    let moment = moment_of(client.number, request);
    let fails = client.plan.fails;
    match wish_of(client.plan.seed, client.number, request) {
        Wish::File { number, form } => {
            let place = place_of(number);
            let case = Case {
                place,
                form,
                moment,
                fails,
            };
            check_file(alloc, case, note, rest)
        }
        Wish::Page => {
            let runs = false;
            check_page(
                alloc,
                Visit {
                    moment,
                    runs,
                    fails,
                },
                note,
                rest,
            )
        }
        Wish::Run => {
            let runs = true;
            check_page(
                alloc,
                Visit {
                    moment,
                    runs,
                    fails,
                },
                note,
                rest,
            )
        }
    }
}

// Whether a reply ends its connection.
fn closes<Q>(client: Client, request: u64, note: &Note<Q>) -> bool {
    if !note.whole {
        return true;
    }
    match wish_of(client.plan.seed, client.number, request) {
        Wish::File { form, .. } => form == Form::Close,
        Wish::Page | Wish::Run => true,
    }
}

// Whether the connection ended behind the first reply that ends it, or at its end.
fn ends_well<Q>(client: Client, end: &SessionEnd<Q>) -> bool {
    let count = end.notes.len();
    for i in 0..count {
        let request = client.done.saturating_add(i as u64);
        if closes(client, request, end.notes.get(i)) {
            return i.saturating_add(1) == count && end.stop == SessionStop::Closed;
        }
    }
    client.done.saturating_add(count as u64) == REQUESTS && end.stop == SessionStop::ClientEnded
}
