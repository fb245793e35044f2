//! A body that many follow while one loads it.
//!
//! The body stands behind a lock, beside a condition by which others learn that it changed. Whoever changes it lets the
//! lock go and then tells, so that a thread that wakes finds the lock free. Whoever waits sleeps until it is told; nobody
//! polls. Each look takes the lock for one call, and no lock is held while a client's link is written: bytes go from the
//! file into the follower's own frame under the lock, and from there to the link.
//!
//! A lock tells its next user only what its type keeps. So a look waits where it finds another body than the asked one,
//! and no look rests on what an earlier one saw.
ghost use Rattle.std.specs.Prelude.{◌≡◌, ◌&&◌, ◌≤◌, true, length, option_map, IsSomeAnd, Some};
ghost use Rattle.std.specs.Io.KnownBytes.{Keeps};
ghost use Rattle.std.specs.Sync.Mutex.{mutex_guard_value};
ghost use Rattle.acng_head.specs.declared.head.Label.TheVariants.{Fetched};
ghost use Rattle.acng_grow.specs.Agrees.{label_agrees};
ghost use Rattle.acng_grow.specs.Follows.{FaultRose};
ghost use Rattle.acng_grow.specs.Grown.{number_of};
ghost use Rattle.acng_grow.specs.Keeps.{IsFetched, most_bytes};
ghost use Rattle.acng_grow.specs.Looks.{LookStands};
ghost use Rattle.acng_grow.specs.Stands.{file_of};
ghost use Rattle.acng_grow.specs.Turns.{EndStands, FollowsFile, FoundStands, IsLabelOf};

use crate::asked::{Asked, Look};
use crate::facts::Seen;
use crate::finding::{Found, Turn, find_head, find_piece};
use crate::growing::Growing;
use crate::owned::{FollowStop, Followed, ended};
use crate::sending::{FRAME, Sending, send_last, send_piece};
use acng_base::{CachePath, Link, NoMemory};
use acng_head::Label;
use acng_keeper::{BodyFile, BodyId};
use acng_site::{OriginSlip, Site};
use std::alloc::Global;
use std::sync::{Arc, Condvar, Mutex, MutexGuard, Wait};

/// A growing body behind a lock.
#[derive(Drop)]
pub struct Shared<S: Site, F: BodyFile, P: OriginSlip> {
    body: Mutex<Growing<S, F, P>>,
    changed: Condvar,
}

impl<S: Site, F: BodyFile, P: OriginSlip> Shared<S, F, P> {
    /// A body that opens, for the path.
    pub fn new(alloc: Global, path: CachePath) -> Result<Arc<Shared<S, F, P>>, NoMemory> {
        Arc::new(
            alloc,
            Shared {
                body: Mutex::new(Growing::new(path)),
                changed: Condvar::new(),
            },
        )
        .map_err(|_| NoMemory)
    }

    /// Takes the body's lock. Whoever changes the body calls `tell` once the lock is free again.
    pub fn hold<'a, R: Wait>(&'a self, rt: &R) -> MutexGuard<'a, Growing<S, F, P>> {
        self.body.lock(rt)
    }

    /// Gives the lock back until somebody has told of a change.
    pub fn rest<'a, R: Wait>(
        &'a self,
        rt: &R,
        body: MutexGuard<'a, Growing<S, F, P>>,
    ) -> MutexGuard<'a, Growing<S, F, P>> {
        self.changed.wait(rt, body)
    }

    /// Wakes all that wait for a change.
    pub fn tell(&self) {
        self.changed.notify_all();
    }

    /// Takes the body's lock as its loader does, which knows what is to be seen of it: where the body has another path or
    /// file or is to be seen otherwise, it gives the lock back and waits.
    pub fn hold_as<'a, R: Wait>(
        &'a self,
        rt: &R,
        path: &CachePath,
        file: Option<BodyId>,
        plan: &Seen,
    ) -> MutexGuard<'a, Growing<S, F, P>>
        ensures path { (mutex_guard_value result).path ≡ path.now }
        ensures file { number_of (mutex_guard_value result) ≡ option_map (λ id. id.0) file }
        ensures seen { (mutex_guard_value result).seen ≡ plan.now }
    {
        let mut body = self.hold(rt);
        for _ in rt.forever() {
            if body.shows(path, file, plan) {
                return body;
            }
            body = self.rest(rt, body);
        }
        unreachable!()
    }
}

/// Waits until the asked body has opened or was refused.
pub fn await_head<R: Wait, S: Site, F: BodyFile, P: OriginSlip>(
    rt: &R,
    shared: &Shared<S, F, P>,
    asked: &Asked,
) -> Look
    ensures { LookStands S.Site asked.now result }
{
    let mut body = shared.hold(rt);
    for _ in rt.forever() {
        if let Some(look) = find_head(&*body, asked) {
            return look;
        }
        body = shared.rest(rt, body);
    }
    unreachable!()
}

/// Sends the bytes of the asked body from a place up to and without another one, or to the end, as they come. The body is
/// one whose label begins with the given label's first attempt. It takes no memory, and holds one frame on its own stack.
pub fn follow<R: Wait, S: Site, F: BodyFile, P: OriginSlip, L: Link>(
    rt: &R,
    shared: &Shared<S, F, P>,
    asked: &Asked,
    label: Label,
    from: u64,
    to: Option<u64>,
    sending: Sending,
    client: &mut L,
) -> Followed<F::Slip>
    requires fetched { IsFetched label }
    ensures sends { FollowsFile ((S.tells && F.tells) ≡ true) sending (file_of S.Site asked.now.path label) from to
        (L.written client.old) (L.written client.new) result }
    ensures ends { EndStands S.Site asked.now from to result.sent result.stop }
    ensures label { IsSomeAnd result.label (IsLabelOf asked.now label) }
    ensures small { result.sent ≤ most_bytes }

    // What a fault comes with, and what stays.
    ensures fault { FaultRose result.stop (L.faults client.old) (L.faults client.new) }
    ensures others { Keeps (L.left client.old) (L.left client.new) }
{
    match label {
        Label::Fetched { first, .. } => follow_first(
            rt, shared, asked, first, from, to, sending, client,
        ),
        Label::Imported { .. } => unreachable!(),
    }
}

// The same, by the first attempt.
fn follow_first<R: Wait, S: Site, F: BodyFile, P: OriginSlip, L: Link>(
    rt: &R,
    shared: &Shared<S, F, P>,
    asked: &Asked,
    first: u64,
    from: u64,
    to: Option<u64>,
    sending: Sending,
    client: &mut L,
) -> Followed<F::Slip>
    ensures sends { FollowsFile ((S.tells && F.tells) ≡ true) sending (S.instance first asked.now.path) from to
        (L.written client.old) (L.written client.new) result }
    ensures ends { EndStands S.Site asked.now from to result.sent result.stop }
    ensures label { IsSomeAnd result.label (IsLabelOf asked.now (Fetched first first)) }
    ensures small { result.sent ≤ most_bytes }
    ensures fault { FaultRose result.stop (L.faults client.old) (L.faults client.new) }
    ensures others { Keeps (L.left client.old) (L.left client.new) }
{
    let mut place = from;
    let mut frame = [0u8; FRAME];
    for _ in rt.forever() {
        let Turn { last, found } = await_piece(rt, shared, asked, first, place, to, &mut frame);
        let label = Some(Label::Fetched { first, last });
        match found {
            Found::Bytes(count) => {
                let (taken, outcome) = send_piece(sending, client, &mut frame, count);
                place += taken as u64;
                if let Err(_) = outcome {
                    return ended(place - from, label, FollowStop::ClientFault);
                }
            }
            Found::Whole => {
                if let Err(_) = send_last(sending, client) {
                    return ended(place - from, label, FollowStop::ClientFault);
                }
                return ended(place - from, label, FollowStop::Whole);
            }
            Found::Cut(shown) => return ended(place - from, label, FollowStop::Cut(shown)),
            Found::Slip(slip) => return ended(place - from, label, FollowStop::Slip(slip)),
        }
    }
    unreachable!()
}

// Waits until there is something of the part from a place on.
fn await_piece<R: Wait, S: Site, F: BodyFile, P: OriginSlip>(
    rt: &R,
    shared: &Shared<S, F, P>,
    asked: &Asked,
    first: u64,
    place: u64,
    to: Option<u64>,
    frame: &mut [u8],
) -> Turn<F::Slip>
    requires room { 65556 ≤ length frame.old }
    ensures found { FoundStands S.Site ((S.tells && F.tells) ≡ true) asked.now (S.instance first asked.now.path)
        place to frame.new result.found }
    ensures label { label_agrees asked.now.first_try asked.now.old (Some (Fetched first result.last)) ≡ true }
    ensures len { length frame.new ≡ length frame.old }
{
    let mut body = shared.hold(rt);
    for _ in rt.forever() {
        match find_piece(&mut *body, asked, first, place, to, frame) {
            None => body = shared.rest(rt, body),
            Some(turn) => return turn,
        }
    }
    unreachable!()
}
