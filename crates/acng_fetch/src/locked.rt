//! A ticket and a body behind a lock that is loaded by it.
//!
//! Each effect is one critical section: it takes the body's lock as the plan says, has the effect, lets the lock go, and then
//! tells those that follow the body. Nobody else changes a body whose ticket is out, so the loader never waits for another
//! state of it. No lock is held while an origin is asked or read.
ghost use Rattle.std.specs.Prelude.{◌≡◌, Some};
ghost use Rattle.acng_grow.specs.declared.facts.Stage.TheVariants as stage;
ghost use Rattle.acng_grow.specs.Causes.{shown_of};
ghost use Rattle.acng_grow.specs.Effects.{last_of, opening};
ghost use Rattle.acng_grow.specs.Allowed.{MayCut, MayRefuse};
ghost use Rattle.std.specs.Sync.Mutex.{mutex_guard_value};
ghost use Rattle.acng_desk.specs.Tickets.{IsUnused};
ghost use Rattle.acng_fetch.specs.Leads.{IsLed, IsFiled, stock_of};

use crate::grows::Grows;
use crate::loader::opening_plan;
use crate::order::OldOrder;
use acng_base::Text;
use acng_desk::Ticket;
use acng_grow::{Facts, Growing, Seen, Shared, Shown, Why};
use acng_head::Label;
use acng_keeper::{BodyFile, BodyId, KeepFault};
use acng_site::{OriginSlip, Site, Try};
use std::alloc::Global;
use std::marker::Model;
use std::snapshot::Snapshot;
use std::sync::{MutexGuard, Wait};

/// A ticket and its body behind a lock. Contracts see it as a `Lead`, with the body as its loader left it.
pub struct LockedLead<'a, R: Wait, S: Site, F: BodyFile, P: OriginSlip> {
    rt: &'a R,
    shared: &'a Shared<S, F, P>,
    ticket: Ticket<S, F>,
    /// The id of the body's file, once it has one.
    file: Option<BodyId>,
    left: Snapshot<Growing<S, F, P>>,
}

impl<'a, R: Wait, S: Site, F: BodyFile, P: OriginSlip> Model for LockedLead<'a, R, S, F, P> {
    ghost use Rattle.acng_fetch.specs.Leads.{IsLed, IsFiled, Lead};

    ghost Value = { Lead };

    ghost view = { λ l. record { ticket = l.ticket; grown = l.left.value } };

    ghost invariant = { λ l. IsLed (record { ticket = l.ticket; grown = l.left.value }) × IsFiled l.file l.left.value };
}

// Lets the lock of a changed body go, and then tells: so a thread that wakes finds the lock free.
fn let_go<'a, S: Site, F: BodyFile, P: OriginSlip>(
    shared: &'a Shared<S, F, P>,
    body: MutexGuard<'a, Growing<S, F, P>>,
) -> Snapshot<Growing<S, F, P>>
    ensures { result.value ≡ mutex_guard_value body.entry }
{
    let left = Snapshot::of(&*body);
    drop(body);
    shared.tell();
    left
}

impl<'a, R: Wait, S: Site, F: BodyFile, P: OriginSlip> LockedLead<'a, R, S, F, P> {
    /// A ticket of which nothing was taken, and a body that opens.
    pub(crate) fn new(
        rt: &'a R,
        shared: &'a Shared<S, F, P>,
        ticket: Ticket<S, F>,
    ) -> LockedLead<'a, R, S, F, P>
        requires unused { IsUnused ticket }
        ensures ticket { result.ticket ≡ ticket }
        ensures path { result.grown.path ≡ ticket.info.path }
        ensures seen { result.grown.seen ≡ opening }
    {
        let plan = opening_plan();
        let body = shared.hold_as(rt, ticket.path(), None, &plan);
        let left = Snapshot::of(&*body);
        drop(body);
        LockedLead {
            rt,
            shared,
            ticket,
            file: None,
            left,
        }
    }

    pub(crate) fn into_parts(self) -> (Ticket<S, F>, Option<BodyId>)
        ensures ticket { self.entry.ticket ≡ result.0 }
        ensures led { IsLed self.entry }
        ensures file { IsFiled result.1 self.entry.grown }
    {
        let LockedLead {
            rt: _,
            shared: _,
            ticket,
            file,
            left: _,
        } = self;
        (ticket, file)
    }
}

impl<'a, R: Wait, S: Site, F: BodyFile, P: OriginSlip> Grows for LockedLead<'a, R, S, F, P> {
    type Site = S;

    type File = F;

    type Slip = P;

    ghost use Rattle.acng_fetch.specs.Leads.{is_full, stock_of};

    ghost stock = { λ l. stock_of l };

    ghost full = { λ l. is_full l.ticket };

    ghost seen = { λ l. Some l.grown.seen };

    fn tries_left(&self) -> u32 {
        self.ticket.tries_left()
    }

    fn next_try(&mut self) -> Try<S> {
        self.ticket.keeps();
        self.ticket.next_try()
    }

    fn start(&mut self, plan: &Seen, attempt: u64, url: Text, facts: Facts) {
        let Some(file) = self.ticket.take_new() else {
            unreachable!();
        };
        let id = file.id();
        let mut body = self
            .shared
            .hold_as(self.rt, self.ticket.path(), self.file, plan);
        body.begin_body(file, url, attempt, facts);
        self.left = let_go(self.shared, body);
        self.file = Some(id);
    }

    fn go_on(&mut self, plan: &Seen, attempt: u64) {
        self.ticket.keeps();
        let Some(part) = self.ticket.take_partial() else {
            unreachable!();
        };
        let Label::Fetched { first, last: _ } = part.label else {
            unreachable!();
        };
        let id = part.body.id();
        let mut body = self
            .shared
            .hold_as(self.rt, self.ticket.path(), self.file, plan);
        body.go_on(part.body, part.url, first, attempt, part.facts);
        self.left = let_go(self.shared, body);
        self.file = Some(id);
    }

    fn resume(&mut self, plan: &Seen, attempt: u64) {
        let mut body = self
            .shared
            .hold_as(self.rt, self.ticket.path(), self.file, plan);
        body.resume(attempt);
        self.left = let_go(self.shared, body);
    }

    fn add(&mut self, alloc: Global, plan: &Seen, piece: &[u8]) -> Result<(), KeepFault<F::Slip>> {
        let mut body = self
            .shared
            .hold_as(self.rt, self.ticket.path(), self.file, plan);
        let added = body.add(alloc, piece);
        self.left = let_go(self.shared, body);
        added
    }

    fn finish(&mut self, plan: &Seen) {
        let mut body = self
            .shared
            .hold_as(self.rt, self.ticket.path(), self.file, plan);
        body.finish();
        self.left = let_go(self.shared, body);
    }

    fn same(&mut self, plan: &Seen, old: &OldOrder) {
        let Some(file) = self.ticket.take_old() else {
            unreachable!();
        };
        let id = file.id();
        let mut body = self
            .shared
            .hold_as(self.rt, self.ticket.path(), self.file, plan);
        body.same(file, old.label, old.facts.again());
        self.left = let_go(self.shared, body);
        self.file = Some(id);
    }

    fn refuse(&mut self, plan: &Seen, why: Why<P, F::Slip>) -> Option<Shown>
        requires may { MayRefuse S.Site self.old.grown.path plan.now (shown_of P.number F.Slip.number (last_of plan.now.label) why) }
        requires agrees { self.old.grown.seen ≡ plan.now }
        ensures shown { result ≡ Some (shown_of P.number F.Slip.number (last_of plan.now.label) why) }
        ensures seen { self.new.grown.seen ≡ record plan.now { stage = stage.Refused; shown = result } }
        ensures stock { stock_of self.new ≡ stock_of self.old }
    {
        let mut body = self
            .shared
            .hold_as(self.rt, self.ticket.path(), self.file, plan);
        body.refuse(why);
        let shown = body.shown();
        self.left = let_go(self.shared, body);
        shown
    }

    fn cut(&mut self, plan: &Seen, why: Why<P, F::Slip>) -> Option<Shown>
        requires may { MayCut S.Site self.old.grown.path plan.now (shown_of P.number F.Slip.number (last_of plan.now.label) why) }
        requires agrees { self.old.grown.seen ≡ plan.now }
        ensures shown { result ≡ Some (shown_of P.number F.Slip.number (last_of plan.now.label) why) }
        ensures seen { self.new.grown.seen ≡ record plan.now { stage = stage.Cut; shown = result } }
        ensures stock { stock_of self.new ≡ stock_of self.old }
    {
        let mut body = self
            .shared
            .hold_as(self.rt, self.ticket.path(), self.file, plan);
        body.cut(why);
        let shown = body.shown();
        self.left = let_go(self.shared, body);
        shown
    }
}
