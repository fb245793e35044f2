//! A ticket and the body that is loaded by it, in one hand.
ghost use Rattle.std.specs.Prelude.{◌≡◌, Some};
ghost use Rattle.acng_grow.specs.declared.facts.Stage.TheVariants as stage;
ghost use Rattle.acng_grow.specs.Causes.{shown_of};
ghost use Rattle.acng_grow.specs.Effects.{last_of};
ghost use Rattle.acng_grow.specs.Allowed.{MayCut, MayRefuse};
ghost use Rattle.acng_fetch.specs.Leads.{IsLed, Lead, stock_of};

use crate::grows::Grows;
use crate::order::OldOrder;
use acng_base::Text;
use acng_desk::Ticket;
use acng_grow::{Facts, Growing, Seen, Shown, Why};
use acng_head::Label;
use acng_keeper::{BodyFile, KeepFault};
use acng_site::{OriginSlip, Site, Try};
use std::alloc::Global;
use std::marker::Model;

/// A ticket and its body. Contracts see it as a `Lead`.
pub struct Led<S: Site, F: BodyFile, P: OriginSlip> {
    ticket: Ticket<S, F>,
    growing: Growing<S, F, P>,
}

impl<S: Site, F: BodyFile, P: OriginSlip> Model for Led<S, F, P> {
    ghost use Rattle.acng_fetch.specs.Leads.{IsLed, Lead};

    ghost Value = { Lead };

    ghost view = { λ l. record { ticket = l.ticket; grown = l.growing } };

    ghost invariant = { λ l. IsLed (record { ticket = l.ticket; grown = l.growing }) };
}

impl<S: Site, F: BodyFile, P: OriginSlip> Led<S, F, P> {
    pub(crate) fn new(ticket: Ticket<S, F>, growing: Growing<S, F, P>) -> Led<S, F, P>
        requires led { IsLed (record { ticket = ticket; grown = growing }) }
        ensures { result ≡ record { ticket = ticket; grown = growing } }
    {
        Led { ticket, growing }
    }

    pub(crate) fn into_parts(self) -> (Ticket<S, F>, Growing<S, F, P>)
        ensures parts { self ≡ record { ticket = result.0; grown = result.1 } }
        ensures led { IsLed (record { ticket = result.0; grown = result.1 }) }
    {
        let Led { ticket, growing } = self;
        (ticket, growing)
    }
}

impl<S: Site, F: BodyFile, P: OriginSlip> Grows for Led<S, F, P> {
    type Site = S;

    type File = F;

    type Slip = P;

    ghost use Rattle.acng_fetch.specs.Leads.{is_full, stock_of};

    ghost stock = { λ l. stock_of l };

    ghost full = { λ l. is_full l.ticket };

    ghost seen = { λ l. Some l.grown.seen };

    fn tries_left(&self) -> u32 {
        self.ticket.tries_left()
    }

    fn next_try(&mut self) -> Try<S> {
        self.ticket.keeps();
        self.ticket.next_try()
    }

    fn start(&mut self, plan: &Seen, attempt: u64, url: Text, facts: Facts) {
        let _ = plan;
        let Some(body) = self.ticket.take_new() else {
            unreachable!();
        };
        self.growing.begin_body(body, url, attempt, facts);
    }

    fn go_on(&mut self, plan: &Seen, attempt: u64) {
        let _ = plan;
        self.ticket.keeps();
        let Some(part) = self.ticket.take_partial() else {
            unreachable!();
        };
        let Label::Fetched { first, last: _ } = part.label else {
            unreachable!();
        };
        self.growing
            .go_on(part.body, part.url, first, attempt, part.facts);
    }

    fn resume(&mut self, plan: &Seen, attempt: u64) {
        let _ = plan;
        self.growing.resume(attempt);
    }

    fn add(&mut self, alloc: Global, plan: &Seen, piece: &[u8]) -> Result<(), KeepFault<F::Slip>> {
        let _ = plan;
        self.growing.add(alloc, piece)
    }

    fn finish(&mut self, plan: &Seen) {
        let _ = plan;
        self.growing.finish();
    }

    fn same(&mut self, plan: &Seen, old: &OldOrder) {
        let _ = plan;
        let Some(body) = self.ticket.take_old() else {
            unreachable!();
        };
        self.growing.same(body, old.label, old.facts.again());
    }

    fn refuse(&mut self, plan: &Seen, why: Why<P, F::Slip>) -> Option<Shown>
        requires may { MayRefuse S.Site self.old.grown.path plan.now (shown_of P.number F.Slip.number (last_of plan.now.label) why) }
        requires agrees { self.old.grown.seen ≡ plan.now }
        ensures shown { result ≡ Some (shown_of P.number F.Slip.number (last_of plan.now.label) why) }
        ensures seen { self.new.grown.seen ≡ record plan.now { stage = stage.Refused; shown = result } }
        ensures stock { stock_of self.new ≡ stock_of self.old }
    {
        let _ = plan;
        self.growing.refuse(why);
        self.growing.shown()
    }

    fn cut(&mut self, plan: &Seen, why: Why<P, F::Slip>) -> Option<Shown>
        requires may { MayCut S.Site self.old.grown.path plan.now (shown_of P.number F.Slip.number (last_of plan.now.label) why) }
        requires agrees { self.old.grown.seen ≡ plan.now }
        ensures shown { result ≡ Some (shown_of P.number F.Slip.number (last_of plan.now.label) why) }
        ensures seen { self.new.grown.seen ≡ record plan.now { stage = stage.Cut; shown = result } }
        ensures stock { stock_of self.new ≡ stock_of self.old }
    {
        let _ = plan;
        self.growing.cut(why);
        self.growing.shown()
    }
}
