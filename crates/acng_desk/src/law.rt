//! The laws of a desk over lists of calls and of events, and over stops.
ghost use Rattle.std.specs.Prelude.{◌≡◌, true};
ghost use Rattle.acng_desk.specs.Laws.{BodiesStay, QuietCallsAnswer, RunsAreSteps, StopsSurvive, TicketsStay};

use crate::desk::Desk;
use crate::joint::Joint;
use acng_keeper::Keeper;
use acng_site::Site;

/// After any list of answered calls a desk knows what `steps` says, and a start would find exactly its rows.
pub fn runs_are_steps()
    ensures { RunsAreSteps }
{}

/// `begin`, `fetch` and `new_body` keep what a start would find, and a stop in them leaves what was there.
pub fn quiet_calls_answer<S: Site>()
    ensures { QuietCallsAnswer S.Site }
{}

/// Until a ticket is settled it stays out, and whoever asks for its path joins it.
pub fn tickets_stay()
    ensures { TicketsStay }
{}

/// However calls and events come, rows change by calls alone, no body goes, and its text only grows.
pub fn bodies_stay<S: Site>()
    ensures { BodiesStay S.Site }
{}

impl<S: Site, K: Keeper, T: Joint> Desk<S, K, T> {
    /// Does nothing; its clause is what a stop leaves at any moment of a call that begins with this desk.
    pub fn survives(&self)
        ensures { K.tells ≡ true → StopsSurvive S.Site self.now }
    {
        let _ = &self.rules;
    }
}
