//! The law of runs as calls.
ghost use Rattle.acng_expire_law.specs.Calls.{RunsAreCalls};

/// What a run makes of a desk, done or cut, is what some list of `set_mark` and `remove` makes of it; where it is aborted, the
/// desk knows what it knew.
pub fn runs_are_calls()
    ensures { RunsAreCalls }
{}
