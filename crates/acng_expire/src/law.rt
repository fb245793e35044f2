//! The law over all lists of runs.
ghost use Rattle.acng_expire.specs.Laws.{OneMarkSuffices, AreRuns};

/// One mark for each body is enough. Take any list of runs, with any other steps between them: each run that is done
/// removes exactly the bodies that have been unreached from an earlier run on, by more than the limit, under one id and
/// at each run between; and each other body's mark is the least moment of such a run. A clock that goes back changes
/// nothing in this.
pub fn one_mark_suffices()
    ensures { OneMarkSuffices }
{}

/// Runs over a desk are such runs: what `expire` makes of the bodies where it is done is what the law says of a run, and
/// nothing where it is aborted.
pub fn runs_are_lawful()
    ensures { AreRuns }
{}
