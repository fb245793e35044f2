//! Which body a reader waits for, and what is told of it.
ghost use Rattle.std.specs.Prelude.{◌≡◌};
ghost use Rattle.acng_grow.specs.Agrees.{is_among as is_among_of, is_fetched, label_agrees, cause_agrees};

use crate::facts::{Facts, Stage};
use crate::why::Shown;
use acng_base::CachePath;
use acng_head::Label;

/// How many attempts a download has.
const SIXTEEN: u64 = 16;

/// The body that a reader waits for: that of the path whose attempts are the sixteen from `first_try` on, or a held one
/// with the label `old`.
#[derive(Debug, Drop)]
pub struct Asked {
    pub path: CachePath,
    pub first_try: u64,
    pub old: Option<Label>,
}

/// What is told of a body.
#[derive(Debug, Drop)]
pub struct Look {
    pub stage: Stage,
    pub facts: Facts,
    pub label: Option<Label>,
    pub shown: Option<Shown>,
}

impl Asked {
    // Whether a label is the old one, or of one of the sixteen attempts.
    pub(crate) fn takes(&self, label: Option<Label>) -> bool
        ensures { result ≡ label_agrees self.now.first_try self.now.old label }
    {
        match label {
            None => true,
            Some(Label::Imported { .. }) => false,
            Some(Label::Fetched { first, last }) => {
                is_old(self.old, first, last) || is_among(self.first_try, last)
            }
        }
    }

    // Whether the attempt that a cause names, if any, is one of the sixteen.
    pub(crate) fn names(&self, shown: &Option<Shown>) -> bool
        ensures { result ≡ cause_agrees self.now.first_try shown.now }
    {
        match shown {
            None => true,
            Some(shown) => match shown.named() {
                None => true,
                Some(attempt) => is_among(self.first_try, attempt),
            },
        }
    }
}

fn is_among(first: u64, attempt: u64) -> bool
    ensures { result ≡ is_among_of first attempt }
{
    first <= attempt && attempt - first < SIXTEEN
}

fn is_old(old: Option<Label>, first: u64, last: u64) -> bool
    ensures { result ≡ is_fetched first last old }
{
    match old {
        Some(Label::Fetched { first: f, last: l }) => f == first && l == last,
        _ => false,
    }
}
