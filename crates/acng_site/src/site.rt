//! A site, and the numbers of the attempts on it.
//!
//! Each attempt has a number that no other attempt has: only an origin's start makes the `Right` to draw attempts, its
//! `next` never falls, and a `Try` can't be copied. A `Try` has to be spent, by a dial or by giving it up.
ghost use Rattle.std.specs.Prelude.{◌≡◌, ◌+◌, ◌-◌, ◌^◌, ◌<◌, ◌≤◌, Bool, true, false, List, ℕ, []};
ghost use Rattle.acng_site.specs.declared.ask.Ask.{Ask};

use std::marker::PhantomData;

/// What the mirrors hold, by name. The meanings are fixed for a site.
pub trait Site {
    /// Whether the other meanings say something.
    ghost tells: { Bool };

    /// All that came before the end or the fault of the attempt of a number with an ask.
    ghost sent: { ℕ → Ask → List ℕ };

    /// Whether that attempt ends in a fault.
    ghost faulted: { ℕ → Ask → Bool };

    /// Whether a URL is a place of the file of a path.
    ghost serves: { List ℕ → List ℕ → Bool };

    /// The file of a path as the attempt of a number found it.
    ghost instance: { ℕ → List ℕ → List ℕ };
}

/// The site of which nothing is told.
#[derive(Debug, Drop)]
pub struct Untold;

impl Site for Untold {
    ghost tells = { false };

    ghost sent = { λ _ _. [] };

    ghost faulted = { λ _ _. false };

    ghost serves = { λ _ _. false };

    ghost instance = { λ _ _. [] };
}

/// The right to draw attempts. Only an origin's start makes one.
#[derive(Debug, Drop)]
pub struct Right<S> {
    next: u64,
    of: PhantomData<S>,
}

/// The right to one attempt, which has to be spent.
pub struct Try<S> {
    number: u64,
    of: PhantomData<S>,
}

impl<S: Site> Right<S> {
    // The right of an origin that starts.
    pub(crate) fn first() -> Right<S>
        ensures { result.next ≡ 0 }
    {
        Right {
            next: 0,
            of: PhantomData,
        }
    }

    /// The number of the attempt that is drawn next.
    pub fn next(&self) -> u64
        ensures { result ≡ self.now.next }
    {
        self.next
    }

    /// Leaves out the numbers below n.
    pub fn skip_to(&mut self, n: u64)
        requires { self.old.next ≤ n }
        ensures { self.new.next ≡ n }
    {
        self.next = n;
    }

    /// Draws the next attempt.
    pub fn draw(&mut self) -> Try<S>
        requires { self.old.next < 2 ^ 64 - 1 }
        ensures number { result.number ≡ self.old.next }
        ensures next { self.new.next ≡ self.old.next + 1 }
    {
        let number = self.next;
        self.next += 1;
        Try::of_number(number)
    }
}

impl<S: Site> Try<S> {
    // The attempt of a number that a right gave away.
    pub(crate) fn of_number(number: u64) -> Try<S>
        ensures { result.number ≡ number }
    {
        Try {
            number,
            of: PhantomData,
        }
    }

    pub fn number(&self) -> u64
        ensures { result ≡ self.now.number }
    {
        self.number
    }

    /// Spends the attempt on nothing.
    pub fn give_up(self) {
        let Try { number: _, of: _ } = self;
    }

    // Spends the attempt on a dial.
    pub(crate) fn spend(self) -> u64
        ensures { result ≡ self.number }
    {
        let Try { number, of: _ } = self;
        number
    }
}
