//! The sixteen attempts of a download, as one value.
//!
//! The numbers that are left stand in a row, and the least of them goes first. What is drawn has to be spent, and what
//! is left at the end has to be given up, so no attempt is lost unseen. None of these calls takes memory.
ghost use Rattle.std.specs.Prelude.{◌≡◌, ◌+◌, ◌^◌, ◌<◌, ◌≤◌};

use crate::site::{Right, Site, Try};
use std::marker::PhantomData;

/// How many attempts a download has.
const SIXTEEN: u32 = 16;

/// The right to the attempts with the numbers from `next` on, `left` of them, which has to be spent or given up.
pub struct Tries<S> {
    next: u64,
    left: u32,
    of: PhantomData<S>,
    ghost in_range: { next + left < 2 ^ 64 },
}

impl<S: Site> Right<S> {
    /// Draws the next sixteen attempts at once.
    pub fn draw_sixteen(&mut self) -> Tries<S>
        requires { self.old.next + 16 < 2 ^ 64 }
        ensures next { result.next ≡ self.old.next }
        ensures left { result.left ≡ 16 }
        ensures right { self.new.next ≡ self.old.next + 16 }
    {
        let next = self.next();
        self.skip_to(next + u64::from(SIXTEEN));
        Tries {
            next,
            left: SIXTEEN,
            of: PhantomData,
        }
    }
}

impl<S: Site> Tries<S> {
    /// How many attempts are left.
    pub fn left(&self) -> u32
        ensures { result ≡ self.now.left }
    {
        self.left
    }

    /// The least number that is left, or the one after the last where none is.
    pub fn next(&self) -> u64
        ensures { result ≡ self.now.next }
    {
        self.next
    }

    /// Draws the attempt with the least number that is left.
    pub fn draw(&mut self) -> Try<S>
        requires { 1 ≤ self.old.left }
        ensures number { result.number ≡ self.old.next }
        ensures next { self.new.next ≡ self.old.next + 1 }
        ensures left { self.new.left + 1 ≡ self.old.left }
    {
        let number = self.next;
        self.next += 1;
        self.left -= 1;
        Try::of_number(number)
    }

    /// Gives up all attempts that are left.
    pub fn give_up(self) {
        let Tries {
            next: _,
            left: _,
            of: _,
        } = self;
    }
}
