//! The reading of a body, while it grows and after.
ghost use Rattle.std.specs.Prelude.{◌≡◌, ◌<◌, true, length, take, drop};
ghost use Rattle.acng_grow.specs.Grown.{text_of};
ghost use Rattle.acng_grow.specs.Takes.{TakesAs, IfBytes, OnSlip, Rests, FileFailed};

use crate::facts::Stage;
use crate::growing::Growing;
use acng_keeper::BodyFile;
use acng_site::{OriginSlip, Site};

/// What a read of a body gives.
#[derive(Debug, Drop)]
pub enum Taken<Q> {
    /// So many bytes, at least one.
    Bytes(usize),
    /// None yet; more may come.
    NotYet,
    /// None, past the end of a whole body.
    Done,
    /// None, past the last byte of a body that ended early.
    Cut,
    /// The body's file failed.
    Slip(Q),
}

impl<S: Site, F: BodyFile, P: OriginSlip> Growing<S, F, P> {
    /// The bytes from a place on, as one read of the file gives them.
    pub fn take(&mut self, from: u64, buf: &mut [u8]) -> Taken<F::Slip>
        requires { 0 < length buf.old }
        ensures cases { TakesAs self.old from (length buf.old) result }
        ensures bytes { F.tells ≡ true → IfBytes result (λ n. take n buf.new ≡ take n (drop from (text_of self.old))) }
        ensures slip { OnSlip result (FileFailed self.old.file self.new.file) }

        // What a read leaves.
        ensures rests { Rests self.old self.new }
        ensures len { length buf.new ≡ length buf.old }
    {
        if from >= self.len() {
            return self.at_end();
        }
        let Some(file) = &mut self.file else {
            unreachable!();
        };
        match file.read_at(from, buf) {
            Ok(count) => Taken::Bytes(count),
            Err(slip) => Taken::Slip(slip),
        }
    }

    // What a read past the last byte gives.
    fn at_end(&self) -> Taken<F::Slip>
        ensures cases { TakesAs self.now self.now.seen.size 0 result }
    {
        match self.stage {
            Stage::Opening | Stage::Running => Taken::NotYet,
            Stage::Whole | Stage::Same => Taken::Done,
            Stage::Cut | Stage::Refused => Taken::Cut,
        }
    }
}
