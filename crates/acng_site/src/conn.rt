//! The connection of an attempt, which is read to its end or its fault, and the slip that a fault hands out.
ghost use Rattle.std.specs.Prelude.{◌≡◌, ◌<◌, Bool, true, false, List, ℕ, [], ◌++◌, length, take, IfOk, IfErr, OnErr};
ghost use Rattle.std.specs.Io.{ReadsAtMost};
ghost use Rattle.acng_site.specs.declared.ask.Ask.{Ask};

/// That an attempt failed. It can't be copied or made up.
pub trait OriginSlip: Drop {
    /// The number of the attempt that failed.
    ghost number: { Self → ℕ };

    /// What was asked in it.
    ghost ask: { Self → Ask };

    fn attempt(&self) -> u64
        ensures { result ≡ number self.now };
}

/// The connection of an attempt.
pub trait Conn: Drop {
    type Slip: OriginSlip;

    /// The number of the attempt.
    ghost number: { Self → ℕ };

    /// What was asked in it.
    ghost ask: { Self → Ask };

    /// Whether the next two say something, for connections of this type.
    ghost tells: { Bool };

    /// The bytes that are still to come before the end or the fault.
    ghost left: { Self → List ℕ };

    /// Whether a fault follows the bytes.
    ghost faulted: { Self → Bool };

    fn attempt(&self) -> u64
        ensures { result ≡ number self.now };

    /// Reads some bytes. `Ok(0)` into a buffer that isn't empty is the end. A slip comes where the bytes are all read
    /// and a fault follows them.
    fn read(&mut self, buf: &mut [u8]) -> Result<usize, Self::Slip>
        ensures bound { ReadsAtMost result buf.new }
        ensures bytes { tells ≡ true → IfOk result (λ n. left self.old ≡ take n buf.new ++ left self.new) }
        ensures end { tells ≡ true → IfOk result (λ n. n ≡ 0 → 0 < length buf.new → (left self.old ≡ []) × (faulted self.old ≡ false)) }

        // A slip is this attempt's, and comes only after all bytes of one that ends in a fault.
        ensures slip { IfErr result (λ s. (Self.Slip.number s ≡ number self.old) × (Self.Slip.ask s ≡ ask self.old)) }
        ensures broken { tells ≡ true → OnErr result ((left self.old ≡ []) × (left self.new ≡ []) × (faulted self.old ≡ true)) }

        // What a read leaves as it was.
        ensures number { number self.new ≡ number self.old }
        ensures ask { ask self.new ≡ ask self.old }
        ensures fault { faulted self.new ≡ faulted self.old };
}
