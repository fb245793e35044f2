//! A client's connection, and the writing of a whole piece to it.
//!
//! What is left to read and what was written are known only of links that tell it, such as `MemoryLink`. A fault comes
//! only where the link's own count of faults rose, so no caller can make one up.
ghost use Rattle.std.specs.Prelude.{◌≡◌, ◌<◌, ◌≤◌, List, ℕ, length, take, IfOk, OnOk};
ghost use Rattle.std.specs.declared.option.Option.{Option};
ghost use Rattle.std.specs.Io.{ReadsAtMost, WritesAtMost};
ghost use Rattle.std.specs.Io.KnownBytes.{ReadConsumes, WriteAppends, Keeps, Appends};
ghost use Rattle.acng_base.specs.Causes.{HasCause, SendsAll};

use crate::fault::Failed;

/// A connection that is read and written.
pub trait Link {
    /// The bytes that are left to read, where they are known.
    ghost left: { Self → Option (List ℕ) };

    /// The bytes written, where they are known.
    ghost written: { Self → Option (List ℕ) };

    /// How often a call has failed.
    ghost faults: { Self → ℕ };

    /// Reads some bytes. `Ok(0)` into a buffer that isn't empty is the end.
    fn read(&mut self, buf: &mut [u8]) -> Result<usize, Failed>
        ensures bound { ReadsAtMost result buf.new }
        ensures bytes { ReadConsumes (left self.old) (left self.new) result buf.new }
        ensures others { Keeps (written self.old) (written self.new) }
        ensures cause { HasCause (faults self.old) (faults self.new) result };

    /// Writes a front of the piece, at least one byte of one that isn't empty.
    fn write(&mut self, piece: &[u8]) -> Result<usize, Failed>
        ensures bound { WritesAtMost result piece.now }
        ensures some { 0 < length piece.now → IfOk result (λ n. 0 < n) }
        ensures bytes { WriteAppends (written self.old) (written self.new) result piece.now }
        ensures others { Keeps (left self.old) (left self.new) }
        ensures cause { HasCause (faults self.old) (faults self.new) result };
}

/// Writes the whole piece, or at a fault a front of it. Says how many bytes the link took.
pub fn send_counted<L: Link>(link: &mut L, piece: &[u8]) -> (usize, Result<(), Failed>)
    ensures within { result.0 ≤ length piece.now }
    ensures bytes { Appends (L.written link.old) (L.written link.new) (take result.0 piece.now) }
    ensures all { OnOk result.1 (result.0 ≡ length piece.now) }
    ensures others { Keeps (L.left link.old) (L.left link.new) }
    ensures cause { HasCause (L.faults link.old) (L.faults link.new) result.1 }
{
    let mut sent = 0;
    while sent < piece.len() {
        match link.write(&piece[sent..]) {
            Ok(count) => sent += count,
            Err(fault) => return (sent, Err(fault)),
        }
    }
    (sent, Ok(()))
}

/// Writes the whole piece, or at a fault a front of it.
pub fn send_all<L: Link>(link: &mut L, piece: &[u8]) -> Result<(), Failed>
    ensures bytes { SendsAll (L.written link.old) (L.written link.new) piece.now result }
    ensures others { Keeps (L.left link.old) (L.left link.new) }
    ensures cause { HasCause (L.faults link.old) (L.faults link.new) result }
{
    send_counted(link, piece).1
}
