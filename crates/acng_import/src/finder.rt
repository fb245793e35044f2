//! Files that were found and lie ready, such as those of a folder.
//!
//! Their number and their names are known; their bytes are, where the finder tells. A finder over the real outside tells
//! nothing of bytes.
ghost use Rattle.std.specs.Prelude.{◌≡◌, ◌-◌, ◌<◌, ◌≤◌, Bool, true, ℕ, List, [], length, take, drop, slice_index_or, IfOk};
ghost use Rattle.std.specs.Io.{ReadsAtMost};
ghost use Rattle.acng_base.specs.Causes.{HasCause};
ghost use Rattle.acng_import.specs.Files.{file_at};

use acng_base::Failed;

/// Found files, by their places from 0 on.
pub trait Finder {
    /// Whether such a finder tells the bytes of its files.
    ghost tells: { Bool };

    ghost names: { Self → List (List ℕ) };

    /// The bytes of each file, in the order of the names.
    ghost bodies: { Self → List (List ℕ) };

    /// How often a call has failed.
    ghost faults: { Self → ℕ };

    /// How many files there are.
    fn count(&self) -> usize
        ensures { result ≡ length (names self.now) };

    /// The name of the file at a place.
    fn name(&self, i: usize) -> &[u8]
        requires { i < length (names self.now) }
        ensures { result.now ≡ slice_index_or (names self.now) i [] };

    /// Reads the file at a place, from an offset on. `Ok(0)` into a buffer that isn't empty is its end.
    fn read_at(&mut self, i: usize, from: u64, buf: &mut [u8]) -> Result<usize, Failed>
        requires { i < length (names self.old) }
        ensures bound { ReadsAtMost result buf.new }
        ensures bytes { IfOk result (λ n. tells ≡ true → take n buf.new ≡ take n (drop from (file_at (bodies self.old) i))) }
        ensures there { IfOk result (λ n. tells ≡ true → n ≤ length (file_at (bodies self.old) i) - from) }
        ensures some { IfOk result (λ n. tells ≡ true → from < length (file_at (bodies self.old) i) → 0 < length buf.new → 0 < n) }
        ensures same_names { names self.new ≡ names self.old }
        ensures same_bodies { bodies self.new ≡ bodies self.old }
        ensures cause { HasCause (faults self.old) (faults self.new) result };
}
