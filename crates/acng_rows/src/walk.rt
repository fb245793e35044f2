//! Going through the rows in the order of their paths.
ghost use Rattle.std.specs.Prelude.{◌≡◌, true, false, List, ℕ, None, is_some, IfSome, IfNone, option_copied};
ghost use Rattle.std.specs.Ordering.{nat_cmp, is_gt};
ghost use Rattle.std.specs.Cmp.Lexicographic.{slice_cmp};
ghost use Rattle.std.specs.Range.Bound.{bound_map};
ghost use Rattle.acng_rows.specs.Rows.{whole_at, IsAfter, start_of};

use crate::path_map::PathMap;
use crate::row::Row;
use acng_base::CachePath;
use std::ops::Bound;

// Where the paths after another begin.
fn start(after: Option<&CachePath>) -> Bound<&CachePath>
    ensures { bound_map (λ x. x.now) result ≡ start_of (option_copied after.entry) }
{
    match after {
        Some(path) => Bound::Excluded(path),
        None => Bound::Unbounded,
    }
}

impl<T: Drop> PathMap<Row<T>> {
    /// The least path with a whole body, or the least such path after another.
    pub fn held_after(&self, after: Option<&CachePath>) -> Option<&CachePath>
        ensures held { IfSome result (λ p. is_some (whole_at self.now p.now) ≡ true) }
        ensures after { IfSome result (λ p. IsAfter (option_copied after.entry) p.now) }
        ensures least { IfSome result (λ p. (q : List ℕ) → IsAfter (option_copied after.entry) q →
            is_some (whole_at self.now q) ≡ true → is_gt (slice_cmp nat_cmp p.now q) ≡ false) }
        ensures none { IfNone result ((q : List ℕ) → IsAfter (option_copied after.entry) q → whole_at self.now q ≡ None) }
    {
        for entry in self.list.range((start(after), Bound::Unbounded)) {
            let row: &Row<T> = entry.1;
            if row.whole.is_some() {
                return Some(entry.0);
            }
        }
        None
    }
}
