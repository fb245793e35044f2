//! What a desk tells of a path without changing it.
ghost use Rattle.std.specs.Prelude.{◌≡◌, true, false, List, ℕ, None, IfOk, IfSome, IfNone, is_some, option_map, option_copied};
ghost use Rattle.std.specs.Ordering.{nat_cmp, is_gt};
ghost use Rattle.std.specs.Cmp.Lexicographic.{slice_cmp};
ghost use Rattle.acng_class.specs.Classes.{class_of};
ghost use Rattle.acng_rows.specs.Rows.{whole_at, whole_in, IsAfter};
ghost use Rattle.acng_desk.specs.Looks.{row_facts};

use crate::desk::Desk;
use crate::facts::facts_of;
use crate::joint::Joint;
use acng_base::{CachePath, Moment, NoMemory};
use acng_class::{Class, Classes};
use acng_grow::Facts;
use acng_head::Label;
use acng_keeper::{BodyId, Keeper};
use acng_rows::Row;
use acng_site::Site;
use std::alloc::Global;

/// What is known of the whole body of a path.
#[derive(Debug, Drop)]
pub struct RowFacts {
    pub id: BodyId,
    pub label: Label,
    pub facts: Facts,
    pub size: u64,
    /// When it was last fetched, found the same or imported.
    pub checked: Moment,
    /// Since when no index reaches it; None while one does.
    pub mark: Option<Moment>,
}

impl<S: Site, K: Keeper, T: Joint> Desk<S, K, T> {
    /// What is known of the whole body of a path, where it has one.
    pub fn row(&self, path: &CachePath) -> Option<RowFacts>
        ensures { result ≡ option_map row_facts (whole_at self.now.plain.rows path.now) }
    {
        let row = self.rows.get(path)?;
        match &row.whole {
            Some(whole) => Some(RowFacts {
                id: BodyId(whole.id),
                label: whole.label,
                facts: facts_of(whole),
                size: whole.size,
                checked: whole.checked,
                mark: whole.mark,
            }),
            None => None,
        }
    }

    /// The least path with a whole body, or the least such path after another.
    pub fn next_path(&self, after: Option<&CachePath>) -> Option<&CachePath>
        ensures held { IfSome result (λ p. is_some (whole_at self.now.plain.rows p.now) ≡ true) }
        ensures after { IfSome result (λ p. IsAfter (option_copied after.entry) p.now) }
        ensures least { IfSome result (λ p. (q : List ℕ) → IsAfter (option_copied after.entry) q →
            is_some (whole_at self.now.plain.rows q) ≡ true → is_gt (slice_cmp nat_cmp p.now q) ≡ false) }
        ensures none { IfNone result
            ((q : List ℕ) → IsAfter (option_copied after.entry) q → whole_at self.now.plain.rows q ≡ None) }
    {
        self.rows.held_after(after)
    }

    /// The class of a path by the configuration.
    pub fn class_of(&self, alloc: Global, path: &CachePath) -> Result<Class, NoMemory>
        ensures { IfOk result (λ class.
            class ≡ class_of self.now.plain.rules.pfile_pattern self.now.plain.rules.vfile_pattern path.now) }
    {
        let mut classes = Classes::by_rules(alloc, &self.rules)?;
        let class = classes.class_of(alloc, path)?;
        Ok(class)
    }
}
