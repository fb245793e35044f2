//! The ids and the attempts that the whole bodies of rows name.
ghost use Rattle.std.specs.Prelude.{◌≡◌, List, ℕ, Some, OnOk, IfOk, IfSome};
ghost use Rattle.acng_rows.specs.Rows.{whole_at};
ghost use Rattle.acng_rows.specs.Starts.{AreIds, IsFree, IsSmall, free_after, free_by, ids_with};
ghost use Rattle.acng_rows.specs.declared.row.Whole.{Whole as TheWhole};

use crate::id_set::IdSet;
use crate::path_map::PathMap;
use crate::row::{Row, Whole};
use acng_base::NoMemory;
use acng_head::Label;
use std::alloc::Global;

/// The ids of whole bodies, and the first attempt after all that they name.
#[derive(Drop)]
pub(crate) struct Names {
    pub(crate) ids: IdSet,
    pub(crate) next_try: u64,
}

fn free_after(next: u64, label: &Label) -> u64
    requires { IsSmall label.now }
    ensures { result ≡ free_after next label.now }
{
    match label {
        Label::Fetched { first: _, last } => next.max(*last + 1),
        Label::Imported { sha256: _, size: _ } => next,
    }
}

// Adds what a row's whole body names, and gives the first attempt after all so far.
fn note(ids: &mut IdSet, next: u64, whole: &Option<Whole>) -> Result<u64, NoMemory>
    requires { IfSome whole.now (λ w. IsSmall w.label) }
    ensures ids { OnOk result (ids.new ≡ ids_with ids.old whole.now) }
    ensures next { IfOk result (λ n. n ≡ free_by next whole.now) }
{
    match whole {
        Some(whole) => {
            ids.put(whole.id)?;
            Ok(free_after(next, &whole.label))
        }
        None => Ok(next),
    }
}

impl<T: Drop> PathMap<Row<T>> {
    /// What the whole bodies of the rows name.
    pub(crate) fn names(&self, alloc: Global) -> Result<Names, NoMemory>
        requires small { (path : List ℕ) (w : TheWhole) → whole_at self.now path ≡ Some w → IsSmall w.label }
        ensures ids { IfOk result (λ names. AreIds self.now names.ids) }
        ensures next_try { IfOk result (λ names. IsFree self.now names.next_try) }
    {
        let mut ids = IdSet::new(alloc);
        let mut next_try = 0;
        for entry in self.list.iter() {
            let row: &Row<T> = entry.1;
            next_try = note(&mut ids, next_try, &row.whole)?;
        }
        Ok(Names { ids, next_try })
    }
}
