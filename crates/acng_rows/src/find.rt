//! Finding the rows that stored heads and bodies stand for.
//!
//! A head is good where it reads and its sealed body has its size. Of two good heads of a path the greater id stays; the
//! heads come in rising order of ids, so the later one is put in the place of the earlier. What no row names is to go.
ghost use Rattle.std.specs.Prelude.{◌≡◌, ◌<◌, ◌++◌, ◌==◌, ◌||◌, ◌∷◌, [], cond, ℕ, List, true, false, Some, IfOk, IfErr, OnOk, IfSome};
ghost use Rattle.std.specs.Prelude.{MatchOption};
ghost use Rattle.std.specs.List.{list_any};
ghost use Rattle.std.specs.FinMap as map;
ghost use Rattle.std.specs.Map.{keys_of};
ghost use Rattle.std.specs.Ordering.{nat_cmp};
ghost use Rattle.acng_head.specs.Records.{IsHead, record_text};
ghost use Rattle.acng_head.specs.declared.head.Head.{Head};
ghost use Rattle.acng_keeper.specs.Kept.{stored};
ghost use Rattle.acng_keeper.specs.Lists.{AllBelow, ListsBodies};
ghost use Rattle.acng_keeper.specs.Slips.{SlipRose, Later};
ghost use Rattle.acng_rows.specs.Goods.{StandsFor, AreSealed, AreHeld};
ghost use Rattle.acng_rows.specs.Removals.{AreUnnamed};
ghost use Rattle.acng_rows.specs.Rows.{row_of, whole_at};
ghost use Rattle.acng_rows.specs.Starts.{FitsBody, Steps, Enters, AreFound, Same, IsSmall, IsFree, Lists, Covers, off};
ghost use Rattle.acng_rows.specs.declared.row.Whole.{Whole as TheWhole};
ghost use Rattle.acng_rows.specs.declared.removal.Removal.TheVariants as removal;

use crate::found::Names;
use crate::id_set::IdSet;
use crate::path_map::PathMap;
use crate::removal::Removal;
use crate::row::{Row, Whole};
use acng_base::NoMemory;
use acng_head::{Head, read_head};
use acng_keeper::{BodyFile, BodyId, Heads, Ids, KeepFault, Keeper, SlipOf};
use std::alloc::Global;

/// What stored heads and bodies stand for.
#[derive(Drop)]
pub struct Found<T> {
    pub rows: PathMap<Row<T>>,
    /// The heads and bodies that no row names.
    pub gone: Vec<Removal>,
    /// The first attempt after all that the rows name.
    pub next_try: u64,
}

fn row<T>(alloc: Global, id: BodyId, head: &Head) -> Result<Row<T>, NoMemory>
    ensures { IfOk result (λ row. row ≡ row_of id.0 head.now) }
{
    Ok(Row {
        whole: Some(Whole::of(alloc, id.0, head)?),
        out: None,
    })
}

// The head of these bytes, where its sealed body has its size.
fn good_head<K: Keeper>(
    keeper: &mut K,
    alloc: Global,
    id: BodyId,
    bytes: &[u8],
    all: &IdSet,
) -> Result<Option<Head>, KeepFault<SlipOf<K>>>
    requires all { K.tells ≡ true → map.contains_key all.now id.0 ≡
        (map.contains_key (K.kept keeper.old).bodies id.0 || map.contains_key (K.kept keeper.old).loose id.0) }
    requires sealed { K.tells ≡ true → (h : Head) → IsHead h → record_text h ≡ bytes.now →
        map.contains_key (K.kept keeper.old).loose id.0 ≡ false }
    ensures reads { IfOk result (λ o. IfSome o (λ h. IsHead h × (record_text h ≡ bytes.now))) }
    ensures good { K.tells ≡ true → IfOk result (λ o. MatchOption o
        ((h : Head) → FitsBody (K.kept keeper.old).bodies id.0 bytes.now h → ⊥)
        (λ h. FitsBody (K.kept keeper.old).bodies id.0 bytes.now h)) }
    ensures same { K.tells ≡ true → Same (K.kept keeper.old) (K.kept keeper.new) }
    ensures same_next { K.next keeper.new ≡ K.next keeper.old }
    ensures cause { IfErr result (λ e. SlipRose e (K.faults keeper.old) (K.faults keeper.new)) }
    ensures later { Later (K.faults keeper.old) (K.faults keeper.new) }
{
    let Ok(read) = read_head(alloc, bytes) else {
        return Err(KeepFault::NoMemory);
    };
    let Some(head) = read else {
        return Ok(None);
    };
    if !all.has(id.0) {
        return Ok(None);
    }
    let body = keeper.fetch_body(alloc, id)?;
    if body.len() == head.size {
        Ok(Some(head))
    } else {
        Ok(None)
    }
}

// Enters a head, where it is good.
fn step<K: Keeper, T: Drop>(
    keeper: &mut K,
    alloc: Global,
    id: BodyId,
    bytes: &[u8],
    all: &IdSet,
    rows: &mut PathMap<Row<T>>,
) -> Result<(), KeepFault<SlipOf<K>>>
    requires all { K.tells ≡ true → map.contains_key all.now id.0 ≡
        (map.contains_key (K.kept keeper.old).bodies id.0 || map.contains_key (K.kept keeper.old).loose id.0) }
    requires sealed { K.tells ≡ true → (h : Head) → IsHead h → record_text h ≡ bytes.now →
        map.contains_key (K.kept keeper.old).loose id.0 ≡ false }
    ensures steps { K.tells ≡ true → OnOk result (Steps (K.kept keeper.old).bodies id.0 bytes.now rows.old rows.new) }
    ensures enters { OnOk result (Enters id.0 rows.old rows.new) }
    ensures same { K.tells ≡ true → Same (K.kept keeper.old) (K.kept keeper.new) }
    ensures same_next { K.next keeper.new ≡ K.next keeper.old }
    ensures cause { IfErr result (λ e. SlipRose e (K.faults keeper.old) (K.faults keeper.new)) }
    ensures later { Later (K.faults keeper.old) (K.faults keeper.new) }
{
    let Some(head) = good_head(keeper, alloc, id, bytes, all)? else {
        return Ok(());
    };
    let Ok(row) = row(alloc, id, &head) else {
        return Err(KeepFault::NoMemory);
    };
    let Ok(()) = rows.put(head.path, row) else {
        return Err(KeepFault::NoMemory);
    };
    Ok(())
}

// The rows that the heads and bodies stand for.
fn read_rows<K: Keeper, T: Drop>(
    keeper: &mut K,
    alloc: Global,
    heads: &Heads,
    all: &IdSet,
) -> Result<PathMap<Row<T>>, KeepFault<SlipOf<K>>>
    requires listed { K.tells ≡ true → map.from_entries {R = nat_cmp} heads.now ≡ (K.kept keeper.old).heads }
    requires below { AllBelow (K.next keeper.old) (keys_of heads.now) }
    requires all { K.tells ≡ true → (id : ℕ) → map.contains_key all.now id ≡
        (map.contains_key (K.kept keeper.old).bodies id || map.contains_key (K.kept keeper.old).loose id) }
    requires sealed { K.tells ≡ true → AreSealed (K.kept keeper.old) }
    ensures stands { K.tells ≡ true → IfOk result (λ rows. StandsFor rows (stored (K.kept keeper.old))) }
    ensures found { IfOk result (λ rows. AreFound (K.next keeper.old) rows) }
    ensures same { K.tells ≡ true → Same (K.kept keeper.old) (K.kept keeper.new) }
    ensures same_next { K.next keeper.new ≡ K.next keeper.old }
    ensures cause { IfErr result (λ e. SlipRose e (K.faults keeper.old) (K.faults keeper.new)) }
    ensures later { Later (K.faults keeper.old) (K.faults keeper.new) }
{
    let mut rows = PathMap::new(alloc);
    for i in 0..heads.len() {
        let (id, bytes) = heads.get(i);
        step(keeper, alloc, id, bytes, all, &mut rows)?;
    }
    Ok(rows)
}

// The ids of a list, as a set.
fn set_of(alloc: Global, ids: &Ids) -> Result<IdSet, NoMemory>
    ensures { IfOk result (λ set. (id : ℕ) → map.contains_key set id ≡ list_any (λ i. id == i) ids.now) }
{
    let mut set = IdSet::new(alloc);
    for i in 0..ids.len() {
        set.put(ids.get(i).0)?;
    }
    Ok(set)
}

// Lists a removal, unless the rows name its id.
fn push_unless(named: bool, removal: Removal, list: &mut Vec<Removal>) -> Result<(), NoMemory>
    ensures { OnOk result (list.new.items ≡ list.old.items ++ cond named [] (removal ∷ [])) }
{
    if !named {
        list.push(removal)?;
    }
    Ok(())
}

// The heads that aren't of these ids.
fn heads_off(alloc: Global, heads: &Heads, ids: &IdSet) -> Result<Vec<Removal>, NoMemory>
    ensures { IfOk result (λ list. list.items ≡ off removal.Head ids.now (keys_of heads.now)) }
{
    let mut list = Vec::new(alloc);
    for i in 0..heads.len() {
        let (id, _) = heads.get(i);
        push_unless(ids.has(id.0), Removal::Head(id.0), &mut list)?;
    }
    Ok(list)
}

// Beside them the bodies that aren't of these ids.
fn bodies_off(list: Vec<Removal>, all: &Ids, ids: &IdSet) -> Result<Vec<Removal>, NoMemory>
    ensures { IfOk result (λ more. more.items ≡ list.items ++ off removal.Body ids.now all.now) }
{
    let mut list = list;
    for i in 0..all.len() {
        let id = all.get(i);
        push_unless(ids.has(id.0), Removal::Body(id.0), &mut list)?;
    }
    Ok(list)
}

// What the rows name, and what of the heads and bodies they don't.
fn sorted_out<T: Drop>(
    alloc: Global,
    rows: PathMap<Row<T>>,
    heads: &Heads,
    bodies: &Ids,
) -> Result<Found<T>, NoMemory>
    requires small { (path : List ℕ) (w : TheWhole) → whole_at rows path ≡ Some w → IsSmall w.label }
    ensures rows { IfOk result (λ f. f.rows ≡ rows) }
    ensures unnamed { IfOk result (λ f. AreUnnamed rows f.gone.items) }
    ensures gone { IfOk result (λ f. Lists rows f.gone.items (keys_of heads.now) bodies.now) }
    ensures next_try { IfOk result (λ f. IsFree rows f.next_try) }
{
    let Names { ids, next_try } = rows.names(alloc)?;
    let list = heads_off(alloc, heads, &ids)?;
    let gone = bodies_off(list, bodies, &ids)?;
    Ok(Found {
        rows,
        gone,
        next_try,
    })
}

/// The rows that the stored heads and bodies stand for, and what of them is to go. Nothing is removed yet.
pub fn find_rows<K: Keeper, T: Drop>(
    keeper: &mut K,
    alloc: Global,
) -> Result<Found<T>, KeepFault<SlipOf<K>>>
    requires sealed { K.tells ≡ true → AreSealed (K.kept keeper.old) }
    ensures stands { K.tells ≡ true → IfOk result (λ f. StandsFor f.rows (stored (K.kept keeper.old))) }
    ensures found { IfOk result (λ f. AreFound (K.next keeper.old) f.rows) }
    ensures unnamed { IfOk result (λ f. AreUnnamed f.rows f.gone.items) }
    ensures covers { K.tells ≡ true → IfOk result (λ f. Covers f.rows f.gone.items (K.kept keeper.old)) }
    ensures next_try { IfOk result (λ f. IsFree f.rows f.next_try) }

    // The keeper has what it had.
    ensures same { K.tells ≡ true → Same (K.kept keeper.old) (K.kept keeper.new) }
    ensures same_next { K.next keeper.new ≡ K.next keeper.old }
    ensures cause { IfErr result (λ e. SlipRose e (K.faults keeper.old) (K.faults keeper.new)) }
    ensures later { Later (K.faults keeper.old) (K.faults keeper.new) }
{
    let heads = keeper.list_heads(alloc)?;
    let bodies = keeper.list_bodies(alloc)?;
    let all = set_of(alloc, &bodies)?;
    let rows = read_rows(keeper, alloc, &heads, &all)?;
    Ok(sorted_out(alloc, rows, &heads, &bodies)?)
}
