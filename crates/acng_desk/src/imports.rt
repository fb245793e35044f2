//! Putting an import: a body that no download made becomes the whole body of a path.
//!
//! The body is sealed first. Then there is room for the row, the head is put, and the row changes; the old head and body
//! go last. So what a stop leaves is the old file or the import, and what a refusal leaves over the next start removes.
ghost use Rattle.std.specs.Prelude.{◌≡◌, ◌⊎◌, ◌&&◌, ◌<◌, ◌≤◌, ◌^◌, true, false, not, is_some, Some, IfErr, OnOk, OnErr};
ghost use Rattle.std.specs.FinMap as map;
ghost use Rattle.acng_head.specs.Records.{IsHash};
ghost use Rattle.acng_grow.specs.Stands.{IsImport};
ghost use Rattle.acng_keeper.specs.Slips.{SlipRose, Later};
ghost use Rattle.acng_rows.specs.Rows.{whole_at};
ghost use Rattle.acng_desk.specs.House.{spot_at};
ghost use Rattle.acng_desk.specs.Begins.{is_full};
ghost use Rattle.acng_desk.specs.Calls.{IsSpare, put_fault};
ghost use Rattle.acng_desk.specs.Commands.{PutImport, imported, put_in, step};
ghost use Rattle.acng_desk.specs.Imports.{HasImport, ImportRose};
ghost use Rattle.acng_desk.specs.Keeps.{IsNobodys};
ghost use Rattle.acng_desk.specs.Stops.{StopsAt, IsFound, KeepsFiles};

use crate::calls::PutFault;
use crate::desk::Desk;
use crate::joint::Joint;
use acng_base::{CachePath, Hash, Moment};
use acng_head::Label;
use acng_keeper::{BodyFile, BodyId, KeepFault, Keeper, SlipOf};
use acng_rows::{PathMap, Removal, Row, Whole, hold};
use acng_site::Site;
use std::alloc::Global;

// Whether the row of the path has no whole body.
fn is_bare<T: Drop>(rows: &PathMap<Row<T>>, path: &CachePath) -> bool
    ensures { result ≡ not (is_some (whole_at rows.now path.now)) }
{
    match rows.get(path) {
        Some(row) => row.whole.is_none(),
        None => true,
    }
}

// Whether room that was made is to be taken back, since it wasn't filled.
fn goes_back<T: Drop>(made: bool, rows: &PathMap<Row<T>>, path: &CachePath) -> bool
    ensures { result ≡ (made && not (is_some (whole_at rows.now path.now))) }
{
    if !made {
        return false;
    }
    is_bare(rows, path)
}

// The whole body of an import.
fn import_of(id: u64, hash: Hash, size: u64, now: Moment) -> Whole
    ensures whole { result ≡ imported id hash size now }
    ensures hash { IsHash hash }
    ensures moment { now.0 < 2 ^ 64 }
{
    let _bytes = hash.0;
    let _seconds = now.0;
    Whole {
        id,
        label: Label::Imported { sha256: hash, size },
        size,
        tag: None,
        modified: None,
        checked: now,
        mark: None,
    }
}

fn fault_of<P>(fault: KeepFault<P>) -> PutFault<P>
    ensures { result ≡ put_fault fault }
{
    match fault {
        KeepFault::Slip(slip) => PutFault::KeeperFault(slip),
        KeepFault::NoMemory => PutFault::NoMemory,
    }
}

impl<S: Site, K: Keeper, T: Joint> Desk<S, K, T> {
    // There is room for no row of the path.
    fn lacks_room(&self, path: &CachePath) -> bool
        ensures { result ≡ is_full (spot_at self.now.plain path.now) }
    {
        let _limit = self.limit;
        !self.rows.has(path) && self.limit as usize <= self.rows.len()
    }

    // Seals a body that nobody has.
    fn seal_spare(
        &mut self,
        alloc: Global,
        id: BodyId,
        body: K::Body,
    ) -> Result<(), KeepFault<SlipOf<K>>>
        requires number { (K.Body.handle body).number ≡ id.0 }
        requires spare { IsSpare K.tells self.old id.0 }
        ensures plain { self.new.plain ≡ self.old.plain }
        ensures there { OnOk result (K.tells ≡ true →
            map.get self.new.kept.bodies id.0 ≡ Some (K.Body.handle body).bytes) }
        ensures files { K.tells ≡ true → KeepsFiles S.Site self.old self.new }
        ensures cause { IfErr result (λ e. SlipRose e self.old.faults self.new.faults) }
        ensures later { Later self.old.faults self.new.faults }
    {
        match self.keeper.seal(alloc, id, body) {
            Ok(_) => Ok(()),
            Err((fault, _)) => Err(fault),
        }
    }

    // Gives the path the import, whose body is sealed.
    fn take_in(
        &mut self,
        alloc: Global,
        path: &CachePath,
        id: u64,
        hash: Hash,
        size: u64,
        now: Moment,
    ) -> Result<(), KeepFault<SlipOf<K>>>
        requires nobodys { IsNobodys self.old.plain.rows self.old.plain.parts id }
        requires below { id < self.old.plain.next_id }
        requires small { size ≤ 2 ^ 41 }
        requires room { is_full (spot_at self.old.plain path.now) ≡ false }
        requires file { K.tells ≡ true → HasImport self.old.kept id hash size }
        ensures plain { OnOk result (self.new.plain ≡ put_in path.now (imported id hash size now) self.old.plain) }
        ensures fell { OnErr result ((self.new.plain ≡ self.old.plain)
            ⊎ (self.new.plain ≡ put_in path.now (imported id hash size now) self.old.plain)) }
        ensures stops { K.tells ≡ true →
            StopsAt S.Site (put_in path.now (imported id hash size now) self.old.plain).rows self.old self.new }
        ensures exact { OnOk result (K.tells ≡ true → IsFound self.old → IsFound self.new) }
        ensures cause { IfErr result (λ e. SlipRose e self.old.faults self.new.faults) }
        ensures later { Later self.old.faults self.new.faults }
    {
        let _ = path.as_bytes();
        let whole = import_of(id, hash, size, now);
        let Ok(made) = self.rows.reserve(alloc, path) else {
            return Err(KeepFault::NoMemory);
        };
        let done = hold(&mut self.keeper, alloc, &mut self.rows, path, whole);
        let back = goes_back(made, &self.rows, path);
        self.rows.release(path, back);
        done
    }

    /// Puts an import: an unsealed body with this id and this hash becomes the whole body of the path, in place of what it
    /// had. Where there is room for no row of the path, the body is removed. After a refusal of the keeper, or of memory,
    /// the path has what it had, or the import.
    pub fn put_import(
        &mut self,
        alloc: Global,
        path: &CachePath,
        id: BodyId,
        body: K::Body,
        hash: Hash,
        now: Moment,
    ) -> Result<(), PutFault<SlipOf<K>>>
        requires number { (K.Body.handle body).number ≡ id.0 }
        requires spare { IsSpare K.tells self.old id.0 }
        requires small { (K.Body.handle body).size ≤ 2 ^ 41 }
        requires import { K.tells ≡ true → IsImport hash (K.Body.handle body).size (K.Body.handle body).bytes }
        ensures plain { OnOk result (self.new.plain ≡ step (PutImport path.now id.0 hash (K.Body.handle body).size now) self.old.plain) }
        ensures room { OnOk result (is_full (spot_at self.old.plain path.now) ≡ false) }
        ensures exact { OnOk result (K.tells ≡ true → IsFound self.old → IsFound self.new) }

        // A stop at any moment, a refusal, and what they leave.
        ensures stops { K.tells ≡ true →
            StopsAt S.Site (step (PutImport path.now id.0 hash (K.Body.handle body).size now) self.old.plain).rows self.old self.new }
        ensures cause { IfErr result (λ e. ImportRose e self.old.plain path.now self.old.faults self.new.faults) }
        ensures fell { OnErr result ((self.new.plain ≡ self.old.plain)
            ⊎ (self.new.plain ≡ step (PutImport path.now id.0 hash (K.Body.handle body).size now) self.old.plain)) }
        ensures later { Later self.old.faults self.new.faults }
    {
        if self.lacks_room(path) {
            drop(body);
            return match self.discard(alloc, &[Removal::Body(id.0)]) {
                Ok(()) => Err(PutFault::Full),
                Err(fault) => Err(fault_of(fault)),
            };
        }
        let size = body.len();
        if let Err(fault) = self.seal_spare(alloc, id, body) {
            return Err(fault_of(fault));
        }
        match self.take_in(alloc, path, id.0, hash, size, now) {
            Ok(()) => Ok(()),
            Err(fault) => Err(fault_of(fault)),
        }
    }
}
