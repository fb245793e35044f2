//! Removing the whole body of a path.
//!
//! What the desk knows changes first, where nothing can fail; then the head goes, then its body, and then the partial body
//! that rested at the path. So a refusal of the keeper leaves at most what the next start removes.
ghost use Rattle.std.specs.Prelude.{◌≡◌, true, OnOk, IfErr, is_some, option_map};
ghost use Rattle.std.specs.FinMap as map;
ghost use Rattle.acng_keeper.specs.Slips.{SlipRose, Later};
ghost use Rattle.acng_rows.specs.Calls.{RowRose};
ghost use Rattle.acng_rows.specs.Rows.{whole_at};
ghost use Rattle.acng_desk.specs.House.{Parked};
ghost use Rattle.acng_desk.specs.Commands.{Remove, step};
ghost use Rattle.acng_desk.specs.Stops.{StopsAt, IsFound};

use crate::desk::Desk;
use crate::joint::Joint;
use acng_base::CachePath;
use acng_keeper::{BodyFile, Keeper, SlipOf};
use acng_rows::{RowFault, let_go};
use acng_site::Site;
use std::alloc::Global;

impl<S: Site, K: Keeper, T: Joint> Desk<S, K, T> {
    // Whether the path has a whole body.
    fn is_held(&self, path: &CachePath) -> bool
        ensures { result ≡ is_some (whole_at self.now.plain.rows path.now) }
    {
        match self.rows.get(path) {
            Some(row) => row.whole.is_some(),
            None => false,
        }
    }

    // The id of the partial body that rests at the path.
    fn resting_id(&self, path: &CachePath) -> Option<u64>
        ensures { result ≡ option_map (λ (p : Parked). p.handle.number) (map.get self.now.plain.parts path.now) }
    {
        match self.parts.get(path) {
            Some(part) => Some(part.inner.body.id().0),
            None => None,
        }
    }

    // Takes the whole body of the path and its partial body out of the desk, and the whole one out of the keeper.
    fn take_out(&mut self, alloc: Global, path: &CachePath) -> Result<(), RowFault<SlipOf<K>>>
        requires held { is_some (whole_at self.old.plain.rows path.now) ≡ true }
        ensures plain { self.new.plain ≡ step (Remove path.now) self.old.plain }
        ensures stops { K.tells ≡ true → StopsAt S.Site (step (Remove path.now) self.old.plain).rows self.old self.new }
        ensures exact { OnOk result (K.tells ≡ true → IsFound self.old → IsFound self.new) }
        ensures cause { IfErr result (λ e. RowRose e (whole_at self.old.plain.rows path.now) self.old.faults self.new.faults) }
        ensures later { Later self.old.faults self.new.faults }
    {
        let _ = self.parts.remove(path);
        let_go(&mut self.keeper, alloc, &mut self.rows, path)
    }

    /// Removes the whole body of a path: its head, then the body, and, unless a ticket is out, then the partial body that
    /// rests there, and the row. After a refusal of the keeper the row is as after Ok.
    pub fn remove(&mut self, alloc: Global, path: &CachePath) -> Result<(), RowFault<SlipOf<K>>>
        ensures plain { self.new.plain ≡ step (Remove path.now) self.old.plain }
        ensures there { OnOk result (is_some (whole_at self.old.plain.rows path.now) ≡ true) }
        ensures exact { OnOk result (K.tells ≡ true → IsFound self.old → IsFound self.new) }

        // What a stop at any moment leaves, and when it is refused.
        ensures stops { K.tells ≡ true → StopsAt S.Site (step (Remove path.now) self.old.plain).rows self.old self.new }
        ensures cause { IfErr result (λ e. RowRose e (whole_at self.old.plain.rows path.now) self.old.faults self.new.faults) }
        ensures later { Later self.old.faults self.new.faults }
    {
        self.keeps();
        if !self.is_held(path) {
            return Err(RowFault::NotHeld);
        }
        let part = self.resting_id(path);
        self.take_out(alloc, path)?;
        self.keeps();
        match self.discard_body(alloc, part) {
            Ok(()) => Ok(()),
            Err(fault) => Err(RowFault::of(fault)),
        }
    }
}
