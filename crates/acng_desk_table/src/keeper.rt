//! The keeper of the table: another one, with a view from outside the desk of what it has.
//!
//! Each call is the other keeper's. The view is changed after a call that came, so it has what the keeper has.
ghost use Rattle.std.specs.Prelude.{◌≡◌};

use crate::view::View;
use acng_keeper::{BodyFile, BodyId, Heads, Ids, KeepFault, Keeper, SlipOf};
use std::alloc::Global;
use std::sync::Arc;

/// A keeper that is seen into.
#[derive(Drop)]
pub struct SeenKeeper<K: Keeper> {
    inner: K,
    view: Arc<View>,
}

impl<K: Keeper> SeenKeeper<K> {
    pub fn new(inner: K, view: Arc<View>) -> SeenKeeper<K>
        ensures { ⟦<SeenKeeper<K> as Keeper>⟧.kept result ≡ K.kept inner }
    {
        SeenKeeper { inner, view }
    }
}

impl<K: Keeper> Keeper for SeenKeeper<K> {
    type Body = K::Body;

    ghost tells = { K.tells };

    ghost kept = { λ k. K.kept k.inner };

    ghost next = { λ k. K.next k.inner };

    ghost faults = { λ k. K.faults k.inner };

    ghost body_tells = { K.body_tells };

    ghost bounded = { λ k. K.bounded k.inner };

    ghost sound = { λ k t. K.sound k.inner t };

    fn next_id(&self) -> u64 {
        self.inner.next_id()
    }

    fn create(&mut self, alloc: Global) -> Result<(BodyId, K::Body), KeepFault<SlipOf<K>>> {
        match self.inner.create(alloc) {
            Ok((id, body)) => {
                self.view.create(id.0);
                Ok((id, body))
            }
            Err(fault) => Err(fault),
        }
    }

    fn seal(
        &mut self,
        alloc: Global,
        id: BodyId,
        body: K::Body,
    ) -> Result<K::Body, (KeepFault<SlipOf<K>>, K::Body)> {
        let size = body.len();
        match self.inner.seal(alloc, id, body) {
            Ok(body) => {
                self.view.seal(id.0, size);
                Ok(body)
            }
            Err(fault) => Err(fault),
        }
    }

    fn fetch_body(&mut self, alloc: Global, id: BodyId) -> Result<K::Body, KeepFault<SlipOf<K>>> {
        self.inner.fetch_body(alloc, id)
    }

    fn put_head(
        &mut self,
        alloc: Global,
        id: BodyId,
        bytes: &[u8],
    ) -> Result<(), KeepFault<SlipOf<K>>> {
        match self.inner.put_head(alloc, id, bytes) {
            Ok(()) => {
                self.view.put_head(alloc, id.0, bytes);
                Ok(())
            }
            Err(fault) => Err(fault),
        }
    }

    fn list_heads(&mut self, alloc: Global) -> Result<Heads, KeepFault<SlipOf<K>>> {
        self.inner.list_heads(alloc)
    }

    fn list_bodies(&mut self, alloc: Global) -> Result<Ids, KeepFault<SlipOf<K>>> {
        self.inner.list_bodies(alloc)
    }

    fn remove_head(&mut self, alloc: Global, id: BodyId) -> Result<(), KeepFault<SlipOf<K>>> {
        match self.inner.remove_head(alloc, id) {
            Ok(()) => {
                self.view.remove_head(id.0);
                Ok(())
            }
            Err(fault) => Err(fault),
        }
    }

    fn remove_body(&mut self, alloc: Global, id: BodyId) -> Result<(), KeepFault<SlipOf<K>>> {
        match self.inner.remove_body(alloc, id) {
            Ok(()) => {
                self.view.remove_body(id.0);
                Ok(())
            }
            Err(fault) => Err(fault),
        }
    }
}
