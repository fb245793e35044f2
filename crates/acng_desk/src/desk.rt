//! A desk: the keeper, the right to attempts, and a row for each path.
ghost use Rattle.std.specs.Prelude.{◌≡◌, ◌≤◌, true};
ghost use Rattle.std.specs.FinMap as map;
ghost use Rattle.acng_desk.specs.Keeps.{IsSound, IsIdle};

use crate::joint::Joint;
use crate::part::Part;
use acng_conf::Rules;
use acng_keeper::Keeper;
use acng_rows::{PathMap, Row};
use acng_site::{Right, Site};
use std::marker::Model;

/// What a cache knows of its paths, with the keeper that holds them and the right to attempts. Contracts see a `House`.
#[derive(Drop)]
pub struct Desk<S: Site, K: Keeper, T: Joint> {
    pub(crate) keeper: K,
    pub(crate) right: Right<S>,
    pub(crate) rows: PathMap<Row<T>>,
    pub(crate) parts: PathMap<Part<K::Body>>,
    pub(crate) limit: u32,
    pub(crate) rules: Rules,
}

impl<S: Site, K: Keeper, T: Joint> Model for Desk<S, K, T> {
    ghost use Rattle.acng_desk.specs.House.{House, Plain};
    ghost use Rattle.acng_desk.specs.Keeps.{IsSound, IsIdle};
    ghost use Rattle.acng_desk.specs.Codes.{coded_house};

    ghost Value = { House };

    ghost coded = { coded_house };

    ghost view = { λ d. record {
      plain = record {
        rows = d.rows;
        parts = d.parts;
        next_try = d.right.next;
        next_id = K.next d.keeper;
        limit = d.limit;
        rules = d.rules;
      };
      kept = K.kept d.keeper;
      faults = K.faults d.keeper;
    } };

    ghost invariant = { λ d. IsSound S.Site K.tells (record {
      plain = record {
        rows = d.rows;
        parts = d.parts;
        next_try = d.right.next;
        next_id = K.next d.keeper;
        limit = d.limit;
        rules = d.rules;
      };
      kept = K.kept d.keeper;
      faults = K.faults d.keeper;
    }) };
}

impl<S: Site, K: Keeper, T: Joint> Desk<S, K, T> {
    /// Does nothing; its clause is all that a desk keeps.
    pub fn keeps(&self)
        ensures { IsSound S.Site K.tells self.now }
    {
        let _ = &self.rules;
    }

    /// What is followed of the configuration.
    pub fn rules(&self) -> &Rules
        ensures { result.now ≡ self.now.plain.rules }
    {
        &self.rules
    }

    /// How many paths have a row.
    pub fn count(&self) -> u32
        ensures count { result ≡ map.len self.now.plain.rows }
        ensures limit { result ≤ self.now.plain.limit }
    {
        let _limit = self.limit;
        self.rows.len() as u32
    }
}

impl<S: Site, K: Keeper, T: Joint> Desk<S, K, T> {
    /// The keeper, once no ticket is out.
    pub fn into_keeper(self) -> K
        requires idle { IsIdle self.plain }
        ensures kept { K.kept result ≡ self.kept }
        ensures next { K.next result ≡ self.plain.next_id }
        ensures faults { K.faults result ≡ self.faults }
    {
        let Desk {
            keeper,
            right: _,
            rows: _,
            parts: _,
            limit: _,
            rules: _,
        } = self;
        keeper
    }
}
