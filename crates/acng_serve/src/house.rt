//! What the sessions of a program share: the configuration, and the desk behind its lock.
ghost use Rattle.std.specs.Prelude.{◌≡◌};

use acng_conf::Conf;
use acng_desk::Desk;
use acng_fetch::Joined;
use acng_keeper::Keeper;
use acng_site::{OriginSlip, Site};
use std::marker::Model;
use std::sync::Mutex;

/// A configuration, and a desk that many sessions use, each for one call at a time. Contracts see the configuration: a lock
/// tells nothing of what is behind it.
#[derive(Drop)]
pub struct House<S: Site, K: Keeper, P: OriginSlip> {
    conf: Conf,
    desk: Mutex<Desk<S, K, Joined<S, K::Body, P>>>,
}

impl<S: Site, K: Keeper, P: OriginSlip> Model for House<S, K, P> {
    ghost use Rattle.acng_conf.specs.Settings.{Settings};

    ghost Value = { Settings };

    ghost view = { λ house. house.conf };
}

impl<S: Site, K: Keeper, P: OriginSlip> House<S, K, P> {
    pub fn new(conf: Conf, desk: Desk<S, K, Joined<S, K::Body, P>>) -> House<S, K, P>
        ensures { result ≡ conf }
    {
        House {
            conf,
            desk: Mutex::new(desk),
        }
    }

    pub fn conf(&self) -> &Conf
        ensures { result.now ≡ self.now }
    {
        &self.conf
    }

    /// The desk, which is held for one call at a time, and never while bytes move.
    pub fn desk(&self) -> &Mutex<Desk<S, K, Joined<S, K::Body, P>>> {
        &self.desk
    }
}
