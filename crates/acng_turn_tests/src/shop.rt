//! The house of a test, over an empty keeper and origins by rules, and the scenes that are played in it.
use crate::door::{Door, Stop};
use crate::mirror::{Mirror, start};
use crate::scene::{Scene, play};
use crate::visit::Visit;
use acng_base::NoMemory;
use acng_conf::{Conf, read_conf};
use acng_desk::Desk;
use acng_fetch::Joined;
use acng_keeper::{MemoryBody, MemoryKeeper};
use acng_serve::House;
use acng_site::{AttemptSlip, Right, Rule, Untold};
use std::alloc::Global;
use std::process::Abort;
use std::sync::{Arc, Wait};
use std::thread::Threads;
use std::time::Clock as TimeSource;

type ShopDesk = Desk<Untold, MemoryKeeper, Joined<Untold, MemoryBody, AttemptSlip>>;

/// A house, its origins, and a door at which these are held, or clients wait.
#[derive(Drop)]
pub struct Shop {
    house: House<Untold, MemoryKeeper, AttemptSlip>,
    pub mirror: Mirror,
    door: Arc<Door>,
}

/// Why a shop couldn't be made.
#[derive(Debug, Drop)]
pub struct Unmade;

impl From<NoMemory> for Unmade {
    fn from(_: NoMemory) -> Unmade {
        Unmade
    }
}

/// Where origins are held: before the read of this attempt once it has given so many bytes.
#[derive(Clone, Copy)]
pub struct Place {
    pub attempt: u64,
    pub given: usize,
}

// A desk over an empty keeper.
#[tactic(auto, using(crate::proofs::Empty::nothing_faithful))]
fn desk_of(alloc: Global, conf: &Conf, right: Right<Untold>) -> Result<ShopDesk, Unmade> {
    let keeper = MemoryKeeper::new(alloc, &[])?;
    match Desk::start(alloc, keeper, right, conf, 8) {
        Ok(desk) => Ok(desk),
        Err(_) => Err(Unmade),
    }
}

fn conf_of(alloc: Global, text: &[u8]) -> Result<Conf, Unmade> {
    match read_conf(alloc, text, &[]) {
        Ok(conf) => Ok(conf),
        Err(_) => Err(Unmade),
    }
}

fn door(alloc: Global) -> Result<Arc<Door>, Unmade> {
    match Arc::new(alloc, Door::shut()) {
        Ok(door) => Ok(door),
        Err(_) => Err(Unmade),
    }
}

fn again(door: &Arc<Door>) -> Result<Arc<Door>, Unmade> {
    match Arc::try_clone(door) {
        Ok(door) => Ok(door),
        Err(_) => Err(Unmade),
    }
}

/// A shop by a configuration, whose origins give so many bytes at a time.
pub fn open_shop(
    alloc: Global,
    conf: &[u8],
    rules: &[Rule],
    cut: usize,
    place: Place,
) -> Result<Shop, Unmade> {
    let conf = conf_of(alloc, conf)?;
    let door = door(alloc)?;
    let stop = Stop {
        door: again(&door)?,
        attempt: place.attempt,
        given: place.given as u64,
    };
    let (mirror, right) = start(alloc, rules, cut.max(1), stop)?;
    let desk = desk_of(alloc, &conf, right)?;
    Ok(Shop {
        house: House::new(conf, desk),
        mirror,
        door,
    })
}

impl Shop {
    /// Serves one client, and says whether it went right. No origin is held.
    pub fn serve_one<R: Threads + Wait + TimeSource + Abort + Sync>(
        &self,
        rt: &R,
        alloc: Global,
        visit: Visit,
    ) -> bool {
        let visits = [visit];
        self.play(
            rt,
            alloc,
            Scene {
                first: &[],
                then: &visits,
                held: None,
                halted: None,
            },
        )
    }

    /// Serves the first clients until each has its front and the origin is held, and the others to the end meanwhile. Says
    /// whether all went right.
    pub fn serve_beside<'a, R: Threads + Wait + TimeSource + Abort + Sync>(
        &'a self,
        rt: &R,
        alloc: Global,
        first: &'a [Visit],
        then: &'a [Visit],
    ) -> bool {
        self.play(
            rt,
            alloc,
            Scene {
                first,
                then,
                held: Some(&*self.door),
                halted: None,
            },
        ) && !self.door.was_forced()
    }

    /// Serves the first clients until each has its front and takes no more, and the others to the end meanwhile. Says whether
    /// all went right.
    pub fn serve_halted<'a, R: Threads + Wait + TimeSource + Abort + Sync>(
        &'a self,
        rt: &R,
        alloc: Global,
        first: &'a [Visit],
        then: &'a [Visit],
    ) -> bool {
        self.play(
            rt,
            alloc,
            Scene {
                first,
                then,
                held: None,
                halted: Some(&*self.door),
            },
        ) && !self.door.was_forced()
    }

    fn play<R: Threads + Wait + TimeSource + Abort + Sync>(
        &self,
        rt: &R,
        alloc: Global,
        scene: Scene<'_>,
    ) -> bool {
        play::<R, Untold, MemoryKeeper, AttemptSlip, Mirror>(
            rt,
            alloc,
            &self.house,
            &self.mirror,
            scene,
        );
        went_right(scene.first) && went_right(scene.then)
    }
}

fn went_right(visits: &[Visit]) -> bool {
    for visit in visits {
        if !visit.went_right() {
            return false;
        }
    }
    true
}
