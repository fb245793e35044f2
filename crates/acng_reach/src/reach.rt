//! What the held indexes reach and name, and which folders are problems, in one object.
ghost use Rattle.std.specs.Prelude.{◌≡◌, true, List, ℕ, IfOk, IfErr};
ghost use Rattle.acng_reach.specs.Bodies.{ArePaths, MaySlip};
ghost use Rattle.acng_reach.specs.Desks.{held_paths, cache_of, rest_of};
ghost use Rattle.acng_reach.specs.Found.{IsFound, IsReach};
ghost use Rattle.acng_reach.specs.Paths.{IsPath};
ghost use Rattle.acng_reach.specs.Reaches.{is_named};
ghost use Rattle.acng_reach.specs.Sets.{among, Rises};

use crate::bodies::{Bodies, held_paths};
use crate::find::find_indexes;
use crate::index::Index;
use crate::named::named_paths;
use crate::problems::problem_folders;
use crate::reached::reached_paths;
use crate::set::TextSet;
use acng_base::{CachePath, Hash, NoMemory, Texts};
use acng_desk::{Desk, Joint};
use acng_keeper::{KeepFault, Keeper, SlipOf};
use acng_site::Site;
use std::alloc::Global;
use std::marker::Model;

/// What the held indexes reach and name at one moment. It holds their lists, and no text of a body.
#[derive(Drop)]
pub struct Reach {
    held: Vec<CachePath>,
    indexes: Vec<Index>,
    paths: TextSet,
    problems: Texts,
}

impl Model for Reach {
    ghost use Rattle.acng_reach.specs.Found.{Found};

    ghost Value = { Found };

    ghost view = { λ r. record {
      held = r.held.items;
      indexes = r.indexes.items;
      paths = r.paths;
      problems = r.problems;
    } };
}

impl Reach {
    /// What the whole bodies of a desk reach and name, and the folders that are problems, those of failed paths among them.
    pub fn of<S: Site, K: Keeper, T: Joint>(
        alloc: Global,
        desk: &mut Desk<S, K, T>,
        failed: &[CachePath],
    ) -> Result<Reach, KeepFault<SlipOf<K>>>
        ensures reach { IfOk result (λ r. K.tells ≡ true → IsReach (cache_of K.tells desk.old) failed.now r) }
        ensures held { IfOk result (λ r. r.held ≡ held_paths desk.old.plain.rows) }
        ensures in_order { IfOk result (λ r. Rises r.held) }

        // A refusal, and what any answer leaves.
        ensures cause { IfErr result (MaySlip desk.old.faults.may_fail) }
        ensures rests { rest_of K.tells desk.new ≡ rest_of K.tells desk.old }
    {
        Reach::over(alloc, desk, failed)
    }

    /// Reads each current index, and each list of packages that one names, once.
    pub fn over<B: Bodies>(
        alloc: Global,
        bodies: &mut B,
        failed: &[CachePath],
    ) -> Result<Reach, KeepFault<B::Slip>>
        ensures reach { IfOk result (λ r. B.tells ≡ true → IsReach (B.cache bodies.old) failed.now r) }
        ensures held { IfOk result (λ r. r.held ≡ (B.cache bodies.old).paths) }
        ensures in_order { IfOk result (λ r. Rises r.held) }

        // A refusal, and what any answer leaves.
        ensures cause { IfErr result (MaySlip (B.rest bodies.old).may_slip) }
        ensures same { B.cache bodies.new ≡ B.cache bodies.old }
        ensures rests { B.rest bodies.new ≡ B.rest bodies.old }
    {
        let held = match held_paths(alloc, bodies) {
            Ok(held) => held,
            Err(NoMemory) => return Err(KeepFault::NoMemory),
        };
        let indexes = match find_indexes(alloc, bodies, &held) {
            Ok(indexes) => indexes,
            Err(fault) => return Err(fault),
        };
        match Reach::by_indexes(alloc, bodies, held, indexes, failed) {
            Ok(reach) => Ok(reach),
            Err(NoMemory) => Err(KeepFault::NoMemory),
        }
    }

    fn by_indexes<B: Bodies>(
        alloc: Global,
        bodies: &B,
        held: Vec<CachePath>,
        indexes: Vec<Index>,
        failed: &[CachePath],
    ) -> Result<Reach, NoMemory>
        requires held { held.items ≡ (B.cache bodies.now).paths }
        requires are_paths { ArePaths (B.cache bodies.now).paths }
        ensures { IfOk result (λ r. IsFound held.items indexes.items failed.now r) }
    {
        let paths = reached_paths(alloc, &held, &indexes)?;
        let folders = problem_folders(alloc, bodies, &held, &indexes, failed)?;
        let problems = folders.into_texts(alloc)?;
        Ok(Reach {
            held,
            indexes,
            paths,
            problems,
        })
    }

    /// All held paths, in byte order.
    pub fn held(&self) -> &[CachePath]
        ensures { result.now ≡ self.now.held }
    {
        self.held.as_slice()
    }

    /// Whether the path is reached.
    pub fn reached(&self, path: &CachePath) -> bool
        ensures { result ≡ among path.now self.now.paths }
    {
        self.paths.has(path.as_bytes())
    }

    /// The folders that are problems, each once, in byte order; the top one is the empty text.
    pub fn problems(&self) -> &Texts
        ensures { result.now ≡ self.now.problems }
    {
        &self.problems
    }

    /// The paths that the indexes name for a file with this hash and size, in byte order.
    pub fn named(&self, alloc: Global, hash: &Hash, size: u64) -> Result<Texts, NoMemory>
        ensures named { IfOk result (λ paths. (q : List ℕ) → IsPath q →
            among q paths ≡ is_named self.now.indexes hash.now.0 size q) }
        ensures are_paths { IfOk result (λ paths. ArePaths paths) }
        ensures rises { IfOk result (λ paths. Rises paths) }
    {
        let paths = named_paths(alloc, self.indexes.as_slice(), hash, size)?;
        paths.into_texts(alloc)
    }
}
