//! The held whole bodies, as reach reads them.
ghost use Rattle.std.specs.Prelude.{◌≡◌, Bool, true, List, ℕ, IfOk, OnOk, IfErr};
ghost use Rattle.std.specs.Option.{option_copied};
ghost use Rattle.acng_reach.specs.Caches.{Cache, is_held};
ghost use Rattle.acng_reach.specs.Sets.{Rises};
ghost use Rattle.acng_reach.specs.Bodies.{Rest, first_above, last_of, MaySlip, ArePaths};

use acng_base::{CachePath, NoMemory};
use acng_keeper::KeepFault;
use std::alloc::Global;

/// The held whole bodies by path.
pub trait Bodies: Drop {
    type Slip: Drop;

    /// Whether they tell their texts. Which paths are held is known anyway.
    ghost tells: { Bool };

    ghost cache: { Self → Cache };

    /// What reading leaves as it is, and whether a call may slip.
    ghost rest: { Self → Rest };

    /// The least held path, or the least above another.
    fn next_path(&self, after: Option<&CachePath>) -> Option<&CachePath>
        ensures next { option_copied result ≡ first_above (option_copied after.entry) (cache self.now).paths }
        ensures rises { Rises (cache self.now).paths };

    fn holds(&self, path: &CachePath) -> bool
        ensures { result ≡ is_held (cache self.now) path.now };

    /// Reads a whole body into a buffer, in the place of what that had.
    fn read(
        &mut self,
        alloc: Global,
        path: &CachePath,
        text: &mut Vec<u8>,
    ) -> Result<(), KeepFault<Self::Slip>>
        requires { is_held (cache self.old) path.now ≡ true }
        ensures text { OnOk result (tells ≡ true → text.new.items ≡ (cache self.old).text path.now) }

        // A refusal, and what any answer leaves.
        ensures cause { IfErr result (MaySlip (rest self.old).may_slip) }
        ensures same { cache self.new ≡ cache self.old }
        ensures rests { rest self.new ≡ rest self.old };
}

/// Copies of all held paths, in byte order.
pub fn held_paths<B: Bodies>(alloc: Global, bodies: &B) -> Result<Vec<CachePath>, NoMemory>
    ensures paths { IfOk result (λ paths. paths.items ≡ (B.cache bodies.now).paths) }
    ensures are_paths { OnOk result (ArePaths (B.cache bodies.now).paths) }
    ensures rises { OnOk result (Rises (B.cache bodies.now).paths) }
{
    let mut paths = Vec::new(alloc);
    while let Some(path) = bodies.next_path(last(&paths)) {
        let _is_path = path.as_bytes();
        paths.push(path.again(alloc)?)?;
    }
    Ok(paths)
}

fn last(paths: &[CachePath]) -> Option<&CachePath>
    ensures { option_copied result ≡ last_of paths.now }
{
    paths.last()
}
