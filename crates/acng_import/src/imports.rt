//! The import of all found files, in the finder's order.
ghost use Rattle.std.specs.Prelude.{◌≡◌, true, length};
ghost use Rattle.acng_base.specs.Causes.{Rose};
ghost use Rattle.acng_reach.specs.Caches.{indexes};
ghost use Rattle.acng_reach.specs.Desks.{cache_of};
ghost use Rattle.acng_import.specs.Ends.{has_fault, ends_in};
ghost use Rattle.acng_import.specs.Imports.{ImportsAs, MayStop};
ghost use Rattle.acng_import.specs.Steps.{OnlyEnters, anywhere, named_in};

use crate::ending::{FileEnds, Halt, Imported};
use crate::file::import_file;
use crate::finder::Finder;
use acng_base::Moment;
use acng_desk::{Desk, Joint};
use acng_keeper::{KeepFault, Keeper, SlipOf};
use acng_reach::Reach;
use acng_site::Site;
use std::alloc::Global;

/// Imports found files. The names are those of the indexes that are held as the call begins. Found files stay where they
/// are.
pub fn import<S: Site, K: Keeper, T: Joint, F: Finder>(
    alloc: Global,
    desk: &mut Desk<S, K, T>,
    finder: &mut F,
    now: Moment,
) -> Imported<SlipOf<K>>
    ensures imported { K.tells ≡ true → F.tells ≡ true → ImportsAs S.Site K.tells (indexes (cache_of K.tells desk.old)) now
        (F.bodies finder.old) (length (F.names finder.old)) desk.old (F.faults finder.old) desk.new (F.faults finder.new) result }
    ensures only { K.tells ≡ true →
        OnlyEnters (named_in (indexes (cache_of K.tells desk.old))) desk.old.plain desk.new.plain }
    ensures enters { OnlyEnters anywhere desk.old.plain desk.new.plain }
    ensures same_names { F.names finder.new ≡ F.names finder.old }

    // A slip, and the end of a file of which a read failed.
    ensures cause { MayStop desk.old.faults.may_fail result }
    ensures fault { has_fault (ends_in result) ≡ true → Rose (F.faults finder.old) (F.faults finder.new) }
{
    let mut ends = FileEnds::new(alloc);
    let reach = match Reach::of(alloc, desk, &[]) {
        Ok(reach) => reach,
        Err(KeepFault::Slip(slip)) => return Imported::Stopped { slip, ends },
        Err(KeepFault::NoMemory) => return Imported::NoMemory,
    };
    for i in 0..finder.count() {
        let end = match import_file(alloc, desk, finder, &reach, i, now) {
            Ok(end) => end,
            Err(Halt::Worn) => return Imported::Worn(ends),
            Err(Halt::Slip(slip)) => return Imported::Stopped { slip, ends },
            Err(Halt::NoMemory) => return Imported::NoMemory,
        };
        desk.keeps();
        let Ok(()) = ends.push(end) else {
            return Imported::NoMemory;
        };
    }
    Imported::Done(ends)
}
