//! Putting the head of a whole body.
ghost use Rattle.std.specs.Prelude.{◌≡◌, ◌<◌, true, OnOk, IfErr};
ghost use Rattle.acng_head.specs.Records.{IsBounded, IsHead, record_text};
ghost use Rattle.acng_keeper.specs.Kept.{Comes, MayCome};
ghost use Rattle.acng_keeper.specs.Slips.{SlipRose, Later};
ghost use Rattle.acng_keeper.specs.declared.effect.Effect.TheVariants.{HeadPut};
ghost use Rattle.acng_rows.specs.Rows.{StampFits, head_of, stamped};

use crate::row::Whole;
use crate::stamp::Stamp;
use acng_base::CachePath;
use acng_head::{Head, write_head};
use acng_keeper::{BodyId, KeepFault, Keeper, SlipOf};
use std::alloc::Global;

// Puts the record of a head.
fn put_record<K: Keeper>(
    keeper: &mut K,
    alloc: Global,
    id: u64,
    head: &Head,
) -> Result<(), KeepFault<SlipOf<K>>>
    requires head { IsBounded head.now }
    requires below { id < K.next keeper.old }
    ensures comes { OnOk result (K.tells ≡ true →
        Comes (HeadPut id (record_text head.now)) (K.kept keeper.old) (K.kept keeper.new)) }
    ensures cause { IfErr result (λ e. SlipRose e (K.faults keeper.old) (K.faults keeper.new)) }
    ensures either { K.tells ≡ true →
        MayCome (HeadPut id (record_text head.now)) (K.kept keeper.old) (K.kept keeper.new) }
    ensures same_next { K.next keeper.new ≡ K.next keeper.old }
    ensures later { Later (K.faults keeper.old) (K.faults keeper.new) }
{
    let mut bytes = [0; 2048];
    let len = write_head(head, &mut bytes);
    keeper.put_head(alloc, BodyId(id), &bytes[..len])
}

/// Puts the head of a whole body at a path. The memory is that of the path.
pub fn put_whole<K: Keeper>(
    keeper: &mut K,
    alloc: Global,
    path: &CachePath,
    whole: &Whole,
) -> Result<(), KeepFault<SlipOf<K>>>
    requires head { IsHead (head_of path.now whole.now) }
    requires below { whole.now.id < K.next keeper.old }
    ensures comes { OnOk result (K.tells ≡ true →
        Comes (HeadPut whole.now.id (record_text (head_of path.now whole.now))) (K.kept keeper.old) (K.kept keeper.new)) }

    // A refusal, and what it leaves.
    ensures cause { IfErr result (λ e. SlipRose e (K.faults keeper.old) (K.faults keeper.new)) }
    ensures either { K.tells ≡ true →
        MayCome (HeadPut whole.now.id (record_text (head_of path.now whole.now))) (K.kept keeper.old) (K.kept keeper.new) }
    ensures same_next { K.next keeper.new ≡ K.next keeper.old }
    ensures later { Later (K.faults keeper.old) (K.faults keeper.new) }
{
    let Ok(own) = path.again(alloc) else {
        return Err(KeepFault::NoMemory);
    };
    put_record(keeper, alloc, whole.id, &whole.head(own))
}

/// Puts the head of a whole body at a path, with another moment. The memory is that of the path.
pub fn put_stamped<K: Keeper>(
    keeper: &mut K,
    alloc: Global,
    path: &CachePath,
    whole: &Whole,
    stamp: Stamp,
) -> Result<(), KeepFault<SlipOf<K>>>
    requires head { IsHead (head_of path.now whole.now) }
    requires below { whole.now.id < K.next keeper.old }
    ensures comes { OnOk result (K.tells ≡ true →
        Comes (HeadPut whole.now.id (record_text (head_of path.now (stamped stamp whole.now)))) (K.kept keeper.old) (K.kept keeper.new)) }

    // What the type of the moment says: with the condition above, what is put is a record.
    ensures fits { StampFits stamp }

    // A refusal, and what it leaves.
    ensures cause { IfErr result (λ e. SlipRose e (K.faults keeper.old) (K.faults keeper.new)) }
    ensures either { K.tells ≡ true →
        MayCome (HeadPut whole.now.id (record_text (head_of path.now (stamped stamp whole.now)))) (K.kept keeper.old)
        (K.kept keeper.new) }
    ensures same_next { K.next keeper.new ≡ K.next keeper.old }
    ensures later { Later (K.faults keeper.old) (K.faults keeper.new) }
{
    let Ok(own) = path.again(alloc) else {
        return Err(KeepFault::NoMemory);
    };
    put_record(keeper, alloc, whole.id, &whole.stamped_head(own, stamp))
}
