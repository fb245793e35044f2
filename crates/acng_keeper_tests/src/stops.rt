//! What a stop leaves of a keeper over memory, and that keepers and bodies go to other threads.
use crate::steps::{created, lists, put_head, seal};
use acng_keeper::{BodyId, Keeper, MemoryKeeper};
use std::alloc::Global;
use std::process::Abort;
use std::test::Fail;

// The first call after the stop would fail, but a plan of failing calls ends with the keeper.
#[test]
fn a_stop_drops_unsealed_bodies_alone(rt: HostRuntime) -> Result<(), Fail> {
    let mut keeper = MemoryKeeper::new(rt.alloc(), &[6])?;
    can_be_sent(&keeper);
    fill(&rt, rt.alloc(), &mut keeper);
    let mut keeper = keeper.after_stop();
    has_the_sealed_one(&rt, rt.alloc(), &mut keeper);
    Ok(())
}

// A sealed body 0 with its head, and an unsealed body 1.
fn fill<K: Keeper<Body: Send>>(rt: &impl Abort, alloc: Global, keeper: &mut K) {
    let body = created(rt, alloc, keeper);
    seal(rt, alloc, keeper, body);
    put_head(rt, alloc, keeper, b"head");
    let body = created(rt, alloc, keeper);
    can_be_sent(&body);
    lists(rt, alloc, keeper, 1, 2);
}

fn has_the_sealed_one<K: Keeper>(rt: &impl Abort, alloc: Global, keeper: &mut K) {
    assert_eq!(rt; keeper.next_id(), 2);
    lists(rt, alloc, keeper, 1, 1);
    match keeper.list_bodies(alloc) {
        Ok(bodies) => {
            assert_eq!(rt; bodies.len(), 1);
            assert_eq!(rt; bodies.get(0), BodyId(0));
        }
        Err(_) => panic!(rt; "bodies"),
    }
}

/// That a value goes to another thread: a keeper stands behind one lock and a body behind another.
pub fn can_be_sent<T: Send>(_: &T) {}
