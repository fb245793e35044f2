//! A body's flush over memory: what it leaves, and that a body whose flush was refused is never sealed.
use crate::failing::number_of;
use crate::steps::{append, created, flush, lists, seal};
use acng_keeper::{BodyFile, Keeper, KeeperSlip, MemoryKeeper};
use std::alloc::Global;
use std::process::Abort;
use std::test::Fail;

#[test]
fn a_flushed_body_takes_more_and_is_sealed(rt: HostRuntime) -> Result<(), Fail> {
    let mut keeper = MemoryKeeper::new(rt.alloc(), &[])?;
    is_flushed(&rt, rt.alloc(), &mut keeper);
    Ok(())
}

fn is_flushed<K: Keeper>(rt: &impl Abort, alloc: Global, keeper: &mut K) {
    let mut body = created(rt, alloc, keeper);
    append(rt, alloc, &mut body, b"abc");
    flush(rt, &mut body);
    append(rt, alloc, &mut body, b"def");
    flush(rt, &mut body);
    assert_eq!(rt; body.len(), 6);
    seal(rt, alloc, keeper, body);
}

// Call 2 is the flush. Each later flush and seal names it.
#[test]
fn a_body_whose_flush_was_refused_is_never_sealed(rt: HostRuntime) -> Result<(), Fail> {
    let mut keeper = MemoryKeeper::new(rt.alloc(), &[2])?;
    is_refused(&rt, rt.alloc(), &mut keeper);
    Ok(())
}

fn is_refused<K: Keeper>(rt: &impl Abort, alloc: Global, keeper: &mut K) {
    let mut body = created(rt, alloc, keeper);
    append(rt, alloc, &mut body, b"abc");
    for _ in 0..2 {
        flush_fails(rt, &mut body);
    }
    for _ in 0..2 {
        body = seal_fails(rt, alloc, keeper, body);
    }
    lists(rt, alloc, keeper, 0, 1);
}

fn flush_fails<B: BodyFile>(rt: &impl Abort, body: &mut B) {
    match body.flush() {
        Ok(()) => panic!(rt; "the flush fails"),
        Err(slip) => assert_eq!(rt; slip.call(), 2),
    }
    assert_eq!(rt; body.len(), 3);
}

// The body comes back.
fn seal_fails<K: Keeper>(rt: &impl Abort, alloc: Global, keeper: &mut K, body: K::Body) -> K::Body {
    let id = body.id();
    assert!(rt; id.0 < keeper.next_id());
    match keeper.seal(alloc, id, body) {
        Ok(_) => panic!(rt; "the seal fails"),
        Err((fault, back)) => {
            assert_eq!(rt; number_of(rt, fault), 2);
            back
        }
    }
}
