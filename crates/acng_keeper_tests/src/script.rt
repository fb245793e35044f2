//! One script over any keeper, one call of which fails: the slip names that call, what the refusal left is listed, and
//! the script goes on.
//!
//! The calls 0 to 13 are create, two appends, a read, a seal, a fetch, a read, a head put twice, both lists, both
//! removals, and a read of the body that is gone.
ghost use Rattle.std.specs.Prelude.{◌≡◌, true, OnOk};
ghost use Rattle.std.specs.FinMap as map;

use crate::failing::Failing;
use crate::steps::lists;
use acng_keeper::{BodyFile, BodyId, KeepFault, Keeper, MemoryKeeper, SlipOf};
use std::alloc::Global;
use std::process::Abort;
use std::test::Fail;

const CALLS: u64 = 14;

#[test]
fn each_call_fails_in_turn_and_the_script_goes_on(rt: HostRuntime) -> Result<(), Fail> {
    let alloc = rt.alloc();
    for at in 0..CALLS {
        let mut keeper = MemoryKeeper::new(alloc, &[at])?;
        let mut failing = Failing { at, count: 0 };
        run(&rt, alloc, &mut keeper, &mut failing);
        assert_eq!(rt; failing.count, 1, "call {at}");
    }
    Ok(())
}

/// Runs the script over an empty keeper.
pub fn run<K: Keeper>(rt: &impl Abort, alloc: Global, keeper: &mut K, failing: &mut Failing) {
    let body = filled(rt, alloc, keeper, failing);
    let id = body.id();
    let mut body = sealed_and_fetched(rt, alloc, keeper, body, failing);
    read(rt, &mut body, failing);
    put_head(rt, alloc, keeper, id, 0, failing);
    put_head(rt, alloc, keeper, id, 1, failing);
    list(rt, alloc, keeper, failing);
    remove(rt, alloc, keeper, id, failing);
    read(rt, &mut body, failing);
    lists(rt, alloc, keeper, 0, 0);
}

// A body of six bytes.
fn filled<K: Keeper>(
    rt: &impl Abort,
    alloc: Global,
    keeper: &mut K,
    failing: &mut Failing,
) -> K::Body {
    let mut body = created(rt, alloc, keeper, failing);
    append(rt, alloc, &mut body, b"abc", failing);
    append(rt, alloc, &mut body, b"def", failing);
    read(rt, &mut body, failing);
    body
}

fn created<K: Keeper>(
    rt: &impl Abort,
    alloc: Global,
    keeper: &mut K,
    failing: &mut Failing,
) -> K::Body
    ensures { (K.Body.handle result).writable ≡ true }
{
    assert!(rt; keeper.next_id() < 1 << 62);
    match keeper.create(alloc) {
        Ok((_, body)) => body,
        Err(fault) => {
            failing.note(rt, fault);
            lists(rt, alloc, keeper, 0, 0);
            assert!(rt; keeper.next_id() < 1 << 62);
            match keeper.create(alloc) {
                Ok((_, body)) => body,
                Err(_) => panic!(rt; "create again"),
            }
        }
    }
}

fn append<B: BodyFile>(
    rt: &impl Abort,
    alloc: Global,
    body: &mut B,
    piece: &[u8],
    failing: &mut Failing,
)
    requires { (B.handle body.old).writable ≡ true }
    ensures { (B.handle body.new).writable ≡ true }
{
    let len = body.len();
    if let Err(fault) = body.append(alloc, piece) {
        failing.note(rt, fault);
        assert_eq!(rt; body.len(), len);
        assert!(rt; body.append(alloc, piece).is_ok(), "append again");
    }
}

fn read<B: BodyFile>(rt: &impl Abort, body: &mut B, failing: &mut Failing) {
    let mut buf = [0u8; 8];
    let count = match body.read_at(1, &mut buf) {
        Ok(count) => count,
        Err(slip) => {
            failing.note(rt, KeepFault::Slip(slip));
            match body.read_at(1, &mut buf) {
                Ok(count) => count,
                Err(_) => panic!(rt; "read again"),
            }
        }
    };
    assert_eq!(rt; &buf[..count], b"bcdef".as_slice());
}

// Seals the body, and fetches it in place of the handle. After a refusal it is there, unsealed.
fn sealed_and_fetched<K: Keeper>(
    rt: &impl Abort,
    alloc: Global,
    keeper: &mut K,
    body: K::Body,
    failing: &mut Failing,
) -> K::Body {
    let id = body.id();
    match seal(rt, alloc, keeper, id, body) {
        Ok(_) => fetch(rt, alloc, keeper, id, failing),
        Err((fault, body)) => {
            failing.note(rt, fault);
            lists(rt, alloc, keeper, 0, 1);
            match seal(rt, alloc, keeper, id, body) {
                Ok(_) => fetch(rt, alloc, keeper, id, failing),
                Err(_) => panic!(rt; "seal again"),
            }
        }
    }
}

fn seal<K: Keeper>(
    rt: &impl Abort,
    alloc: Global,
    keeper: &mut K,
    id: BodyId,
    body: K::Body,
) -> Result<K::Body, (KeepFault<SlipOf<K>>, K::Body)>
    ensures { OnOk result (K.tells ≡ true → map.contains_key (K.kept keeper.new).bodies id.0 ≡ true) }
{
    assert!(rt; body.id().0 == id.0);
    assert!(rt; id.0 < keeper.next_id());
    match keeper.seal(alloc, id, body) {
        Ok(body) => Ok(body),
        Err(refusal) => Err(refusal),
    }
}

fn fetch<K: Keeper>(
    rt: &impl Abort,
    alloc: Global,
    keeper: &mut K,
    id: BodyId,
    failing: &mut Failing,
) -> K::Body
    requires { K.tells ≡ true → map.contains_key (K.kept keeper.old).bodies id.0 ≡ true }
{
    match keeper.fetch_body(alloc, id) {
        Ok(body) => body,
        Err(fault) => {
            failing.note(rt, fault);
            match keeper.fetch_body(alloc, id) {
                Ok(body) => body,
                Err(_) => panic!(rt; "fetch again"),
            }
        }
    }
}

// The head replaces the one before it, and a refusal leaves that one.
fn put_head<K: Keeper>(
    rt: &impl Abort,
    alloc: Global,
    keeper: &mut K,
    id: BodyId,
    heads: usize,
    failing: &mut Failing,
) {
    assert!(rt; id.0 < keeper.next_id());
    if let Err(fault) = keeper.put_head(alloc, id, b"head".as_slice()) {
        failing.note(rt, fault);
        lists(rt, alloc, keeper, heads, 1);
        assert!(rt; id.0 < keeper.next_id());
        assert!(rt;
            keeper.put_head(alloc, id, b"head".as_slice()).is_ok(),
            "put again"
        );
    }
}

fn list<K: Keeper>(rt: &impl Abort, alloc: Global, keeper: &mut K, failing: &mut Failing) {
    match keeper.list_heads(alloc) {
        Ok(heads) => assert_eq!(rt; heads.len(), 1),
        Err(fault) => failing.note(rt, fault),
    }
    match keeper.list_bodies(alloc) {
        Ok(bodies) => assert_eq!(rt; bodies.len(), 1),
        Err(fault) => failing.note(rt, fault),
    }
}

fn remove<K: Keeper>(
    rt: &impl Abort,
    alloc: Global,
    keeper: &mut K,
    id: BodyId,
    failing: &mut Failing,
) {
    if let Err(fault) = keeper.remove_head(alloc, id) {
        failing.note(rt, fault);
        lists(rt, alloc, keeper, 1, 1);
        assert!(rt; keeper.remove_head(alloc, id).is_ok(), "remove again");
    }
    if let Err(fault) = keeper.remove_body(alloc, id) {
        failing.note(rt, fault);
        lists(rt, alloc, keeper, 0, 1);
        assert!(rt; keeper.remove_body(alloc, id).is_ok(), "remove again");
    }
}
