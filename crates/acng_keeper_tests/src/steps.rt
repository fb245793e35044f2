//! Single calls of any keeper, none of which fails.
ghost use Rattle.std.specs.Prelude.{◌≡◌, true};

use acng_keeper::{BodyFile, BodyId, Keeper};
use std::alloc::Global;
use std::process::Abort;

/// A new body.
pub fn created<K: Keeper>(rt: &impl Abort, alloc: Global, keeper: &mut K) -> K::Body
    ensures { (K.Body.handle result).writable ≡ true }
{
    assert!(rt; keeper.next_id() < 1 << 62);
    match keeper.create(alloc) {
        Ok((_, body)) => body,
        Err(_) => panic!(rt; "create"),
    }
}

pub fn append<B: BodyFile>(rt: &impl Abort, alloc: Global, body: &mut B, piece: &[u8])
    requires { (B.handle body.old).writable ≡ true }
    ensures { (B.handle body.new).writable ≡ true }
{
    assert!(rt; body.append(alloc, piece).is_ok());
}

/// Its bytes are made durable.
pub fn flush<B: BodyFile>(rt: &impl Abort, body: &mut B)
    requires { (B.handle body.old).writable ≡ true }
    ensures { (B.handle body.new).writable ≡ true }
{
    assert!(rt; body.flush().is_ok());
}

pub fn seal<K: Keeper>(rt: &impl Abort, alloc: Global, keeper: &mut K, body: K::Body) {
    let id = body.id();
    assert!(rt; id.0 < keeper.next_id());
    assert!(rt; keeper.seal(alloc, id, body).is_ok());
}

/// The head of body 0.
pub fn put_head<K: Keeper>(rt: &impl Abort, alloc: Global, keeper: &mut K, bytes: &[u8]) {
    assert!(rt; 0 < keeper.next_id());
    assert!(rt; keeper.put_head(alloc, BodyId(0), bytes).is_ok());
}

/// The keeper lists so many heads and bodies.
pub fn lists<K: Keeper>(
    rt: &impl Abort,
    alloc: Global,
    keeper: &mut K,
    heads: usize,
    bodies: usize,
) {
    match keeper.list_heads(alloc) {
        Ok(list) => assert_eq!(rt; list.len(), heads),
        Err(_) => panic!(rt; "heads"),
    }
    match keeper.list_bodies(alloc) {
        Ok(list) => assert_eq!(rt; list.len(), bodies),
        Err(_) => panic!(rt; "bodies"),
    }
}
