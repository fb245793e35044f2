//! A SHA-256 hash (FIPS 180-4), whole or of bytes that come in pieces.
ghost use Rattle.std.specs.Prelude.{◌≡◌, ◌≤◌, ◌+◌, ◌^◌, ◌++◌, List, ℕ, [], length};
ghost use Rattle.sha2.specs.Sha256.{sha256};
ghost use Rattle.acng_base.specs.Hashes.{HasTaken};

use sha2::{Digest, Sha256};

/// The 32 bytes of a SHA-256 hash.
#[derive(Clone, Copy, Debug, PartialEq, Eq)]
pub struct Hash(pub [u8; 32]);

/// The hash of bytes that come in pieces, at most 2^41 of them. It takes no memory.
#[derive(Drop)]
pub struct HashSoFar {
    hasher: Sha256,
}

impl HashSoFar {
    /// Of no byte yet.
    pub fn new() -> HashSoFar
        ensures { HasTaken result [] }
    {
        HashSoFar {
            hasher: Sha256::new(),
        }
    }

    /// Takes the next bytes.
    pub fn add(&mut self, piece: &[u8])
        requires { (taken : List ℕ) × HasTaken self.old taken × (length taken + length piece.now ≤ 2 ^ 41) }
        ensures { (taken : List ℕ) → HasTaken self.old taken → HasTaken self.new (taken ++ piece.now) }
    {
        self.hasher.update(piece);
    }

    /// The hash of the bytes so far; more may follow.
    pub fn so_far(&self) -> Hash
        ensures { (taken : List ℕ) → HasTaken self.now taken → result.0 ≡ sha256 taken }
    {
        let copy = self.hasher.clone().unwrap();
        Hash(copy.finalize())
    }

    /// The hash of all bytes.
    pub fn end(self) -> Hash
        ensures { (taken : List ℕ) → HasTaken self taken → result.0 ≡ sha256 taken }
    {
        Hash(self.hasher.finalize())
    }
}
