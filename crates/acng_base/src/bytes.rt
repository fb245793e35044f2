//! Searching and copying of bytes.
//!
//! An offset counts bytes from 0.
ghost use Rattle.std.specs.Prelude.{◌≡◌, ◌==◌, take, drop, length, min, position};

/// The offset of the first byte that is this one.
#[tactic(auto, using(crate::proofs::Searches::first_is))]
pub fn find_byte(text: &[u8], byte: u8) -> Option<usize>
    ensures { result ≡ position (λ b. b == byte) text.now }
{
    memchr::memchr(byte, text)
}

/// The first bytes of a piece, at most so many.
pub fn first_bytes(piece: &[u8], room: usize) -> &[u8]
    ensures { result.now ≡ take room piece.now }
{
    &piece[..room.min(piece.len())]
}

/// Copies as many bytes as are there and fit, and says how many. The rest of the room stays as it was.
pub fn copy_front(from: &[u8], to: &mut [u8]) -> usize
    ensures count { result ≡ min (length from.now) (length to.new) }
    ensures front { take result to.new ≡ take result from.now }
    ensures rest { drop result to.new ≡ drop result to.old }
{
    let count = from.len().min(to.len());
    to[..count].copy_from_slice(&from[..count]);
    count
}

/// The same, of at most so many bytes.
#[tactic(auto, using(crate::proofs::Searches::front_of_front))]
pub fn copy_at_most(from: &[u8], to: &mut [u8], most: usize) -> usize
    ensures count { result ≡ min (min (length from.now) most) (length to.new) }
    ensures front { take result to.new ≡ take result from.now }
{
    copy_front(first_bytes(from, most), to)
}
