//! The lines of the table that a path alone decides.
ghost use Rattle.std.specs.Prelude.{◌≡◌};
ghost use Rattle.acng_class.specs.Classes.{has_solid_ending, is_by_hash, is_difference, is_index};

use crate::name::{ends_solid, has_index_front, is_hash_name, is_hex, is_index_name};
use crate::segments::has_installer;
use acng_base::{base_name, cut_last, last_segment, unpacked};

/// Whether the name is the hash of the file's bytes.
#[tactic(auto, unfolding(crate::specs::Classes::is_by_hash))]
pub(crate) fn is_by_hash(path: &[u8]) -> bool
    ensures { result ≡ is_by_hash path.now }
{
    let (folder, file) = cut_last(path);
    let (above, hash) = cut_last(folder);
    last_segment(above) == b"by-hash".as_slice() && is_hash_name(hash) && is_hex(file)
}

/// Whether it's a difference between two states of an index.
#[tactic(auto, unfolding(crate::specs::Classes::is_difference))]
pub(crate) fn is_difference(path: &[u8]) -> bool
    ensures { result ≡ is_difference path.now }
{
    let (folder, file) = cut_last(path);
    last_segment(folder).ends_with(b".diff") && unpacked(file) != b"Index".as_slice()
}

/// Whether it's a file that a repository writes anew.
#[tactic(auto, unfolding(crate::specs::Classes::is_index))]
pub(crate) fn is_index(path: &[u8]) -> bool
    ensures { result ≡ is_index path.now }
{
    let base = base_name(path);
    is_index_name(base) || has_index_front(base) || has_installer(path)
}

/// Whether the ending is of a file that never changes.
#[tactic(auto, unfolding(crate::specs::Classes::has_solid_ending))]
pub(crate) fn has_solid_ending(path: &[u8]) -> bool
    ensures { result ≡ has_solid_ending path.now }
{
    ends_solid(last_segment(path))
}
