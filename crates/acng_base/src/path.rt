//! The path of a file in the cache.
//!
//! A `CachePath` has 1 to 1,024 bytes from 0x21 to 0x7E, cut by slashes into segments of which none is empty, `.` or
//! `..`. So a path is one name of one file, and never leads out of its folder.
ghost use Rattle.std.specs.Prelude.{◌≡◌, ◌≢◌, ◌+◌, List, ℕ, None, Some, not, IfOk, OnOk, IfErr, IsErrOf};
ghost use Rattle.std.specs.List.{position};
ghost use Rattle.std.specs.Str.{bytes_eq};
ghost use Rattle.std.specs.Ordering.{nat_cmp, as_partial_cmp};
ghost use Rattle.std.specs.Cmp.Lexicographic.{slice_cmp};
ghost use Rattle.std.specs.Cmp.{partial_order_from_own_ties};
ghost use Rattle.std.specs.Cmp.Rules.{comparing};
ghost use Rattle.std.proofs.Common.{rules};
ghost use Rattle.acng_base.specs.Paths.{path_refusal, refusal_of, is_path_byte, is_slash, is_bad_segment, first_bad, segments};

use crate::bytes::find_byte;
use crate::fault::NoMemory;
use std::alloc::Global;
use std::cmp::Ordering;
use std::marker::Model;

/// Why a text is no path, in the order of the tests.
#[derive(Clone, Copy, Debug, PartialEq, Eq)]
pub enum PathFault {
    /// Memory was refused.
    NoMemory,
    /// There is no byte.
    Empty,
    /// There are more than 1,024 bytes.
    TooLong { len: u64 },
    /// The first byte outside 0x21 to 0x7E.
    BadByte { at: u64 },
    /// The first byte of the first segment that is empty, `.` or `..`.
    BadSegment { at: u64 },
}

/// The path of a file in the cache. Contracts see it as its bytes.
#[derive(Debug, Drop)]
pub struct CachePath {
    bytes: Vec<u8>,
}

impl Model for CachePath {
    ghost Value = { List ℕ };

    ghost view = { λ p. p.bytes.items };

    ghost invariant = { λ p. path_refusal p.bytes.items ≡ None };
}

impl CachePath {
    /// The most bytes of a path.
    pub const MOST: usize = 1024;

    /// Reads a path. The first refusal that fits answers, and `NoMemory` only where the text is a path.
    pub fn read(alloc: Global, text: &[u8]) -> Result<CachePath, PathFault>
        ensures path { IfOk result (λ path. path ≡ text.now) }
        ensures accepted { OnOk result (path_refusal text.now ≡ None) }
        ensures refused { IfErr result (λ fault. path_refusal text.now ≡ refusal_of fault) }
    {
        if let Some(fault) = CachePath::refusal(text) {
            return Err(fault);
        }
        match Vec::from_slice(alloc, text) {
            Ok(bytes) => Ok(CachePath { bytes }),
            Err(_) => Err(PathFault::NoMemory),
        }
    }

    /// The path that these bytes are, in memory that the caller has filled. Takes no memory.
    pub fn of(bytes: Vec<u8>) -> Result<CachePath, PathFault>
        ensures path { IfOk result (λ path. path ≡ bytes.items) }
        ensures accepted { OnOk result (path_refusal bytes.items ≡ None) }
        ensures refused { IfErr result (λ fault. path_refusal bytes.items ≡ Some fault) }
    {
        match CachePath::refusal(bytes.as_slice()) {
            Some(fault) => Err(fault),
            None => Ok(CachePath { bytes }),
        }
    }

    /// Why a text is no path; None where it is one. Never `NoMemory`.
    pub fn refusal(text: &[u8]) -> Option<PathFault>
        ensures { result ≡ path_refusal text.now }
    {
        if text.is_empty() {
            return Some(PathFault::Empty);
        }
        if text.len() > CachePath::MOST {
            return Some(PathFault::TooLong {
                len: text.len() as u64,
            });
        }
        if let Some(at) = bad_byte(text) {
            return Some(PathFault::BadByte { at: at as u64 });
        }
        if let Some(at) = bad_segment(text) {
            return Some(PathFault::BadSegment { at: at as u64 });
        }
        None
    }

    /// Another copy of the path.
    pub fn again(&self, alloc: Global) -> Result<CachePath, NoMemory>
        ensures { IfOk result (λ path. path ≡ self.now) }
    {
        Ok(CachePath {
            bytes: Vec::from_slice(alloc, self.bytes.as_slice())?,
        })
    }

    pub fn as_bytes(&self) -> &[u8]
        ensures bytes { result.now ≡ self.now }
        ensures path { path_refusal self.now ≡ None }
    {
        self.bytes.as_slice()
    }
}

// The place of the first byte that no path has.
fn bad_byte(text: &[u8]) -> Option<usize>
    ensures { result ≡ position (λ b. not (is_path_byte b)) text.now }
{
    text.iter().position(|b| !(0x21 <= *b && *b <= 0x7E))
}

// The first byte of the first bad segment.
fn bad_segment(text: &[u8]) -> Option<usize>
    ensures { result ≡ first_bad 0 (segments text.now) }
{
    let mut start = 0;
    while let Some(len) = find_byte(&text[start..], b'/') {
        if names_nothing(&text[start..start + len]) {
            return Some(start);
        }
        start += len + 1;
    }
    if names_nothing(&text[start..]) {
        Some(start)
    } else {
        None
    }
}

fn names_nothing(segment: &[u8]) -> bool
    ensures { result ≡ is_bad_segment segment.now }
{
    segment.is_empty() || segment == b".".as_slice() || segment == b"..".as_slice()
}

impl PartialEq for CachePath {
    ghost eq = { bytes_eq };

    ghost laws = { Prim.search (comparing, rules) };

    fn eq(&self, other: &CachePath) -> bool {
        self.as_bytes() == other.as_bytes()
    }
}

impl Eq for CachePath {
    ghost laws = { Prim.search (comparing, rules) };
}

impl Ord for CachePath {
    ghost cmp = { slice_cmp nat_cmp };

    ghost total = { Prim.search (comparing, rules) };

    ghost matches_partial_cmp = { Prim.search (comparing, rules) };

    ghost matches_eq = { Prim.search (comparing, rules) };

    fn cmp(&self, other: &CachePath) -> Ordering {
        self.as_bytes().cmp(other.as_bytes())
    }
}

impl PartialOrd for CachePath {
    ghost partial_cmp = { as_partial_cmp (slice_cmp nat_cmp) };

    ghost laws = { partial_order_from_own_ties (Prim.search (comparing, rules)) (Prim.search (comparing, rules)) };

    fn partial_cmp(&self, other: &CachePath) -> Option<Ordering> {
        Some(self.cmp(other))
    }
}
