//! The two failures that have no further cause: memory was refused, and the outside failed.

use std::alloc::{AllocError, AllocFailed};

/// Memory was refused. No clause ties this answer to a refused growth: it is the one free answer of each call that
/// takes an allocator.
#[derive(Clone, Copy, Debug, PartialEq, Eq)]
pub struct NoMemory;

impl From<AllocError> for NoMemory {
    fn from(_: AllocError) -> Self {
        NoMemory
    }
}

impl<T: Drop> From<AllocFailed<T>> for NoMemory {
    fn from(_: AllocFailed<T>) -> Self {
        NoMemory
    }
}

/// A call on the outside failed. It says nothing more: the object that was used has counted the fault.
#[derive(Clone, Copy, Debug, PartialEq, Eq)]
pub struct Failed;
