//! Holders of one thing.
use acng_base::NoMemory;

/// A thing that has several holders, as a body that is loaded for one and followed by others.
pub trait Joint: Drop {
    /// Another holder of the same thing. Want of memory is as free here as in a call with an allocator.
    fn again(&self) -> Result<Self, NoMemory>
    where
        Self: Sized;
}

impl Joint for () {
    fn again(&self) -> Result<(), NoMemory> {
        Ok(())
    }
}
