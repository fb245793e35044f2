//! What a call of a keeper did to heads and bodies.
use acng_base::Text;

/// An effect, with the id that it is on, and the bytes that it stored.
#[derive(Debug, Drop)]
pub enum Effect {
    Sealed(u64, Text),
    HeadPut(u64, Text),
    HeadRemoved(u64),
    BodyRemoved(u64),
}
