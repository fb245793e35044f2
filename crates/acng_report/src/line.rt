//! What the report tells of a held path.
use acng_base::{CachePath, Moment};
use acng_class::Class;

/// What is told of a path with a whole body.
#[derive(Debug, Drop)]
pub struct Line {
    pub path: CachePath,
    /// The bytes of its body.
    pub size: u64,
    pub class: Class,
    /// Since when no index reaches it; None while one does.
    pub mark: Option<Moment>,
}
