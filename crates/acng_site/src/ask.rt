//! What is asked of an origin.

use acng_base::{Moment, Tag, Text};

/// An ask: a URL; the place of the first byte that is wanted, where a tag says of which file; and the moment that the
/// file has to be newer than, where one is held.
#[derive(Debug, Drop)]
pub struct Ask {
    pub url: Text,
    pub from: u64,
    pub tag: Option<Tag>,
    pub since: Option<Moment>,
}
