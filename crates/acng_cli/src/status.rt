//! The statuses that the program ends with.
//!
//! Where several fit, the order is: refused words, a configuration that can't be read, a refused configuration, a call of the
//! keeper that failed, want of memory, another cause, and last an output that failed.

/// What was asked for was done.
pub const DONE: u8 = 0;
/// The reply says why neither a file nor the report page was sent, or wasn't sent whole.
pub const REFUSED: u8 = 1;
/// The words aren't read, or name a command that isn't built.
pub const WORDS: u8 = 2;
/// The configuration is refused, or the cache has too many paths.
pub const CONFIGURATION: u8 = 3;
/// The configuration or the output failed, or the client's link did.
pub const FAILED: u8 = 4;
/// A call of the keeper of the cache failed.
pub const KEEPER: u8 = 5;
/// Memory was refused.
pub const NO_MEMORY: u8 = 6;
/// The client ended before its request was whole.
pub const CLIENT_ENDED: u8 = 7;
