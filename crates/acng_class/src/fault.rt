//! Why no classes are made.

/// Why no classes are made of two patterns, in the order of the tests.
#[derive(Clone, Copy, Debug, PartialEq, Eq)]
pub enum ClassFault {
    /// Memory was refused, or a pattern is too big to build.
    NoMemory,
    /// The pattern of further solid files isn't UTF-8, or no pattern.
    BadSolid,
    /// The pattern of further volatile files isn't UTF-8, or no pattern.
    BadVolatile,
}
