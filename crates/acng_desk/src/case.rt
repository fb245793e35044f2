//! Which case of `begin` fits.

/// The cases, in the order of their tests.
#[derive(Clone, Copy, Debug, PartialEq, Eq)]
pub enum Case {
    /// A ticket of the path is out.
    Join,
    /// A whole body is held that is served as it is.
    Keep,
    /// No origin is asked.
    Offline,
    /// The path has no row, and the rows are at their limit.
    Full,
    /// No sixteen tries are left, or no id.
    Worn,
    /// A ticket is given out.
    Lead,
}
