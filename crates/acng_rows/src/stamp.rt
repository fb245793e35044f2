//! Which moment of a whole body is changed.
use acng_base::Moment;

/// A moment of a whole body, and what it becomes.
#[derive(Clone, Copy, Debug, PartialEq, Eq)]
pub enum Stamp {
    /// When it was last found to be the file.
    Checked(Moment),
    /// Since when no index reaches it.
    Mark(Option<Moment>),
}
