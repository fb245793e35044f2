//! What the laws of a desk say of runs of expiration.
//!
//! A run is a list of marks and removals, however it ended, so all that is said of lists of a desk's calls is said of runs too:
//! that tickets stay out until they are settled, and that no call changes a body that is read.
#![tactic(auto)]

mod law;

pub use law::runs_are_calls;
