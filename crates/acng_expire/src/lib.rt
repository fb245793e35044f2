//! Expiration: what no index has reached for longer than a limit is removed.
//!
//! A body has one mark, the moment from which it has been unreached. A run puts all marks and then removes what is due, and
//! changes nothing where the held indexes are broken. That one mark is enough over all runs is the contract of
//! `one_mark_suffices`.
#![tactic(auto)]

mod law;
mod line;
mod mark;
mod round;
mod run;

pub use law::{one_mark_suffices, runs_are_lawful};
pub use line::{ExpireLine, expire_line, print_expired};
pub use run::{Expired, expire};
