//! The desk of a cache: what is held, whether it is fresh, who fetches it now, and what a download does to it.
#![tactic(auto)]

mod begin;
mod calls;
mod case;
mod desk;
mod ending;
mod ends;
mod entry;
mod facts;
mod imports;
mod joint;
mod law;
mod lead;
mod looks;
mod part;
mod removing;
mod settle;
mod settling;
mod start;
mod steps;
mod ticket;

pub use acng_rows::RowFault;
pub use begin::Begun;
pub use calls::PutFault;
pub use case::Case;
pub use desk::Desk;
pub use ending::Ending;
pub use entry::{Brim, BrimKind, Entry, Held};
pub use joint::Joint;
pub use law::{bodies_stay, quiet_calls_answer, runs_are_steps, tickets_stay};
pub use looks::RowFacts;
pub use settle::Settled;
pub use start::{StartCause, StartFault};
pub use ticket::{Info, OldFile, PartFile, Ticket};
