//! Bodies that grow while they are read.
//!
//! A `Growing` is the body of one download for one path. It opens by an attempt, grows, is gone on with by further
//! attempts, and ends whole, cut off, refused, or the same as a held one. At each moment its bytes stand for its path and
//! label: they are a front of one instance of the file, and all of it once it is whole. So each reader gets a front of one
//! and the same file, whenever it reads.
//!
//! A `Shared` is such a body behind a lock: one loads it while many follow it. Only `lock.rt` takes a lock, and what it
//! tells stays true whoever has the body next.
//!
//! ```text
//!               begin_body, go_on                finish
//!     Opening ---------------------> Running ----------------> Whole
//!        |  \                         |  ^  \
//!        |   \ same                   |  |   \ cut
//!        |    -----> Same             ----    -----> Cut
//!        | refuse                  add, resume
//!        -----> Refused
//! ```
#![tactic(auto)]

mod asked;
mod facts;
mod finding;
mod growing;
mod law;
mod lock;
mod looking;
mod owned;
mod sending;
mod settling;
mod taking;
mod why;

pub use asked::{Asked, Look};
pub use facts::{Facts, Seen, Stage};
pub use growing::Growing;
pub use law::{bodies_grow, effects_keep};
pub use lock::{Shared, await_head, follow};
pub use owned::{FollowStop, Followed, follow_owned};
pub use sending::{Sending, send_last, send_piece};
pub use settling::PartialBody;
pub use taking::Taken;
pub use why::{KeeperMark, Shown, Why};
