//! Downloads: the attempts to get a file from its origins, and what they make of a body that grows.
//!
//! What a download does is a function of what its attempts read: `download` of the definitions on growing bodies. The code
//! dials, reads and retries, and a plan that it keeps of the body shows that it has those effects and no others, and leaves
//! the attempts that the function leaves. On an honest site each effect is allowed where it comes, so the body never has a
//! byte that isn't its file's.
//!
//! ```text
//!               next origin, redirect
//!                  ------------
//!                  |          |        200, or 206 for a partial body's rest                 all came
//!     first ask    v          |   --------------------------------------------> Running ----------------> Whole
//!     ---------> Asking ------+--<                                               |   ^
//!                  |              --- 304 to an ask with a moment ---> Same      |   | 206 for the rest
//!                  | after the last origin or attempt                            v   |
//!                  ----------> Refused             a slip or an early end with tag and total: the rest is asked
//!                                                                                |
//!                                                                                ----------> Cut
//!                                             any other head, a bad answer, or no attempt left
//! ```
#![tactic(auto)]

mod attempt;
mod decision;
mod downloading;
mod exchange;
mod followed;
mod grows;
mod job;
mod law;
mod lead;
mod loader;
mod locked;
mod order;
mod pool;
mod queue;
mod standing;
mod ticketed;

pub use downloading::download;
pub use exchange::{End, Event, Exchange, Pending};
pub use followed::{Joined, load};
pub use grows::Grows;
pub use job::{Job, Loaders, NoLoaders};
pub use law::{downloads_allowed, downloads_keep};
pub use loader::Loader;
pub use order::{OldOrder, Order, PartOrder};
pub use pool::Pool;
pub use queue::Queue;
pub use standing::{Standing, Turned};
pub use ticketed::{Loaded, load_owned};
