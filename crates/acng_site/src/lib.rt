//! Origins: what is asked of a mirror, the numbered attempts to get it, and what an attempt gives or how it fails.
//!
//! A `Site` names what the mirrors hold. Each attempt on it has a number of its own, and with its ask it gives the
//! bytes that the site sends for both, up to their end or a fault. A fault is a slip: only a call that failed hands one
//! out, and it names its attempt and its ask.
#![tactic(auto)]

mod ask;
mod conn;
mod memory;
mod net;
mod origin;
mod place;
mod request;
mod rule;
mod site;
mod slip;
mod tries;

pub use acng_base::Tag;
pub use ask::Ask;
pub use conn::{Conn, OriginSlip};
pub use memory::{Gate, MemoryConn, MemoryOrigin, NoGate};
pub use net::{NetConn, NetOrigin};
pub use origin::{Dial, Origin};
pub use place::Place;
pub use request::{Request, UrlFault};
pub use rule::Rule;
pub use site::{Right, Site, Try, Untold};
pub use slip::AttemptSlip;
pub use tries::Tries;
