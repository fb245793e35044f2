//! What the client and the proxy say to each other before a body: the head of a request, and the head of a reply
//! (RFC 9112).
//!
//! A request's head is read from a link, through a buffer that keeps what was read past it. A reply's head is written
//! into a buffer of fixed length. Which reply a request gets is decided above.
#![tactic(auto)]

mod field;
mod got;
mod head;
mod line;
mod read;
mod reply;

pub use got::{Got, HeadFault, Part, Request};
pub use read::{HeadBuf, read_request};
pub use reply::{Framing, Kind, ReplyHead, reply_head};
