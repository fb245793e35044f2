//! The reading of an origin's answer, fed in pieces of any cutting (RFC 9112).
//!
//! An `AnswerReader` takes the bytes of one connection as they come and says, step by step, what they bring: the final
//! head, ranges of the body, and how the answer ended. What all steps bring together is `reading` of the whole text, a
//! function of `acng_base`, without its heads of status 100 to 199; each call says what it took from that reading and
//! what it left. Beside it the reader counts the bytes of the body that are still due, whatever comes.
#![tactic(auto)]

mod body;
mod chunked;
mod framing;
mod head;
mod location;
mod range;
mod reader;
mod stage;
mod step;

pub use reader::AnswerReader;
pub use step::{AnswerHead, Step};
