//! What a reply sends, and its exact text (RFC 9110, sections 13 and 14; RFC 9112, sections 4, 6 and 7.1).
//!
//! A `Pick` says what of a file goes out, by the request and by what is known of the file. A reply is its head, its body as
//! it is framed, and whether that is all; over a link that fails a front of it goes out, and the body bytes in that front
//! are counted. Why a request gets the reply that it gets is decided above: here are a line, a page, and a part of a body.
//!
//! A head goes out in one write, and a line in the same write as its head. No memory is taken.
#![tactic(auto)]

mod head;
mod joined;
mod line;
mod manner;
mod part;
mod pick;
mod send;

pub use head::{closes, file_head, line_head, page_head, sending_of};
pub use joined::follow_part;
pub use line::Line;
pub use manner::Manner;
pub use part::send_part;
pub use pick::Pick;
pub use send::{send_head, send_line, send_page};
