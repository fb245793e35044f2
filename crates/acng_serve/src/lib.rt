//! What a request gets: a file from the cache or by a download, the report page, or a line that says why neither.
//!
//! A request is read as a target, its file's class is looked up, and the desk lets it in: a held body is sent, or a body is
//! loaded and then sent. The report page tells what the desk holds, behind a run of expiration where one is asked for and
//! allowed. What is told of the reply is a `Note`: its cause, and by which body and for which path it was let
//! in. The whole answer is a function of the request, the configuration, what the desk has, the site and one moment; it
//! yields to a failed call of the keeper, a failed link and want of memory. A session answers the requests of a connection so,
//! one after another.
#![tactic(auto)]

mod among;
mod answer;
mod connection;
mod crew;
mod file;
mod held;
mod house;
mod note;
mod notes;
mod owned;
mod page;
mod refuse;
mod server;
mod way;

pub use answer::answer_one;
pub use connection::session;
pub use house::House;
pub use note::{Cause, Note};
pub use notes::{Notes, SessionEnd, SessionStop};
pub use owned::session_owned;
pub use refuse::answer_unread;
pub use server::{ServeEnd, serve};
