//! The program's commands, as calls over any link, source, sink, origin, keeper, clock and site.
//!
//! `once` opens a desk over a keeper, reads one request from a link, answers it and writes one reply. `report` prints what a
//! desk holds, `expire` makes a run of expiration over it, `import` lets found files in, and `check-conf` prints what is wrong
//! with a configuration. `gen` makes a repository from a number, fetches it into a cache of its own, and prints what two
//! expirations make of that. The words of the command line are read by `clap`.
#![tactic(auto)]

mod expire;
mod generate;
mod imports;
mod maint;
mod once;
mod opening;
mod output;
mod report;
mod repository;
mod single;
mod source;
pub mod status;
mod task;
mod words;

pub use maint::run_maint;
pub use once::{Once, OnceStop, run_once};
pub use opening::{Maint, Opened, open_desk};
pub use single::{Single, run_single};
pub use words::{Command, Words, WordsFault, read_words};
