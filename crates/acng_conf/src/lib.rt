//! The configuration: an `acng.conf` as an administrator of apt-cacher-ng knows it, read by exact rules.
//!
//! A text is a list of lines `Key: value`. The first line that isn't one, or whose value isn't within its bounds,
//! refuses the whole text. What is read past, as a key without a meaning, is warned of, in order.
//!
//! A line `Remap-NAME: merging ; targets ; flags` brings many mirrors to one group. Its entries are URLs of `http`,
//! path prefixes, and list files by `file:PATTERN`. An entry merges into one group alone; the look-up of an entry goes
//! through an ordered map, so that lists of many thousand mirrors read at once.
#![tactic(auto)]

mod conf;
mod fault;
mod glob;
mod group;
mod key;
mod lines;
mod number;
mod pattern;
mod place;
mod print;
mod read;
mod remap;
mod remap_line;
mod rules;
mod settings;
mod warn;

pub use conf::Conf;
pub use fault::{ConfCause, ConfFault, ListFile, WarnCause, Warning};
pub use glob::fits;
pub use group::Group;
pub use key::are_word_bytes;
pub use lines::first_is;
pub use number::read_number;
pub use place::{ESCAPED, push_escaped, push_plain};
pub use print::{print_conf, print_fault};
pub use read::read_conf;
pub use rules::Rules;
