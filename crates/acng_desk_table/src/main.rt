//! Runs lists of desk commands over a keeper in memory, and says what each call answers.
//!
//! Standard input has lists, with an empty line between two. The first line of a list is `list ROWS FIRST FAIL CONF`: at most
//! so many rows, the number of the first try, the number of the keeper's call that fails or `-`, and one line of a
//! configuration. Each further line is a command:
//!
//!     begin SLOT PATH CLASS MOMENT     a call is let in; a ticket that is given out stands in the slot, 0, 1 or 2
//!     settle SLOT new END TOTAL TAG DATE TEXT    the slot's ticket is settled: its new body got the text, of a file of which
//!                                      this is known (`-`: it isn't), and ended whole, early or for want of memory
//!     settle SLOT on END TEXT          its partial body got the text and ended so
//!     settle SLOT same                 its old body is still the file
//!     settle SLOT gone, lost           nothing came: the file is gone, memory was refused
//!     mark PATH MOMENT                 the row is marked, or with `-` not marked any more
//!     remove PATH                      the whole body is removed
//!     fetch PATH                       the whole body's handle is kept
//!     read                             the text of the handle that was kept last
//!     new                              a body is made, and left
//!     drop TEXT                        a body is made, gets the text, and is dropped
//!     import PATH MOMENT TEXT          a body is made, gets the text, and is put as an import
//!     row PATH, next PATH, count, class PATH
//!     show                             all rows, and all that the keeper has
//!
//! A text `.` is the empty one. Each command's answer is a line. After one that tells of a failed call, and at the end of the
//! list, all rows are shown, and all that the keeper has: of each id the body, and what the head says.
#![tactic(auto)]

mod begin;
mod calls;
mod keeper;
mod load;
mod looks;
mod print;
mod run;
mod start;
mod table;
mod view;
mod words;

use std::io;

fn main(rt: HostRuntime) -> io::Result<()> {
    let alloc = rt.alloc();
    let text = io::read_to_string(alloc, rt.reader())?;
    let mut count = 0u64;
    for list in text.as_str().split("\n\n") {
        count = count.saturating_add(1);
        println!(rt; "list {count}")?;
        match run::run(alloc, list) {
            Ok(said) => print!(rt; "{said}")?,
            Err(_) => return Err(io::Error::from(io::ErrorKind::OutOfMemory)),
        }
    }
    Ok(())
}
