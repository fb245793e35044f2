//! Runs scripts of requests over a cache in memory, and prints what each gets: a table of what the proxy answers.
//!
//! The scripts are read from standard input. What is printed is compared with what an independent model (tests/model/proxy.py)
//! reckons from the rules of targets, classes, downloads and replies.
//!
//! # The scripts
//!
//! A script begins with a line `script NAME` and ends with a line `end`. Its other lines are these; a word in capitals stands
//! for what the line says, and a number is decimal.
//!
//! - `conf LINE`: a line of the configuration, from here on. The desk has that of the first connection.
//! - `rows N`: the most paths of the desk; else 1,048,576.
//! - `next N`: the number of the first attempt; else 0.
//! - `pieces N`: the most bytes of a read of an origin; else 4,096.
//! - `keeper N`: the call of the keeper with this number fails, counted from 0.
//! - `answer URL FROM FIRST LAST`: an ask of this URL from this place is answered so in these attempts, both inclusive; the
//!   first that fits answers, and without one the dial fails. `fault` behind it: a fault follows the bytes.
//! - `cut N`, `room N`, `link N`: from here on a client's link moves at most N bytes a call, takes N bytes in all, and
//!   fails at the call with number N; else 4,096, 1,048,576 and none.
//! - `once MOMENT`: a run of the command `once`, by a client that sends the bytes that follow.
//! - `connection MOMENT ..`: a connection that sends the bytes that follow, its requests at these moments. The connections
//!   share one desk, which is started over what the runs before them left.
//! - `+TEXT` behind an answer, a run or a connection: so many more of its bytes. `\r`, `\n` and `\b` stand for CR, LF and a
//!   backslash, `\xHH` for a byte.
//! - `*N TEXT`: the same, N times.
//! - `vary keeper FROM TO`, `vary link FROM TO`, `vary front FROM TO`: the script is run once for each number from FROM up
//!   to and without TO: with this call of the keeper or of the last client's link failing, or with a fault behind so many
//!   bytes of the last answer; or `nothing` varies. With `sweep` in place of `vary` only the count of lines and the SHA-256 of
//!   what these runs would print are printed.
//!
//! # What is printed
//!
//! Behind each script's name stands, for each run and connection, how it ended, how often its link was read and how often
//! origins were; then a line for each reply: its status and cause, its label, its part, how many bytes of its body were
//! sent, whether it was whole, and how it was let in; and what was written, in the form of the scripts where it is short,
//! else its length and its SHA-256.
#![tactic(auto)]

mod client;
mod escape;
mod fault;
mod mirror;
mod parse;
mod run;
mod script;
mod shop;
mod single;
mod told;

use crate::fault::Fault;
use std::io;
use std::process::ExitCode;

fn main(rt: HostRuntime) -> ExitCode {
    match run_all(&rt) {
        Ok(()) => ExitCode::from(0),
        Err(Fault::NotAScript) => ExitCode::from(1),
        Err(Fault::NoMemory) => ExitCode::from(2),
    }
}

// Runs each script of the input.
fn run_all(rt: &HostRuntime) -> Result<(), Fault> {
    let alloc = rt.alloc();
    let text = io::read_to_string(alloc, rt.stdin())?;
    let mut lines = text.as_str().lines();
    for _ in 0..u64::MAX {
        let Some(script) = parse::next_script(alloc, &mut lines)? else {
            break;
        };
        let printed = run::run_script(alloc, &script)?;
        rt.print(printed.as_str())?;
    }
    Ok(())
}
