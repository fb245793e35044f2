//! What a script says.
use crate::fault::Fault;
use std::alloc::Global;

/// The number of a call that is never made.
pub const NEVER: u64 = u64::MAX;

/// How an ask is answered in some attempts.
#[derive(Drop)]
pub struct Answer {
    pub url: String,
    pub from: u64,
    pub first: u64,
    pub last: u64,
    pub bytes: Vec<u8>,
    pub fault: bool,
}

/// How a client's link moves its bytes.
#[derive(Clone, Copy)]
pub struct Ways {
    pub cut: usize,
    pub room: usize,
    pub fails: u64,
}

/// A client: what it sends and when, over which link and by which configuration, and whether to a run of `once` or by a
/// connection of the desk.
#[derive(Drop)]
pub struct Client {
    pub single: bool,
    pub conf: String,
    pub moments: Vec<u64>,
    pub bytes: Vec<u8>,
    pub ways: Ways,
}

/// What differs from run to run.
#[derive(Clone, Copy, PartialEq, Eq)]
pub enum Varied {
    Nothing,
    Keeper,
    Link,
    Front,
}

/// A script.
#[derive(Drop)]
pub struct Script {
    pub name: String,
    pub conf: String,
    pub rows: u32,
    pub next: u64,
    pub pieces: usize,
    pub keeper: u64,
    pub answers: Vec<Answer>,
    pub clients: Vec<Client>,
    pub varied: Varied,
    pub from: u64,
    pub to: u64,
    pub swept: bool,
}

impl Script {
    pub fn new(alloc: Global, name: &str) -> Result<Script, Fault> {
        Ok(Script {
            name: String::from_str(alloc, name)?,
            conf: String::new(alloc),
            rows: 1_048_576,
            next: 0,
            pieces: 4_096,
            keeper: NEVER,
            answers: Vec::new(alloc),
            clients: Vec::new(alloc),
            varied: Varied::Nothing,
            from: 0,
            to: 1,
            swept: false,
        })
    }
}

impl Ways {
    pub fn plain() -> Ways {
        Ways {
            cut: 4_096,
            room: 1_048_576,
            fails: NEVER,
        }
    }
}
