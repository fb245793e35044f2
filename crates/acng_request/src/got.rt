//! A request, and what a reading of one may answer.

use acng_base::{Moment, Text};

/// A part of a file that a request asks for. Places are bytes from 0; `to` is the last place, not the one after it.
#[derive(Clone, Copy, Debug, PartialEq, Eq)]
pub struct Part {
    pub from: u64,
    pub to: Option<u64>,
}

/// A request, as its head says it.
#[derive(Debug, Drop)]
pub struct Request {
    pub method: Text,
    pub target: Text,
    pub part: Option<Part>,
    pub if_range: Option<Text>,
    pub since: Option<Moment>,
    /// The client asks to close the connection after the reply.
    pub close: bool,
    /// The minor number of HTTP/1.
    pub minor: u8,
}

/// What the reading of a request's head answers.
#[derive(Debug, Drop)]
pub enum Got {
    Request(Request),
    /// The link ended before a head was whole.
    Ended,
    /// The link failed.
    ClientFault,
    Refused(HeadFault),
    /// Memory was refused.
    NoMemory,
}

/// Why a head is refused.
#[derive(Clone, Copy, Debug, PartialEq, Eq)]
pub enum HeadFault {
    /// It isn't a head.
    BadHead,
    /// It has too many bytes or lines.
    TooLarge,
    /// The method is none that is served.
    Method,
    /// It announces a body.
    HasBody,
}
