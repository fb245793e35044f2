//! One attempt: its connection, and the answer that is read from it.
//!
//! What comes of the answer comes in order: its head, the pieces of its body, and its end. The connection is read into one
//! buffer, and not past the answer's last byte, since the other side may leave the connection open behind it.
ghost use Rattle.std.specs.Prelude.{◌≡◌, ◌<◌, ◌≤◌, true, Bool, List, ℕ, None, Some, slice_range, IfSome, IfNone, IfOk, MatchOption, length};
ghost use Rattle.std.specs.Prelude.{option_copied};
ghost use Rattle.acng_base.specs.Answers.{nothing, reading, answer_limit};
ghost use Rattle.acng_answer.specs.Blocks.{IsBounded};
ghost use Rattle.acng_answer.specs.Reader.{due as due_in, rest};
ghost use Rattle.acng_answer.specs.Stages.{without_interim};
ghost use Rattle.acng_fetch.specs.Events.{IsReady, IsEndOf, GoesOn, left_of, outcome_of, Brings, IsPart, ComesInOrder, Counts, EndsDue};
ghost use Rattle.acng_fetch.specs.Events.{IfSlip, IfSlipEnd};

use acng_answer::{AnswerHead, AnswerReader, Step};
use acng_base::NoMemory;
use acng_site::Conn;
use std::alloc::Global;

/// How many bytes a connection is read into at once.
const ROOM: usize = 65_536;

/// The bytes of the buffer that were read and aren't used yet: from `from` up to and without `to`.
#[derive(Clone, Copy, Debug, PartialEq, Eq)]
pub struct Pending {
    pub from: usize,
    pub to: usize,
}

/// How an answer ended.
#[derive(Debug, Drop)]
pub enum End<P> {
    Whole,
    /// The connection ended before the answer did.
    Early,
    /// A byte, or a block of bytes, that no answer has.
    Bad { at: u64 },
    /// The connection failed.
    Slip(P),
}

/// What comes of an answer.
#[derive(Debug, Drop)]
pub enum Event<P> {
    Head,
    /// Some bytes of the body: those of the buffer from `start` up to and without `stop`.
    Body { start: usize, stop: usize },
    Ended(End<P>),
}

/// The connection of an attempt, the reader of its answer, and the bytes that were read and aren't used yet.
#[derive(Drop)]
pub struct Exchange<C> {
    pub(crate) conn: C,
    pub(crate) reader: AnswerReader,
    pub(crate) buf: Vec<u8>,
    pub(crate) pending: Pending,
}

/// What an answer is read with. It is made before an attempt is spent, since it takes memory.
#[derive(Drop)]
pub(crate) struct Intake {
    pub(crate) reader: AnswerReader,
    pub(crate) buf: Vec<u8>,
}

impl<C: Conn> Exchange<C> {
    /// What is read of a connection with a reader that has read nothing, into a buffer.
    pub fn new(conn: C, reader: AnswerReader, buf: Vec<u8>) -> Exchange<C>
        requires { 0 < length buf.items }
        ensures { result ≡ record { conn = conn; reader = reader; buf = buf; pending = record { from = 0; to = 0 } } }
    {
        Exchange {
            conn,
            reader,
            buf,
            pending: Pending { from: 0, to: 0 },
        }
    }

    /// The bytes of the buffer from a place up to and without another.
    pub fn bytes(&self, start: usize, stop: usize) -> &[u8]
        requires { (start ≤ stop) × (stop ≤ length self.now.buf.items) }
        ensures { result.now ≡ slice_range self.now.buf.items start stop }
    {
        &self.buf.as_slice()[start..stop]
    }

    /// What is told of the final head, once it is whole.
    pub fn head(&self) -> Option<&AnswerHead>
        ensures some { IfSome result (λ head. self.now.reader.head ≡ Some head.now) }
        ensures none { IfNone result (self.now.reader.head ≡ None) }
        ensures bounds { IfSome self.now.reader.head IsBounded }
    {
        self.reader.head()
    }

    /// The bytes of its `Location`, where one stands.
    pub fn location(&self) -> Option<&[u8]>
        ensures { option_copied result ≡ self.now.reader.location }
    {
        match self.reader.location() {
            Some(bytes) => Some(bytes),
            None => None,
        }
    }

    /// Reads on until the next event of the answer.
    pub fn next(&mut self) -> Event<C::Slip>
        requires ready { IsReady self.old }
        ensures event { Brings C.Conn result self.old self.new }
        ensures part { IsPart result self.new.buf.items self.old.reader.at self.new.reader.at }
        ensures order { ComesInOrder result self.old.reader.head self.new.reader.head }
        ensures due { Counts result self.new.reader.head (due_in self.old.reader) (due_in self.new.reader) }
        ensures slip { IfSlip result (λ s. (C.Slip.number s ≡ C.number self.old.conn) × (C.Slip.ask s ≡ C.ask self.old.conn)) }

        ensures conn { (C.number self.new.conn ≡ C.number self.old.conn) × (C.ask self.new.conn ≡ C.ask self.old.conn) }
        ensures ready { IsReady self.new }
        ensures limit { self.new.reader.limit ≡ self.old.reader.limit }
    {
        loop {
            if let Some(end) = self.refill() {
                return Event::Ended(end);
            }
            let start = self.pending.from;
            let (used, step) = self
                .reader
                .feed(&self.buf.as_slice()[start..self.pending.to]);
            self.pending.from += used;
            match step {
                Step::More => {}
                Step::Head => return Event::Head,
                Step::Body { start: first, stop } => {
                    return Event::Body {
                        start: start + first,
                        stop: start + stop,
                    };
                }
                Step::Whole => return Event::Ended(End::Whole),
                Step::Early => return Event::Ended(End::Early),
                Step::Bad { at } => return Event::Ended(End::Bad { at }),
            }
        }
    }

    // Reads the next bytes where none are pending. Some where no more come.
    fn refill(&mut self) -> Option<End<C::Slip>>
        requires ready { IsReady self.old }
        ensures ended { IfSome result (λ end. C.tells ≡ true → left_of C.Conn self.old ≡ nothing (outcome_of end)) }
        ensures same { IfNone result (C.tells ≡ true → left_of C.Conn self.old ≡ left_of C.Conn self.new) }
        ensures some { IfNone result (self.new.pending.from < self.new.pending.to) }
        ensures due { IfNone result (due_in self.new.reader ≡ due_in self.old.reader) }
        ensures ends { IfSome result (λ end. EndsDue end (due_in self.old.reader)) }
        ensures slip { IfSome result (λ end. IfSlipEnd end
            (λ s. (C.Slip.number s ≡ C.number self.old.conn) × (C.Slip.ask s ≡ C.ask self.old.conn))) }

        ensures place { (self.new.reader.at ≡ self.old.reader.at) × (self.new.reader.limit ≡ self.old.reader.limit) }
        ensures head { self.new.reader.head ≡ self.old.reader.head }
        ensures conn { (C.number self.new.conn ≡ C.number self.old.conn) × (C.ask self.new.conn ≡ C.ask self.old.conn) }
        ensures ready { IsReady self.new }
    {
        if self.pending.from < self.pending.to {
            return None;
        }
        if let Some(step) = self.reader.over() {
            // It stays over, and tells that nothing is due any more.
            let _ = self.reader.stop();
            return end_of(step);
        }
        let count = match self.conn.read(self.buf.as_mut_slice()) {
            Ok(count) => count,
            Err(slip) => return Some(End::Slip(slip)),
        };
        if count == 0 {
            return end_of(self.reader.stop());
        }
        self.pending = Pending { from: 0, to: count };
        None
    }
}

/// A reader that has read nothing, and a buffer.
pub(crate) fn new_intake(alloc: Global) -> Result<Intake, NoMemory>
    ensures reads { IfOk result (λ d. (ended : Bool) (text : List ℕ)
        → rest d.reader ended text ≡ without_interim (reading text ended answer_limit)) }
    ensures limit { IfOk result (λ d. (d.reader.limit ≡ answer_limit) × (d.reader.at ≡ 0)) }
    ensures fresh { IfOk result (λ d. (d.reader.head ≡ None) × (due_in d.reader ≡ None)) }
    ensures room { IfOk result (λ d. 0 < length d.buf.items) }
{
    let reader = AnswerReader::new(alloc)?;
    let buf = vec![in alloc; 0u8; ROOM]?;
    Ok(Intake { reader, buf })
}

// The end that a step says; None where the answer goes on.
fn end_of<P>(step: Step) -> Option<End<P>>
    ensures { MatchOption result (GoesOn step) (λ end. IsEndOf step end) }
{
    match step {
        Step::Whole => Some(End::Whole),
        Step::Early => Some(End::Early),
        Step::Bad { at } => Some(End::Bad { at }),
        _ => None,
    }
}
