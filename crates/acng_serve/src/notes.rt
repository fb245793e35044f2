//! What is told of a connection: a note for each reply, in order, and how it ended.
ghost use Rattle.std.specs.Prelude.{◌≡◌, ◌<◌, ◌==◌, Some, length, slice_get};

use crate::note::Note;
use std::marker::Model;

/// Notes in order. Contracts see their list.
#[derive(Debug, Drop)]
pub struct Notes<Q> {
    items: Vec<Note<Q>>,
}

impl<Q> Model for Notes<Q> {
    ghost use Rattle.std.specs.Prelude.{List};
    ghost use Rattle.acng_serve.specs.declared.note.Note.{Note as NoteOf};

    ghost Value = { List (NoteOf Q) };

    ghost view = { λ n. n.items.items };
}

impl<Q> Notes<Q> {
    pub(crate) fn of(items: Vec<Note<Q>>) -> Notes<Q>
        ensures { result ≡ items.items }
    {
        Notes { items }
    }

    pub fn len(&self) -> usize
        ensures { result ≡ length self.now }
    {
        self.items.len()
    }

    pub fn is_empty(&self) -> bool
        ensures { result ≡ (length self.now == 0) }
    {
        self.items.is_empty()
    }

    /// The note at a place, the first of which is 0.
    pub fn get(&self, i: usize) -> &Note<Q>
        requires { i < length self.now }
        ensures { slice_get self.now i ≡ Some result.now }
    {
        &self.items[i]
    }
}

/// How a connection ended. What stands above goes before what stands below.
#[derive(Clone, Copy, Debug, PartialEq, Eq)]
pub enum SessionStop {
    /// The client's link failed.
    ClientFault,
    /// As many requests as a connection may carry were answered.
    Limit,
    /// A reply closed the connection, or was cut.
    Closed,
    /// The link ended before a further head was whole.
    ClientEnded,
    /// Memory was refused where no reply had begun.
    NoMemory,
}

/// What is told of a connection.
#[derive(Debug, Drop)]
pub struct SessionEnd<Q> {
    pub notes: Notes<Q>,
    pub stop: SessionStop,
}
