//! What is counted of all connections, and the first reply that wasn't as it is to be.
use crate::wishes::CLIENTS;

/// What is wrong with a reply, its note, or a connection's end.
#[derive(Clone, Copy, Debug, PartialEq, Eq)]
pub enum Wrong {
    /// Memory was refused.
    Memory,
    /// A connection got no reply.
    Silence,
    /// Bytes behind the last reply of a connection.
    Surplus,
    /// The connection ended otherwise.
    Stop,
    /// The status isn't one that the request may get.
    Status,
    /// The cause isn't one that the reply may have.
    Cause,
    /// The entry isn't one for the path at the moment.
    Entry,
    /// The label isn't one of the entry's.
    Label,
    /// The part isn't the one that was asked for.
    Part,
    /// The count of bytes sent isn't that of the reply's body.
    Sent,
    /// The reply is told to be whole and isn't, or the other way round.
    Whole,
    /// The head's text is another one.
    Head,
    /// The body isn't the file's.
    Body,
    /// A chunk doesn't read.
    Chunk,
    /// The page doesn't read, or its rows aren't those of held files.
    Page,
}

/// The first reply that is wrong, by the client, and its request.
#[derive(Clone, Copy, Debug, PartialEq, Eq)]
pub struct Blame {
    pub client: u64,
    pub request: u64,
    pub wrong: Wrong,
}

/// What a reply counts for.
#[derive(Clone, Copy, Debug, PartialEq, Eq)]
pub enum Served {
    /// A file, a part of it, or its head.
    File,
    /// That the client has the file, or that it has no such part.
    Bare,
    /// A body that was cut.
    Cut,
    /// A line.
    Line,
    /// The report page, behind a run that removed so many files.
    Page { removed: u64 },
}

/// What is counted.
#[derive(Clone, Copy, Debug, PartialEq, Eq)]
pub struct Tally {
    /// How many clients haven't gone yet.
    pub present: u64,
    pub files: u64,
    pub bare: u64,
    pub cut: u64,
    pub lines: u64,
    pub pages: u64,
    pub removed: u64,
    pub blame: Option<Blame>,
}

impl Tally {
    pub fn new() -> Tally {
        Tally {
            present: CLIENTS,
            files: 0,
            bare: 0,
            cut: 0,
            lines: 0,
            pages: 0,
            removed: 0,
            blame: None,
        }
    }

    /// A client goes. Whether it was the last.
    pub fn leave(&mut self) -> bool {
        self.present = self.present.saturating_sub(1);
        self.present == 0
    }

    /// Keeps the first that is wrong.
    pub fn accuse(&mut self, client: u64, request: u64, wrong: Wrong) {
        if self.blame.is_none() {
            self.blame = Some(Blame {
                client,
                request,
                wrong,
            });
        }
    }

    /// Counts a reply.
    pub fn count(&mut self, served: Served) {
        match served {
            Served::File => self.files = self.files.saturating_add(1),
            Served::Bare => self.bare = self.bare.saturating_add(1),
            Served::Cut => self.cut = self.cut.saturating_add(1),
            Served::Line => self.lines = self.lines.saturating_add(1),
            Served::Page { removed } => {
                self.pages = self.pages.saturating_add(1);
                self.removed = self.removed.saturating_add(removed);
            }
        }
    }

    /// How many replies were counted.
    pub fn replies(&self) -> u64 {
        self.files
            .saturating_add(self.bare)
            .saturating_add(self.cut)
            .saturating_add(self.lines)
            .saturating_add(self.pages)
    }
}
