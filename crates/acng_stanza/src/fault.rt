//! Why a text has no stanzas.

/// The refusal of a text, with the number of its first refused line, counted from 1.
#[derive(Clone, Copy, Debug, PartialEq, Eq)]
pub enum StanzaFault {
    /// Memory was refused.
    NoMemory,
    /// The line is no field, and goes on with none.
    BadLine { line: u64 },
    /// The line has more than 1,048,576 bytes.
    LineTooLong { line: u64 },
    /// The stanza has more than 16,777,216 bytes with this line.
    TooLarge { line: u64 },
}
