//! Why a text is no index.

use acng_stanza::StanzaFault;

/// The refusal of an index. Numbers are those of lines, counted from 1. That of a frame comes first, then that of a
/// stanza, then each other one; inside each the first by its place.
#[derive(Clone, Copy, Debug, PartialEq, Eq)]
pub enum IndexFault {
    /// Memory was refused.
    NoMemory,
    /// The text has no stanzas.
    Stanza(StanzaFault),
    /// The line breaks the frame of an InRelease; the line after the last one where more is due.
    NoFrame { line: u64 },
    /// A Release has no stanza, or several.
    NotOneStanza,
    /// A Release has no field `SHA256`.
    NoList,
    /// The line of the list is no hash, size and path.
    BadEntry { line: u64 },
    /// The stanza that begins at the line has no `Filename`.
    NoFilename { line: u64 },
    /// The `Filename` at the line is no path.
    BadName { line: u64 },
    /// The `Size` or `SHA256` at the line has another form.
    BadField { line: u64 },
}
