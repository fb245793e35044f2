//! How a ticket ends.

/// The ends of a ticket.
#[derive(Clone, Copy, Debug, PartialEq, Eq)]
pub enum Ending {
    /// No such ticket is out.
    Unknown,
    /// The new body is held from now on.
    Keep,
    /// The old body is still the file.
    Same,
    /// The cut body waits for a later download.
    Park,
    /// The partial body that the ticket had waits once more.
    Back,
    /// Nothing is kept of it.
    Drop,
}
