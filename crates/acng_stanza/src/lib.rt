//! The stanzas of a text that comes in pieces (Debian Policy, section 5.1): fields with a name and a value, in stanzas
//! that empty lines end. The limits of a line and of a stanza are this project's own.
//!
//! A `StanzaReader` takes the pieces and hands out each stanza as it is over. How the text is cut into pieces doesn't
//! matter.
#![tactic(auto)]

mod fault;
mod lines;
mod name;
mod open;
mod reader;
mod stanza;

pub use fault::StanzaFault;
pub use reader::StanzaReader;
pub use stanza::Stanza;
