//! The indexes of a Debian repository (Debian wiki, RepositoryFormat): what a Release, an InRelease and a list of
//! packages name. Each reader answers what the text names, or its first refusal with the line.
//!
//! Nothing here knows of held files: a path is as the index writes it.
#![tactic(auto)]

mod drive;
mod entry;
mod fault;
mod frame;
mod name;
mod names;
mod one;
mod read;
mod release;
mod text;

pub use entry::IndexEntry;
pub use fault::IndexFault;
pub use name::Named;
pub use names::Names;
pub use read::{read_inrelease, read_packages, read_release};
pub use release::Release;
