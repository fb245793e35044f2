//! What a cache holds, as a table and as a page of HTML.
//!
//! Only whole bodies count as held. The rows are read once, in the byte order of their paths, and are left as they are.
#![tactic(auto)]

mod escape;
mod html;
mod line;
mod print;
mod report;
mod rows;

pub use html::PageText;
pub use report::{page, table};
