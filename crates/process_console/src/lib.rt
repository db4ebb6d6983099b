//! The process console: what an operator does to a process. Nothing here knows when.
#![tactic(auto)]

mod acts;
mod listing;
mod named;

pub use acts::act;
pub use listing::list_line;
pub use named::find;
