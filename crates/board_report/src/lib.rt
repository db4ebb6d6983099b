//! What a board tells as text: the lines of a step, the report of a run, and the list of what its
//! flash holds.
#![tactic(auto)]

mod list;
mod report;
mod trace;
mod words;

pub use list::write_list;
pub use report::{End, write_report};
pub use trace::write_trace;
pub use words::rules_have_words_of_their_own;
