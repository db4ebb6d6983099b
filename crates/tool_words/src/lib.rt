//! The words of the tool: those of its command line, and those by which it says why a command is
//! refused.
#![tactic(auto)]

mod refusal;
mod words;

pub use refusal::{File, ImageFault, Refusal};
pub use words::{Command, Edit, EditCommand, MOST_TURNS, RunCommand};
