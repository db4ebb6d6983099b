//! How the program of the tool ends, and what each of its answers says. Nothing here needs a board.
#![tactic(auto)]

mod list;
mod outcome;

pub use outcome::{ServeOutcome, finish_image, finish_list, refuse};
