//! What a command of the tool comes to once its files are read: a run, a list or an image. Nothing
//! here needs a board.
#![tactic(auto)]

mod generator;
pub mod prepare;
mod soak;

pub use generator::Generator;
pub use soak::{SoakGenerator, soak_files_are_generated};
