//! What the kernel records of one process, and what a step and a run show of it.
#![tactic(auto)]

mod emit;
mod name;
mod outcome;
mod process;
mod shown;
mod summary;

pub use emit::{CallMade, Emit};
pub use name::{object_name, short_name};
pub use outcome::Outcome;
pub use process::{Process, RecordedRefusal, State};
pub use shown::{line_word, shown_name};
pub use summary::{SlotLine, Summary};
