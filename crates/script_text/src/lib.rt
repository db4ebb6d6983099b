//! The script: what the board's devices do and what it is set to, as lines of text.
#![tactic(auto)]

mod draft;
mod line;
mod read;
mod rule;
mod script;
mod table;
mod text;

pub use read::read_script;
pub use rule::{ScriptError, ScriptRule};
pub use script::{EventKind, EventList, Script, TimedEvent};
