//! The board: processes over one RAM and one register file, one step at a time, as the abstract
//! kernel makes it. What is kept beside its parts has a step look at no more than it changed.
#![tactic(auto)]

mod board;
mod copies;
mod left;
mod lines;
mod look;
mod operator;
mod play;
mod settings;
mod shown;
mod slices;
mod standard;
mod state;
mod stretch;
mod turns;

pub use board::Board;
pub use driver_requests::Waiting;
pub use play::{PlayEnd, processes_follow_their_own_events};
pub use stretch::QuietTurns;
pub use tk_base::NotReady;
pub use tk_outside::NoMemory;
