//! The memory of all processes: flash, one RAM with a block for each slot, and what the kernel
//! keeps of each process beside its registers. Above it a place in RAM is named by the loan of a
//! process to a call alone.
#![tactic(auto)]

mod decode;
mod grant;
mod home;
mod lend;

pub use grant::Grant;
pub use home::Home;
pub use lend::VisitSeat;
pub use process_seat::{
    EnterError, Entered, Stale, Unvisited, Visit, a_buffer_is_written, buffers_are_whole,
    frames_join, put_from,
};
