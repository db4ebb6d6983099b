//! The LEDs (Tock's driver 0x2): a process turns any LED of the board on or off. The driver keeps nothing of a
//! process, and has no upcalls and no buffers.
#![tactic(auto)]

mod commands;
mod number;

pub use commands::command;
pub use number::bits;
