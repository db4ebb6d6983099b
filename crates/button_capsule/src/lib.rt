//! The buttons (Tock's driver 0x3): a process is told of each press and each release of the buttons
//! that it enables. Of which buttons a process is told lies in the process's grant, and nothing of
//! it in the kernel.
#![tactic(auto)]

mod commands;
mod telling;
mod visits;

pub use commands::command;
pub use telling::{edge, edges};
