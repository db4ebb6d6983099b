//! Instructions over flash and RAM, under protection registers. Of a process they know the slot alone.
#![tactic(auto)]

mod instruction;

pub use instruction::{instruction_laws, turn_in, turns_in};
