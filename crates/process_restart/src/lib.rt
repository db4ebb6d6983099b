//! A process with its own object in flash, which can start again by the header of that.
#![tactic(auto)]

mod headers;
mod restart;

pub use headers::{object_of, start_of};
pub use restart::restart_process;
