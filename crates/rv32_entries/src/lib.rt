//! Instructions as a table keeps them that are decoded once, and memory that may know them.
#![tactic(auto)]

mod entry;
mod predecoded_bus;
mod register;

pub use entry::Entry;
pub use predecoded_bus::Predecoded;
pub use register::{Register, Target};
