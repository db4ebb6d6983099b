//! The drivers of a board with their devices, and the moment of a step: what a command asks of
//! them, what a device does for a process, and up to when none is ready.
#![tactic(auto)]

mod drivers;
mod moment;
mod served;

pub use drivers::{Drivers, Order};
pub use moment::Moment;
pub use served::Served;
