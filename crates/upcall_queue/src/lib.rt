//! What waits for one process: the upcalls that are to be delivered, and how many were dropped.
#![tactic(auto)]

mod inbox;
mod queue;

pub use inbox::{Delivery, Inbox};
pub use queue::Queue;
