//! Round robin: which step the board makes next.
#![tactic(auto)]

mod choice;
mod laws;
mod situated;
mod slots;
mod status;

pub use choice::{next_choice, next_choice_in, next_in_calm};
pub use laws::{choice_is_ready, present_goes_on, ready_has_turn};
pub use situated::{Present, Situated};
pub use slots::{slot_going_on, used_after};
pub use status::Status;
