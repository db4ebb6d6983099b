//! Time partitions: whose window it is, and which step the board makes next in it.
#![tactic(auto)]

mod choice;
mod lanes;
mod laws;
mod windows;

pub use choice::next_in_window;
pub use lanes::Lanes;
pub use laws::{
    choice_is_of_the_window, none_exactly_where_all_is_done, other_slots_decide_nothing,
    pass_ends_in_time, ready_has_its_window, windows_are_in_turn,
};
pub use windows::{window_end, window_slot};
