//! What there is to see of a board, as text, and going on to a place of its run.
#![tactic(auto)]

mod goal;
mod going;
mod grants;
mod laws;
mod lines;
mod memory;
mod place;
mod searches;
mod state;
mod stop;
mod times;
mod waits;

pub use goal::{GOAL_ADDRESSES, GOAL_PLACES, Goal, Watched};
pub use going::{Stop, go_steps, go_traced, go_turns};
pub use laws::scripts_agree_up_to_a_time;
pub use memory::{write_memory, write_storage};
pub use place::write_at;
pub use searches::{Found, find_last, go_until};
pub use state::write_board_state;
pub use stop::{write_found, write_stop};
pub use times::{Reach, go_to};
