//! One process in its seat: where its memory lies in flash and in the one RAM, what is scheduled
//! for it, and what drivers keep there for it. It knows no other process.
#![tactic(auto)]

mod entered;
mod flag;
mod handing;
mod kept;
mod laws;
mod restart;
mod seat;
mod visit;

pub use entered::{Entered, put_from};
pub use flag::put_flag_at;
pub use handing::hand_at;
pub use laws::{a_buffer_is_written, buffers_are_whole, frames_join};
pub use restart::restart_seat;
pub use seat::Seat;
pub use visit::{EnterError, Stale, Unvisited, Visit, block_at, enter_seat, peek_seat, visit_seat};
