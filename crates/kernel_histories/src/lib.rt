//! Laws of what a process handed and what was scheduled for it, over all choices, each the contract
//! of a function that does nothing; of edges of buttons, and of dropped upcalls.
#![tactic(auto)]

mod drops;
mod edges;
mod pairs;
mod upcalls;

pub use drops::drops_add_up;
pub use edges::each_edge_comes_once;
pub use pairs::swaps_give_back_the_last;
pub use upcalls::{deliveries_are_of_the_last, inboxes_are_exact, waits_get_the_first};
