//! Places the applications of a flash image in RAM: which slot each one has, and where its memory
//! lies.
#![tactic(auto)]

mod application;
mod placed;
mod placing;

pub use application::Application;
pub use placed::{Filled, Placed, Room};
pub use placing::place;
