//! The text of a run, as definitions, with the modes in which a run is told and the count and the
//! sum of what it prints.
#![tactic(auto)]

mod mode;
mod tally;

pub use mode::Mode;
pub use tally::Tally;
