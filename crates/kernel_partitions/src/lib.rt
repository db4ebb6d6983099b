//! Laws of runs with time partitions, each the contract of a function that does nothing: that a
//! process depends on its own slot alone, in time too, and that a ready slot has its whole window.
#![tactic(auto)]

mod laws;

pub use laws::{a_partition_sees_itself_alone, a_ready_slot_has_its_window};
