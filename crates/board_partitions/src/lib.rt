//! Laws of runs with time partitions from a boot, each the contract of a function that does
//! nothing.
#![tactic(auto)]

mod laws;

pub use laws::{partitions_from_boot_see_themselves_alone, scripts_with_partitions_have_no_acts};
