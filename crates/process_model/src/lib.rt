//! What the kernel keeps of one process beside its registers: where it lies, and in `specs/` all
//! else.
#![tactic(auto)]

mod laws;
mod place;

pub use laws::{
    keeping_commutes, only_handing_changes_pairs, only_writes_change_bytes, reads_own_flash,
    restart_forgets,
};
pub use place::{Footprint, Object};
