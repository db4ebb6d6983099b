//! What a process has handed to its drivers: the upcalls that it subscribed and the buffers that it
//! allowed, as pairs of words in its own block (TRD 104, "Subscribe", "Read-Only Allow", "Read-Write
//! Allow"; Levy et al., SOSP 2017, section 4).
#![tactic(auto)]

mod handover;
mod pairs;
mod standard;
mod swaps;

pub use handover::Handover;
pub use pairs::pair_held;
pub use standard::{
    buffer_ro, buffer_rw, buffer_ur, swap_ro, swap_rw, swap_upcall, swap_ur, upcall,
};
pub use swaps::swap_pair;
