//! The storage (driver 0x50001 in Tock's list of drivers): a process reads and writes bytes of its
//! own slot that outlive it. What the driver keeps of a process lies in the process's grant (Levy
//! et al., SOSP 2017, section 4); the capsule itself keeps who waits.
#![tactic(auto)]

mod capsule;
mod commands;
mod moves;
mod steps;
mod visits;

pub use capsule::StorageCapsule;
