//! The alarm (Tock's driver 0x0): a process arms one alarm, and gets an upcall once it has expired.
//! What the driver keeps of a process lies in the process's grant, and nothing of it in the kernel.
#![tactic(auto)]

mod answers;
mod capsule;
mod commands;
mod standard;
mod times;
mod visits;

pub use answers::Due;
pub use capsule::AlarmCapsule;
pub use times::{AlarmTimes, nearer_time};
