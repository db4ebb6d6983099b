//! The source of random bytes (Tock's driver 0x40001): a process asks for a count of bytes, and
//! gets an upcall once they are written into its buffer. What the driver keeps of a process lies in
//! the process's grant; the capsule itself keeps who waits.
#![tactic(auto)]

mod capsule;
mod steps;
mod visits;

pub use capsule::RandomCapsule;
