//! The console (Tock's driver 0x1): a process has bytes written, and reads bytes that come in. The
//! UART takes the bytes of a write a part at a time, out of the buffer that the process then has
//! allowed, and bytes that come in are moved straight into such a buffer. What the driver keeps of
//! a process lies in the process's grant (Levy et al., SOSP 2017, section 4); the capsule itself
//! keeps who waits.
#![tactic(auto)]

mod capsule;
mod commands;
mod grants;
mod reads;
mod writes;

pub use capsule::ConsoleCapsule;
