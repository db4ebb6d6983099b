//! What lies outside the kernel: named files that are read, and a place that text is written to.
//! Each is a trait, with an implementation in memory that fails where it is told to, and one over
//! the operating system.
#![tactic(auto)]

mod failed;
mod laws;
mod mem_shelf;
mod mem_sink;
mod put;
mod schedule;
mod shelf;
mod sink;
mod system;

pub use failed::Failed;
pub use laws::writes_compose;
pub use mem_shelf::{MemShelf, are_distinct};
pub use mem_sink::MemSink;
pub use put::{hex_text, put_all, put_hex, put_number, put_pieces};
pub use shelf::Shelf;
pub use sink::Sink;
pub use system::{FileShelf, OutSink};
pub use tk_base::NoMemory;
