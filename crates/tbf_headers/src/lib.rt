//! Reads the header of an application's object in flash, in the Tock Binary Format, version 2.
#![tactic(auto)]

mod app;
mod fault;
mod header;
mod numbers;
mod object;
mod perms;
mod program;
mod regions;
mod tlv;

pub use app::{AppHeader, AppStart};
pub use fault::HeaderFault;
pub use header::{Header, permissions_in, read_header, region_count_in, region_in, start_in};
pub use numbers::{checksum_of, half_at, word_at};
pub use object::object_at;
pub use perms::Perms;
pub use program::Main;
pub use tlv::{NAME, first_tlv};
