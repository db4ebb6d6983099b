//! Decodes instructions to entries, before they are executed.
#![tactic(auto)]

mod as_entry;
mod decoding;

pub use as_entry::ToEntry;
pub use decoding::{entry_before, entry_in};
