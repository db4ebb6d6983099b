//! Instructions are decoded before they are executed.
use board_memory::Decoder;
use rv32_entries::Entry;
use rv32_predecode::{entry_before, entry_in};

/// The decoder of RV32IMC.
pub struct Predecoder;

impl Decoder for Predecoder {
    fn entry(&self, bytes: &[u8], at: usize, end: usize) -> Entry {
        // Only the last three may reach past the end.
        if end.saturating_sub(at) > 4 {
            entry_in(bytes, at)
        } else {
            entry_before(bytes, at, end)
        }
    }
}
