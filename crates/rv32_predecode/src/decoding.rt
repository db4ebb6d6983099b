//! Bytes to entries.
ghost use Rattle.std.specs.Prelude.{◌≤◌, length};
ghost use Rattle.rv32_entries.specs.Standing.{TellsStanding};

use crate::as_entry::ToEntry;
use rv32_compressed::handle16;
use rv32_decode::handle32;
use rv32_entries::Entry;
use tk_base::{Width, number_in};

/// The instruction at a place of some bytes, or nothing known.
#[tactic(auto, unfolding(rv32_model::specs::UserTurn::instr_of))]
pub fn entry_in(bytes: &[u8], at: usize) -> Entry
    requires { at ≤ length bytes.now }
    ensures { TellsStanding bytes.now at result }
{
    let left = bytes.len() - at;
    if left < 2 {
        return Entry::Cold;
    }
    let first = number_in(bytes, at, Width::Half);
    if first % 4 != 3 {
        return handle16(first as u16, &mut ToEntry { length: 2 });
    }
    if left < 4 {
        return Entry::Cold;
    }
    let second = number_in(bytes, at + 2, Width::Half);
    handle32(first + second * 65536, &mut ToEntry { length: 4 })
}

/// The instruction at a place of some bytes, where it lies before an end, and what it may go on to behind it too; else
/// nothing known.
pub fn entry_before(bytes: &[u8], at: usize, end: usize) -> Entry
    requires { at ≤ length bytes.now }
    ensures { TellsStanding bytes.now at result }
{
    let entry = entry_in(bytes, at);
    if usize::from(entry.reach()) > end.saturating_sub(at) {
        return Entry::Cold;
    }
    entry
}
