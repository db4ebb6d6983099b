//! The instructions in flash, of each even place the one there, or nothing known.
ghost use Rattle.std.specs.Prelude.{◌≤◌, length, IfOk};
ghost use Rattle.board_memory.specs.Known.{AreEntries};

use rv32_entries::Entry;
use std::alloc::Global;
use tk_base::{Addr, FLASH_START, NoMemory};

/// Who decodes instructions.
pub trait Decoder {
    ghost use Rattle.std.specs.Prelude.{◌≤◌, length};
    ghost use Rattle.rv32_entries.specs.Standing.{TellsStanding};

    /// The instruction at a place of some bytes, where it lies before an end, and what it may go on to behind it too;
    /// else nothing known.
    fn entry(&self, bytes: &[u8], at: usize, end: usize) -> Entry
        requires { at ≤ length bytes.now }
        ensures { TellsStanding bytes.now at result };
}

/// As many entries, of which nothing is known.
pub fn cold_entries(alloc: Global, bytes: &[u8]) -> Result<Vec<Entry>, NoMemory>
    ensures { IfOk result (λ entries. AreEntries bytes.now entries.items) }
{
    Ok(vec![in alloc; Entry::Cold; bytes.len() / 2]?)
}

/// Decodes what stands at the even places of which the halves lie between two numbers.
#[tactic(auto, using(crate::proofs::Known::known_put))]
fn decode<D: Decoder>(decoder: &D, bytes: &[u8], entries: &mut [Entry], from: usize, to: usize)
    requires { AreEntries bytes.now entries.old }
    ensures { AreEntries bytes.now entries.new }
{
    let to = to.min(entries.len());
    for k in from..to {
        entries[k] = decoder.entry(bytes, 2 * k, 2 * to);
    }
}

/// Decodes the instructions between two addresses, so that they are known from then on.
pub fn decode_between<D: Decoder>(
    decoder: &D,
    bytes: &[u8],
    entries: &mut Vec<Entry>,
    from: Addr,
    to: Addr,
)
    requires { AreEntries bytes.now entries.old.items }
    ensures { AreEntries bytes.now entries.new.items }
{
    let from = (from.saturating_sub(FLASH_START) / 2) as usize;
    let to = (to.saturating_sub(FLASH_START) / 2) as usize;
    decode(decoder, bytes, entries.as_mut_slice(), from, to);
}
