//! The bytes of a block.
ghost use Rattle.std.specs.Prelude.{◌≡◌};
ghost use Rattle.tk_outside.specs.Writes.{Writes};
ghost use Rattle.board_report.specs.Parts.{bytes_text};
ghost use Rattle.board_views.specs.Lines.{line_text};
ghost use Rattle.board_views.specs.Memories.{memory_at, cut_at, memory_text, storage_text};
ghost use Rattle.board_views.specs.Memories.{stored_at};

use board_core::Board;
use tk_base::Slot;
use tk_outside::{Failed, Sink, put_all, put_hex, writes_compose};

/// So many bytes from an address on, of a block that starts at one; none where they are not all
/// there.
#[tactic(auto, unfolding(crate::specs::Memories::cut_at))]
fn cut_at(start: u32, block: &[u8], at: u32, count: u32) -> &[u8]
    ensures { result.now ≡ cut_at start block.now at count }
{
    if at < start {
        return &[];
    }
    let from = (at - start) as usize;
    let count = count as usize;
    if from + count > block.len() {
        return &[];
    }
    block.split_at(from).1.split_at(count).0
}

/// So many bytes of the block of a slot, from an address on.
#[tactic(auto, unfolding(crate::specs::Memories::memory_at))]
pub(crate) fn memory_at(board: &Board, slot: Slot, at: u32, count: u32) -> &[u8]
    ensures { result.now ≡ memory_at board.now slot at count }
{
    let Some(layout) = board.layout(slot) else {
        return &[];
    };
    let Some(block) = board.block(slot) else {
        return &[];
    };
    cut_at(layout.start, block, at, count)
}

/// Writes bytes, each in two digits of base 16.
fn write_bytes<K: Sink>(out: &mut K, bytes: &[u8]) -> Result<(), Failed>
    ensures { Writes K.tells out.old out.new (bytes_text bytes.now) result }
{
    writes_compose::<K>();
    for byte in bytes {
        put_hex(out, u32::from(*byte), 2)?;
    }
    Ok(())
}

/// Writes a line: what it tells, and bytes, each in two digits of base 16.
#[tactic(auto, unfolding(crate::specs::Lines::line_text))]
fn write_bytes_line<K: Sink>(out: &mut K, name: &[u8], bytes: &[u8]) -> Result<(), Failed>
    ensures { Writes K.tells out.old out.new (line_text name.now (bytes_text bytes.now)) result }
{
    writes_compose::<K>();
    put_all(out, name)?;
    write_bytes(out, bytes)?;
    put_all(out, b"\n")
}

/// Writes the line of so many bytes of the block of a slot, from an address on, each in two digits
/// of base 16: of none where they do not all lie in the block, or there is no process. The block has
/// the process's own bytes, and above its kernel break those of its grants. It fails where the sink
/// does.
#[tactic(auto, unfolding(crate::specs::Memories::memory_text))]
pub fn write_memory<K: Sink>(
    board: &Board,
    slot: Slot,
    at: u32,
    count: u32,
    out: &mut K,
) -> Result<(), Failed>
    ensures { Writes K.tells out.old out.new (memory_text board.now slot at count) result }
{
    write_bytes_line(out, b"memory ", memory_at(board, slot, at, count))
}

/// So many bytes of the storage of a slot, from one on; none where they are not all there.
#[tactic(auto, unfolding(crate::specs::Memories::stored_at))]
fn stored_at(board: &Board, slot: Slot, at: u32, count: u32) -> &[u8]
    ensures { result.now ≡ stored_at board.now slot at count }
{
    match board.storage(slot) {
        Some(storage) => cut_at(0, storage, at, count),
        None => &[],
    }
}

/// Writes the line of so many bytes of the storage of a slot, from one on, each in two digits of
/// base 16: of none where they are not all there, or there is no process. It fails where the sink
/// does.
#[tactic(auto, unfolding(crate::specs::Memories::storage_text))]
pub fn write_storage<K: Sink>(
    board: &Board,
    slot: Slot,
    at: u32,
    count: u32,
    out: &mut K,
) -> Result<(), Failed>
    ensures { Writes K.tells out.old out.new (storage_text board.now slot at count) result }
{
    write_bytes_line(out, b"storage ", stored_at(board, slot, at, count))
}
