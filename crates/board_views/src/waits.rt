//! The lines that tell who waits for a device.
ghost use Rattle.std.specs.Prelude.{◌≡◌, map};
ghost use Rattle.board_core.specs.Looks.{waiting_for};
ghost use Rattle.tk_outside.specs.Writes.{Writes};
ghost use Rattle.board_views.specs.Lines.{word_text, words_text};
ghost use Rattle.board_views.specs.States.{queues_text, waits_text};

use crate::lines::write_word;
use board_core::{Board, Waiting};
use tk_base::Dev;
use tk_outside::{Failed, Sink, put_all, writes_compose};

/// Writes the slot of a process in base 16, after a blank.
fn write_slot<K: Sink>(out: &mut K, process: &Waiting) -> Result<(), Failed>
    ensures { Writes K.tells out.old out.new (word_text process.now.slot) result }
{
    write_word(out, process.id.slot.index() as u32)
}

/// Writes the slots of processes.
fn write_waiting<K: Sink>(out: &mut K, waiting: &[Waiting]) -> Result<(), Failed>
    ensures { Writes K.tells out.old out.new
        (words_text (map (λ id. id.slot) waiting.now)) result }
{
    writes_compose::<K>();
    for process in waiting {
        write_slot(out, process)?;
    }
    Ok(())
}

/// Writes a line: what processes wait for, and their slots.
#[tactic(auto, unfolding(crate::specs::Lines::line_text))]
fn write_waits<K: Sink>(out: &mut K, name: &[u8], waiting: &[Waiting]) -> Result<(), Failed>
    ensures { Writes K.tells out.old out.new
        (waits_text name.now (map (λ id. id.slot) waiting.now)) result }
{
    writes_compose::<K>();
    put_all(out, name)?;
    write_waiting(out, waiting)?;
    put_all(out, b"\n")
}

/// Writes who waits for a device, the one that waits longest first.
fn write_queue<K: Sink>(board: &Board, name: &[u8], device: Dev, out: &mut K) -> Result<(), Failed>
    ensures { Writes K.tells out.old out.new
        (waits_text name.now (waiting_for board.now.devices device)) result }
{
    write_waits(out, name, board.waiting(device))
}

/// Writes who waits for each device for which processes wait.
#[tactic(auto, unfolding(crate::specs::States::queues_text))]
pub(crate) fn write_queues<K: Sink>(board: &Board, out: &mut K) -> Result<(), Failed>
    ensures { Writes K.tells out.old out.new (queues_text board.now) result }
{
    writes_compose::<K>();
    write_queue(board, b"waits uart", Dev::Uart, out)?;
    write_queue(board, b"waits receive", Dev::Receive, out)?;
    write_queue(board, b"waits random", Dev::Random, out)?;
    write_queue(board, b"waits store", Dev::Store, out)
}
