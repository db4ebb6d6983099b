//! The line that tells where a process is.
ghost use Rattle.std.specs.Prelude.{◌≡◌};
ghost use Rattle.tk_outside.specs.Writes.{Writes};
ghost use Rattle.board_views.specs.Parts.{place_head};
ghost use Rattle.board_views.specs.Places.{at_text, place_text, registers_shown, place_word};

use crate::lines::write_word;
use board_core::Board;
use itoa::Buffer;
use process_record::{Process, State};
use tk_base::{Regs, Slot};
use tk_outside::{Failed, Sink, put_all, put_pieces, writes_compose};

/// The word of the state of a process.
fn place_word(process: &Process) -> &'static [u8]
    ensures { result.now ≡ place_word process.now }
{
    if process.held {
        return b"held";
    }
    match process.state {
        State::Running => b"running",
        State::Yielded => b"yielded",
        State::Faulted => b"faulted",
        State::Terminated(_) => b"terminated",
    }
}

/// Writes x1 to x31.
fn write_registers<K: Sink>(out: &mut K, regs: &Regs) -> Result<(), Failed>
    ensures { Writes K.tells out.old out.new (registers_shown regs.now) result }
{
    writes_compose::<K>();
    for n in 0..31u8 {
        write_word(out, regs.get(n + 1))?;
    }
    Ok(())
}

/// Writes what comes before the state.
fn write_head<K: Sink>(
    out: &mut K,
    steps: u64,
    time: u64,
    slot: Slot,
    process: &Process,
) -> Result<(), Failed>
    ensures { Writes K.tells out.old out.new (place_head steps time slot process.now) result }
{
    let mut step_digits = Buffer::new();
    let mut time_digits = Buffer::new();
    let mut slot_digits = Buffer::new();
    let mut turns = Buffer::new();
    let mut restarts = Buffer::new();
    put_pieces(
        out,
        &[
            b"at ",
            step_digits.format(steps).as_bytes(),
            b" ",
            time_digits.format(time).as_bytes(),
            b" ",
            slot_digits.format(slot.index()).as_bytes(),
            b" ",
            turns.format(process.turns).as_bytes(),
            b" ",
            restarts.format(process.restarts).as_bytes(),
            b" ",
        ],
    )
}

/// Writes the line of a process.
#[tactic(auto, unfolding(crate::specs::Places::place_text))]
fn write_place<K: Sink>(
    out: &mut K,
    steps: u64,
    time: u64,
    slot: Slot,
    process: &Process,
) -> Result<(), Failed>
    ensures { Writes K.tells out.old out.new (place_text steps time slot process.now) result }
{
    writes_compose::<K>();
    write_head(out, steps, time, slot, process)?;
    put_all(out, place_word(process))?;
    write_word(out, process.regs.pc())?;
    write_registers(out, &process.regs)?;
    put_all(out, b"\n")
}

/// Writes where the process in a slot is: the board's steps made and its time, in turns; the slot,
/// the process's turns, its restarts, its state, and in base 16 pc and x1 to x31; `none` where there
/// is no process. It fails where the sink does.
#[tactic(auto, unfolding(crate::specs::Places::at_text))]
pub fn write_at<K: Sink>(board: &Board, slot: Slot, out: &mut K) -> Result<(), Failed>
    ensures { Writes K.tells out.old out.new (at_text board.now slot) result }
{
    match board.process(slot) {
        Some(process) => write_place(out, board.steps(), board.time(), slot, &process),
        None => put_all(out, b"none\n"),
    }
}
