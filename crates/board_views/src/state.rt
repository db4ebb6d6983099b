//! All that there is to see of a board.
ghost use Rattle.std.specs.Prelude.{◌≡◌};
ghost use Rattle.tk_outside.specs.Writes.{Writes};
ghost use Rattle.run_text.specs.Parts.{run_end_of};
ghost use Rattle.board_views.specs.States.{breaks_text, denial_words, ends_text, lies_text};
ghost use Rattle.board_views.specs.States.{pending_text, refused_text, seen_text, slot_state};
ghost use Rattle.board_views.specs.States.{slots_state, board_state_text, upcall_words};

use crate::grants::write_grants;
use crate::lines::write_slot_line;
use crate::place::write_at;
use crate::waits::write_queues;
use board_core::Board;
use board_report::{End, write_report};
use process_layout::Layout;
use process_record::{Process, RecordedRefusal};
use tk_base::{Denial, SLOT_COUNT, Slot, Upcall};
use tk_outside::{Failed, Sink, writes_compose};

/// Writes where a process lies.
#[tactic(auto, unfolding(crate::specs::States::lies_text))]
fn write_lies<K: Sink>(
    out: &mut K,
    slot: Slot,
    process: &Process,
    layout: &Layout,
) -> Result<(), Failed>
    ensures { Writes K.tells out.old out.new (lies_text slot process.now layout.now) result }
{
    writes_compose::<K>();
    write_slot_line(
        out,
        b"object ",
        slot,
        &[process.object.address, process.object.size],
    )?;
    write_slot_line(
        out,
        b"flash ",
        slot,
        &[layout.flash_start, layout.flash_end],
    )?;
    write_slot_line(out, b"block ", slot, &[layout.start, layout.end])
}

/// Writes its break, its kernel break, and pc.
#[tactic(auto, unfolding(crate::specs::States::breaks_text))]
fn write_breaks<K: Sink>(
    out: &mut K,
    slot: Slot,
    process: &Process,
    layout: &Layout,
) -> Result<(), Failed>
    ensures { Writes K.tells out.old out.new (breaks_text slot process.now layout.now) result }
{
    writes_compose::<K>();
    write_slot_line(out, b"break ", slot, &[layout.brk])?;
    write_slot_line(out, b"kernel-break ", slot, &[layout.kernel_break])?;
    write_slot_line(out, b"pc ", slot, &[process.regs.pc()])
}

/// The words of the last denial.
fn denial_words(denial: &Option<Denial>) -> [u32; 3]
    ensures { result ≡ denial_words denial.now }
{
    match denial {
        Some(denial) => [1, denial.cause(), denial.address],
        None => [0, 0, 0],
    }
}

/// Writes the address of the last refused call, if there was one.
fn write_refused<K: Sink>(
    out: &mut K,
    slot: Slot,
    refusal: &Option<RecordedRefusal>,
) -> Result<(), Failed>
    ensures { Writes K.tells out.old out.new (refused_text slot refusal.now) result }
{
    writes_compose::<K>();
    match refusal {
        Some(refusal) => write_slot_line(out, b"refused-at ", slot, &[refusal.address]),
        None => Ok(()),
    }
}

/// Writes its last denial and its last refused call.
#[tactic(auto, unfolding(crate::specs::States::ends_text))]
fn write_ends<K: Sink>(out: &mut K, slot: Slot, process: &Process) -> Result<(), Failed>
    ensures { Writes K.tells out.old out.new (ends_text slot process.now) result }
{
    writes_compose::<K>();
    write_slot_line(out, b"denied ", slot, &denial_words(&process.denial))?;
    write_refused(out, slot, &process.refusal)
}

/// The words of an upcall.
fn upcall_words(upcall: &Upcall) -> [u32; 7]
    ensures { result ≡ upcall_words upcall.now }
{
    let [first, second, third] = upcall.args;
    [
        upcall.driver,
        upcall.number,
        upcall.function,
        upcall.app,
        first,
        second,
        third,
    ]
}

/// Writes the upcalls that wait.
fn write_pending<K: Sink>(out: &mut K, slot: Slot, upcalls: &[Upcall]) -> Result<(), Failed>
    ensures { Writes K.tells out.old out.new (pending_text slot upcalls.now) result }
{
    writes_compose::<K>();
    for upcall in upcalls {
        write_slot_line(out, b"pending ", slot, &upcall_words(upcall))?;
    }
    Ok(())
}

/// Writes the lines of a process, but for its grants.
#[tactic(auto, unfolding(crate::specs::States::seen_text))]
fn write_seen<K: Sink>(
    out: &mut K,
    slot: Slot,
    process: &Process,
    layout: &Layout,
    upcalls: &[Upcall],
) -> Result<(), Failed>
    ensures { Writes K.tells out.old out.new
        (seen_text slot process.now layout.now upcalls.now) result }
{
    writes_compose::<K>();
    write_lies(out, slot, process, layout)?;
    write_breaks(out, slot, process, layout)?;
    write_ends(out, slot, process)?;
    write_pending(out, slot, upcalls)
}

/// Writes the lines of a slot.
#[tactic(auto, unfolding(crate::specs::States::slot_state))]
fn write_slot_state<K: Sink>(board: &Board, slot: Slot, out: &mut K) -> Result<(), Failed>
    ensures { Writes K.tells out.old out.new (slot_state board.now slot) result }
{
    writes_compose::<K>();
    let Some(process) = board.process(slot) else {
        return Ok(());
    };
    let Some(layout) = board.layout(slot) else {
        return Ok(());
    };
    let Some(upcalls) = board.pending(slot) else {
        return Ok(());
    };
    write_seen(out, slot, &process, &layout, upcalls)?;
    write_grants(board, slot, out)?;
    write_at(board, slot, out)
}

/// Writes the lines of all slots.
fn write_slots<K: Sink>(board: &Board, out: &mut K) -> Result<(), Failed>
    ensures { Writes K.tells out.old out.new (slots_state board.now) result }
{
    writes_compose::<K>();
    for n in 0..SLOT_COUNT {
        write_slot_state(board, Slot::new(n), out)?;
    }
    Ok(())
}

/// Whether anything is left to do.
#[tactic(auto, unfolding(run_text::specs::Parts::run_end_of))]
fn end_of(board: &Board) -> End
    ensures { result ≡ run_end_of board.now }
{
    match board.next_choice() {
        None => End::Done,
        Some(_) => End::Turns,
    }
}

/// Writes the report, who waits for each device, and of each slot with a process its lines: where it
/// lies, its breaks, pc, its last denial, where it made its last refused call, the upcalls that wait,
/// its grants, and where it is. It fails where the sink does.
#[tactic(auto, unfolding(crate::specs::States::board_state_text))]
pub fn write_board_state<K: Sink>(board: &Board, out: &mut K) -> Result<(), Failed>
    ensures { Writes K.tells out.old out.new (board_state_text board.now) result }
{
    writes_compose::<K>();
    write_report(&board.summary(), end_of(board), out)?;
    write_queues(board, out)?;
    write_slots(board, out)
}
