//! Going on by the round robin.
ghost use Rattle.std.specs.Prelude.{◌≡◌, ◌+◌, ◌-◌, ◌<◌, ◌≤◌, min, true, None, IfOk, OnOk};
ghost use Rattle.tk_base.specs.declared.limits.TheConstants.{STEP_LIMIT};
ghost use Rattle.tk_outside.specs.Writes.{Writes};
ghost use Rattle.kernel_model.specs.Run.{next, round};
ghost use Rattle.run_text.specs.RunText.{trace_lines};
ghost use Rattle.board_views.specs.Stops.{IsFirstWithTurns, stop_at, turns_of, turns_stop, until_turns, within};

use board_core::Board;
use kernel_laws::rounds_join;
use process_record::Emit;
use tk_base::{Denial, STEP_LIMIT, Slot};
use tk_outside::{Failed, Sink, writes_compose};
use tock_cli::trace_out;

/// Why a board stopped that went on.
#[derive(Clone, Copy, Debug, PartialEq, Eq)]
pub enum Stop {
    /// Nothing is left to do.
    Done,
    /// As many steps were made as might be, and something is left to do.
    Most,
    /// The next step begins at the time or later, or ends past it.
    Time,
    /// The process of the slot had as many turns as were asked for, or more.
    Turns,
    /// The next step is a turn of the process in a slot at one of the addresses.
    Address { slot: Slot },
    /// A turn left the area.
    Range,
    /// The bytes watched from an address on changed.
    Changed { at: u32 },
    /// A turn of the process in a slot was denied.
    Denied { slot: Slot, denial: Denial },
    /// The process in a slot made the system call Exit, with these words in a0 to a3.
    Exit { slot: Slot, words: [u32; 4] },
    /// An operator acted on the process in a slot.
    Act { slot: Slot },
}

/// Makes at most so many steps of the round robin, as fast as they can be made.
fn make_steps(board: &mut Board, most: u32)
    ensures { board.new ≡ (round most board.old).world }
{
    rounds_join();
    let mut emit = Emit::new();
    let mut made = 0;
    while made < most {
        // The last step is made below.
        let quiet = board.run_quietly(most - made - 1);
        let steps = quiet.made + 1;
        let next_choice = quiet.next_choice;
        let end = quiet.end;
        let Some(choice) = next_choice else {
            return;
        };
        let Ok(()) = board.step_with_end(choice, end, &mut emit) else {
            return;
        };
        made += steps;
    }
}

/// Why the board stopped.
#[tactic(auto, unfolding(crate::specs::Stops::stop_at))]
pub(crate) fn stop_of(board: &Board) -> Stop
    ensures { result ≡ stop_at board.now }
{
    match board.next_choice() {
        None => Stop::Done,
        Some(_) => Stop::Most,
    }
}

/// Makes at most so many steps of the round robin, and tells why the board stopped. Afterwards it
/// shows the world that the run of so many steps leads to.
pub fn go_steps(board: &mut Board, most: u32) -> Stop
    ensures led { board.new ≡ (round most board.old).world }
    ensures stop { result ≡ stop_at (round most board.old).world }
{
    make_steps(board, most);
    stop_of(board)
}

/// How many steps may still be made, at most so many.
pub(crate) fn steps_left(board: &Board, most: u32) -> u32
    ensures left { result ≡ within board.now most }
    ensures fits { 0 < result → board.now.clock.steps + result ≤ STEP_LIMIT }
{
    let steps = board.steps();
    if steps >= STEP_LIMIT {
        return 0;
    }
    most.min((STEP_LIMIT - steps) as u32)
}

/// Makes at most so many steps of the round robin, and no more than a board may make in all,
/// writes the lines of the trace of each, and tells why the board stopped. Where the sink fails, the
/// board has made some of these steps, and no more is known of it.
pub fn go_traced<K: Sink>(board: &mut Board, most: u32, out: &mut K) -> Result<Stop, Failed>
    ensures text { let n = within board.old most in
        Writes K.tells out.old out.new (trace_lines n board.old) result }
    ensures led { OnOk result (board.new ≡ (round (within board.old most) board.old).world) }
    ensures stop { IfOk result (λ stop. stop
        ≡ stop_at (round (within board.old most) board.old).world) }
{
    writes_compose::<K>();
    let turns = steps_left(board, most);
    if turns == 0 {
        return Ok(stop_of(board));
    }
    trace_out(board, turns, out)?;
    Ok(stop_of(board))
}

/// How many turns the process of a slot had; 0 where there is none.
fn turns_of(board: &Board, slot: Slot) -> u32
    ensures { result ≡ turns_of board.now slot }
{
    match board.process(slot) {
        Some(process) => process.turns,
        None => 0,
    }
}

/// How many steps may be made at once, of those that are left.
fn part_of(left: u32, turns: u32, had: u32) -> u32
    ensures part { result ≡ min left (turns - had) }
    ensures within { result ≤ left }
{
    left.min(turns.saturating_sub(had))
}

/// Whether nothing is left to do.
fn is_over(board: &Board) -> bool
    ensures { result ≡ true → next board.now ≡ None }
{
    match board.next_choice() {
        None => true,
        Some(_) => false,
    }
}

/// Makes steps of the round robin until the process of a slot had so many turns, at most so many.
fn make_turns(board: &mut Board, slot: Slot, turns: u32, most: u32)
    ensures { board.new ≡ until_turns most slot turns board.old }
{
    let mut left = most;
    while left > 0 {
        let had = turns_of(board, slot);
        let part = part_of(left, turns, had);
        if part == 0 {
            return;
        }
        if is_over(board) {
            return;
        }
        make_steps(board, part);
        left -= part;
    }
}

/// Why the board stopped that was to come to so many turns.
#[tactic(auto, unfolding(crate::specs::Stops::turns_stop))]
fn turns_stop(board: &Board, slot: Slot, turns: u32) -> Stop
    ensures { result ≡ turns_stop board.now slot turns }
{
    if turns_of(board, slot) >= turns {
        return Stop::Turns;
    }
    stop_of(board)
}

/// Makes steps of the round robin until the process of a slot had so many turns since its board
/// opened, at most so many steps, and tells why the board stopped. A slot without a process has had
/// 0 turns. Before each of these steps it had fewer.
pub fn go_turns(board: &mut Board, slot: Slot, turns: u32, most: u32) -> Stop
    ensures led { board.new ≡ until_turns most slot turns board.old }
    ensures first { IsFirstWithTurns most slot turns board.old board.new }
    ensures stop { result ≡ turns_stop (until_turns most slot turns board.old) slot turns }
{
    make_turns(board, slot, turns, most);
    turns_stop(board, slot, turns)
}
