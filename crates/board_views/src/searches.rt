//! A board that goes on to a goal, and one that is asked for the last place of its way at which the
//! goal would stop it.
ghost use Rattle.std.specs.Prelude.{◌≡◌, false, IfOk, IfSome, IsTrue, OnErr, OnOk};
ghost use Rattle.kernel_model.specs.Shown.{shown_by};
ghost use Rattle.kernel_model.specs.Run.{round};
ghost use Rattle.kernel_model.specs.World.{after, is_ready, labels};
ghost use Rattle.board_views.specs.Goals.{watched_bytes};
ghost use Rattle.board_views.specs.Searches.{IsLastFound, PassesNothing, choice_in, finds, kept_after, last_before};
ghost use Rattle.board_views.specs.Searches.{search};
ghost use Rattle.board_views.specs.Searches.{seen_after, seen_before, stop_before, until, until_goal};

use crate::goal::{Goal, before_stop, change_of, keep_watched, stop_after};
use crate::going::{Stop, stop_of};
use board_core::Board;
use process_record::Emit;
use std::alloc::Global;
use tk_base::{Choice, NoMemory, STEP_LIMIT};

/// A place of a run: after how many steps it is, and why a goal stops there, or after the next step,
/// where that changes a watched byte.
#[derive(Clone, Copy, Debug, PartialEq, Eq)]
pub struct Found {
    pub steps: u64,
    pub stop: Stop,
}

/// The round robin's next choice, where one more step may be made.
pub(crate) fn choice_in(board: &Board) -> Option<Choice>
    ensures next { result ≡ choice_in board.now }
    ensures ready { IfSome result (λ choice. IsTrue (is_ready board.now choice)) }
{
    if board.steps() < STEP_LIMIT {
        board.next_choice()
    } else {
        None
    }
}

/// The bytes that a goal watches.
fn kept_of(alloc: Global, board: &Board, goal: &Goal) -> Result<Vec<u8>, NoMemory>
    ensures { IfOk result (λ kept. kept.items
        ≡ watched_bytes board.now goal.now.watched.items) }
{
    let mut kept = Vec::new(alloc);
    keep_watched(board, &goal.watched, &mut kept)?;
    Ok(kept)
}

/// What stops a board before a step, but for the first one.
fn stop_before(board: &Board, goal: &Goal, begun: bool, choice: &Choice) -> Option<Stop>
    ensures { result ≡ stop_before goal.now begun board.now choice.now }
{
    if begun {
        before_stop(board, goal, choice)
    } else {
        None
    }
}

/// Makes a step that may be made, and shows it.
fn make_step(board: &mut Board, choice: &Choice, emit: &mut Emit)
    requires { IsTrue (is_ready board.old choice.now) }
    ensures world { board.new ≡ after board.old choice.now }
    ensures shown { emit.new ≡ shown_by (labels board.old choice.now) }
{
    let Ok(()) = board.step(*choice, emit) else {
        unreachable!()
    };
}

/// Makes at most so many steps, until the goal stops the board.
fn until(board: &mut Board, goal: &Goal, kept: &[u8], most: u32) -> Stop
    ensures { until most goal.now kept.now false board.old
        ≡ record { world = board.new; stop = result } }
{
    let mut emit = Emit::new();
    let mut begun = false;
    let mut left = most;
    while left > 0 {
        let next_choice = choice_in(board);
        let Some(choice) = next_choice else {
            return stop_of(board);
        };
        if let Some(stop) = stop_before(board, goal, begun, &choice) {
            return stop;
        }
        make_step(board, &choice, &mut emit);
        if let Some(stop) = stop_after(board, goal, kept, &choice, &emit) {
            return stop;
        }
        begun = true;
        left -= 1;
    }
    stop_of(board)
}

/// Makes steps of the round robin until the goal stops it, at most so many, and no more than a
/// board may make in all, and tells why the board stopped. It passes nothing: before none but the
/// first of these steps the goal stops it, and after none but the last. Why it stopped is what stops
/// the goal after the last of them, or else before the next one, or else that as many were made or
/// none is left. The one error is want of memory, and nothing has changed then.
pub fn go_until(alloc: Global, board: &mut Board, goal: &Goal, most: u32) -> Result<Stop, NoMemory>
    ensures led { OnOk result (board.new ≡ (until_goal most goal.now board.old).world) }
    ensures stop { IfOk result (λ stop. stop ≡ (until_goal most goal.now board.old).stop) }
    ensures passed { PassesNothing most goal.now
        (watched_bytes board.old goal.now.watched.items) board.old
        (until_goal most goal.now board.old) }
    ensures unchanged { OnErr result (board.new ≡ board.old) }
{
    let kept = kept_of(alloc, board, goal)?;
    Ok(until(board, goal, &kept, most))
}

/// Where the last place is, where a goal stops a board before the next step, or does not.
fn seen_before(found: Option<Found>, steps: u64, stop: Option<Stop>) -> Option<Found>
    ensures { result ≡ seen_before found steps stop }
{
    match stop {
        Some(stop) => Some(Found { steps, stop }),
        None => found,
    }
}

/// Where it is, where the step that was made after so many changed a watched byte, or did not.
fn seen_after(found: Option<Found>, steps: u64, changed: Option<u32>) -> Option<Found>
    ensures { result ≡ seen_after found steps changed }
{
    match changed {
        Some(at) => Some(Found {
            steps,
            stop: Stop::Changed { at },
        }),
        None => found,
    }
}

/// What is kept of watched bytes after a step.
fn kept_after(
    alloc: Global,
    board: &Board,
    goal: &Goal,
    kept: Vec<u8>,
    changed: Option<u32>,
) -> Result<Vec<u8>, NoMemory>
    ensures { IfOk result (λ v. v.items ≡ kept_after goal.now board.now kept.items changed) }
{
    match changed {
        Some(_) => kept_of(alloc, board, goal),
        None => Ok(kept),
    }
}

/// Makes at most so many steps of the round robin, and no more than a board may make in all, and
/// finds the last place where the goal stops it before one of them, or where one changes a watched
/// byte: no later one of them does. The one error is want of memory; the board has made some of
/// these steps then, and no more is known of it.
pub fn find_last(
    alloc: Global,
    board: &mut Board,
    goal: &Goal,
    most: u32,
) -> Result<Option<Found>, NoMemory>
    ensures found { IfOk result (λ found. last_before most goal.now board.old ≡ finds board.new found) }
    ensures led { OnOk result (board.new ≡ (round most board.old).world) }
    ensures last { IfOk result (λ found. IsLastFound most goal.now
        (watched_bytes board.old goal.now.watched.items) board.old found) }
{
    let mut emit = Emit::new();
    let mut found = None;
    let mut kept = kept_of(alloc, board, goal)?;
    let mut left = most;
    while left > 0 {
        let next_choice = choice_in(board);
        let Some(choice) = next_choice else {
            return Ok(found);
        };
        let steps = board.steps();
        found = seen_before(found, steps, before_stop(board, goal, &choice));
        make_step(board, &choice, &mut emit);
        let changed = change_of(board, goal, &kept);
        found = seen_after(found, steps, changed);
        kept = kept_after(alloc, board, goal, kept, changed)?;
        left -= 1;
    }
    Ok(found)
}
