//! Going on to a time.
ghost use Rattle.std.specs.Prelude.{◌≡◌, ◌-◌, ℕ, [], false, min, IfOk, IsTrue, OnOk};
ghost use Rattle.tk_outside.specs.Writes.{Writes};
ghost use Rattle.kernel_model.specs.World.{is_ready};
ghost use Rattle.board_views.specs.Stops.{within};
ghost use Rattle.board_views.specs.Times.{is_within, told_if, told_reaching, time_stop};
ghost use Rattle.board_views.specs.Times.{uncalled_text, world_reached};

use crate::going::{Stop, steps_left, stop_of};
use crate::searches::choice_in;
use board_core::Board;
use board_report::write_trace;
use gathered_output::{OutputBuffer, Text};
use kernel_laws::rounds_join;
use process_record::Emit;
use tk_base::Choice;
use tk_outside::{Failed, Sink, writes_compose};

/// How far a board goes on: by the steps that begin before a time and end at it or before, at most
/// so many; and whether they are told.
#[derive(Clone, Copy, Debug, PartialEq, Eq)]
pub struct Reach {
    pub time: u32,
    pub most: u32,
    pub told: bool,
}

/// Whether the step of a choice that may be made begins before a time, and ends at it or before.
fn is_within(board: &Board, time: u32, choice: &Choice) -> bool
    requires { IsTrue (is_ready board.now choice.now) }
    ensures { result ≡ is_within time board.now choice.now }
{
    let now = board.time();
    let time = u64::from(time);
    if now >= time {
        return false;
    }
    match choice {
        Choice::Run(_) => true,
        Choice::Device(_) => true,
        Choice::Pass(ticks) => u64::from(*ticks) <= time - now,
    }
}

/// How many steps are turns that begin before the time, of those that may still be made.
fn turns_within(board: &Board, time: u32, left: u32) -> u32
    ensures { result ≡ min (within board.now left) (time - board.now.clock.time) }
{
    let ticks = u64::from(time).saturating_sub(board.time()) as u32;
    steps_left(board, left).min(ticks)
}

/// What is told of a step that began at a time. It made no call.
#[derive(Clone, Copy)]
struct ToldLines<'a> {
    time: u64,
    step: &'a Emit,
}

impl Text for ToldLines<'_> {
    ghost use Rattle.board_report.specs.Trace.{trace_text};

    ghost bytes = { λ lines. trace_text lines.time lines.step.now };

    fn write_to<K: Sink>(&self, out: &mut K) -> Result<(), Failed> {
        write_trace(self.time, self.step, out)
    }
}

/// Whether anything is told of a step but for its call.
fn has_lines(step: &Emit) -> bool
    ensures { result ≡ false → (time : ℕ) → uncalled_text time step.now ≡ [] }
{
    if step.denial.is_some() {
        return true;
    }
    if step.act.is_some() {
        return true;
    }
    !step.printed.is_empty()
}

/// Writes what is told of a step that began at a time, in which no call is shown afterwards.
fn write_told_step<K: Sink>(time: u64, step: &mut Emit, out: &mut K) -> Result<(), Failed>
    ensures { Writes K.tells out.old out.new (uncalled_text time step.old) result }
{
    writes_compose::<K>();
    // Of most steps nothing is told, and they pay for nothing.
    if !has_lines(step) {
        return Ok(());
    }
    step.made = None;
    OutputBuffer::new().finish(&ToldLines { time, step: &*step }, out)
}

/// The same, where it is asked for.
fn tell_step<K: Sink>(told: bool, time: u64, step: &mut Emit, out: &mut K) -> Result<(), Failed>
    ensures { Writes K.tells out.old out.new (told_if told (uncalled_text time step.old)) result }
{
    writes_compose::<K>();
    if told {
        write_told_step(time, step, out)
    } else {
        Ok(())
    }
}

/// Makes the steps of the round robin that begin before a time and end at it or before, at most so
/// many, and tells them where that is asked for.
fn make_to<K: Sink>(board: &mut Board, reach: Reach, out: &mut K) -> Result<(), Failed>
    ensures text { Writes K.tells out.old out.new (told_reaching reach board.old) result }
    ensures led { OnOk result (board.new ≡ world_reached reach board.old) }
{
    writes_compose::<K>();
    let mut emit = Emit::new();
    let mut left = reach.most;
    while left > 0 {
        let part = turns_within(board, reach.time, left);
        if part == 0 {
            return Ok(());
        }
        // The last step is made below.
        let quiet = board.run_quietly(part - 1);
        let steps = quiet.made + 1;
        let next_choice = quiet.next_choice;
        let end = quiet.end;
        let began = board.time();
        let Some(choice) = next_choice else {
            return Ok(());
        };
        if !is_within(board, reach.time, &choice) {
            return Ok(());
        }
        let Ok(()) = board.step_with_end(choice, end, &mut emit) else {
            unreachable!()
        };
        tell_step(reach.told, began, &mut emit, out)?;
        left -= steps;
    }
    Ok(())
}

/// Why the board stopped that was to go on to a time.
#[tactic(auto, unfolding(crate::specs::Times::time_stop))]
fn time_stop(board: &Board, time: u32) -> Stop
    ensures { result ≡ time_stop time board.now }
{
    let next_choice = choice_in(board);
    let Some(choice) = next_choice else {
        return stop_of(board);
    };
    if is_within(board, time, &choice) {
        Stop::Most
    } else {
        Stop::Time
    }
}

/// Makes the steps of the round robin that begin before a time and end at it or before, at most so
/// many, and no more than a board may make in all, and tells why the board stopped. So a line of the
/// script of that time, or of a later one, would change none of them. Where it is asked for, the
/// lines of the trace of each are written, but for those of calls. Where the sink fails, the board
/// has made some of these steps, and no more is known of it.
pub fn go_to<K: Sink>(board: &mut Board, reach: Reach, out: &mut K) -> Result<Stop, Failed>
    ensures text { Writes K.tells out.old out.new (told_reaching reach board.old) result }
    ensures led { OnOk result (board.new ≡ world_reached reach board.old) }
    ensures stop { IfOk result (λ stop. stop
        ≡ time_stop reach.time (world_reached reach board.old)) }
{
    writes_compose::<K>();
    make_to(board, reach, out)?;
    Ok(time_stop(board, reach.time))
}
