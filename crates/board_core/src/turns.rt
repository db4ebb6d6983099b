//! A turn of the process in a slot, and what it leaves of all that is kept of it.
ghost use Rattle.std.specs.Prelude.{◌≡◌, ◌<◌};
ghost use Rattle.tk_base.specs.declared.limits.TheConstants.{STEP_LIMIT};
ghost use Rattle.tk_base.specs.declared.process.Choice.TheVariants.{Run};
ghost use Rattle.board_core.specs.KnownEnds.{IsKnownOfChoice};
ghost use Rattle.board_core.specs.Makes.{MakesStep, showing};
ghost use Rattle.board_core.specs.Shows.{IsBoard, world_of};

use crate::shown::clear;
use crate::state::BoardState;
use driver_model::time_brings_an_alarm_nearer;
use kernel_alarms::alarms_change_at_their_commands;
use kernel_laws::{grants_change_at_calls, turns_keep_lines};
use process_record::Emit;
use rv32_model::TurnEnd;
use tk_base::{NotReady, STEP_LIMIT, Slot};

/// A turn of the process in a slot; `NotReady` where it can have none, and nothing has changed then.
/// When its alarm becomes due is looked at again where the turn may have armed one, and when a
/// device step is ready where it may have acted.
#[inline(always)]
pub(crate) fn make_turn(
    state: &mut BoardState,
    slot: Slot,
    end: TurnEnd,
    emit: &mut Emit,
) -> Result<(), NotReady>
    requires board { IsBoard state.old }
    requires limit { (world_of state.old).clock.steps < STEP_LIMIT }
    requires known { IsKnownOfChoice (world_of state.old) end (Run slot) }
    ensures board { IsBoard state.new }
    ensures step { MakesStep (Run slot) (showing (world_of state.old) emit.old)
        (showing (world_of state.new) emit.new) result }
{
    grants_change_at_calls();
    turns_keep_lines();
    alarms_change_at_their_commands();
    time_brings_an_alarm_nearer();
    if !state.machine.ready.has(slot) {
        return Err(NotReady);
    }
    clear(emit, Some(slot));
    state.machine.turn_at(&mut state.processes, slot, end, emit);
    state.machine.look_at(&state.processes, slot);
    state.present.take_turn(slot);
    state.machine.moment.time += 1;
    state.machine.moment.steps += 1;
    state.machine.note_turn(slot, emit);
    Ok(())
}
