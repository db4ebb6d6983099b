//! An operator's acts on processes.
ghost use Rattle.std.specs.Prelude.{◌≡◌, ◌<◌, true, length, slice_get, IfSome, Some};
ghost use Rattle.tk_base.specs.declared.limits.TheConstants.{STEP_LIMIT};
ghost use Rattle.tk_base.specs.declared.process.Choice.TheVariants.{Device};
ghost use Rattle.tk_base.specs.declared.process.Dev.TheVariants.{Event};
ghost use Rattle.board_devices.specs.Arriving.{is_time};
ghost use Rattle.kernel_model.specs.World.{listed};
ghost use Rattle.board_core.specs.Makes.{MakesStep, act_meant, showing};
ghost use Rattle.board_core.specs.Shows.{IsBoard, world_of};

use crate::lines::summary;
use crate::shown::show_act;
use crate::state::BoardState;
use arrayvec::ArrayVec;
use driver_model::lines_follow_answers;
use kernel_model::devices_answer_one;
use process_console::{find, list_line};
use process_record::Emit;
use tk_base::{NotReady, PRINT_LIMIT, STEP_LIMIT, Slot, Verb};

/// The act of an operator that is next to come in, with the slot of the process that it means.
/// None where something else is next, or nobody has that name.
#[tactic(auto, unfolding(kernel_model::specs::Shown::summary_of))]
pub(crate) fn act_meant(state: &BoardState) -> Option<(Slot, Verb)>
    requires { IsBoard state.now }
    ensures { result ≡ act_meant (world_of state.now) }
{
    let act = state.machine.drivers.arrivals.next_act()?;
    let slot = find(&summary(state), &act.name)?;
    Some((slot, act.verb))
}

/// What an operator's act on the process in a slot prints: its line, where it is listed.
#[tactic(auto, unfolding(kernel_model::specs::Shown::summary_of))]
fn listing(state: &BoardState, slot: Slot, verb: Verb) -> ArrayVec<u8, PRINT_LIMIT>
    requires board { IsBoard state.now }
    requires slot { slot < length (world_of state.now).records }
    ensures { IfSome (slice_get (world_of state.now).records slot)
        (λ r. result.items ≡ listed verb slot r) }
{
    if verb != Verb::List {
        return ArrayVec::new();
    }
    list_line(slot, &summary(state).slots[slot.index()])
}

/// An operator acts on the process in a slot. It asks that the act is next to come in and means that
/// process, so it is not refused.
pub(crate) fn operate(
    state: &mut BoardState,
    slot: Slot,
    verb: Verb,
    emit: &mut Emit,
) -> Result<(), NotReady>
    requires board { IsBoard state.old }
    requires limit { (world_of state.old).clock.steps < STEP_LIMIT }
    requires ready { is_time (world_of state.old).clock.time (world_of state.old).devices.arrivals
        ≡ true }
    requires meant { act_meant (world_of state.old) ≡ Some (slot, verb) }
    ensures board { IsBoard state.new }
    ensures step { MakesStep (Device Event) (showing (world_of state.old) emit.old)
        (showing (world_of state.new) emit.new) result }
{
    devices_answer_one();
    lines_follow_answers();
    let printed = listing(state, slot, verb);
    let slots = state.processes.len();
    state.machine.drivers.arrive(&mut state.machine.home, slots);
    state.machine.operate_at(&mut state.processes, slot, verb);
    state.machine.look_at(&state.processes, slot);
    show_act(emit, slot, verb, printed);
    state.machine.moment.steps += 1;
    state.machine.note_alarm(slot);
    state.machine.calm = state.machine.look_ahead();
    Ok(())
}
