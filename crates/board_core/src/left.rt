//! Whether anything is left to do, where the slots have windows in turn, and up to when time passes
//! where nothing is ready.
ghost use Rattle.std.specs.Prelude.{◌≡◌, ◌||◌, ◌-◌, ◌<◌, ◌^◌, IfSome, is_some, map, slice_get};
ghost use Rattle.tk_base.specs.declared.process.Dev.TheVariants.{Event, Alarm, Uart, Receive};
ghost use Rattle.tk_base.specs.declared.process.Dev.TheVariants.{Random, Store};
ghost use Rattle.turn_scheduler.specs.RoundRobin.{device_order, ready_device};
ghost use Rattle.kernel_model.specs.Run.{is_left, is_left_for, next_time};
ghost use Rattle.kernel_model.specs.Parts.{work_for};
ghost use Rattle.kernel_model.specs.Named.{can_run};
ghost use Rattle.board_core.specs.Shows.{IsBoard, world_of};

use crate::state::BoardState;
use alarm_capsule::nearer_time;
use board_drivers::Served;
use board_turns::can_run;
use tk_base::{Dev, SLOT_COUNT, Slot};

/// Whether a device step is ready for a slot alone.
pub(crate) fn is_ready_alone(state: &BoardState, slot: Slot, device: Dev) -> bool
    requires { IsBoard state.now }
    ensures { result ≡ (work_for (world_of state.now) slot).ready device }
{
    let served = Served { only: Some(slot) };
    state.machine.is_ready(&served, device)
}

/// Whether one is that looks at the time.
fn is_time_alone(state: &BoardState, slot: Slot) -> bool
    requires { IsBoard state.now }
    ensures { let ready = (work_for (world_of state.now) slot).ready in
        result ≡ (ready Event || (ready Alarm || ready Uart)) }
{
    is_ready_alone(state, slot, Dev::Event)
        || is_ready_alone(state, slot, Dev::Alarm)
        || is_ready_alone(state, slot, Dev::Uart)
}

/// Whether one is that acts at once.
fn is_busy_alone(state: &BoardState, slot: Slot) -> bool
    requires { IsBoard state.now }
    ensures { let ready = (work_for (world_of state.now) slot).ready in
        result ≡ (ready Receive || (ready Random || ready Store)) }
{
    is_ready_alone(state, slot, Dev::Receive)
        || is_ready_alone(state, slot, Dev::Random)
        || is_ready_alone(state, slot, Dev::Store)
}

/// Whether one of the device steps is.
fn has_ready_alone(state: &BoardState, slot: Slot) -> bool
    requires { IsBoard state.now }
    ensures { result ≡ is_some
        (ready_device (map (work_for (world_of state.now) slot).ready device_order)) }
{
    is_time_alone(state, slot) || is_busy_alone(state, slot)
}

/// Whether one becomes so by itself.
fn has_next_alone(state: &BoardState, slot: Slot) -> bool
    requires { IsBoard state.now }
    ensures { result ≡ is_some (work_for (world_of state.now) slot).next }
{
    let served = Served { only: Some(slot) };
    state.machine.next_time(&served).is_some()
}

/// Whether a device step is ready for a slot, or becomes so.
fn has_work_alone(state: &BoardState, slot: Slot) -> bool
    requires { IsBoard state.now }
    ensures { let work = work_for (world_of state.now) slot in
        result ≡ (is_some (ready_device (map work.ready device_order)) || is_some work.next) }
{
    has_ready_alone(state, slot) || has_next_alone(state, slot)
}

/// Whether the process in a slot can have a turn, whosever window it is.
pub(crate) fn can_run_alone(state: &BoardState, slot: Slot) -> bool
    requires { IsBoard state.now }
    ensures { result ≡ can_run (slice_get (world_of state.now).records slot) }
{
    can_run(&state.machine.home, &state.processes, slot)
}

/// Whether anything is left to do for a slot: its process can have a turn, or there is work for
/// it.
fn is_left_for(state: &BoardState, slot: Slot) -> bool
    requires { IsBoard state.now }
    ensures { result ≡ is_left_for (world_of state.now) slot }
{
    can_run_alone(state, slot) || has_work_alone(state, slot)
}

/// Whether anything is left to do for any slot.
fn is_left(state: &BoardState) -> bool
    requires { IsBoard state.now }
    ensures { result ≡ is_left (world_of state.now) }
{
    for slot in 0..SLOT_COUNT {
        if is_left_for(state, Slot::new(slot)) {
            return true;
        }
    }
    false
}

/// Up to when time passes where nothing is ready: to the nearest time at which a device step
/// becomes ready by itself; with time partitions no further than to the window's end, and as
/// long as anything is left to do for any slot.
pub(crate) fn time_ahead(state: &BoardState) -> Option<u64>
    requires { IsBoard state.now }
    ensures at { result ≡ next_time (world_of state.now) }
    ensures near { IfSome result (λ at. at - (world_of state.now).clock.time < 2 ^ 32) }
{
    let moment = &state.machine.moment;
    let next = state.machine.next_time(&moment.served());
    let Some(end) = moment.window_end() else {
        return next;
    };
    if !is_left(state) {
        return None;
    }
    nearer_time(next, Some(end))
}
