//! The next step of a board in the window of a slot.
ghost use Rattle.std.specs.Prelude.{◌≡◌, ◌+◌, ◌-◌, ◌*◌, ◌^◌, ◌<◌, ◌≤◌, find};
ghost use Rattle.std.specs.List.{range_with_len};
ghost use Rattle.tk_base.specs.declared.limits.TheConstants.{SLOT_COUNT, STEP_LIMIT};
ghost use Rattle.tk_base.specs.declared.process.Choice.TheVariants.{Pass};
ghost use Rattle.partition_turns.specs.Lanes.{lanes_shown};
ghost use Rattle.partition_turns.specs.Windows.{AreAhead, device_in_window, earlier, is_left};
ghost use Rattle.partition_turns.specs.Windows.{is_left_in, passes_to, window_choice};

use crate::lanes::Lanes;
use crate::windows::{window_end, window_slot};
use tk_base::{Choice, Dev, SLOT_COUNT, Slot};

/// The device steps in the order in which they are asked.
const DEVICES: [Dev; 6] = [
    Dev::Event,
    Dev::Alarm,
    Dev::Uart,
    Dev::Receive,
    Dev::Random,
    Dev::Store,
];

/// The first device step that is ready in the window of a slot.
#[tactic(auto, unfolding(crate::specs::Windows::device_in_window))]
fn device_in_window(lanes: &Lanes, slot: Slot) -> Option<Dev>
    ensures { result ≡ device_in_window (lanes_shown lanes.now) slot }
{
    DEVICES
        .iter()
        .find(|device| lanes.device_is_ready(slot, **device))
        .copied()
}

/// Whether something is left to do for a slot.
fn is_left_in(lanes: &Lanes, slot: Slot) -> bool
    ensures { result ≡ is_left_in (lanes_shown lanes.now) slot }
{
    lanes.slot_is_ready(slot)
        || device_in_window(lanes, slot).is_some()
        || lanes.alarm_time(slot).is_some()
        || lanes.uart_time(slot).is_some()
}

/// The first slot for which something is left to do, from one on and below another.
fn first_left(lanes: &Lanes, from: usize, to: usize) -> Option<Slot>
    requires { to ≤ SLOT_COUNT }
    ensures { result ≡ find (is_left_in (lanes_shown lanes.now)) (range_with_len from (to - from)) }
{
    for slot in from..to {
        if is_left_in(lanes, Slot::new(slot)) {
            return Some(Slot::new(slot));
        }
    }
    None
}

/// Whether something is left to do.
#[tactic(auto, unfolding(crate::specs::Windows::is_left))]
fn is_left(lanes: &Lanes) -> bool
    ensures { result ≡ is_left (lanes_shown lanes.now) }
{
    lanes.event_at.is_some() || first_left(lanes, 0, SLOT_COUNT).is_some()
}

/// The earlier of a time, where there is one, and another.
fn earlier(at: Option<u64>, time: u64) -> u64
    ensures value { result ≡ earlier at time }
    ensures within { result ≤ time }
{
    match at {
        None => time,
        Some(at) => at.min(time),
    }
}

/// The Pass in the window of a slot that has nothing to do.
#[tactic(auto, unfolding(crate::specs::Windows::passes_to))]
fn pass_in(lanes: &Lanes, slot: Slot) -> Choice
    requires some { 1 ≤ lanes.now.n }
    requires reached { lanes.now.time ≤ STEP_LIMIT * 2 ^ 32 }
    requires ahead { lanes.now.time < passes_to (lanes_shown lanes.now) slot }
    ensures { result ≡ Pass (passes_to (lanes_shown lanes.now) slot - lanes.now.time) }
{
    let end = window_end(lanes.time, lanes.n);
    let free = earlier(lanes.uart_time(slot), end);
    let due = earlier(lanes.alarm_time(slot), free);
    let to = earlier(lanes.event_at, due);
    Choice::Pass((to - lanes.time) as u32)
}

/// The next choice where the slots have windows in turn: an Event that is ready; else the first
/// device step that has work for the slot whose window it is; else that slot's turn; else a Pass to
/// the first of the window's end, the next event, and the next times of that slot's alarm and UART;
/// and none where nothing is left to do for any slot. It asks that each of these times lies ahead
/// where that step is not ready now.
#[tactic(auto, unfolding(crate::specs::Windows::slot_choice))]
pub fn next_in_window(lanes: &Lanes) -> Option<Choice>
    requires some { 1 ≤ lanes.now.n }
    requires reached { lanes.now.time ≤ STEP_LIMIT * 2 ^ 32 }
    requires ahead { AreAhead (lanes_shown lanes.now) }
    ensures { result ≡ window_choice (lanes_shown lanes.now) }
{
    let slot = window_slot(lanes.time, lanes.n);
    if let Some(device) = device_in_window(lanes, slot) {
        return Some(Choice::Device(device));
    }
    if lanes.slot_is_ready(slot) {
        return Some(Choice::Run(slot));
    }
    if !is_left(lanes) {
        return None;
    }
    Some(pass_in(lanes, slot))
}
