//! What the choice in a window rests on.
ghost use Rattle.std.specs.Prelude.{◌≡◌, None, false, slice_index_or};

use arrayvec::ArrayVec;
use tk_base::{Dev, SLOT_COUNT, Slot};

/// What the choice in a window reads of a board: the time, the next event, and of each slot its
/// process and its lane, which is what the devices have for it. Slot 0 comes first in each list; of
/// a slot past its end nothing is ready, and nothing comes. Contracts speak of it as a `LanesView`,
/// with lists.
#[derive(Drop)]
pub struct Lanes {
    /// The time, in ticks.
    pub time: u64,
    /// How many ticks a window has.
    pub n: u32,
    /// Whether the process in each slot can have a turn.
    pub slots: ArrayVec<bool, SLOT_COUNT>,
    /// Whether an Event is ready.
    pub event_ready: bool,
    /// The time of the next event, in ticks.
    pub event_at: Option<u64>,
    /// Whether Alarm, Uart, Receive, Random and Store, in this order, have work for each slot that
    /// is ready.
    pub devices: ArrayVec<ArrayVec<bool, 5>, SLOT_COUNT>,
    /// The time at which Alarm has work for each slot, in ticks, where an alarm of it is armed.
    pub alarm_at: ArrayVec<Option<u64>, SLOT_COUNT>,
    /// The time at which Uart has work for each slot, in ticks, where a write of it waits.
    pub uart_at: ArrayVec<Option<u64>, SLOT_COUNT>,
}

/// What a list of flags says of a place; false past its end.
fn is_set(flags: &[bool], place: usize) -> bool
    ensures { result ≡ slice_index_or flags.now place false }
{
    place < flags.len() && flags[place]
}

/// The time that a list has at a place, if it has one.
fn time_in(times: &[Option<u64>], place: usize) -> Option<u64>
    ensures { result ≡ slice_index_or times.now place None }
{
    if place < times.len() {
        times[place]
    } else {
        None
    }
}

impl Lanes {
    ghost use Rattle.std.specs.Prelude.{◌≡◌, false, slice_index_or};
    ghost use Rattle.partition_turns.specs.LanesView.{alarm_time, lane_of, slot_is_ready};
    ghost use Rattle.partition_turns.specs.LanesView.{uart_time};
    ghost use Rattle.partition_turns.specs.Lanes.{lanes_shown};
    ghost use Rattle.partition_turns.specs.Windows.{device_is_ready};

    /// Whether the process in a slot can have a turn.
    pub(crate) fn slot_is_ready(&self, slot: Slot) -> bool
        ensures { result ≡ slot_is_ready (lanes_shown self.now) slot }
    {
        is_set(&self.slots, slot.index())
    }

    /// Whether the device at a place of a lane has work for the slot that is ready.
    fn lane_is_set(&self, slot: Slot, place: usize) -> bool
        ensures { result ≡ slice_index_or (lane_of (lanes_shown self.now) slot) place false }
    {
        slot.index() < self.devices.len() && is_set(&self.devices[slot.index()], place)
    }

    /// Whether a device step is ready in the window of a slot: an Event, or one that has work for
    /// that slot.
    pub(crate) fn device_is_ready(&self, slot: Slot, device: Dev) -> bool
        ensures { result ≡ device_is_ready (lanes_shown self.now) slot device }
    {
        match device {
            Dev::Event => self.event_ready,
            Dev::Alarm => self.lane_is_set(slot, 0),
            Dev::Uart => self.lane_is_set(slot, 1),
            Dev::Receive => self.lane_is_set(slot, 2),
            Dev::Random => self.lane_is_set(slot, 3),
            Dev::Store => self.lane_is_set(slot, 4),
        }
    }

    /// The time at which the alarm of a slot becomes due.
    pub(crate) fn alarm_time(&self, slot: Slot) -> Option<u64>
        ensures { result ≡ alarm_time (lanes_shown self.now) slot }
    {
        time_in(&self.alarm_at, slot.index())
    }

    /// The time at which the UART becomes free for a write of a slot.
    pub(crate) fn uart_time(&self, slot: Slot) -> Option<u64>
        ensures { result ≡ uart_time (lanes_shown self.now) slot }
    {
        time_in(&self.uart_at, slot.index())
    }
}
