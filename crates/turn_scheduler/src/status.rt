//! What the choice of the next step rests on, as tables.
ghost use Rattle.std.specs.Prelude.{◌≡◌};
ghost use Rattle.turn_scheduler.specs.Parts.{place_is_ready};

use crate::situated::{Present, Situated};
use arrayvec::ArrayVec;
use partition_turns::Lanes;
use tk_base::{Dev, SLOT_COUNT, Slot};

/// What the next choice reads of a board. Contracts speak of it as a situation, with lists for the
/// tables and a number for the slot, and of its lanes as a `LanesView`.
#[derive(Drop)]
pub struct Status {
    /// Whether the process in each slot can have a turn, slot 0 first. A slot past its end cannot.
    pub ready: ArrayVec<bool, SLOT_COUNT>,
    /// Whether each device step is ready, in the order of `Dev`'s variants. One past its end is
    /// not.
    pub devices: ArrayVec<bool, 6>,
    /// The nearest time, in ticks, at which a device step becomes ready that is not ready now.
    pub next: Option<u64>,
    /// The time, in ticks.
    pub time: u64,
    /// The slot that had the last turn of a process.
    pub present: Option<Slot>,
    /// How many turns of its slice the present slot has used.
    pub used: u32,
    /// How many turns a slot may have in a row while another one is ready.
    pub slice: u32,
    /// What there is in each slot's window, with time partitions.
    pub lanes: Option<Lanes>,
}

/// What a table of flags says of a place; false past its end.
fn is_ready(table: &[bool], place: usize) -> bool
    ensures { result ≡ place_is_ready table.now place }
{
    place < table.len() && table[place]
}

impl Situated for Status {
    ghost use Rattle.turn_scheduler.specs.RoundRobin.{IsNextAhead};
    ghost use Rattle.turn_scheduler.specs.Status.{situation_shown};

    ghost situation = { situation_shown };

    ghost asks = { λ status. IsNextAhead (situation_shown status) };

    fn device_is_ready(&self, device: Dev) -> bool {
        is_ready(&self.devices, device as usize)
    }

    fn slot_is_ready(&self, slot: Slot) -> bool {
        is_ready(&self.ready, slot.index())
    }

    fn slots(&self) -> usize {
        self.ready.len()
    }

    fn next(&self) -> Option<u64> {
        self.next
    }

    fn time(&self) -> u64 {
        self.time
    }

    fn present(&self) -> Present {
        Present {
            slot: self.present,
            used: self.used,
            slice: self.slice,
        }
    }
}
