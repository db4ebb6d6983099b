//! What the choice of the next step rests on, read a part at a time.
ghost use Rattle.std.specs.Prelude.{◌≡◌, ◌≤◌, ℕ, false, IfSome, None};
ghost use Rattle.tk_base.specs.declared.limits.TheConstants.{SLOT_COUNT};
ghost use Rattle.turn_scheduler.specs.RoundRobin.{LiesAhead, device_place};
ghost use Rattle.turn_scheduler.specs.Parts.{place_is_ready};
ghost use Rattle.turn_scheduler.specs.RoundRobin.{ready_device};

use tk_base::{Dev, Slot};

/// Whose turn it is, as round robin asks for it.
#[derive(Clone, Copy)]
pub struct Present {
    /// The slot that had the last turn of a process.
    pub slot: Option<Slot>,
    /// How many turns of its slice that slot has used.
    pub used: u32,
    /// How many turns a slot may have in a row while another one is ready.
    pub slice: u32,
}

/// What tells the situation of a board, each part where it is asked for. So who knows that a device
/// step is ready looks at no slot, and the time at which one becomes ready is looked for only where
/// nothing is.
pub trait Situated {
    ghost use Rattle.turn_scheduler.specs.Situation.{Situation};

    /// The situation that it tells.
    ghost situation: { Self → Situation };

    /// What it asks, to tell a time that lies ahead.
    ghost asks: { Self → Type 0 };

    /// Whether a device step is ready.
    fn device_is_ready(&self, device: Dev) -> bool
        ensures { result ≡ place_is_ready (situation self.now).devices (device_place device) };

    /// Whether the process in a slot can have a turn.
    fn slot_is_ready(&self, slot: Slot) -> bool
        ensures { result ≡ place_is_ready (situation self.now).ready slot };

    /// A number of slots from which on none is ready.
    fn slots(&self) -> usize
        ensures within { result ≤ SLOT_COUNT }
        ensures none { (slot : ℕ) → result ≤ slot
            → place_is_ready (situation self.now).ready slot ≡ false };

    /// The nearest time, in ticks, at which a device step becomes ready by itself, where none is
    /// ready now: it lies ahead, by at most `2^32 - 1` ticks.
    fn next(&self) -> Option<u64>
        requires none { ready_device (situation self.now).devices ≡ None }
        requires asks { asks self.now }
        ensures at { result ≡ (situation self.now).next }
        ensures ahead { IfSome result (LiesAhead (situation self.now).time) };

    /// The time, in ticks.
    fn time(&self) -> u64
        ensures { result ≡ (situation self.now).time };

    /// The present slot, and its slice.
    fn present(&self) -> Present
        ensures slot { result.slot ≡ (situation self.now).present }
        ensures used { result.used ≡ (situation self.now).used }
        ensures slice { result.slice ≡ (situation self.now).slice };
}
