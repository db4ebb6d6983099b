//! Which process has the next turn.
ghost use Rattle.std.specs.Prelude.{◌≡◌, ◌-◌, ◌≤◌, find, IfSome, None, Some};
ghost use Rattle.std.specs.List.{range_with_len};
ghost use Rattle.tk_base.specs.declared.limits.TheConstants.{SLOT_COUNT};
ghost use Rattle.tk_base.specs.declared.process.Choice.TheVariants.{Run};
ghost use Rattle.turn_scheduler.specs.RoundRobin.{choice, ready_device, slots_after, used_after};
ghost use Rattle.turn_scheduler.specs.Parts.{place_is_ready};
ghost use Rattle.turn_scheduler.specs.Parts.{goes_on_in};

use crate::situated::{Present, Situated};
use tk_base::{SLOT_COUNT, Slot};

/// The first slot that is ready, from one on and below another.
fn first_ready<S: Situated>(situated: &S, from: usize, to: usize) -> Option<Slot>
    requires { to ≤ SLOT_COUNT }
    ensures { result
        ≡ find (place_is_ready (S.situation situated.now).ready) (range_with_len from (to - from)) }
{
    for slot in from..to {
        if situated.slot_is_ready(Slot::new(slot)) {
            return Some(Slot::new(slot));
        }
    }
    None
}

/// The next ready slot after the present one in cyclic order, the present one last; with none
/// present, the first from slot 0.
pub(crate) fn next_in_order<S: Situated>(situated: &S, present: Option<Slot>) -> Option<Slot>
    ensures { result
        ≡ find (place_is_ready (S.situation situated.now).ready) (slots_after present) }
{
    let slots = situated.slots();
    if slots == 0 {
        return None;
    }
    let Some(present) = present else {
        return first_ready(situated, 0, slots);
    };
    let after = present.index() + 1;
    match first_ready(situated, after, slots) {
        Some(slot) => Some(slot),
        None => first_ready(situated, 0, after),
    }
}

/// The present slot, where it has the next turn: it is ready, and has used fewer turns than its
/// slice. Where no device step is ready, that turn is the next choice.
#[inline(always)]
#[tactic(auto, unfolding(crate::specs::RoundRobin::choice, crate::specs::RoundRobin::next_slot))]
pub fn slot_going_on<S: Situated>(situated: &S) -> Option<Slot>
    ensures slot { result ≡ goes_on_in (S.situation situated.now) }
    ensures chosen { IfSome result (λ slot. ready_device (S.situation situated.now).devices ≡ None
        → choice (S.situation situated.now) ≡ Some (Run slot)) }
{
    let Present { slot, used, slice } = situated.present();
    let present = slot?;
    if used < slice && situated.slot_is_ready(present) {
        return Some(present);
    }
    None
}

/// How many turns of its slice a slot has used after one more turn, after which it is the present
/// one: one more, if it was the present one and its slice was not used up; else 1. So it has used
/// no more than its slice, where that has a turn and no more were used before.
pub fn used_after(present: Option<Slot>, used: u32, slice: u32, slot: Slot) -> u32
    ensures value { result ≡ used_after present used slice slot }
    ensures within { 1 ≤ slice → used ≤ slice → result ≤ slice }
{
    match present {
        Some(present) if present == slot && used < slice => used + 1,
        _ => 1,
    }
}
