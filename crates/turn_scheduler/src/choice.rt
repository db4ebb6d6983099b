//! The next step of the board.
ghost use Rattle.std.specs.Prelude.{◌≡◌, None};
ghost use Rattle.turn_scheduler.specs.Parts.{goes_on_in};
ghost use Rattle.turn_scheduler.specs.RoundRobin.{ready_device, choice};
ghost use Rattle.turn_scheduler.specs.Status.{IsChoiceAhead, choice_by, lanes_told};
ghost use Rattle.turn_scheduler.specs.Status.{situation_shown};

use crate::situated::Situated;
use crate::slots::{next_in_order, slot_going_on};
use crate::status::Status;
use partition_turns::next_in_window;
use tk_base::{Choice, Dev};

/// The first device step that is ready. The devices are asked one by one, not in a loop: so what is
/// asked is known where the code is made.
#[inline(always)]
#[tactic(auto, unfolding(crate::specs::RoundRobin::ready_device))]
fn ready_device<S: Situated>(situated: &S) -> Option<Dev>
    ensures { result ≡ ready_device (S.situation situated.now).devices }
{
    if situated.device_is_ready(Dev::Event) {
        return Some(Dev::Event);
    }
    if situated.device_is_ready(Dev::Alarm) {
        return Some(Dev::Alarm);
    }
    if situated.device_is_ready(Dev::Uart) {
        return Some(Dev::Uart);
    }
    if situated.device_is_ready(Dev::Receive) {
        return Some(Dev::Receive);
    }
    if situated.device_is_ready(Dev::Random) {
        return Some(Dev::Random);
    }
    if situated.device_is_ready(Dev::Store) {
        return Some(Dev::Store);
    }
    None
}

/// The next choice in a situation in which no device step is ready, as [`next_choice_in`] says it.
/// It asks what the situation is told under.
// Most often the present slot goes on: that is inlined, and the rest is not.
#[inline(always)]
#[tactic(auto, unfolding(crate::specs::RoundRobin::choice, crate::specs::RoundRobin::next_slot))]
pub fn next_in_calm<S: Situated>(situated: &S) -> Option<Choice>
    requires none { ready_device (S.situation situated.now).devices ≡ None }
    requires asks { S.asks situated.now }
    ensures { result ≡ choice (S.situation situated.now) }
{
    match slot_going_on(situated) {
        Some(slot) => Some(Choice::Run(slot)),
        None => next_in_turn(situated),
    }
}

/// The next choice where the present slot does not go on: the next slot in turn that is ready, or a
/// Pass.
#[inline(never)]
#[tactic(auto, unfolding(crate::specs::RoundRobin::choice, crate::specs::RoundRobin::next_slot))]
fn next_in_turn<S: Situated>(situated: &S) -> Option<Choice>
    requires none { ready_device (S.situation situated.now).devices ≡ None }
    requires asks { S.asks situated.now }
    requires over { goes_on_in (S.situation situated.now) ≡ None }
    ensures { result ≡ choice (S.situation situated.now) }
{
    if let Some(slot) = next_in_order(situated, situated.present().slot) {
        return Some(Choice::Run(slot));
    }
    let at = situated.next()?;
    Some(Choice::Pass((at - situated.time()) as u32))
}

/// The next choice in a situation, as round robin chooses: the first ready device step; else the
/// slot that has the next turn of a process; else a Pass to the time at which a device step becomes
/// ready, which takes `next - time` ticks; else none. The next turn has the present slot, if it is
/// ready and has used fewer turns than its slice; else the next ready one after it in cyclic order,
/// the present one last (with none present, from slot 0). It asks what the situation is told under.
#[tactic(auto, unfolding(crate::specs::RoundRobin::choice))]
pub fn next_choice_in<S: Situated>(situated: &S) -> Option<Choice>
    requires { S.asks situated.now }
    ensures { result ≡ choice (S.situation situated.now) }
{
    if let Some(device) = ready_device(situated) {
        return Some(Choice::Device(device));
    }
    next_in_calm(situated)
}

/// The next choice of the board with this status: as round robin chooses ([`next_choice_in`]), or,
/// with time partitions, in the window of the slot whose window it is ([`next_in_window`]). It asks
/// that, where no device step is ready, the time at which one becomes so lies ahead, by at most
/// `2^32 - 1` ticks; and with time partitions, that each time at which a device step becomes ready
/// for that slot lies ahead where it is not ready now.
pub fn next_choice(status: &Status) -> Option<Choice>
    requires { IsChoiceAhead (situation_shown status.now) (lanes_told status.now) }
    ensures { result ≡ choice_by (situation_shown status.now) (lanes_told status.now) }
{
    match &status.lanes {
        Some(lanes) => next_in_window(lanes),
        None => next_choice_in(status),
    }
}
