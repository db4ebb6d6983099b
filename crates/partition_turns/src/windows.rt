//! Whose window it is, and up to when.
ghost use Rattle.std.specs.Prelude.{◌≡◌, ◌+◌, ◌*◌, ◌^◌, ◌<◌, ◌≤◌};
ghost use Rattle.tk_base.specs.declared.limits.TheConstants.{STEP_LIMIT};
ghost use Rattle.partition_turns.specs.Windows.{window_end, window_slot};

use tk_base::{SLOT_COUNT, Slot};

/// The slot whose window it is at a time, where each window has `n` ticks: the slots have windows
/// in turn, slot 0 from time 0 on.
pub fn window_slot(time: u64, n: u32) -> Slot
    requires { 1 ≤ n }
    ensures { result ≡ window_slot time n }
{
    Slot::new((time / u64::from(n) % SLOT_COUNT as u64) as usize)
}

/// The first time after the window, where each window has `n` ticks. It lies ahead, by `n` ticks at
/// most.
#[tactic(auto, using(crate::proofs::Rotation::end_is_ahead, crate::proofs::Rotation::end_is_near))]
pub fn window_end(time: u64, n: u32) -> u64
    requires some { 1 ≤ n }
    requires reached { time ≤ STEP_LIMIT * 2 ^ 32 }
    ensures value { result ≡ window_end time n }
    ensures ahead { time < result }
    ensures near { result ≤ time + n }
{
    (time / u64::from(n) + 1) * u64::from(n)
}
