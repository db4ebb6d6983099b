//! Turns of one process: whose they are, how many are left, and how many of its slice have been used.
ghost use Rattle.std.specs.Prelude.{◌≡◌, ◌+◌, ◌-◌, ◌≤◌, ◌<◌, ◌^◌, true, false, ℕ, Some};
ghost use Rattle.std.specs.Prelude.{IfSome, IfNone, slice_get};
ghost use Rattle.tk_base.specs.declared.limits.TheConstants.{STEP_LIMIT};
ghost use Rattle.tk_base.specs.declared.process.Choice.TheVariants.{Run};
ghost use Rattle.turn_scheduler.specs.RoundRobin.{used_after};
ghost use Rattle.kernel_laws.specs.Alone.{used_through};
ghost use Rattle.board_core.specs.Running.{slot_runs};

use board_drivers::Moment;
use process_record::{Process, State};
use tk_base::{Choice, STEP_LIMIT, Slot};
use turn_scheduler::used_after;

/// Whose turn it is: the slot that had the last turn, in its slice.
#[derive(Clone, Copy)]
pub(crate) struct PresentSlot {
    /// The slot that had the last turn.
    pub slot: Option<Slot>,
    /// How many turns of its slice that slot has used.
    pub used: u32,
    /// How many turns a process may have in a row while another is ready.
    pub slice: u32,
}

impl PresentSlot {
    /// How many turns of its slice a slot has used before its next turn: none, where a slice begins
    /// with it.
    pub fn used_before(&self, slot: Slot) -> u32
        requires { 1 ≤ self.now.slice }
        ensures value { result ≡ used_after self.now.slot self.now.used self.now.slice slot - 1 }
        ensures within { result < self.now.slice }
    {
        match self.slot {
            Some(present) if present == slot && self.used < self.slice => self.used,
            _ => 0,
        }
    }

    /// Up to how many turns a slot goes on: to the end of its slice; or, where no other slot can
    /// have a turn, on and on, since each of its slices is followed by another.
    pub fn last_turn(&self, alone: bool) -> u32
        ensures within { self.now.slice ≤ result }
        ensures slice { alone ≡ false → result ≡ self.now.slice }
    {
        let slice = self.slice;
        if alone {
            return u32::MAX;
        }
        slice
    }

    /// A slot that had used `before` of its slice went on for so many turns, slice after slice. No
    /// turn changes nothing.
    pub fn go_on(&mut self, slot: Slot, before: u32, made: u32)
        requires slice { 1 ≤ self.old.slice }
        requires made { before + made < 2 ^ 32 }
        ensures none { made ≡ 0 → (self.new.slot ≡ self.old.slot) × (self.new.used ≡ self.old.used) }
        ensures some { 0 < made → (self.new.slot ≡ Some slot)
            × (self.new.used ≡ used_through self.old.slice before made) }
        ensures rest { self.new ≡ record self.old { slot = self.new.slot; used = self.new.used } }
    {
        if made == 0 {
            return;
        }
        self.slot = Some(slot);
        let used = before + made;
        if used <= self.slice {
            // Mostly it is not over yet, and a division takes longer than this question.
            self.used = used;
            return;
        }
        self.used = (used - 1) % self.slice + 1;
    }

    /// A slot had a turn.
    pub fn take_turn(&mut self, slot: Slot)
        ensures turn { self.new ≡ record self.old { slot = Some slot; used = self.new.used } }
        ensures used { self.new.used ≡ used_after self.old.slot self.old.used self.old.slice slot }
        ensures within { 1 ≤ self.old.slice → self.old.used ≤ self.old.slice
            → self.new.used ≤ self.old.slice }
    {
        self.used = used_after(self.slot, self.used, self.slice, slot);
        self.slot = Some(slot);
    }
}

/// The slot that has the turn of a choice, if it is a turn.
pub(crate) fn slot_of(choice: &Option<Choice>) -> Option<Slot>
    ensures turn { IfSome result (λ slot. choice.now ≡ Some (Run slot)) }
    ensures none { IfNone result ((slot : ℕ) → choice.now ≡ Some (Run slot) → ⊥) }
{
    match *choice {
        Some(Choice::Run(slot)) => Some(slot),
        Some(Choice::Device(_) | Choice::Pass(_)) | None => None,
    }
}

/// Whether there is a process in a slot, and it runs.
pub(crate) fn is_running(processes: &[Process], slot: Slot) -> bool
    ensures { result ≡ slot_runs (slice_get processes.now slot) }
{
    match processes.get(slot.index()) {
        Some(process) => matches!(process.state, State::Running),
        None => false,
    }
}

/// How many turns are left, of so many, up to the last one, to the limit of steps, and to a time
/// that lies ahead.
pub(crate) fn turns_left(used: u32, last: u32, moment: &Moment, until: u64, most: u32) -> u32
    requires used { used ≤ last }
    requires steps { moment.now.steps ≤ STEP_LIMIT }
    requires ahead { moment.now.time ≤ until }
    ensures most { result ≤ most }
    ensures last { used + result ≤ last }
    ensures limit { moment.now.steps + result ≤ STEP_LIMIT }
    ensures until { moment.now.time + result ≤ until }
    ensures all { result < most → used + result < last → moment.now.steps + result < STEP_LIMIT
        → moment.now.time + result < until → ⊥ }
{
    let left = u64::from(most.min(last - used));
    let left = left.min(STEP_LIMIT - moment.steps);
    left.min(until - moment.time) as u32
}

/// Whether a stretch ends after these turns, of so many that were left: the next one is none of it,
/// or none was left.
pub(crate) fn is_over(made: u32, left: u32) -> bool
    ensures over { result ≡ true → left ≤ made → left ≡ 0 }
    ensures on { result ≡ false → 0 < made }
{
    made < left || left == 0
}
