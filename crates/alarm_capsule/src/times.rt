//! When the alarms become due.
ghost use Rattle.std.specs.Prelude.{◌≡◌, ◌+◌, ◌≤◌, ◌^◌, true, None, Some, IfSome, is_some, length};
ghost use Rattle.std.specs.Prelude.{replicate, slice_get, slice_index_or, slice_set, option_map, ℕ, ◌<◌};
ghost use Rattle.tk_base.specs.declared.limits.TheConstants.{SLOT_COUNT};
ghost use Rattle.grant_enter.specs.Homes.{Homes, own_of};
ghost use Rattle.driver_requests.specs.Asking.{IsPresent};
ghost use Rattle.alarm_capsule.specs.Due.{AlarmIsDue};
ghost use Rattle.driver_model.specs.Alarm.{alarm_in, due_for, due_slot, has_due, left_for, nearer};
ghost use Rattle.driver_model.specs.Alarm.{next_left};
ghost use Rattle.driver_model.specs.Alarm.{ticks_left};
ghost use Rattle.driver_model.specs.Alarm.{ticks_left_in};
ghost use Rattle.alarm_capsule.specs.Times.{AllBehind, AllTell, BecomesDue, NoneDueBelow, OthersTell};
ghost use Rattle.alarm_capsule.specs.Times.{TellsAlarm};
ghost use Rattle.alarm_capsule.specs.Times.{comes_before, nearest_kept};

use crate::answers::{Due, expired_in};
use crate::visits::alarms;
use driver_model::an_alarm_is_due_where_no_ticks_are_left;
use grant_enter::Home;
use grant_values::{Alarm, Armed};
use std::marker::Model;
use tk_base::{ProcessId, SLOT_COUNT, Slot};

/// How many ticks are left until an alarm becomes due: 0 where it is due.
fn ticks_left(alarm: &Armed, now: u32) -> u32
    ensures { result ≡ ticks_left now alarm.now }
{
    alarm
        .delta
        .saturating_sub(now.wrapping_sub(alarm.reference))
}

/// The alarm that a process has armed, if it has.
fn alarm_of(home: &Home, id: &ProcessId) -> Option<Armed>
    requires { IsPresent home.now id.now }
    ensures { result ≡ alarm_in (own_of home.now id.now.slot) }
{
    match alarms().peek(home, *id) {
        Ok(Some(Alarm { armed })) => armed,
        _ => None,
    }
}

/// The ticks that are left of the alarm of the process that lives in a slot. None exactly where
/// none lives there, or it has none armed.
fn ticks_left_in(home: &Home, slot: Slot, now: u32) -> Option<u32>
    ensures is { result ≡ ticks_left_in now home.now.owns slot }
    ensures due { IfSome result (λ left. BecomesDue now 0 left (slice_get home.now.owns slot)) }
{
    let id = home.id(slot)?;
    let alarm = alarm_of(home, &id)?;
    Some(ticks_left(&alarm, now))
}

/// The time at which the alarm of the process in a slot becomes due, looked for at a time at which
/// the clock shows `now`.
fn due_time(home: &Home, slot: Slot, now: u32, time: u64) -> Option<u64>
    requires { time + 2 ^ 32 ≤ 2 ^ 64 }
    ensures is { result
        ≡ option_map (λ left. time + left) (ticks_left_in now home.now.owns slot) }
    ensures tells { TellsAlarm now time result (slice_get home.now.owns slot) }
{
    let left = ticks_left_in(home, slot, now)?;
    Some(time + u64::from(left))
}

/// The lesser of two numbers of ticks, where there are two; the one that there is, where there is
/// one.
fn nearer(ticks: Option<u32>, other: Option<u32>) -> Option<u32>
    ensures { result ≡ nearer ticks other }
{
    match (ticks, other) {
        (Some(ticks), Some(other)) => Some(ticks.min(other)),
        (Some(ticks), None) => Some(ticks),
        (None, other) => other,
    }
}

/// The nearer of two times, where there are two; the one that there is, where there is one.
pub fn nearer_time(time: Option<u64>, other: Option<u64>) -> Option<u64>
    ensures { result ≡ nearer time other }
{
    match (time, other) {
        (Some(time), Some(other)) => Some(time.min(other)),
        (Some(time), None) => Some(time),
        (None, other) => other,
    }
}

/// Whether there is a time that comes before another, or where there is no other.
fn comes_before(time: Option<u64>, other: Option<u64>) -> bool
    ensures { result ≡ comes_before time other }
{
    match (time, other) {
        (Some(time), Some(other)) => time < other,
        (Some(_), None) => true,
        (None, _) => false,
    }
}

/// The nearest of the times that are kept of all slots, and a slot below which each time that is
/// kept lies behind it.
#[tactic(auto, unfolding(crate::specs::Times::nearest_kept))]
fn nearest_of(times: &[Option<u64>; SLOT_COUNT]) -> (Option<u64>, usize)
    ensures nearest { result.0 ≡ nearest_kept times.now }
    ensures first { AllBehind result.0 result.1 times.now }
{
    let (mut nearest, mut first) = (None, 0);
    for slot in 0..SLOT_COUNT {
        if comes_before(times[slot], nearest) {
            nearest = times[slot];
            first = slot;
        }
    }
    (nearest, first)
}

/// When the alarm of the process in each slot becomes due, as it was looked for last: a time that
/// lies ahead is that of the alarm that the process has armed, and none kept says that it has none
/// armed. A time that has come says nothing, so the process is asked then.
#[derive(Drop)]
pub struct AlarmTimes {
    times: [Option<u64>; SLOT_COUNT],
    /// The least of them.
    nearest: Option<u64>,
    /// A slot below which each of them lies behind the least.
    first: usize,
}

impl Model for AlarmTimes {
    ghost use Rattle.std.specs.Prelude.{◌≡◌, ℕ, List, Option};
    ghost use Rattle.alarm_capsule.specs.Times.{AllBehind, nearest_kept};

    ghost Value = { List (Option ℕ) };

    ghost view = { λ t. t.times };

    ghost invariant = { λ t. (t.nearest ≡ nearest_kept t.times) × AllBehind t.nearest t.first t.times };
}

impl AlarmTimes {
    /// No process has an alarm armed.
    pub fn new() -> AlarmTimes
        ensures { result ≡ replicate SLOT_COUNT None }
    {
        AlarmTimes {
            times: [None; SLOT_COUNT],
            nearest: None,
            first: 0,
        }
    }

    /// The same times again.
    pub fn copied(&self) -> AlarmTimes
        ensures { result ≡ self.now }
    {
        AlarmTimes {
            times: self.times,
            nearest: self.nearest,
            first: self.first,
        }
    }

    /// Looks for the time of the alarm of the process in a slot again, at a time at which the clock
    /// shows `now`. It is asked for after each step in which that process may have armed or stopped
    /// its alarm, ended or started again. It asks that the times that are kept tell of all others.
    // Few turns arm an alarm: inlined, it would make all others dearer.
    #[inline(never)]
    pub fn note(&mut self, home: &Home, slot: Slot, now: u32, time: u64)
        requires time { time + 2 ^ 32 ≤ 2 ^ 64 }
        requires others { OthersTell slot now time self.old home.now.owns }
        ensures kept { self.new
            ≡ slice_set self.old slot
            (option_map (λ left. time + left) (ticks_left_in now home.now.owns slot)) }
        ensures tell { AllTell now time self.new home.now.owns }
    {
        self.keep(slot, due_time(home, slot, now, time));
    }

    /// The alarm of the process in a slot fired, or its life ended. It asks that it has none armed any
    /// more, or no ticks are left of any, and that the times that are kept tell of all others; then
    /// they tell of all.
    #[inline(always)]
    pub fn forget(&mut self, slot: Slot)
        ensures fired { (now time : ℕ) (home : Homes) → OthersTell slot now time self.old home.owns
            → alarm_in (own_of home slot) ≡ None → AllTell now time self.new home.owns }
        ensures gone { (now time : ℕ) (home : Homes) → OthersTell slot now time self.old home.owns
            → ticks_left_in now home.owns slot ≡ None → AllTell now time self.new home.owns }
    {
        self.keep(slot, None);
    }

    /// Keeps a time of one slot.
    // Inlined is whether it is another one: most often none was kept, and none is.
    #[inline(always)]
    fn keep(&mut self, slot: Slot, due: Option<u64>)
        ensures there { slot < length self.old }
        ensures kept { self.new ≡ slice_set self.old slot due }
    {
        if due != self.times[slot.index()] {
            self.change(slot, due);
        }
    }

    /// Keeps another time of one slot. Where none was kept of it, the nearest is the nearer of the
    /// two, and no other slot is looked at.
    #[inline(never)]
    fn change(&mut self, slot: Slot, due: Option<u64>)
        ensures { self.new ≡ slice_set self.old slot due }
    {
        let before = self.times[slot.index()];
        self.times[slot.index()] = due;
        if before.is_some() {
            (self.nearest, self.first) = nearest_of(&self.times);
            return;
        }
        self.nearest = nearer_time(self.nearest, due);
        if due == self.nearest {
            self.first = 0;
        }
    }

    /// The alarm of the lowest slot whose alarm is due at a time at which the clock shows `now`, or of
    /// the one slot which is served, where its alarm is, and whose it is. None exactly where no alarm
    /// of a process that lives and is served is due. It asks that the times that are kept tell of all
    /// alarms.
    // Inlined: most often the nearest of the times lies ahead, and no slot is looked at before it has come.
    #[inline(always)]
    pub fn due_alarm(&self, home: &Home, now: u32, time: u64, only: Option<Slot>) -> Option<Due>
        requires { AllTell now time self.now home.now.owns }
        ensures slot { option_map (λ due. due.id.slot) result ≡ due_for only now home.now.owns }
        ensures due { IfSome result (λ due. AlarmIsDue now due.id.slot home.now due) }
    {
        an_alarm_is_due_where_no_ticks_are_left();
        if let Some(slot) = only {
            return self.due_in(home, slot, now, time);
        }
        let at = self.nearest?;
        if time < at {
            return None;
        }
        // Where the nearest has just come, none below the first slot that has it has come.
        let from = if at == time { self.first } else { 0 };
        self.first_due_from(home, from, now, time)
    }

    /// That in the lowest slot, by a look at each slot from one on: it asks that none below that is due.
    #[inline(never)]
    #[tactic(auto, unfolding(driver_model::specs::Alarm::due_slot))]
    fn first_due_from(&self, home: &Home, from: usize, now: u32, time: u64) -> Option<Due>
        requires tell { AllTell now time self.now home.now.owns }
        requires below { NoneDueBelow from now home.now.owns }
        ensures slot { option_map (λ due. due.id.slot) result ≡ due_slot now home.now.owns }
        ensures due { IfSome result (λ due. AlarmIsDue now due.id.slot home.now due) }
    {
        for slot in from..SLOT_COUNT {
            if let Some(due) = self.due_in(home, Slot::new(slot), now, time) {
                return Some(due);
            }
        }
        None
    }

    /// The alarm of the process in a slot, where it is due: no more of the process is read where its
    /// time lies ahead.
    fn due_in(&self, home: &Home, slot: Slot, now: u32, time: u64) -> Option<Due>
        requires { AllTell now time self.now home.now.owns }
        ensures is { is_some result ≡ has_due now (slice_get home.now.owns slot) }
        ensures due { IfSome result (AlarmIsDue now slot home.now) }
    {
        an_alarm_is_due_where_no_ticks_are_left();
        let at = self.times[slot.index()]?;
        if time < at {
            return None;
        }
        expired_in(home, slot, now)
    }

    /// The ticks that are left of the alarm of the process in a slot.
    fn left_in(&self, home: &Home, slot: Slot, now: u32, time: u64) -> Option<u32>
        requires { TellsAlarm now time (slice_index_or self.now slot None)
            (slice_get home.now.owns slot) }
        ensures { result ≡ ticks_left_in now home.now.owns slot }
    {
        match self.times[slot.index()] {
            None => None,
            Some(at) if time < at => Some((at - time) as u32),
            Some(_) => ticks_left_in(home, slot, now),
        }
    }

    /// How many ticks from `now` on, which the clock shows at a time, the next alarm of a process
    /// that lives becomes due, of any or of that in the one slot which is served: 0 where one is due
    /// then. None exactly where no process that lives and is served has an alarm armed. It asks that
    /// the times that are kept tell of all alarms.
    #[inline(always)]
    pub fn next_due(&self, home: &Home, now: u32, time: u64, only: Option<Slot>) -> Option<u32>
        requires { AllTell now time self.now home.now.owns }
        ensures { result ≡ left_for only now home.now.owns }
    {
        if let Some(slot) = only {
            return self.left_in(home, slot, now, time);
        }
        let at = self.nearest?;
        if at <= time {
            return self.next_of_all(home, now, time);
        }
        Some((at - time) as u32)
    }

    /// That of any, by a look at each slot.
    #[inline(never)]
    #[tactic(auto, unfolding(driver_model::specs::Alarm::next_left))]
    fn next_of_all(&self, home: &Home, now: u32, time: u64) -> Option<u32>
        requires { AllTell now time self.now home.now.owns }
        ensures { result ≡ next_left now home.now.owns }
    {
        let mut least = None;
        for slot in 0..SLOT_COUNT {
            least = nearer(least, self.left_in(home, Slot::new(slot), now, time));
        }
        least
    }
}
