//! What is kept of a machine after a step: it is looked for again only where the step may have
//! changed it.
ghost use Rattle.std.specs.Prelude.{◌≡◌, ◌+◌, ◌*◌, ◌^◌, ◌≤◌, true, false, None, is_some, length};
ghost use Rattle.std.specs.List.{zip};
ghost use Rattle.tk_base.specs.declared.limits.TheConstants.{SLOT_COUNT, STEP_LIMIT};
ghost use Rattle.board_devices.specs.Clock.{clock_at};
ghost use Rattle.grant_enter.specs.Homes.{own_of};
ghost use Rattle.driver_model.specs.Alarm.{alarm_in, ticks_left_in};
ghost use Rattle.board_drivers.specs.Tells.{is_alarm};
ghost use Rattle.kernel_alarms.specs.Acting.{may_have_acted, may_have_armed};
ghost use Rattle.board_drivers.specs.Calm.{HasCome, ServesNobody, only_of};
ghost use Rattle.board_drivers.specs.Driven.{AreFreeSoon};
ghost use Rattle.board_turns.specs.Machines.{IsCalmUntil, KeepsAlarms, KeepsOtherAlarms, work_now};
ghost use Rattle.board_turns.specs.ReadySlots.{NoneBeyond, OtherTurnsTell, TurnsTell};

use crate::after_calls::{is_for_alarm, may_have_acted};
use crate::machine::Machine;
use crate::ready_slots::can_run;
use process_record::{Emit, Process};
use tk_base::{Dev, Slot};

impl Machine {
    /// Looks again whether the process in a slot can have a turn. It asks that what is kept of all
    /// others holds.
    #[inline(always)]
    pub fn look_at(&mut self, processes: &[Process], slot: Slot)
        requires owns { length self.old.home.owns ≡ length processes.now }
        requires others { OtherTurnsTell slot self.old.ready
            (zip processes.now self.old.home.owns) }
        ensures tell { TurnsTell self.new.ready (zip processes.now self.old.home.owns) }
        ensures rest { self.new ≡ record self.old { ready = self.new.ready } }
    {
        self.ready.note(slot, can_run(&self.home, processes, slot));
    }

    /// The same of every process. It asks that there is one for no other slot.
    #[inline(always)]
    pub fn look_at_all(&mut self, processes: &[Process])
        requires owns { length self.old.home.owns ≡ length processes.now }
        requires few { length processes.now ≤ SLOT_COUNT }
        requires beyond { NoneBeyond (length processes.now) self.old.ready }
        ensures tell { TurnsTell self.new.ready (zip processes.now self.old.home.owns) }
        ensures rest { self.new ≡ record self.old { ready = self.new.ready } }
    {
        self.ready.look_at_all(&self.home, processes);
    }

    /// Looks again when the alarm of the process in a slot becomes due. It asks that what is kept of
    /// all others tells.
    #[inline(always)]
    pub fn note_alarm(&mut self, slot: Slot)
        requires time { self.old.moment.time + 2 ^ 32 ≤ 2 ^ 64 }
        requires others { KeepsOtherAlarms slot self.old }
        ensures tell { KeepsAlarms self.new }
        ensures rest { self.new ≡ record self.old { alarms = self.new.alarms } }
    {
        let tick = self.moment.tick();
        self.alarms.note(&self.home, slot, tick, self.moment.time);
    }

    /// Looks again, after a turn, when the alarm of its process becomes due and up to when no device
    /// step is ready, by what the turn showed. What a process keeps for the alarm, and that it lives,
    /// changes only in a turn that may have armed one; after a denial it has none armed. The time up
    /// to which no device step is ready holds on where the turn made no call that may act: a denial
    /// leaves less to do for devices.
    #[inline(always)]
    pub fn note_turn(&mut self, slot: Slot, emit: &Emit)
        requires time { self.old.moment.time ≤ STEP_LIMIT * 2 ^ 32 }
        requires free { AreFreeSoon self.old.moment.time self.old.drivers }
        requires others { KeepsOtherAlarms slot self.old }
        requires denied { is_some emit.now.denial ≡ true → ticks_left_in
            (clock_at self.old.moment.settings.start self.old.moment.time) self.old.home.owns slot
            ≡ None }
        requires unarmed { may_have_armed emit.now.made emit.now.denial ≡ false
            → KeepsAlarms self.old }
        requires calm { may_have_acted emit.now.made None ≡ false
            → IsCalmUntil self.old self.old.calm }
        ensures tell { KeepsAlarms self.new }
        ensures calm { IsCalmUntil self.new self.new.calm }
        ensures rest { self.new ≡ record self.old { alarms = self.new.alarms; calm = self.new.calm } }
    {
        let denied = emit.denial.is_some();
        if denied {
            self.alarms.forget(slot);
        }
        if may_have_acted(emit) {
            if !denied && is_for_alarm(emit) {
                self.note_alarm(slot);
            }
            self.calm = self.look_ahead();
        }
    }

    /// Forgets when the alarm of a process becomes due that a device answered, where that was the
    /// alarm: it fired, and none is armed any more. After any other device what is kept tells still.
    #[inline(always)]
    pub fn forget_fired(&mut self, slot: Slot, device: Dev)
        requires others { KeepsOtherAlarms slot self.old }
        requires fired { is_alarm device ≡ true → alarm_in (own_of self.old.home slot) ≡ None }
        requires kept { is_alarm device ≡ false → KeepsAlarms self.old }
        ensures tell { KeepsAlarms self.new }
        ensures rest { self.new ≡ record self.old { alarms = self.new.alarms } }
    {
        if device == Dev::Alarm {
            self.alarms.forget(slot);
        }
    }

    /// A time up to which no device step is ready, which lies ahead where none is ready now: the one
    /// so far, while it lies ahead.
    #[inline(always)]
    pub fn calm_ahead(&self) -> u64
        requires alarms { KeepsAlarms self.now }
        requires time { self.now.moment.time ≤ STEP_LIMIT * 2 ^ 32 }
        requires free { AreFreeSoon self.now.moment.time self.now.drivers }
        requires calm { IsCalmUntil self.now self.now.calm }
        ensures calm { IsCalmUntil self.now result }
        ensures come { result ≤ self.now.moment.time
            → ServesNobody (only_of self.now.moment) self.now.drivers
            → HasCome self.now.moment.time (work_now self.now).next }
    {
        if self.moment.time < self.calm {
            return self.calm;
        }
        self.look_ahead()
    }
}
