//! Which device steps are ready on a machine, and up to when none is.
ghost use Rattle.std.specs.Prelude.{◌≡◌, ◌+◌, ◌-◌, ◌*◌, ◌<◌, ◌≤◌, ◌^◌, IfSome};
ghost use Rattle.tk_base.specs.declared.limits.TheConstants.{STEP_LIMIT};
ghost use Rattle.board_drivers.specs.Calm.{HasCome, ServesNobody, only_of};
ghost use Rattle.board_drivers.specs.Driven.{AreFreeSoon};
ghost use Rattle.board_turns.specs.Machines.{IsCalmUntil, KeepsAlarms, work_for_served, work_now};

use crate::machine::Machine;
use alarm_capsule::nearer_time;
use board_drivers::Served;
use driver_model::no_alarm_is_due_before_the_next;
use partition_turns::windows_are_in_turn;
use tk_base::Dev;

impl Machine {
    /// Whether a device step is ready for those who are served: something is to come in; an alarm is
    /// due; a write waits and the UART is free; a read waits and bytes came in; a request for random
    /// bytes waits; one for storage waits.
    // Inlined, as is what finds the next time: the device is known where they are called.
    #[inline(always)]
    #[tactic(auto, using(board_drivers::proofs::Waiting::waits_if_first))]
    pub fn is_ready(&self, served: &Served, device: Dev) -> bool
        requires { KeepsAlarms self.now }
        ensures { result ≡ (work_for_served self.now served.now).ready device }
    {
        match device {
            Dev::Event => self.drivers.arrivals.is_time(self.moment.time),
            Dev::Alarm => {
                let tick = self.moment.tick();
                self.alarms
                    .due_alarm(&self.home, tick, self.moment.time, served.only)
                    .is_some()
            }
            Dev::Uart => match self.drivers.sending_time(served) {
                Some(at) => at <= self.moment.time,
                None => false,
            },
            Dev::Receive => {
                self.drivers.console.reads.has_one(served.only)
                    && self.drivers.uarts.held(served.lane()) > 0
            }
            Dev::Random => self.drivers.random.waiting.has_one(served.only),
            Dev::Store => self.drivers.storage.waiting.has_one(served.only),
        }
    }

    /// The nearest time at which a device step becomes ready by itself for those who are served:
    /// something comes in, an alarm becomes due, or the UART is free for a write that waits. None
    /// exactly where none of these is to come.
    #[inline(always)]
    pub fn next_time(&self, served: &Served) -> Option<u64>
        requires alarms { KeepsAlarms self.now }
        requires time { self.now.moment.time + 2 ^ 32 ≤ 2 ^ 64 }
        requires free { AreFreeSoon self.now.moment.time self.now.drivers }
        ensures at { result ≡ (work_for_served self.now served.now).next }
        ensures near { IfSome result (λ at. at - self.now.moment.time < 2 ^ 32) }
    {
        let (tick, time) = (self.moment.tick(), self.moment.time);
        let alarm = match self.alarms.next_due(&self.home, tick, time, served.only) {
            Some(ticks) => Some(time + u64::from(ticks)),
            None => None,
        };
        nearer_time(
            self.drivers.arrivals.next_time(),
            nearer_time(alarm, self.drivers.sending_time(served)),
        )
    }

    /// A time up to which no device step is ready: that of the next one, or of the window's end where
    /// that comes first, and the last that there is where none is to come. Where it has come,
    /// somebody is served at once, or the next one has come.
    #[inline(never)]
    pub fn look_ahead(&self) -> u64
        requires alarms { KeepsAlarms self.now }
        requires time { self.now.moment.time ≤ STEP_LIMIT * 2 ^ 32 }
        requires free { AreFreeSoon self.now.moment.time self.now.drivers }
        ensures calm { IsCalmUntil self.now result }
        ensures come { result ≤ self.now.moment.time
            → ServesNobody (only_of self.now.moment) self.now.drivers
            → HasCome self.now.moment.time ((work_now self.now).next) }
    {
        no_alarm_is_due_before_the_next();
        windows_are_in_turn();
        let served = self.moment.served();
        if self.is_ready(&served, Dev::Receive)
            || self.is_ready(&served, Dev::Random)
            || self.is_ready(&served, Dev::Store)
        {
            return self.moment.time;
        }
        match nearer_time(self.next_time(&served), self.moment.window_end()) {
            Some(at) => at,
            None => u64::MAX,
        }
    }
}
