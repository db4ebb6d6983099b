//! The alarm as a capsule.
ghost use Rattle.std.specs.Prelude.{◌≡◌, ◌+◌, ◌<◌, ◌^◌, All, IfOk, None};
ghost use Rattle.grant_enter.specs.Homes.{own_of, ChangesOnly};
ghost use Rattle.driver_requests.specs.Asking.{IsPresent};
ghost use Rattle.driver_model.specs.Alarm.{alarm_in, commands};
ghost use Rattle.driver_model.specs.Commands.{by_number};
ghost use Rattle.driver_model.specs.Replies.{RepliesAlone};
ghost use Rattle.alarm_capsule.specs.Answers.{AlarmAnswers};
ghost use Rattle.alarm_capsule.specs.Times.{AllTell};

use crate::answers::fire;
use crate::commands::obey;
use crate::times::AlarmTimes;
use board_devices::Answer;
use grant_enter::Home;
use syscall_abi::{Reply, reply_of};
use tk_base::{CallRule, NotReady, ProcessId, Slot};

/// The alarm. All that it keeps lies in the grants of processes.
#[derive(Clone, Copy, Debug, PartialEq, Eq)]
pub struct AlarmCapsule;

impl AlarmCapsule {
    /// Serves a command of the process of an id to the alarm, at a tick of the clock (TRD 104,
    /// "Command"): the reply, and the rule that refuses it, if one does. 0 asks whether the driver
    /// is there; 1 for its ticks a second, 2 for the clock, which it also shows in the readable
    /// buffer 0 that the process has allowed, in four bytes, the lowest first, as many as fit; 3
    /// stops the alarm, which is refused with [`CallRule::Nothing`] where none is armed; 5 arms it
    /// `a2` ticks from now on, and 6 `a3` ticks from the reference `a2` on, with the tick of the
    /// expiration in the reply, or refused with [`CallRule::NoRoom`]. Any other number is refused
    /// with [`CallRule::NoCommand`]. Nothing of another process changes, and nothing at all where
    /// it is refused.
    pub fn command(
        &mut self,
        home: &mut Home,
        now: u32,
        id: ProcessId,
        number: u32,
        a2: u32,
        a3: u32,
    ) -> (Reply, Option<CallRule>)
        requires { IsPresent home.old id }
        ensures answer { RepliesAlone (by_number (commands now a2 a3) number (own_of home.old id.slot))
            result (own_of home.new id.slot) }
        ensures rest { ChangesOnly id.slot home.old home.new }
    {
        reply_of(obey(home, now, id, number, a2, a3))
    }

    /// Answers as [`AlarmCapsule::answer`] does, by the times that are kept of the alarms: no process
    /// is asked whose time lies ahead. It asks that they tell of all alarms. The process whose alarm
    /// fired has none armed any more.
    // Inlined, an answer that its caller does not read is not made.
    #[inline(always)]
    pub fn answer_by(
        &mut self,
        home: &mut Home,
        alarms: &AlarmTimes,
        now: u32,
        time: u64,
        only: Option<Slot>,
    ) -> Result<Answer, NotReady>
        requires dropped { All (λ own. own.inbox.dropped + 1 < 2 ^ 32) home.old.owns }
        requires tell { AllTell now time alarms.now home.old.owns }
        ensures answers { AlarmAnswers only now home.old result home.new }
        ensures disarmed { IfOk result
            (λ answer. alarm_in (own_of home.new answer.to.slot) ≡ None) }
    {
        let Some(due) = alarms.due_alarm(home, now, time, only) else {
            return Err(NotReady);
        };
        Ok(fire(home, &due, now))
    }

    /// The process of an id ended, or starts again. Its alarm went with its grant, and nothing
    /// waits here.
    pub fn gone(&mut self, _id: ProcessId) {}
}
