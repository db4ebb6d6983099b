//! Device steps on a machine: a device tells one process something.
ghost use Rattle.std.specs.Prelude.{◌≡◌, ◌<◌, [], true};
ghost use Rattle.tk_base.specs.declared.limits.TheConstants.{STEP_LIMIT};
ghost use Rattle.board_devices.specs.Clock.{clock_at};
ghost use Rattle.alarm_capsule.specs.Answers.{AlarmAnswers};
ghost use Rattle.board_drivers.specs.Calm.{only_of};
ghost use Rattle.board_drivers.specs.Tells.{Acts, tells_one};
ghost use Rattle.board_turns.specs.Machines.{Disarms, IsDisarmed, IsMachine};

use crate::machine::Machine;
use alarm_capsule::AlarmCapsule;
use arrayvec::ArrayVec;
use board_devices::Answer;
use driver_model::{a_due_slot_is_there, events_tell_steps, lines_follow_answers};
use process_model::reads_own_flash;
use tk_base::{Dev, NotReady, PRINT_LIMIT};

impl Machine {
    /// The alarm that is due fires, found by the times that are kept.
    #[inline(always)]
    fn answer_alarm(&mut self) -> Result<Answer, NotReady>
        requires machine { IsMachine self.old }
        requires limit { self.old.moment.steps < STEP_LIMIT }
        ensures answers { AlarmAnswers (only_of self.old.moment)
            (clock_at self.old.moment.settings.start self.old.moment.time) self.old.home result
            self.new.home }
        ensures disarmed { IsDisarmed result self.new.home }
        ensures rest { self.new ≡ record self.old { home = self.new.home } }
    {
        let only = self.moment.served().only;
        let tick = self.moment.tick();
        AlarmCapsule.answer_by(&mut self.home, &self.alarms, tick, self.moment.time, only)
    }

    /// Has a device act that tells one process something: which process, what it is told, and what
    /// was printed for it. [`NotReady`] comes, and nothing changes, where the device may not act. The
    /// process whose alarm fired has none armed any more.
    // Inlined, what is told is not copied: the board takes of it whom it was told.
    #[inline(always)]
    pub fn act(
        &mut self,
        device: Dev,
        printed: &mut ArrayVec<u8, PRINT_LIMIT>,
    ) -> Result<Answer, NotReady>
        requires tells { tells_one device ≡ true }
        requires machine { IsMachine self.old }
        requires limit { self.old.moment.steps < STEP_LIMIT }
        requires empty { printed.old.items ≡ [] }
        ensures acts { Acts device self.old.moment self.old.home self.old.drivers result
            printed.new.items self.new.home self.new.drivers }
        ensures disarmed { Disarms device result self.new.home }
        ensures rest { self.new
            ≡ record self.old { home = self.new.home; drivers = self.new.drivers } }
    {
        a_due_slot_is_there();
        lines_follow_answers();
        events_tell_steps();
        reads_own_flash();
        self.home.held_buffers_lie_in_place();
        let served = self.moment.served();
        let only = served.only;
        let lane = served.lane();
        match device {
            Dev::Event => Err(NotReady),
            Dev::Alarm => self.answer_alarm(),
            Dev::Uart => {
                let uart = self.drivers.uarts.at(lane);
                self.drivers
                    .console
                    .transmit(&mut self.home, uart, self.moment.time, printed, only)
            }
            Dev::Receive => {
                let line = self.drivers.uarts.at(lane);
                self.drivers.console.receive(&mut self.home, line, only)
            }
            Dev::Random => {
                let words = self.drivers.words.at(lane);
                self.drivers.random.answer(&mut self.home, words, only)
            }
            Dev::Store => {
                self.drivers
                    .storage
                    .answer(&mut self.home, &mut self.drivers.stores, only)
            }
        }
    }
}
