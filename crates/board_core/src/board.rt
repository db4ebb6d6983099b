//! The board.
ghost use Rattle.std.specs.Prelude.{◌≡◌, ◌+◌, ◌-◌, ◌^◌, true, ◌≤◌, ◌<◌};
ghost use Rattle.std.specs.Prelude.{IsTrue, IfOk, IfSome, Some, vec_len};
ghost use Rattle.tk_base.specs.declared.process.Choice.TheVariants.{Run, Device, Pass};
ghost use Rattle.tk_base.specs.declared.process.Dev.TheVariants.{Event};
ghost use Rattle.tk_base.specs.declared.limits.TheConstants.{SLOT_COUNT, STEP_LIMIT};
ghost use Rattle.partition_turns.specs.Windows.{window_choice};
ghost use Rattle.kernel_laws.specs.Windows.{lanes_in};
ghost use Rattle.kernel_model.specs.World.{is_ready};
ghost use Rattle.kernel_model.specs.Causes.{AreWhole};
ghost use Rattle.kernel_model.specs.Run.{next};
ghost use Rattle.kernel_model.specs.Shown.{summary_of};
ghost use Rattle.board_opening.specs.Alone.{OpensAlone};
ghost use Rattle.board_opening.specs.Opening.{opening};
ghost use Rattle.board_devices.specs.Arriving.{is_time};
ghost use Rattle.board_drivers.specs.Tells.{tells_one};
ghost use Rattle.board_core.specs.KnownEnds.{IsKnownOfChoice};
ghost use Rattle.board_core.specs.Makes.{MakesStep, Steps, act_meant, showing};

use crate::left::time_ahead;
use crate::lines::summary;
use crate::operator::{act_meant, operate};
use crate::settings::settings_of;
use crate::shown::{clear, show};
use crate::slices::PresentSlot;
use crate::state::BoardState;
use crate::turns::make_turn;
use alarm_capsule::AlarmTimes;
use arrayvec::ArrayVec;
use board_drivers::{Drivers, Moment};
use board_opening::{LoadedProcesses, first_crew, placed_in, unplaced};
use board_turns::{ActivePmp, Machine, ReadySlots};
use driver_model::{lines_follow_answers, time_brings_an_alarm_nearer};
use grant_enter::Home;
use kernel_alarms::answers_leave_alarms;
use kernel_laws::next_is_of_the_window;
use kernel_lives::steps_are_accounted_for;
use kernel_model::{a_record_is_the_replay_of_its_events, devices_answer_one, next_is_ready};
use process_record::{Emit, Summary};
use rv32_model::TurnEnd;
use script_text::Script;
use std::alloc::Global;
use std::marker::Model;
use tk_base::{Choice, Dev, FLASH_LIMIT, NotReady, STEP_LIMIT, Slot};
use tk_outside::NoMemory;
use turn_scheduler::{Present, Situated, next_choice_in, next_in_calm};

/// A board with its processes. Contracts see the world that it shows.
#[derive(Drop)]
pub struct Board {
    /// What it is made of.
    pub(crate) state: BoardState,
}

impl Model for Board {
    ghost use Rattle.kernel_model.specs.World.{World};

    ghost Value = { World };

    ghost use Rattle.board_core.specs.Shows.{world_of, IsBoard};

    ghost view = { λ b. world_of b.state };

    ghost invariant = { λ b. IsBoard b.state };
}

/// The board tells what the round robin reads of it, each part where it is asked for.
impl Situated for Board {
    ghost use Rattle.kernel_model.specs.Run.{situation_of};

    ghost situation = { situation_of };

    ghost asks = { λ w. Unit {0} };

    #[inline(always)]
    fn device_is_ready(&self, device: Dev) -> bool {
        let machine = &self.state.machine;
        machine.is_ready(&machine.moment.served(), device)
    }

    fn slot_is_ready(&self, slot: Slot) -> bool {
        self.state.machine.moment.served().serves(slot) && self.state.machine.ready.has(slot)
    }

    fn slots(&self) -> usize {
        if self.state.machine.ready.has_any() {
            self.state.processes.len()
        } else {
            0
        }
    }

    fn next(&self) -> Option<u64> {
        next_is_ready();
        time_ahead(&self.state)
    }

    fn time(&self) -> u64 {
        self.state.machine.moment.time
    }

    fn present(&self) -> Present {
        let PresentSlot { slot, used, slice } = self.state.present;
        Present { slot, used, slice }
    }
}

impl Board {
    /// The board of a flash image of at most [`FLASH_LIMIT`] bytes under a script, before its first
    /// step. The applications of the image are in their places, each block of RAM is zeroed. The
    /// one error is want of memory; image and script are dropped then. The record of each process
    /// is a function of the bytes of its object, of where that and its block lie, and of the size
    /// of its storage: of nothing else in image and script.
    pub fn boot(alloc: Global, flash: Vec<u8>, script: Script) -> Result<Board, NoMemory>
        requires { vec_len flash ≤ FLASH_LIMIT }
        ensures world { IfOk result (λ board. board ≡ opening script flash.items) }
        ensures alone { IfOk result OpensAlone }
    {
        let window = script.partition.unwrap_or(0);
        let placed = placed_in(&flash, script.ram, window != 0);
        let LoadedProcesses {
            processes,
            footprints,
        } = first_crew(alloc, &flash, &placed)?;
        let Ok(home) = Home::new(alloc, flash, script.ram, &footprints) else {
            return Err(NoMemory);
        };
        let moment = Moment {
            settings: settings_of(&script),
            window,
            time: 0,
            steps: 0,
        };
        let present = PresentSlot {
            slot: None,
            used: 0,
            slice: script.slice,
        };
        let drivers = Drivers::new(alloc, script)?;
        let alarms = AlarmTimes::new();
        let ready = ReadySlots::new();
        let mut machine = Machine {
            home,
            guard: ActivePmp::new(),
            drivers,
            moment,
            alarms,
            calm: 0,
            ready,
        };
        machine.look_at_all(&processes);
        machine.calm = machine.look_ahead();
        Ok(Board {
            state: BoardState {
                machine,
                processes,
                unplaced: unplaced(&placed),
                present,
            },
        })
    }

    /// What is next to come in does: bytes on the serial line, an edge of a button, which every
    /// process is told that enabled it, or an operator's act, which changes nothing else where it
    /// means nobody.
    #[inline(never)]
    fn arrive(&mut self, emit: &mut Emit) -> Result<(), NotReady>
        requires { self.old.clock.steps < STEP_LIMIT }
        ensures { MakesStep (Device Event) (showing self.old emit.old) (showing self.new emit.new) result }
    {
        devices_answer_one();
        lines_follow_answers();
        if !self
            .state
            .machine
            .drivers
            .arrivals
            .is_time(self.state.machine.moment.time)
        {
            return Err(NotReady);
        }
        if let Some((slot, verb)) = act_meant(&self.state) {
            return operate(&mut self.state, slot, verb, emit);
        }
        let slots = self.state.processes.len();
        self.state
            .machine
            .drivers
            .arrive(&mut self.state.machine.home, slots);
        self.state.machine.look_at_all(&self.state.processes);
        clear(emit, None);
        self.state.machine.moment.steps += 1;
        self.state.machine.calm = self.state.machine.look_ahead();
        Ok(())
    }

    /// A device tells one process something.
    #[inline(never)]
    fn tell(&mut self, device: Dev, emit: &mut Emit) -> Result<(), NotReady>
        requires tells { tells_one device ≡ true }
        requires limit { self.old.clock.steps < STEP_LIMIT }
        ensures { MakesStep (Device device) (showing self.old emit.old) (showing self.new emit.new) result }
    {
        devices_answer_one();
        answers_leave_alarms();
        let mut printed = ArrayVec::new();
        let Ok(answer) = self.state.machine.act(device, &mut printed) else {
            return Err(NotReady);
        };
        let served = answer.to.slot;
        self.state.machine.look_at(&self.state.processes, served);
        show(emit, served, printed);
        self.state.machine.moment.steps += 1;
        self.state.machine.forget_fired(served, device);
        self.state.machine.calm = self.state.machine.look_ahead();
        Ok(())
    }

    /// Whether so many ticks may pass.
    #[tactic(auto, unfolding(kernel_model::specs::World::may_be_made))]
    fn may_pass(&self, ticks: u32) -> bool
        requires { self.now.clock.steps < STEP_LIMIT }
        ensures { result ≡ is_ready self.now (Pass ticks) }
    {
        ticks > 0
    }

    /// So many ticks pass, in which nothing acts.
    #[inline(never)]
    fn pass(&mut self, ticks: u32, emit: &mut Emit) -> Result<(), NotReady>
        requires { self.old.clock.steps < STEP_LIMIT }
        ensures { MakesStep (Pass ticks) (showing self.old emit.old) (showing self.new emit.new) result }
    {
        if !self.may_pass(ticks) {
            return Err(NotReady);
        }
        time_brings_an_alarm_nearer();
        clear(emit, None);
        self.state.machine.moment.time += u64::from(ticks);
        self.state.machine.moment.steps += 1;
        Ok(())
    }

    /// As always, what is a process's own is whole, and each buffer that it has allowed lies where
    /// it may. The function does nothing.
    #[inline(always)]
    fn owns_are_whole(&self)
        ensures { AreWhole self.now }
    {
        self.state.machine.home.held_buffers_lie_in_place();
        self.state.machine.home.owns_lie_in_place();
    }

    /// Makes one step, and shows it in `emit`. Afterwards the board shows the world after the
    /// abstract kernel's step. `NotReady` comes exactly where the choice may not be made: its slot
    /// holds no process that can have a turn, its device has nothing to do (the alarm, where none
    /// is due), a pass takes no ticks, or 4,000,000,000 steps were made; nothing has changed then.
    /// Each byte of a process that the step changes, of its block below its kernel break and of its
    /// storage, has its cause among the labels; each access of a turn was permitted, and each
    /// denial was due, and is shown with its address and its rule; a call that was refused changes
    /// of the process its reply registers, pc, count of turns and recorded refusal alone; what is
    /// printed was in the read-only buffer that its process then held, or is the line of a process
    /// that an operator lists; an edge of a button schedules one upcall for each process that is
    /// told of it, and nothing else schedules any of the buttons; an operator's act changes the
    /// record of the process that it names, that process's requests in the waiting lists, what is
    /// still to come in and the count of steps, and nothing else of the board. The record of each
    /// process is the replay of its own turn, of what the device tells it or of an operator's act
    /// on it, and as it was where the step is none of these.
    #[inline(always)]
    pub fn step(&mut self, choice: Choice, emit: &mut Emit) -> Result<(), NotReady>
        ensures { Steps choice (showing self.old emit.old) (showing self.new emit.new) result }
    {
        self.step_with_end(choice, TurnEnd::Went, emit)
    }

    /// Makes one step, as [`Board::step`] does. Where it is a turn whose instruction is known not to
    /// go, `end` is how it ends ([`Board::run_quietly`] tells it), and the instruction is not
    /// decoded again; with `Went` nothing is known.
    #[inline(always)]
    #[tactic(auto, unfolding(kernel_model::specs::World::may_be_made))]
    pub fn step_with_end(
        &mut self,
        choice: Choice,
        end: TurnEnd,
        emit: &mut Emit,
    ) -> Result<(), NotReady>
        requires { IsKnownOfChoice self.old end choice }
        ensures { Steps choice (showing self.old emit.old) (showing self.new emit.new) result }
    {
        self.owns_are_whole();
        steps_are_accounted_for();
        a_record_is_the_replay_of_its_events();
        if self.state.machine.moment.steps >= STEP_LIMIT {
            return Err(NotReady);
        }
        match choice {
            Choice::Run(slot) => make_turn(&mut self.state, slot, end, emit),
            Choice::Device(device) => match device {
                Dev::Event => self.arrive(emit),
                Dev::Alarm | Dev::Uart | Dev::Receive | Dev::Random | Dev::Store => {
                    self.tell(device, emit)
                }
            },
            Choice::Pass(ticks) => self.pass(ticks, emit),
        }
    }

    /// The next choice of the round robin, with time partitions that in the window of the slot whose
    /// window it is; None exactly where no process can have a turn, no device has anything to do,
    /// nothing is still to come in, no write waits and no alarm is armed. It may be made while fewer
    /// than 4,000,000,000 steps were made.
    // Inlined, it saves 4 to 8 machine instructions a turn.
    #[inline(always)]
    pub fn next_choice(&self) -> Option<Choice>
        ensures next { result ≡ next self.now }
        ensures window { 1 ≤ self.now.pace.window → result ≡ window_choice (lanes_in self.now) }
        ensures ready { IfSome result
            (λ choice. self.now.clock.steps < STEP_LIMIT → IsTrue (is_ready self.now choice)) }
    {
        next_is_ready();
        next_is_of_the_window();
        // What comes most often needs no look at the devices.
        if self.state.machine.moment.time < self.state.machine.calm {
            return next_in_calm(self);
        }
        next_choice_in(self)
    }

    /// What the report says of the board.
    pub fn summary(&self) -> Summary
        ensures { result ≡ summary_of self.now }
    {
        summary(&self.state)
    }
}
