//! A quiet stretch: turns of processes, one after another, that only execute an instruction.
ghost use Rattle.std.specs.Prelude.{◌≡◌, ◌+◌, ◌-◌, ◌≤◌, ◌<◌, true, false, Some, IfSome, IsTrue};
ghost use Rattle.tk_base.specs.declared.limits.TheConstants.{STEP_LIMIT};
ghost use Rattle.tk_base.specs.declared.process.Choice.TheVariants.{Run};
ghost use Rattle.rv32_model.specs.declared.turn_end.TurnEnd.TheVariants.{Went};
ghost use Rattle.kernel_model.specs.Accounts.{IsAccountedFor};
ghost use Rattle.kernel_model.specs.Choices.{Throughout};
ghost use Rattle.kernel_model.specs.Replay.{chosen};
ghost use Rattle.kernel_model.specs.Run.{next};
ghost use Rattle.kernel_model.specs.Stretch.{IsStretch};
ghost use Rattle.kernel_model.specs.World.{is_ready};
ghost use Rattle.board_core.specs.KnownEnds.{IsKnownOfChoice};
ghost use Rattle.board_core.specs.Stretches.{StopsAt};

use crate::board::Board;
use crate::slices::{is_over, is_running, slot_of, turns_left};
use driver_model::time_brings_an_alarm_nearer;
use kernel_laws::{one_alone_goes_on, round_is_stretch};
use kernel_lives::steps_are_accounted_for;
use kernel_model::next_is_ready;
use rv32_model::TurnEnd;
use tk_base::{Choice, Slot};
use turn_scheduler::slot_going_on;

/// A part of a stretch: how many turns were made, whether the stretch ends with them, and the round
/// robin's next choice, where it does, with what is known of its end.
#[derive(Clone, Copy)]
pub struct Part {
    pub made: u32,
    pub is_over: bool,
    pub next_choice: Option<Choice>,
    pub end: TurnEnd,
}

/// A quiet stretch: how many turns were made, and the round robin's next choice after them
/// ([`Board::next_choice`]). Where that is a turn whose instruction is known not to go, `end` is how
/// it ends, for [`Board::step_with_end`]; else `Went`.
#[derive(Clone, Copy)]
pub struct QuietTurns {
    pub made: u32,
    pub next_choice: Option<Choice>,
    pub end: TurnEnd,
}

impl Part {
    /// No turn was made, and the stretch ends before the next choice.
    #[inline(always)]
    fn ended(next_choice: Option<Choice>) -> Part
        ensures { result
            ≡ record { made = 0; is_over = true; next_choice = next_choice; end = Went } }
    {
        Part {
            made: 0,
            is_over: true,
            next_choice,
            end: TurnEnd::Went,
        }
    }
}

impl Board {
    /// The slot that had the last turn, where no device step is ready and its slice lasts: it has the
    /// next turn too.
    #[inline(always)]
    fn slot_going_on(&self) -> Option<Slot>
        ensures { IfSome result (λ slot. next self.now ≡ Some (Run slot)) }
    {
        if self.state.machine.moment.time < self.state.machine.calm {
            slot_going_on(self)
        } else {
            None
        }
    }

    /// A part of a stretch: turns of the process in the slot that has the next one, at most so many,
    /// up to when a device step may be ready, and in its slice; where no other process can have a
    /// turn, slice after slice.
    #[inline(always)]
    fn run_slot(&mut self, slot: Slot, most: u32) -> Part
        requires chosen { next self.old ≡ Some (Run slot) }
        requires most { 0 < most }
        ensures most { result.made ≤ most }
        ensures stretch { IsStretch result.made self.old self.new }
        ensures ends { result.is_over ≡ true → result.made < most → StopsAt self.new }
        ensures more { result.is_over ≡ false → 0 < result.made }
        ensures next { result.is_over ≡ true → result.next_choice ≡ next self.new }
        ensures known { result.is_over ≡ true
            → IfSome result.next_choice (IsKnownOfChoice self.new result.end) }
    {
        round_is_stretch();
        one_alone_goes_on();
        next_is_ready();
        time_brings_an_alarm_nearer();
        if !is_running(&self.state.processes, slot) {
            return Part::ended(Some(Choice::Run(slot)));
        }
        self.state.machine.calm = self.state.machine.calm_ahead();
        if self.state.machine.calm <= self.state.machine.moment.time {
            return Part::ended(Some(Choice::Run(slot)));
        }
        let before = self.state.present.used_before(slot);
        let alone = self.state.machine.ready.has_one();
        let last = self.state.present.last_turn(alone);
        let left = turns_left(
            before,
            last,
            &self.state.machine.moment,
            self.state.machine.calm,
            most,
        );
        let stretch = self
            .state
            .machine
            .turns_at(&mut self.state.processes, slot, left);
        let made = stretch.went;
        self.state.present.go_on(slot, before, made);
        let ticks = u64::from(made);
        self.state.machine.moment.time += ticks;
        self.state.machine.moment.steps += ticks;
        Part {
            made,
            is_over: is_over(made, left),
            next_choice: Some(Choice::Run(slot)),
            end: stretch.end,
        }
    }

    /// A part of a stretch: [`Board::run_slot`], where the next choice is the turn of a process.
    fn run_part(&mut self, most: u32) -> Part
        requires { 0 < most }
        ensures most { result.made ≤ most }
        ensures stretch { IsStretch result.made self.old self.new }
        ensures ends { result.is_over ≡ true → result.made < most → StopsAt self.new }
        ensures more { result.is_over ≡ false → 0 < result.made }
        ensures next { result.is_over ≡ true → result.next_choice ≡ next self.new }
        ensures known { result.is_over ≡ true
            → IfSome result.next_choice (IsKnownOfChoice self.new result.end) }
    {
        round_is_stretch();
        // Most often, and then nothing else is asked.
        if let Some(slot) = self.slot_going_on() {
            return self.run_slot(slot, most);
        }
        let next_choice = self.next_choice();
        let Some(slot) = slot_of(&next_choice) else {
            return Part::ended(next_choice);
        };
        self.run_slot(slot, most)
    }

    /// Makes as many of the round robin's next steps as are turns that only execute an instruction,
    /// one after another, at most `most`, and answers how many, which step is next then, and, where
    /// that is a turn whose instruction does not go, how it ends, if that is known. None of these
    /// steps makes a system call, is denied or prints, and each byte of a process that one of them
    /// changes has its cause among its labels: a store that the process may make. Where fewer than
    /// `most` were made, the next step is not such a turn, or 4,000,000,000 steps were made.
    pub fn run_quietly(&mut self, most: u32) -> QuietTurns
        ensures most { result.made ≤ most }
        ensures stretch { IsStretch result.made self.old self.new }
        ensures accounted { Throughout IsAccountedFor self.old (chosen result.made self.old) }
        ensures ends { result.made < most → StopsAt self.new }
        ensures next { result.next_choice ≡ next self.new }
        ensures known { IfSome result.next_choice (IsKnownOfChoice self.new result.end) }
        ensures ready { IfSome result.next_choice
            (λ choice. self.new.clock.steps < STEP_LIMIT → IsTrue (is_ready self.new choice)) }
    {
        steps_are_accounted_for();
        round_is_stretch();
        next_is_ready();
        let mut made = 0;
        while made < most {
            let part = self.run_part(most - made);
            made += part.made;
            if part.is_over {
                return QuietTurns {
                    made,
                    next_choice: part.next_choice,
                    end: part.end,
                };
            }
        }
        QuietTurns {
            made,
            next_choice: self.next_choice(),
            end: TurnEnd::Went,
        }
    }
}
