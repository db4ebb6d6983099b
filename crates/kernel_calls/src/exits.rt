//! Exit: a process ends itself, or starts itself again (TRD 104, "Exit").
ghost use Rattle.std.specs.Prelude.{◌≡◌};
ghost use Rattle.kernel_model.specs.Calls.{exit, restart};
ghost use Rattle.kernel_calls.specs.Own.{Beside};
ghost use Rattle.kernel_calls.specs.Called.{record_of, CanRestart, Comes, Keeps};

use crate::caller::Caller;
use process_record::Outcome;
use process_restart::start_of;
use process_seat::restart_seat;
use tk_base::CallRule;

impl Caller<'_> {
    /// Starts it again, over a block of zeros, by the header of its object: its record is then as
    /// one that starts again.
    pub fn restart(&mut self)
        requires { CanRestart self.old }
        ensures restarted { (beside : Beside) → record_of self.new beside
            ≡ restart (record_of self.old beside) }
        ensures keeps { Keeps self.old self.new }
    {
        let object = self.process.object;
        let start = start_of(self.memory.flash(), &object);
        let layout = self.seat.layout;
        let brk = layout.first_break(start.minimum_ram);
        self.process
            .restart(start, layout.start, layout.end - layout.start, brk);
        restart_seat(self.memory, self.seat, brk);
    }

    /// Ends it with a completion code, starts it again, or refuses another kind of exit.
    #[tactic(auto, unfolding(kernel_model::specs::Calls::exit))]
    pub fn exit(&mut self, kind: u32, code: u32) -> Outcome
        requires { CanRestart self.old }
        ensures serves { Comes (λ r. exit r kind code) self.old self.new result }
        ensures keeps { Keeps self.old self.new }
    {
        match kind {
            0 => {
                self.end(code);
                Outcome::Ended
            }
            1 => {
                self.restart();
                Outcome::Again
            }
            _ => self.give(Err(CallRule::NoOperation)),
        }
    }
}
