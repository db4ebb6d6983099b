//! What is done with a process, and the loan of the process for that.
ghost use Rattle.kernel_calls.specs.Called.{Called, ActLeaves, ActAsks, Keeps, unlent};

use crate::caller::{Caller, give_back};
use board_memory::Memory;
use grant_enter::VisitSeat;
use process_record::Process;
use process_seat::Seat;

/// What is done with a process. It says itself what it asks, and what it leaves.
pub(crate) trait Act {
    /// What it answers.
    type Answer;

    /// What it asks of the process.
    ghost asks: { Self → Called → Type 0 };

    /// What it leaves of it.
    ghost leaves: { Self → Called → Self.Answer → Called → Type 0 };

    /// Acts on the process.
    fn run(self, caller: &mut Caller<'_>) -> Self::Answer
        requires { asks self (unlent caller.old.flash caller.old.process caller.old.own) }
        ensures leaves { leaves self
            (unlent caller.old.flash caller.old.process caller.old.own) result
            (unlent caller.new.flash caller.new.process caller.new.own) }
        ensures keeps { Keeps caller.old caller.new };
}

/// An act, to which a home lends the process in a slot.
pub(crate) struct Lent<A> {
    pub(crate) act: A,
}

impl<A: Act> VisitSeat<Process> for Lent<A> {
    type Answer = A::Answer;

    ghost asks = { λ lent flash own process. ActAsks (A.asks lent.act) flash process own };

    ghost leaves = { λ lent flash own process answer own_after process_after.
        ActLeaves (A.leaves lent.act) flash process own answer process_after own_after };

    fn run(self, memory: &mut Memory, seat: &mut Seat, process: &mut Process) -> A::Answer {
        let mut caller = Caller {
            memory,
            seat,
            process,
        };
        let Lent { act } = self;
        let answer = act.run(&mut caller);
        let Caller {
            memory,
            seat,
            process,
        } = caller;
        give_back(memory, seat, process);
        answer
    }
}
