//! What an operator does to the process in a slot.
ghost use Rattle.std.specs.Prelude.{◌≡◌, ℕ};
ghost use Rattle.process_record.specs.Operator.{ends_by};
ghost use Rattle.board_drivers.specs.Driven.{Drives};
ghost use Rattle.kernel_calls.specs.Residents.{resident};
ghost use Rattle.board_turns.specs.Operating.{IsActedOn, verb_acts};
ghost use Rattle.board_turns.specs.Turning.{HasProcess, LeavesMachine, MayTurn, StepsInSlot};

use crate::machine::Machine;
use process_console::act;
use process_record::Process;
use tk_base::{ProcessId, Slot, Verb};

/// Whether a verb ends a life of a process.
fn ends(process: &Process, verb: Verb) -> bool
    ensures { result ≡ ends_by verb process.now }
{
    match verb {
        Verb::List | Verb::Stop | Verb::Start => false,
        Verb::Terminate => process.state.is_alive(),
        Verb::Restart => true,
    }
}

impl Machine {
    /// The process in a slot waits in no list any more, where a verb ends a life of it.
    fn let_go(&mut self, process: &Process, slot: Slot, verb: Verb)
        ensures drives { (life : ℕ) → Drives (record { slot = slot; life = life })
            (verb_acts verb process.now) self.old.drivers self.new.drivers }
        ensures rest { self.new ≡ record self.old { drivers = self.new.drivers } }
    {
        if ends(process, verb) {
            let life = process.restarts;
            self.drivers.gone(&ProcessId { slot, life });
        }
    }

    /// An operator acts on the process in a slot, which leaves its lists where a life of it ends,
    /// and is protected as its layout is then.
    fn operate(&mut self, process: &mut Process, slot: Slot, verb: Verb)
        requires { MayTurn 1 slot self.old (resident self.old.home slot process.old) }
        ensures operates { IsActedOn verb slot self.old self.new
            (resident self.old.home slot process.old) (resident self.new.home slot process.new) }
        ensures leaves { LeavesMachine 1 slot self.old self.new
            (resident self.new.home slot process.new) }
    {
        self.let_go(process, slot, verb);
        act(process, &mut self.home, slot, verb);
        self.guard.follow(&self.home, slot);
    }

    /// The same of the process at its place in the table.
    pub fn operate_at(&mut self, processes: &mut Vec<Process>, slot: Slot, verb: Verb)
        requires { HasProcess slot self.old.home processes.old.items (MayTurn 1 slot self.old) }
        ensures { StepsInSlot 1 slot self.old self.new processes.old.items processes.new.items
            (IsActedOn verb slot self.old self.new) }
    {
        let process = &mut processes[slot.index()];
        self.operate(process, slot, verb);
    }
}
