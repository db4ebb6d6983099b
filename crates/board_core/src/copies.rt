//! A board again, and one for which an event is still to come in besides.
ghost use Rattle.std.specs.Prelude.{◌≡◌, IfOk, OnErr, OnOk};
ghost use Rattle.script_text.specs.Settings.{IsKind};
ghost use Rattle.tk_base.specs.declared.limits.TheConstants.{BUTTON_LIMIT};
ghost use Rattle.board_core.specs.Expecting.{expecting};

use crate::board::Board;
use crate::lines::copied;
use crate::state::BoardState;
use process_record::Process;
use script_text::TimedEvent;
use std::alloc::Global;
use tk_outside::NoMemory;

/// The same processes again. The one error is want of memory.
fn copied_processes(alloc: Global, processes: &[Process]) -> Result<Vec<Process>, NoMemory>
    ensures { IfOk result (λ copies. copies.items ≡ processes.now) }
{
    Ok(processes.to_vec(alloc)?)
}

impl Board {
    /// The same board again. The one error is want of memory.
    pub fn copied(&self, alloc: Global) -> Result<Board, NoMemory>
        ensures { IfOk result (λ board. board ≡ self.now) }
    {
        let state = &self.state;
        let machine = state.machine.copied(alloc)?;
        let processes = copied_processes(alloc, &state.processes)?;
        Ok(Board {
            state: BoardState {
                machine,
                processes,
                unplaced: copied(&state.unplaced),
                present: state.present,
            },
        })
    }

    /// An event is still to come in besides: behind those of its time, and before later ones. The one
    /// error is want of memory; then nothing changes. It asks that the event is of a kind that some
    /// board has.
    pub fn expect(&mut self, event: TimedEvent) -> Result<(), NoMemory>
        requires { IsKind BUTTON_LIMIT event.kind }
        ensures comes { OnOk result (self.new ≡ expecting event self.old) }
        ensures unchanged { OnErr result (self.new ≡ self.old) }
    {
        let machine = &mut self.state.machine;
        machine.drivers.arrivals.expect(event)?;
        machine.calm = machine.look_ahead();
        Ok(())
    }
}
