//! Turns of the process in a slot that only execute an instruction.
ghost use Rattle.std.specs.Prelude.{◌≡◌, ◌+◌, ◌≤◌};
ghost use Rattle.board_turns.specs.Turning.{HasProcess, MayTurn, StepsInSlot};
ghost use Rattle.board_turns.specs.Quiet.{Quietly};

use crate::machine::Machine;
use process_record::Process;
use rv32_step::Stretch;
use tk_base::Slot;

impl Machine {
    /// As many turns of the process in a slot of the table as only execute an instruction, at most
    /// `most`: how many they were, and how the next instruction ends, where it does not go. The
    /// registers are set, and memory is lent, once for all of them.
    pub fn turns_at(&mut self, processes: &mut Vec<Process>, slot: Slot, most: u32) -> Stretch
        requires { HasProcess slot self.old.home processes.old.items (MayTurn most slot self.old) }
        ensures most { result.went ≤ most }
        ensures quiet { StepsInSlot result.went slot self.old self.new processes.old.items
            processes.new.items (Quietly result.went most result.end self.old.home.flash) }
        ensures drivers { self.new.drivers ≡ self.old.drivers }
    {
        let process = &mut processes[slot.index()];
        self.guard.bring_in(&mut self.home, slot);
        let made = self
            .home
            .instruct_quietly(slot, &self.guard.pmp, &mut process.regs, most);
        process.turns += made.went;
        made
    }
}
