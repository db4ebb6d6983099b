//! Instructions over flash and the whole of RAM, under protection registers.
ghost use Rattle.std.specs.Prelude.{◌≡◌, ◌≤◌, length};
ghost use Rattle.tk_base.specs.declared.access.TheConstants.{RAM_START};
ghost use Rattle.board_memory.specs.Bytes.{StoresLieIn};
ghost use Rattle.board_memory.specs.Sight.{IsSight};
ghost use Rattle.process_model.specs.Instruction.{ram_after};
ghost use Rattle.memory_turns.specs.Reach.{InstructionLaws, GoesUnder, StopsUnder, turn_under};

use board_memory::{Memory, Sight, View, a_store_in_ram_is_put, bytes_tell_the_ram};
use pmp_regions::Pmp;
use rv32_model::{TurnEnd, one_is_the_turn, sees_only_permitted, writes_are_permitted};
use rv32_step::{Stretch, turns};
use tk_base::{Regs, Slot, a_store_is_put};

/// The laws that instructions over RAM rest on.
pub fn instruction_laws()
    ensures { InstructionLaws }
{
    a_store_is_put();
    a_store_in_ram_is_put();
    bytes_tell_the_ram();
    writes_are_permitted();
    sees_only_permitted();
}

/// As many instructions over RAM as go, at most `most`, and how the next one ends.
#[inline(always)]
fn turns_over(regs: &mut Regs, sight: Sight<'_>, ram: &mut [u8], most: u32) -> Stretch
    requires { IsSight (length ram.old) sight }
    ensures most { result.went ≤ most }
    ensures goes { GoesUnder sight.entry.pmp.now sight.entry.flash.now result.went regs.old ram.old regs.new ram.new }
    ensures stops { StopsUnder sight.entry.pmp.now sight.entry.flash.now most result.went result.end regs.new ram.new }
    ensures long { length ram.new ≡ length ram.old }
{
    let mut view = View::of(sight, ram);
    turns(regs, &mut view, most)
}

/// As many instructions over flash and RAM of the process in a slot as go, at most `most`, and how the
/// next one ends. Memory lends what is reached once for all of them.
pub fn turns_in(regs: &mut Regs, memory: &mut Memory, pmp: &Pmp, slot: Slot, most: u32) -> Stretch
    requires { StoresLieIn (length memory.old.ram) pmp.now }
    ensures most { result.went ≤ most }
    ensures goes { GoesUnder pmp.now memory.old.flash result.went regs.old memory.old.ram regs.new
        memory.new.ram }
    ensures stops { StopsUnder pmp.now memory.old.flash most result.went result.end regs.new
        memory.new.ram }
    ensures long { length memory.new.ram ≡ length memory.old.ram }
    ensures rest { memory.new ≡ record memory.old { ram = memory.new.ram } }
{
    let View { sight, ram } = memory.view(pmp, slot);
    turns_over(regs, sight, ram, most)
}

/// One instruction of the process in a slot over flash and RAM.
pub fn turn_in(regs: &mut Regs, memory: &mut Memory, pmp: &Pmp, slot: Slot) -> TurnEnd
    requires { StoresLieIn (length memory.old.ram) pmp.now }
    ensures regs { regs.new ≡ (turn_under pmp.now memory.old.flash memory.old.ram regs.old).regs }
    ensures end { result ≡ (turn_under pmp.now memory.old.flash memory.old.ram regs.old).end }
    ensures memory { memory.new ≡ record memory.old {
      ram = ram_after RAM_START (turn_under pmp.now memory.old.flash memory.old.ram regs.old).write
          memory.old.ram;
    } }
{
    one_is_the_turn();
    writes_are_permitted();
    a_store_in_ram_is_put();
    bytes_tell_the_ram();
    turns_in(regs, memory, pmp, slot, 1).end
}
