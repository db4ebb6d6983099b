//! A processor that executes an instruction as soon as the decoder knows it.
ghost use Rattle.std.specs.Prelude.{◌≡◌, true};
ghost use Rattle.rv32_model.specs.declared.turn_end.TurnEnd.TheVariants.{Trap};
ghost use Rattle.rv32_step.specs.Executed.{access_end, turn_end_of, next_pc};

use crate::execute::{branch, compute, denial, jump, load, store};
use crate::operate::operate;
use rv32_model::{BranchTest, InstrVisitor, LoadKind, Op};
use tk_base::{Access, Addr, Bus, Denial, Regs, Rule, Width};

/// The registers and the bus of a process, and its present instruction.
#[derive(Drop)]
pub struct Hart<'a, B> {
    /// The registers, but for pc.
    pub regs: &'a mut Regs,
    pub bus: &'a mut B,
    /// The address of the instruction. It stands apart from the registers, so that no turn waits for memory to tell it.
    pub pc: Addr,
    /// How many bytes the instruction has.
    pub length: u32,
    /// Why it was denied, where it did not go; None where it is a system call.
    pub denial: Option<Denial>,
}

impl<B> Hart<'_, B> {
    /// The instruction did not go, since it was denied.
    #[inline(always)]
    pub fn deny(&mut self, denial: Denial) -> bool
        ensures end { turn_end_of result self.new.denial ≡ Trap denial }
        ensures pc { self.new.pc ≡ self.old.pc }
        ensures regs { self.new.regs ≡ self.old.regs }
        ensures bus { self.new.bus ≡ self.old.bus }
    {
        self.denial = Some(denial);
        false
    }

    /// The instruction went, and the next one is at an address.
    #[inline(always)]
    fn go_to(&mut self, next: Addr) -> bool
        ensures end { result ≡ true }
        ensures pc { self.new.pc ≡ next }
        ensures regs { self.new.regs ≡ self.old.regs }
        ensures bus { self.new.bus ≡ self.old.bus }
    {
        self.pc = next;
        true
    }

    /// How the instruction ended, after an access that may have been denied.
    #[inline(always)]
    fn after(&mut self, access: Result<Addr, Denial>) -> bool
        ensures end { turn_end_of result self.new.denial ≡ access_end access }
        ensures pc { self.new.pc ≡ next_pc self.old.pc access }
        ensures regs { self.new.regs ≡ self.old.regs }
        ensures bus { self.new.bus ≡ self.old.bus }
    {
        match access {
            Ok(next) => self.go_to(next),
            Err(denial) => self.deny(denial),
        }
    }
}

/// A denied load or store, a breakpoint and bits that are no instruction leave registers and bytes as they
/// were; a system call leaves pc at its address.
impl<B: Bus> InstrVisitor for Hart<'_, B> {
    ghost use Rattle.rv32_step.specs.Executed.{Executes, hart_surroundings, hart_state, turn_end_of};

    type Answer = bool;

    ghost handles = { λ before instr went after.
        Executes before.length instr (turn_end_of went after.denial)
        (hart_surroundings B.denies B.frame before) (hart_state B.bytes before)
        (hart_surroundings B.denies B.frame after) (hart_state B.bytes after) };

    #[inline(always)]
    #[tactic(auto, unfolding(rv32_model::specs::UserTurn::executed))]
    fn lui(&mut self, rd: u8, imm: u32) -> bool {
        let next = compute(rd, imm, self.pc, self.length, self.regs);
        self.go_to(next)
    }

    #[inline(always)]
    #[tactic(auto, unfolding(rv32_model::specs::UserTurn::executed))]
    fn auipc(&mut self, rd: u8, imm: u32) -> bool {
        let value = self.pc.wrapping_add(imm);
        let next = compute(rd, value, self.pc, self.length, self.regs);
        self.go_to(next)
    }

    #[inline(always)]
    #[tactic(auto, unfolding(rv32_model::specs::UserTurn::executed))]
    fn jal(&mut self, rd: u8, offset: u32) -> bool {
        let to = self.pc.wrapping_add(offset);
        let next = jump(rd, to, self.pc, self.length, self.regs);
        self.go_to(next)
    }

    #[inline(always)]
    #[tactic(auto, unfolding(rv32_model::specs::UserTurn::executed))]
    fn jalr(&mut self, rd: u8, rs1: u8, offset: u32) -> bool {
        let to = self.regs.get(rs1).wrapping_add(offset) / 2 * 2;
        let next = jump(rd, to, self.pc, self.length, self.regs);
        self.go_to(next)
    }

    #[inline(always)]
    #[tactic(auto, unfolding(rv32_model::specs::UserTurn::executed))]
    fn branch(&mut self, test: BranchTest, rs1: u8, rs2: u8, offset: u32) -> bool {
        let next = branch(test, rs1, rs2, offset, self.pc, self.length, self.regs);
        self.go_to(next)
    }

    #[inline(always)]
    #[tactic(auto, unfolding(rv32_model::specs::UserTurn::executed))]
    fn load(&mut self, kind: LoadKind, rd: u8, rs1: u8, offset: u32) -> bool {
        let at = self.regs.get(rs1).wrapping_add(offset);
        let loaded = load(kind, rd, at, self.pc, self.length, self.regs, self.bus);
        self.after(loaded)
    }

    #[inline(always)]
    #[tactic(auto, unfolding(rv32_model::specs::UserTurn::executed))]
    fn store(&mut self, width: Width, rs1: u8, rs2: u8, offset: u32) -> bool {
        let at = self.regs.get(rs1).wrapping_add(offset);
        let stored = store(width, at, rs2, self.pc, self.length, self.regs, self.bus);
        self.after(stored)
    }

    #[inline(always)]
    #[tactic(auto, unfolding(rv32_model::specs::UserTurn::executed))]
    fn op_imm(&mut self, op: Op, rd: u8, rs1: u8, imm: u32) -> bool {
        let value = operate(op, self.regs.get(rs1), imm);
        let next = compute(rd, value, self.pc, self.length, self.regs);
        self.go_to(next)
    }

    #[inline(always)]
    #[tactic(auto, unfolding(rv32_model::specs::UserTurn::executed))]
    fn op(&mut self, op: Op, rd: u8, rs1: u8, rs2: u8) -> bool {
        let value = operate(op, self.regs.get(rs1), self.regs.get(rs2));
        let next = compute(rd, value, self.pc, self.length, self.regs);
        self.go_to(next)
    }

    #[inline(always)]
    #[tactic(auto, unfolding(rv32_model::specs::UserTurn::executed))]
    fn fence(&mut self) -> bool {
        self.go_to(self.pc.wrapping_add(self.length))
    }

    #[inline(always)]
    #[tactic(auto, unfolding(rv32_model::specs::UserTurn::executed))]
    fn ecall(&mut self) -> bool {
        self.denial = None;
        false
    }

    #[inline(always)]
    #[tactic(auto, unfolding(rv32_model::specs::UserTurn::executed))]
    fn ebreak(&mut self) -> bool {
        let at = self.pc;
        self.deny(denial(Access::Fetch, at, Rule::Breakpoint))
    }

    #[inline(always)]
    #[tactic(auto, unfolding(rv32_model::specs::UserTurn::executed))]
    fn illegal(&mut self) -> bool {
        let at = self.pc;
        self.deny(denial(Access::Fetch, at, Rule::Illegal))
    }
}
