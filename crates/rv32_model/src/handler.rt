//! What is done with an instruction.
use crate::instr::{BranchTest, LoadKind, Op};
use tk_base::Width;

/// What is done with an instruction as soon as a decoder knows it: a decoder calls one method, that of
/// its kind, with its operands.
pub trait InstrVisitor {
    ghost use Rattle.std.specs.Prelude.{Option, Some, None};
    ghost use Rattle.rv32_model.specs.declared.instr.Instr.{Instr};
    ghost use Rattle.rv32_model.specs.declared.instr.Instr.TheVariants as instrs;

    /// What it answers.
    type Answer;

    /// What it answers to an instruction, or to bits that are none, and what that leaves of it.
    ghost handles: { Self → Option Instr → Self.Answer → Self → Type 0 };

    fn lui(&mut self, rd: u8, imm: u32) -> Self::Answer
        ensures { handles self.old (Some (instrs.Lui rd imm)) result self.new };

    fn auipc(&mut self, rd: u8, imm: u32) -> Self::Answer
        ensures { handles self.old (Some (instrs.Auipc rd imm)) result self.new };

    fn jal(&mut self, rd: u8, offset: u32) -> Self::Answer
        ensures { handles self.old (Some (instrs.Jal rd offset)) result self.new };

    fn jalr(&mut self, rd: u8, rs1: u8, offset: u32) -> Self::Answer
        ensures { handles self.old (Some (instrs.Jalr rd rs1 offset)) result self.new };

    fn branch(&mut self, test: BranchTest, rs1: u8, rs2: u8, offset: u32) -> Self::Answer
        ensures { handles self.old (Some (instrs.Branch test rs1 rs2 offset)) result self.new };

    fn load(&mut self, kind: LoadKind, rd: u8, rs1: u8, offset: u32) -> Self::Answer
        ensures { handles self.old (Some (instrs.Load kind rd rs1 offset)) result self.new };

    fn store(&mut self, width: Width, rs1: u8, rs2: u8, offset: u32) -> Self::Answer
        ensures { handles self.old (Some (instrs.Store width rs1 rs2 offset)) result self.new };

    fn op_imm(&mut self, op: Op, rd: u8, rs1: u8, imm: u32) -> Self::Answer
        ensures { handles self.old (Some (instrs.OpImm op rd rs1 imm)) result self.new };

    fn op(&mut self, op: Op, rd: u8, rs1: u8, rs2: u8) -> Self::Answer
        ensures { handles self.old (Some (instrs.Op op rd rs1 rs2)) result self.new };

    fn fence(&mut self) -> Self::Answer
        ensures { handles self.old (Some instrs.Fence) result self.new };

    fn ecall(&mut self) -> Self::Answer
        ensures { handles self.old (Some instrs.Ecall) result self.new };

    fn ebreak(&mut self) -> Self::Answer
        ensures { handles self.old (Some instrs.Ebreak) result self.new };

    /// The bits are no instruction.
    fn illegal(&mut self) -> Self::Answer
        ensures { handles self.old None result self.new };
}
