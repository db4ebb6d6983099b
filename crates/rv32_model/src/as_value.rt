//! Instructions as values.
ghost use Rattle.std.specs.Prelude.{◌≡◌};

use crate::handler::InstrVisitor;
use crate::instr::{BranchTest, Instr, LoadKind, Op};
use tk_base::Width;

/// The handler that answers the instruction as a value, and None to bits that are none.
#[derive(Clone, Copy)]
pub struct ToInstr;

impl InstrVisitor for ToInstr {
    type Answer = Option<Instr>;

    ghost handles = { λ _ instr answer _. answer ≡ instr };

    fn lui(&mut self, rd: u8, imm: u32) -> Option<Instr> {
        Some(Instr::Lui { rd, imm })
    }

    fn auipc(&mut self, rd: u8, imm: u32) -> Option<Instr> {
        Some(Instr::Auipc { rd, imm })
    }

    fn jal(&mut self, rd: u8, offset: u32) -> Option<Instr> {
        Some(Instr::Jal { rd, offset })
    }

    fn jalr(&mut self, rd: u8, rs1: u8, offset: u32) -> Option<Instr> {
        Some(Instr::Jalr { rd, rs1, offset })
    }

    fn branch(&mut self, test: BranchTest, rs1: u8, rs2: u8, offset: u32) -> Option<Instr> {
        Some(Instr::Branch {
            test,
            rs1,
            rs2,
            offset,
        })
    }

    fn load(&mut self, kind: LoadKind, rd: u8, rs1: u8, offset: u32) -> Option<Instr> {
        Some(Instr::Load {
            kind,
            rd,
            rs1,
            offset,
        })
    }

    fn store(&mut self, width: Width, rs1: u8, rs2: u8, offset: u32) -> Option<Instr> {
        Some(Instr::Store {
            width,
            rs1,
            rs2,
            offset,
        })
    }

    fn op_imm(&mut self, op: Op, rd: u8, rs1: u8, imm: u32) -> Option<Instr> {
        Some(Instr::OpImm { op, rd, rs1, imm })
    }

    fn op(&mut self, op: Op, rd: u8, rs1: u8, rs2: u8) -> Option<Instr> {
        Some(Instr::Op { op, rd, rs1, rs2 })
    }

    fn fence(&mut self) -> Option<Instr> {
        Some(Instr::Fence)
    }

    fn ecall(&mut self) -> Option<Instr> {
        Some(Instr::Ecall)
    }

    fn ebreak(&mut self) -> Option<Instr> {
        Some(Instr::Ebreak)
    }

    fn illegal(&mut self) -> Option<Instr> {
        None
    }
}
