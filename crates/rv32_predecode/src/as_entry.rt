//! The entry of an instruction.
ghost use Rattle.std.specs.Prelude.{◌≡◌, ◌%◌, Some};
ghost use Rattle.rv32_model.specs.declared.instr.Instr.TheVariants as instrs;
ghost use Rattle.rv32_model.specs.declared.instr.Op.TheVariants as ops;
ghost use Rattle.rv32_entries.specs.Registers.{index_of, target_index};
ghost use Rattle.rv32_predecode.specs.Decoded.{IsEntryOf};

use rv32_entries::{Entry, Register, Target};
use rv32_model::{BranchTest, InstrVisitor, LoadKind, Op};
use tk_base::Width;

/// The visitor that answers the entry of an instruction of a length. A jump by an odd offset, which no bits mean, has
/// none; nor has what names x0 as the register to set, but a jump and what does nothing.
#[derive(Clone, Copy)]
pub struct ToEntry {
    /// How many bytes the instruction has.
    pub length: u8,
}

impl ToEntry {
    /// The entry of an operation that sets no register: only that which does nothing, `addi x0, x0, 0`, has one.
    fn setting_none(self, op: Op, rs1: u8, imm: u32) -> Entry
        ensures { IsEntryOf self.length (Some (instrs.OpImm op 0 rs1 imm)) result }
    {
        if !matches!(op, Op::Add) || rs1 != 0 || imm != 0 {
            return Entry::Cold;
        }
        match self.length {
            4 => Entry::Nop,
            2 => Entry::CNop,
            _ => Entry::Cold,
        }
    }

    /// The entry of an addition to x0, which sets a register to a number.
    fn setting_to(self, rd: Target, imm: u32) -> Entry
        ensures { IsEntryOf self.length (Some (instrs.OpImm ops.Add (target_index rd) 0 imm)) result }
    {
        match self.length {
            4 => Entry::Li { rd, imm },
            2 => Entry::CLi { rd, imm },
            _ => Entry::Cold,
        }
    }

    /// The entry of a branch of two bytes, which looks whether a register is 0.
    fn branch_by_zero(self, test: BranchTest, rs1: Register, offset: u32) -> Entry
        requires length { self.length ≡ 2 }
        requires even { offset % 2 ≡ 0 }
        ensures { IsEntryOf 2 (Some (instrs.Branch test (index_of rs1) 0 offset)) result }
    {
        let half = offset / 2;
        match test {
            BranchTest::Beq => Entry::CBeqz { rs1, half },
            BranchTest::Bne => Entry::CBnez { rs1, half },
            _ => Entry::Cold,
        }
    }
}

impl InstrVisitor for ToEntry {
    ghost use Rattle.rv32_predecode.specs.Decoded.{IsEntryOf};

    type Answer = Entry;

    ghost handles = { λ before instr entry _. IsEntryOf before.length instr entry };

    fn lui(&mut self, rd: u8, imm: u32) -> Entry {
        let Some(rd) = Target::of(rd) else {
            return Entry::Cold;
        };
        match self.length {
            4 => Entry::Lui { rd, imm },
            2 => Entry::CLui { rd, imm },
            _ => Entry::Cold,
        }
    }

    fn auipc(&mut self, rd: u8, imm: u32) -> Entry {
        let Some(rd) = Target::of(rd) else {
            return Entry::Cold;
        };
        match self.length {
            4 => Entry::Auipc { rd, imm },
            _ => Entry::Cold,
        }
    }

    fn jal(&mut self, rd: u8, offset: u32) -> Entry {
        if offset % 2 != 0 {
            return Entry::Cold;
        }
        let half = offset / 2;
        if rd == 0 {
            return match self.length {
                4 => Entry::J { half },
                2 => Entry::CJ { half },
                _ => Entry::Cold,
            };
        }
        let Some(rd) = Target::of(rd) else {
            return Entry::Cold;
        };
        match self.length {
            4 => Entry::Jal { rd, half },
            2 => Entry::CJal { rd, half },
            _ => Entry::Cold,
        }
    }

    fn jalr(&mut self, rd: u8, rs1: u8, offset: u32) -> Entry {
        let Some(rs1) = Register::of(rs1) else {
            return Entry::Cold;
        };
        if rd == 0 {
            return match self.length {
                4 => Entry::Jr { rs1, offset },
                2 => Entry::CJr { rs1, offset },
                _ => Entry::Cold,
            };
        }
        let Some(rd) = Target::of(rd) else {
            return Entry::Cold;
        };
        match self.length {
            4 => Entry::Jalr { rd, rs1, offset },
            2 => Entry::CJalr { rd, rs1, offset },
            _ => Entry::Cold,
        }
    }

    fn branch(&mut self, test: BranchTest, rs1: u8, rs2: u8, offset: u32) -> Entry {
        if offset % 2 != 0 {
            return Entry::Cold;
        }
        let Some(rs1) = Register::of(rs1) else {
            return Entry::Cold;
        };
        if self.length == 2 && rs2 == 0 {
            return self.branch_by_zero(test, rs1, offset);
        }
        let half = offset / 2;
        let Some(rs2) = Register::of(rs2) else {
            return Entry::Cold;
        };
        match self.length {
            4 => match test {
                BranchTest::Beq => Entry::Beq { rs1, rs2, half },
                BranchTest::Bne => Entry::Bne { rs1, rs2, half },
                BranchTest::Blt => Entry::Blt { rs1, rs2, half },
                BranchTest::Bge => Entry::Bge { rs1, rs2, half },
                BranchTest::Bltu => Entry::Bltu { rs1, rs2, half },
                BranchTest::Bgeu => Entry::Bgeu { rs1, rs2, half },
            },
            _ => Entry::Cold,
        }
    }

    fn load(&mut self, kind: LoadKind, rd: u8, rs1: u8, offset: u32) -> Entry {
        let Some(rd) = Target::of(rd) else {
            return Entry::Cold;
        };
        let Some(rs1) = Register::of(rs1) else {
            return Entry::Cold;
        };
        match self.length {
            4 => match kind {
                LoadKind::Lb => Entry::Lb { rd, rs1, offset },
                LoadKind::Lh => Entry::Lh { rd, rs1, offset },
                LoadKind::Lw => Entry::Lw { rd, rs1, offset },
                LoadKind::Lbu => Entry::Lbu { rd, rs1, offset },
                LoadKind::Lhu => Entry::Lhu { rd, rs1, offset },
            },
            2 => match kind {
                LoadKind::Lw => Entry::CLw { rd, rs1, offset },
                _ => Entry::Cold,
            },
            _ => Entry::Cold,
        }
    }

    fn store(&mut self, width: Width, rs1: u8, rs2: u8, offset: u32) -> Entry {
        let Some(rs1) = Register::of(rs1) else {
            return Entry::Cold;
        };
        let Some(rs2) = Register::of(rs2) else {
            return Entry::Cold;
        };
        match self.length {
            4 => match width {
                Width::Byte => Entry::Sb { rs1, rs2, offset },
                Width::Half => Entry::Sh { rs1, rs2, offset },
                Width::Word => Entry::Sw { rs1, rs2, offset },
            },
            2 => match width {
                Width::Word => Entry::CSw { rs1, rs2, offset },
                _ => Entry::Cold,
            },
            _ => Entry::Cold,
        }
    }

    fn op_imm(&mut self, op: Op, rd: u8, rs1: u8, imm: u32) -> Entry {
        if rd == 0 {
            return self.setting_none(op, rs1, imm);
        }
        let Some(rd) = Target::of(rd) else {
            return Entry::Cold;
        };
        if matches!(op, Op::Add) && rs1 == 0 {
            return self.setting_to(rd, imm);
        }
        let Some(rs1) = Register::of(rs1) else {
            return Entry::Cold;
        };
        match self.length {
            4 => match op {
                Op::Add => Entry::Addi { rd, rs1, imm },
                Op::Slt => Entry::Slti { rd, rs1, imm },
                Op::Sltu => Entry::Sltiu { rd, rs1, imm },
                Op::Xor => Entry::Xori { rd, rs1, imm },
                Op::Or => Entry::Ori { rd, rs1, imm },
                Op::And => Entry::Andi { rd, rs1, imm },
                Op::Sll => Entry::Slli { rd, rs1, imm },
                Op::Srl => Entry::Srli { rd, rs1, imm },
                Op::Sra => Entry::Srai { rd, rs1, imm },
                _ => Entry::Cold,
            },
            2 => match op {
                Op::Add => Entry::CAddi { rd, rs1, imm },
                Op::And => Entry::CAndi { rd, rs1, imm },
                Op::Sll => Entry::CSlli { rd, rs1, imm },
                Op::Srl => Entry::CSrli { rd, rs1, imm },
                Op::Sra => Entry::CSrai { rd, rs1, imm },
                _ => Entry::Cold,
            },
            _ => Entry::Cold,
        }
    }

    fn op(&mut self, op: Op, rd: u8, rs1: u8, rs2: u8) -> Entry {
        let Some(rd) = Target::of(rd) else {
            return Entry::Cold;
        };
        let copies = self.length == 2 && matches!(op, Op::Add) && rs1 == 0;
        let Some(rs1) = Register::of(rs1) else {
            return Entry::Cold;
        };
        let Some(rs2) = Register::of(rs2) else {
            return Entry::Cold;
        };
        if copies {
            return Entry::CMv { rd, rs2 };
        }
        match self.length {
            4 => match op {
                Op::Add => Entry::Add { rd, rs1, rs2 },
                Op::Sub => Entry::Sub { rd, rs1, rs2 },
                Op::Sll => Entry::Sll { rd, rs1, rs2 },
                Op::Slt => Entry::Slt { rd, rs1, rs2 },
                Op::Sltu => Entry::Sltu { rd, rs1, rs2 },
                Op::Xor => Entry::Xor { rd, rs1, rs2 },
                Op::Srl => Entry::Srl { rd, rs1, rs2 },
                Op::Sra => Entry::Sra { rd, rs1, rs2 },
                Op::Or => Entry::Or { rd, rs1, rs2 },
                Op::And => Entry::And { rd, rs1, rs2 },
                Op::Mul => Entry::Mul { rd, rs1, rs2 },
                Op::Mulh => Entry::Mulh { rd, rs1, rs2 },
                Op::Mulhsu => Entry::Mulhsu { rd, rs1, rs2 },
                Op::Mulhu => Entry::Mulhu { rd, rs1, rs2 },
                Op::Div => Entry::Div { rd, rs1, rs2 },
                Op::Divu => Entry::Divu { rd, rs1, rs2 },
                Op::Rem => Entry::Rem { rd, rs1, rs2 },
                Op::Remu => Entry::Remu { rd, rs1, rs2 },
            },
            2 => match op {
                Op::Add => Entry::CAdd { rd, rs1, rs2 },
                Op::Sub => Entry::CSub { rd, rs1, rs2 },
                Op::Xor => Entry::CXor { rd, rs1, rs2 },
                Op::Or => Entry::COr { rd, rs1, rs2 },
                Op::And => Entry::CAnd { rd, rs1, rs2 },
                _ => Entry::Cold,
            },
            _ => Entry::Cold,
        }
    }

    fn fence(&mut self) -> Entry {
        match self.length {
            4 => Entry::Fence,
            _ => Entry::Cold,
        }
    }

    fn ecall(&mut self) -> Entry {
        match self.length {
            4 => Entry::Ecall,
            _ => Entry::Cold,
        }
    }

    fn ebreak(&mut self) -> Entry {
        Entry::Cold
    }

    fn illegal(&mut self) -> Entry {
        Entry::Cold
    }
}
