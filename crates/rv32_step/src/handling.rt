//! What is done with an instruction that was decoded before.
ghost use Rattle.std.specs.Prelude.{◌≡◌, Some};
ghost use Rattle.rv32_entries.specs.Registers.{index_of, target_index};
ghost use Rattle.rv32_model.specs.declared.instr.Instr.TheVariants as instrs;
ghost use Rattle.rv32_model.specs.declared.instr.Op.TheVariants as ops;
ghost use Rattle.rv32_entries.specs.Entries.{entry_instr, entry_length, offset_of};
ghost use Rattle.rv32_step.specs.Handling.{HandsOver};

use rv32_entries::{Entry, Register, Target};
use rv32_model::{BranchTest, InstrVisitor, LoadKind, Op};
use tk_base::Width;

/// A visitor that is told the length of an instruction first.
pub trait SizedVisitor: InstrVisitor {
    ghost use Rattle.std.specs.Prelude.{ℕ};

    /// What it is once it knows the length in bytes.
    ghost sized: { Self → ℕ → Self };

    /// The next instruction has so many bytes.
    fn begin(&mut self, length: u8)
        ensures { self.new ≡ sized self.old length };

    /// As [`InstrVisitor::op_imm`], of an addition to x0: a register is set to a number.
    fn li(&mut self, rd: u8, imm: u32) -> Self::Answer
        ensures { Self.handles self.old (Some (instrs.OpImm ops.Add rd 0 imm)) result self.new };

    /// As [`InstrVisitor::op`], of an addition to x0: a register is copied.
    fn mv(&mut self, rd: u8, rs2: u8) -> Self::Answer
        ensures { Self.handles self.old (Some (instrs.Op ops.Add rd 0 rs2)) result self.new };

    /// As [`InstrVisitor::branch`], by a test of a register and x0.
    fn branch_by_zero(&mut self, test: BranchTest, rs1: u8, offset: u32) -> Self::Answer
        ensures { Self.handles self.old (Some (instrs.Branch test rs1 0 offset)) result self.new };
}

#[inline(always)]
fn lui<H: SizedVisitor>(handler: &mut H, length: u8, rd: Target, imm: u32) -> Option<H::Answer>
    ensures { HandsOver (Some (instrs.Lui (target_index rd) imm))
        H.handles (H.sized handler.old length) result handler.old handler.new }
{
    handler.begin(length);
    Some(handler.lui(rd.number(), imm))
}

#[inline(always)]
fn auipc<H: SizedVisitor>(handler: &mut H, length: u8, rd: Target, imm: u32) -> Option<H::Answer>
    ensures { HandsOver (Some (instrs.Auipc (target_index rd) imm))
        H.handles (H.sized handler.old length) result handler.old handler.new }
{
    handler.begin(length);
    Some(handler.auipc(rd.number(), imm))
}

#[inline(always)]
fn jal<H: SizedVisitor>(handler: &mut H, length: u8, rd: Target, half: u32) -> Option<H::Answer>
    ensures { HandsOver (Some (instrs.Jal (target_index rd) (offset_of half)))
        H.handles (H.sized handler.old length) result handler.old handler.new }
{
    handler.begin(length);
    Some(handler.jal(rd.number(), half.wrapping_mul(2)))
}

#[inline(always)]
fn jump<H: SizedVisitor>(handler: &mut H, length: u8, half: u32) -> Option<H::Answer>
    ensures { HandsOver (Some (instrs.Jal 0 (offset_of half)))
        H.handles (H.sized handler.old length) result handler.old handler.new }
{
    handler.begin(length);
    Some(handler.jal(0, half.wrapping_mul(2)))
}

#[inline(always)]
fn jalr<H: SizedVisitor>(
    handler: &mut H,
    length: u8,
    rd: Target,
    rs1: Register,
    offset: u32,
) -> Option<H::Answer>
    ensures { HandsOver (Some (instrs.Jalr (target_index rd) (index_of rs1) offset))
        H.handles (H.sized handler.old length) result handler.old handler.new }
{
    handler.begin(length);
    Some(handler.jalr(rd.number(), rs1.number(), offset))
}

#[inline(always)]
fn jump_by_register<H: SizedVisitor>(
    handler: &mut H,
    length: u8,
    rs1: Register,
    offset: u32,
) -> Option<H::Answer>
    ensures { HandsOver (Some (instrs.Jalr 0 (index_of rs1) offset))
        H.handles (H.sized handler.old length) result handler.old handler.new }
{
    handler.begin(length);
    Some(handler.jalr(0, rs1.number(), offset))
}

#[inline(always)]
fn branch<H: SizedVisitor>(
    handler: &mut H,
    length: u8,
    test: BranchTest,
    rs1: Register,
    rs2: Register,
    half: u32,
) -> Option<H::Answer>
    ensures { HandsOver (Some (instrs.Branch test (index_of rs1) (index_of rs2) (offset_of half)))
        H.handles (H.sized handler.old length) result handler.old handler.new }
{
    handler.begin(length);
    Some(handler.branch(test, rs1.number(), rs2.number(), half.wrapping_mul(2)))
}

#[inline(always)]
fn branch_by_zero<H: SizedVisitor>(
    handler: &mut H,
    test: BranchTest,
    rs1: Register,
    half: u32,
) -> Option<H::Answer>
    ensures { HandsOver (Some (instrs.Branch test (index_of rs1) 0 (offset_of half)))
        H.handles (H.sized handler.old 2) result handler.old handler.new }
{
    handler.begin(2);
    Some(handler.branch_by_zero(test, rs1.number(), half.wrapping_mul(2)))
}

#[inline(always)]
fn load<H: SizedVisitor>(
    handler: &mut H,
    length: u8,
    kind: LoadKind,
    rd: Target,
    rs1: Register,
    offset: u32,
) -> Option<H::Answer>
    ensures { HandsOver (Some (instrs.Load kind (target_index rd) (index_of rs1) offset))
        H.handles (H.sized handler.old length) result handler.old handler.new }
{
    handler.begin(length);
    Some(handler.load(kind, rd.number(), rs1.number(), offset))
}

#[inline(always)]
fn store<H: SizedVisitor>(
    handler: &mut H,
    length: u8,
    width: Width,
    rs1: Register,
    rs2: Register,
    offset: u32,
) -> Option<H::Answer>
    ensures { HandsOver (Some (instrs.Store width (index_of rs1) (index_of rs2) offset))
        H.handles (H.sized handler.old length) result handler.old handler.new }
{
    handler.begin(length);
    Some(handler.store(width, rs1.number(), rs2.number(), offset))
}

#[inline(always)]
fn op_imm<H: SizedVisitor>(
    handler: &mut H,
    length: u8,
    op: Op,
    rd: Target,
    rs1: Register,
    imm: u32,
) -> Option<H::Answer>
    ensures { HandsOver (Some (instrs.OpImm op (target_index rd) (index_of rs1) imm))
        H.handles (H.sized handler.old length) result handler.old handler.new }
{
    handler.begin(length);
    Some(handler.op_imm(op, rd.number(), rs1.number(), imm))
}

#[inline(always)]
fn li<H: SizedVisitor>(handler: &mut H, length: u8, rd: Target, imm: u32) -> Option<H::Answer>
    ensures { HandsOver (Some (instrs.OpImm ops.Add (target_index rd) 0 imm))
        H.handles (H.sized handler.old length) result handler.old handler.new }
{
    handler.begin(length);
    Some(handler.li(rd.number(), imm))
}

#[inline(always)]
fn mv<H: SizedVisitor>(handler: &mut H, rd: Target, rs2: Register) -> Option<H::Answer>
    ensures { HandsOver (Some (instrs.Op ops.Add (target_index rd) 0 (index_of rs2)))
        H.handles (H.sized handler.old 2) result handler.old handler.new }
{
    handler.begin(2);
    Some(handler.mv(rd.number(), rs2.number()))
}

#[inline(always)]
fn nop<H: SizedVisitor>(handler: &mut H, length: u8) -> Option<H::Answer>
    ensures { HandsOver (Some (instrs.OpImm ops.Add 0 0 0))
        H.handles (H.sized handler.old length) result handler.old handler.new }
{
    handler.begin(length);
    Some(handler.op_imm(Op::Add, 0, 0, 0))
}

#[inline(always)]
fn op<H: SizedVisitor>(
    handler: &mut H,
    length: u8,
    op: Op,
    rd: Target,
    rs1: Register,
    rs2: Register,
) -> Option<H::Answer>
    ensures { HandsOver (Some (instrs.Op op (target_index rd) (index_of rs1) (index_of rs2)))
        H.handles (H.sized handler.old length) result handler.old handler.new }
{
    handler.begin(length);
    Some(handler.op(op, rd.number(), rs1.number(), rs2.number()))
}

#[inline(always)]
fn fence<H: SizedVisitor>(handler: &mut H, length: u8) -> Option<H::Answer>
    ensures { HandsOver (Some instrs.Fence)
        H.handles (H.sized handler.old length) result handler.old handler.new }
{
    handler.begin(length);
    Some(handler.fence())
}

#[inline(always)]
fn ecall<H: SizedVisitor>(handler: &mut H, length: u8) -> Option<H::Answer>
    ensures { HandsOver (Some instrs.Ecall)
        H.handles (H.sized handler.old length) result handler.old handler.new }
{
    handler.begin(length);
    Some(handler.ecall())
}

/// Hands the instruction of an entry to a handler. Where nothing is known it answers None, and the handler is as it
/// was.
#[inline(always)]
pub fn handle_entry<H: SizedVisitor>(entry: Entry, handler: &mut H) -> Option<H::Answer>
    ensures { HandsOver (entry_instr entry) H.handles (H.sized handler.old (entry_length entry)) result
        handler.old handler.new }
{
    match entry {
        Entry::Cold => None,
        Entry::Lui { rd, imm } => lui(handler, 4, rd, imm),
        Entry::Auipc { rd, imm } => auipc(handler, 4, rd, imm),
        Entry::Jal { rd, half } => jal(handler, 4, rd, half),
        Entry::J { half } => jump(handler, 4, half),
        Entry::Jalr { rd, rs1, offset } => jalr(handler, 4, rd, rs1, offset),
        Entry::Jr { rs1, offset } => jump_by_register(handler, 4, rs1, offset),
        Entry::Beq { rs1, rs2, half } => branch(handler, 4, BranchTest::Beq, rs1, rs2, half),
        Entry::Bne { rs1, rs2, half } => branch(handler, 4, BranchTest::Bne, rs1, rs2, half),
        Entry::Blt { rs1, rs2, half } => branch(handler, 4, BranchTest::Blt, rs1, rs2, half),
        Entry::Bge { rs1, rs2, half } => branch(handler, 4, BranchTest::Bge, rs1, rs2, half),
        Entry::Bltu { rs1, rs2, half } => branch(handler, 4, BranchTest::Bltu, rs1, rs2, half),
        Entry::Bgeu { rs1, rs2, half } => branch(handler, 4, BranchTest::Bgeu, rs1, rs2, half),
        Entry::Lb { rd, rs1, offset } => load(handler, 4, LoadKind::Lb, rd, rs1, offset),
        Entry::Lh { rd, rs1, offset } => load(handler, 4, LoadKind::Lh, rd, rs1, offset),
        Entry::Lw { rd, rs1, offset } => load(handler, 4, LoadKind::Lw, rd, rs1, offset),
        Entry::Lbu { rd, rs1, offset } => load(handler, 4, LoadKind::Lbu, rd, rs1, offset),
        Entry::Lhu { rd, rs1, offset } => load(handler, 4, LoadKind::Lhu, rd, rs1, offset),
        Entry::Sb { rs1, rs2, offset } => store(handler, 4, Width::Byte, rs1, rs2, offset),
        Entry::Sh { rs1, rs2, offset } => store(handler, 4, Width::Half, rs1, rs2, offset),
        Entry::Sw { rs1, rs2, offset } => store(handler, 4, Width::Word, rs1, rs2, offset),
        Entry::Addi { rd, rs1, imm } => op_imm(handler, 4, Op::Add, rd, rs1, imm),
        Entry::Slti { rd, rs1, imm } => op_imm(handler, 4, Op::Slt, rd, rs1, imm),
        Entry::Sltiu { rd, rs1, imm } => op_imm(handler, 4, Op::Sltu, rd, rs1, imm),
        Entry::Xori { rd, rs1, imm } => op_imm(handler, 4, Op::Xor, rd, rs1, imm),
        Entry::Ori { rd, rs1, imm } => op_imm(handler, 4, Op::Or, rd, rs1, imm),
        Entry::Andi { rd, rs1, imm } => op_imm(handler, 4, Op::And, rd, rs1, imm),
        Entry::Slli { rd, rs1, imm } => op_imm(handler, 4, Op::Sll, rd, rs1, imm),
        Entry::Srli { rd, rs1, imm } => op_imm(handler, 4, Op::Srl, rd, rs1, imm),
        Entry::Srai { rd, rs1, imm } => op_imm(handler, 4, Op::Sra, rd, rs1, imm),
        Entry::Add { rd, rs1, rs2 } => op(handler, 4, Op::Add, rd, rs1, rs2),
        Entry::Sub { rd, rs1, rs2 } => op(handler, 4, Op::Sub, rd, rs1, rs2),
        Entry::Sll { rd, rs1, rs2 } => op(handler, 4, Op::Sll, rd, rs1, rs2),
        Entry::Slt { rd, rs1, rs2 } => op(handler, 4, Op::Slt, rd, rs1, rs2),
        Entry::Sltu { rd, rs1, rs2 } => op(handler, 4, Op::Sltu, rd, rs1, rs2),
        Entry::Xor { rd, rs1, rs2 } => op(handler, 4, Op::Xor, rd, rs1, rs2),
        Entry::Srl { rd, rs1, rs2 } => op(handler, 4, Op::Srl, rd, rs1, rs2),
        Entry::Sra { rd, rs1, rs2 } => op(handler, 4, Op::Sra, rd, rs1, rs2),
        Entry::Or { rd, rs1, rs2 } => op(handler, 4, Op::Or, rd, rs1, rs2),
        Entry::And { rd, rs1, rs2 } => op(handler, 4, Op::And, rd, rs1, rs2),
        Entry::Mul { rd, rs1, rs2 } => op(handler, 4, Op::Mul, rd, rs1, rs2),
        Entry::Mulh { rd, rs1, rs2 } => op(handler, 4, Op::Mulh, rd, rs1, rs2),
        Entry::Mulhsu { rd, rs1, rs2 } => op(handler, 4, Op::Mulhsu, rd, rs1, rs2),
        Entry::Mulhu { rd, rs1, rs2 } => op(handler, 4, Op::Mulhu, rd, rs1, rs2),
        Entry::Div { rd, rs1, rs2 } => op(handler, 4, Op::Div, rd, rs1, rs2),
        Entry::Divu { rd, rs1, rs2 } => op(handler, 4, Op::Divu, rd, rs1, rs2),
        Entry::Rem { rd, rs1, rs2 } => op(handler, 4, Op::Rem, rd, rs1, rs2),
        Entry::Remu { rd, rs1, rs2 } => op(handler, 4, Op::Remu, rd, rs1, rs2),
        Entry::Fence => fence(handler, 4),
        Entry::Li { rd, imm } => li(handler, 4, rd, imm),
        Entry::Nop => nop(handler, 4),
        Entry::Ecall => ecall(handler, 4),
        Entry::CLui { rd, imm } => lui(handler, 2, rd, imm),
        Entry::CJal { rd, half } => jal(handler, 2, rd, half),
        Entry::CJ { half } => jump(handler, 2, half),
        Entry::CJalr { rd, rs1, offset } => jalr(handler, 2, rd, rs1, offset),
        Entry::CJr { rs1, offset } => jump_by_register(handler, 2, rs1, offset),
        Entry::CBeqz { rs1, half } => branch_by_zero(handler, BranchTest::Beq, rs1, half),
        Entry::CBnez { rs1, half } => branch_by_zero(handler, BranchTest::Bne, rs1, half),
        Entry::CLw { rd, rs1, offset } => load(handler, 2, LoadKind::Lw, rd, rs1, offset),
        Entry::CSw { rs1, rs2, offset } => store(handler, 2, Width::Word, rs1, rs2, offset),
        Entry::CNop => nop(handler, 2),
        Entry::CLi { rd, imm } => li(handler, 2, rd, imm),
        Entry::CAddi { rd, rs1, imm } => op_imm(handler, 2, Op::Add, rd, rs1, imm),
        Entry::CAndi { rd, rs1, imm } => op_imm(handler, 2, Op::And, rd, rs1, imm),
        Entry::CSlli { rd, rs1, imm } => op_imm(handler, 2, Op::Sll, rd, rs1, imm),
        Entry::CSrli { rd, rs1, imm } => op_imm(handler, 2, Op::Srl, rd, rs1, imm),
        Entry::CSrai { rd, rs1, imm } => op_imm(handler, 2, Op::Sra, rd, rs1, imm),
        Entry::CMv { rd, rs2 } => mv(handler, rd, rs2),
        Entry::CAdd { rd, rs1, rs2 } => op(handler, 2, Op::Add, rd, rs1, rs2),
        Entry::CSub { rd, rs1, rs2 } => op(handler, 2, Op::Sub, rd, rs1, rs2),
        Entry::CXor { rd, rs1, rs2 } => op(handler, 2, Op::Xor, rd, rs1, rs2),
        Entry::COr { rd, rs1, rs2 } => op(handler, 2, Op::Or, rd, rs1, rs2),
        Entry::CAnd { rd, rs1, rs2 } => op(handler, 2, Op::And, rd, rs1, rs2),
    }
}
