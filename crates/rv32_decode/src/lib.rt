//! The decoder of 32-bit instructions.
#![tactic(auto)]

ghost use Rattle.std.specs.Prelude.{◌≡◌, Some};
ghost use Rattle.rv32_model.specs.Instructions.{bits_of, sign_extended, decoding, rd_of, rs1_of, rs2_of, imm_i, imm_s};
ghost use Rattle.rv32_model.specs.Instructions.{imm_b, imm_u, imm_j, branch, load, store, op_imm, shift_imm, op_reg};
ghost use Rattle.rv32_decode.specs.Kinds.{funct3_of, funct7_of, jalr_of, branch_of, load_of, store_of, shift_left_of};
ghost use Rattle.rv32_decode.specs.Kinds.{shift_right_of, op_imm_of, base_of, other_of, multiply_of, op_reg_of};
ghost use Rattle.rv32_decode.specs.Kinds.{fence_of, system_of};

pub use rv32_model::Instr;
use rv32_model::{BranchTest, InstrVisitor, LoadKind, Op, ToInstr};
use tk_base::Width;

#[inline(always)]
fn rd(word: u32) -> u8
    ensures { result ≡ rd_of word }
{
    ((word >> 7) % 32) as u8
}

#[inline(always)]
fn rs1(word: u32) -> u8
    ensures { result ≡ rs1_of word }
{
    ((word >> 15) % 32) as u8
}

#[inline(always)]
fn rs2(word: u32) -> u8
    ensures { result ≡ rs2_of word }
{
    ((word >> 20) % 32) as u8
}

#[inline(always)]
fn funct3(word: u32) -> u32
    ensures { result ≡ funct3_of word }
{
    (word >> 12) % 8
}

#[inline(always)]
fn funct7(word: u32) -> u32
    ensures { result ≡ funct7_of word }
{
    (word >> 25) % 128
}

/// 32 bits, each of which is the highest of a word.
#[inline(always)]
#[tactic(auto, using(crate::proofs::Signs::by_shifts))]
fn sign(word: u32) -> u32
    ensures { result ≡ sign_extended 1 (bits_of word 31 1) }
{
    (word.cast_signed() >> 31).cast_unsigned()
}

#[inline(always)]
#[tactic(auto, using(crate::proofs::Signs::by_shifts))]
fn immediate_i(word: u32) -> u32
    ensures { result ≡ imm_i word }
{
    (word.cast_signed() >> 20).cast_unsigned()
}

#[inline(always)]
#[tactic(auto, using(crate::proofs::Signs::by_shifts))]
fn immediate_s(word: u32) -> u32
    ensures { result ≡ imm_s word }
{
    (word.cast_signed() >> 25).cast_unsigned().wrapping_mul(32) + (word >> 7) % 32
}

#[inline(always)]
fn immediate_b(word: u32) -> u32
    ensures { result ≡ imm_b word }
{
    sign(word).wrapping_mul(4096)
        + (word >> 7) % 2 * 2048
        + (word >> 25) % 64 * 32
        + (word >> 8) % 16 * 2
}

#[inline(always)]
fn immediate_u(word: u32) -> u32
    ensures { result ≡ imm_u word }
{
    ((word >> 12) % 0x10_0000) * 4096
}

#[inline(always)]
fn immediate_j(word: u32) -> u32
    ensures { result ≡ imm_j word }
{
    sign(word).wrapping_mul(0x10_0000)
        + (word >> 12) % 256 * 4096
        + (word >> 20) % 2 * 2048
        + (word >> 21) % 1024 * 2
}

#[inline(always)]
fn jalr<H: InstrVisitor>(word: u32, handler: &mut H) -> H::Answer
    ensures { H.handles handler.old (jalr_of word (funct3_of word)) result handler.new }
{
    if funct3(word) != 0 {
        return handler.illegal();
    }
    handler.jalr(rd(word), rs1(word), immediate_i(word))
}

#[inline(always)]
fn branch_on<H: InstrVisitor>(test: BranchTest, word: u32, handler: &mut H) -> H::Answer
    ensures { H.handles handler.old (Some (branch test word)) result handler.new }
{
    handler.branch(test, rs1(word), rs2(word), immediate_b(word))
}

#[inline(always)]
fn branches<H: InstrVisitor>(word: u32, handler: &mut H) -> H::Answer
    ensures { H.handles handler.old (branch_of word (funct3_of word)) result handler.new }
{
    match funct3(word) {
        0 => branch_on(BranchTest::Beq, word, handler),
        1 => branch_on(BranchTest::Bne, word, handler),
        4 => branch_on(BranchTest::Blt, word, handler),
        5 => branch_on(BranchTest::Bge, word, handler),
        6 => branch_on(BranchTest::Bltu, word, handler),
        7 => branch_on(BranchTest::Bgeu, word, handler),
        _ => handler.illegal(),
    }
}

#[inline(always)]
fn load_as<H: InstrVisitor>(kind: LoadKind, word: u32, handler: &mut H) -> H::Answer
    ensures { H.handles handler.old (Some (load kind word)) result handler.new }
{
    handler.load(kind, rd(word), rs1(word), immediate_i(word))
}

#[inline(always)]
fn loads<H: InstrVisitor>(word: u32, handler: &mut H) -> H::Answer
    ensures { H.handles handler.old (load_of word (funct3_of word)) result handler.new }
{
    match funct3(word) {
        0 => load_as(LoadKind::Lb, word, handler),
        1 => load_as(LoadKind::Lh, word, handler),
        2 => load_as(LoadKind::Lw, word, handler),
        4 => load_as(LoadKind::Lbu, word, handler),
        5 => load_as(LoadKind::Lhu, word, handler),
        _ => handler.illegal(),
    }
}

#[inline(always)]
fn store_as<H: InstrVisitor>(width: Width, word: u32, handler: &mut H) -> H::Answer
    ensures { H.handles handler.old (Some (store width word)) result handler.new }
{
    handler.store(width, rs1(word), rs2(word), immediate_s(word))
}

#[inline(always)]
fn stores<H: InstrVisitor>(word: u32, handler: &mut H) -> H::Answer
    ensures { H.handles handler.old (store_of word (funct3_of word)) result handler.new }
{
    match funct3(word) {
        0 => store_as(Width::Byte, word, handler),
        1 => store_as(Width::Half, word, handler),
        2 => store_as(Width::Word, word, handler),
        _ => handler.illegal(),
    }
}

#[inline(always)]
fn by_immediate<H: InstrVisitor>(op: Op, word: u32, handler: &mut H) -> H::Answer
    ensures { H.handles handler.old (Some (op_imm op word)) result handler.new }
{
    handler.op_imm(op, rd(word), rs1(word), immediate_i(word))
}

#[inline(always)]
fn by_distance<H: InstrVisitor>(op: Op, word: u32, handler: &mut H) -> H::Answer
    ensures { H.handles handler.old (Some (shift_imm op word)) result handler.new }
{
    handler.op_imm(op, rd(word), rs1(word), u32::from(rs2(word)))
}

#[inline(always)]
fn left_shift<H: InstrVisitor>(word: u32, handler: &mut H) -> H::Answer
    ensures { H.handles handler.old (shift_left_of word (funct7_of word)) result handler.new }
{
    match funct7(word) {
        0x00 => by_distance(Op::Sll, word, handler),
        _ => handler.illegal(),
    }
}

#[inline(always)]
fn right_shift<H: InstrVisitor>(word: u32, handler: &mut H) -> H::Answer
    ensures { H.handles handler.old (shift_right_of word (funct7_of word)) result handler.new }
{
    match funct7(word) {
        0x00 => by_distance(Op::Srl, word, handler),
        0x20 => by_distance(Op::Sra, word, handler),
        _ => handler.illegal(),
    }
}

#[inline(always)]
fn immediates<H: InstrVisitor>(word: u32, handler: &mut H) -> H::Answer
    ensures { H.handles handler.old (op_imm_of word (funct3_of word) (funct7_of word)) result
        handler.new }
{
    match funct3(word) {
        0 => by_immediate(Op::Add, word, handler),
        1 => left_shift(word, handler),
        2 => by_immediate(Op::Slt, word, handler),
        3 => by_immediate(Op::Sltu, word, handler),
        4 => by_immediate(Op::Xor, word, handler),
        5 => right_shift(word, handler),
        6 => by_immediate(Op::Or, word, handler),
        7 => by_immediate(Op::And, word, handler),
        _ => handler.illegal(),
    }
}

#[inline(always)]
fn by_register<H: InstrVisitor>(op: Op, word: u32, handler: &mut H) -> H::Answer
    ensures { H.handles handler.old (Some (op_reg op word)) result handler.new }
{
    handler.op(op, rd(word), rs1(word), rs2(word))
}

#[inline(always)]
fn base_operations<H: InstrVisitor>(word: u32, handler: &mut H) -> H::Answer
    ensures { H.handles handler.old (base_of word (funct3_of word)) result handler.new }
{
    match funct3(word) {
        0 => by_register(Op::Add, word, handler),
        1 => by_register(Op::Sll, word, handler),
        2 => by_register(Op::Slt, word, handler),
        3 => by_register(Op::Sltu, word, handler),
        4 => by_register(Op::Xor, word, handler),
        5 => by_register(Op::Srl, word, handler),
        6 => by_register(Op::Or, word, handler),
        7 => by_register(Op::And, word, handler),
        _ => handler.illegal(),
    }
}

#[inline(always)]
fn other_operations<H: InstrVisitor>(word: u32, handler: &mut H) -> H::Answer
    ensures { H.handles handler.old (other_of word (funct3_of word)) result handler.new }
{
    match funct3(word) {
        0 => by_register(Op::Sub, word, handler),
        5 => by_register(Op::Sra, word, handler),
        _ => handler.illegal(),
    }
}

#[inline(always)]
fn multiplications<H: InstrVisitor>(word: u32, handler: &mut H) -> H::Answer
    ensures { H.handles handler.old (multiply_of word (funct3_of word)) result handler.new }
{
    match funct3(word) {
        0 => by_register(Op::Mul, word, handler),
        1 => by_register(Op::Mulh, word, handler),
        2 => by_register(Op::Mulhsu, word, handler),
        3 => by_register(Op::Mulhu, word, handler),
        4 => by_register(Op::Div, word, handler),
        5 => by_register(Op::Divu, word, handler),
        6 => by_register(Op::Rem, word, handler),
        7 => by_register(Op::Remu, word, handler),
        _ => handler.illegal(),
    }
}

#[inline(always)]
fn operations<H: InstrVisitor>(word: u32, handler: &mut H) -> H::Answer
    ensures { H.handles handler.old (op_reg_of word (funct3_of word) (funct7_of word)) result
        handler.new }
{
    match funct7(word) {
        0x00 => base_operations(word, handler),
        0x20 => other_operations(word, handler),
        0x01 => multiplications(word, handler),
        _ => handler.illegal(),
    }
}

#[inline(always)]
fn fence<H: InstrVisitor>(word: u32, handler: &mut H) -> H::Answer
    ensures { H.handles handler.old (fence_of word (funct3_of word)) result handler.new }
{
    if funct3(word) == 0 {
        handler.fence()
    } else {
        handler.illegal()
    }
}

#[inline(always)]
fn system<H: InstrVisitor>(word: u32, handler: &mut H) -> H::Answer
    ensures { H.handles handler.old (system_of word) result handler.new }
{
    match word {
        0x0000_0073 => handler.ecall(),
        0x0010_0073 => handler.ebreak(),
        _ => handler.illegal(),
    }
}

/// Hands the instruction of a word of 32 bits (RISC-V unprivileged manual, "RV32/64G Instruction Set
/// Listings", RV32I and M) on to a handler. It is none exactly where no row of the table fits.
#[inline(always)]
#[tactic(auto, using(crate::proofs::ByOpcode::by_opcodes))]
pub fn handle32<H: InstrVisitor>(word: u32, handler: &mut H) -> H::Answer
    ensures { H.handles handler.old (decoding word) result handler.new }
{
    match word % 128 {
        0x37 => handler.lui(rd(word), immediate_u(word)),
        0x17 => handler.auipc(rd(word), immediate_u(word)),
        0x6f => handler.jal(rd(word), immediate_j(word)),
        0x67 => jalr(word, handler),
        0x63 => branches(word, handler),
        0x03 => loads(word, handler),
        0x23 => stores(word, handler),
        0x13 => immediates(word, handler),
        0x33 => operations(word, handler),
        0x0f => fence(word, handler),
        0x73 => system(word, handler),
        _ => handler.illegal(),
    }
}

/// The instruction of a word of 32 bits. None exactly where no row of the table fits.
pub fn decode32(word: u32) -> Option<Instr>
    ensures { result ≡ decoding word }
{
    handle32(word, &mut ToInstr)
}
