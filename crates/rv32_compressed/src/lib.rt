//! The expansion of compressed instructions.
#![tactic(auto)]

ghost use Rattle.std.specs.Prelude.{◌≡◌, Some};
ghost use Rattle.rv32_model.specs.Instructions.{bits_of, rd_of};
ghost use Rattle.rv32_model.specs.Compressed.{decoding16, rs2_full, rd_short, rs1_short, imm_addi4spn, imm_word};
ghost use Rattle.rv32_model.specs.Compressed.{imm_ci, imm_addi16sp, imm_lui, imm_cj, imm_cb, imm_lwsp, imm_swsp};
ghost use Rattle.rv32_model.specs.Compressed.{shift_short, registers_short, branch_short};
ghost use Rattle.rv32_compressed.specs.Quadrants.{addi4spn_of, andi_short, quadrant0_of, upper_of, arithmetic_of};
ghost use Rattle.rv32_compressed.specs.Quadrants.{quadrant1_of, slli_of, lwsp_of, moves_of, quadrant2_of};

pub use rv32_model::Instr;
use rv32_model::{BranchTest, InstrVisitor, LoadKind, Op, ToInstr};
use tk_base::Width;

#[inline(always)]
fn rd(parcel: u32) -> u8
    ensures { result ≡ rd_of parcel }
{
    ((parcel >> 7) % 32) as u8
}

#[inline(always)]
fn rs2(parcel: u32) -> u8
    ensures { result ≡ rs2_full parcel }
{
    ((parcel >> 2) % 32) as u8
}

#[inline(always)]
fn short_rd(parcel: u32) -> u8
    ensures { result ≡ rd_short parcel }
{
    (8 + (parcel >> 2) % 8) as u8
}

#[inline(always)]
fn short_rs1(parcel: u32) -> u8
    ensures { result ≡ rs1_short parcel }
{
    (8 + (parcel >> 7) % 8) as u8
}

#[inline(always)]
fn top(parcel: u32) -> u32
    ensures { result ≡ bits_of parcel 13 3 }
{
    (parcel >> 13) % 8
}

#[inline(always)]
fn bit12(parcel: u32) -> u32
    ensures { result ≡ bits_of parcel 12 1 }
{
    (parcel >> 12) % 2
}

#[inline(always)]
fn immediate_addi4spn(parcel: u32) -> u32
    ensures { result ≡ imm_addi4spn parcel }
{
    (parcel >> 11) % 4 * 16
        + (parcel >> 7) % 16 * 64
        + (parcel >> 6) % 2 * 4
        + (parcel >> 5) % 2 * 8
}

#[inline(always)]
fn immediate_word(parcel: u32) -> u32
    ensures { result ≡ imm_word parcel }
{
    (parcel >> 10) % 8 * 8 + (parcel >> 6) % 2 * 4 + (parcel >> 5) % 2 * 64
}

#[inline(always)]
fn immediate(parcel: u32) -> u32
    ensures { result ≡ imm_ci parcel }
{
    let field = (parcel >> 12) % 2 * 32 + (parcel >> 2) % 32;
    if field < 0x20 {
        field
    } else {
        field + 0xffff_ffc0
    }
}

#[inline(always)]
fn immediate_addi16sp(parcel: u32) -> u32
    ensures { result ≡ imm_addi16sp parcel }
{
    let field = (parcel >> 12) % 2 * 512
        + (parcel >> 6) % 2 * 16
        + (parcel >> 5) % 2 * 64
        + (parcel >> 3) % 4 * 128
        + (parcel >> 2) % 2 * 32;
    if field < 0x200 {
        field
    } else {
        field + 0xffff_fc00
    }
}

#[inline(always)]
fn immediate_lui(parcel: u32) -> u32
    ensures { result ≡ imm_lui parcel }
{
    let field = (parcel >> 12) % 2 * 0x2_0000 + (parcel >> 2) % 32 * 4096;
    if field < 0x2_0000 {
        field
    } else {
        field + 0xfffc_0000
    }
}

#[inline(always)]
fn immediate_jump(parcel: u32) -> u32
    ensures { result ≡ imm_cj parcel }
{
    let field = (parcel >> 12) % 2 * 2048
        + (parcel >> 11) % 2 * 16
        + (parcel >> 9) % 4 * 256
        + (parcel >> 8) % 2 * 1024
        + (parcel >> 7) % 2 * 64
        + (parcel >> 6) % 2 * 128
        + (parcel >> 3) % 8 * 2
        + (parcel >> 2) % 2 * 32;
    if field < 0x800 {
        field
    } else {
        field + 0xffff_f000
    }
}

#[inline(always)]
fn immediate_branch(parcel: u32) -> u32
    ensures { result ≡ imm_cb parcel }
{
    let field = (parcel >> 12) % 2 * 256
        + (parcel >> 10) % 4 * 8
        + (parcel >> 5) % 4 * 64
        + (parcel >> 3) % 4 * 2
        + (parcel >> 2) % 2 * 32;
    if field < 0x100 {
        field
    } else {
        field + 0xffff_fe00
    }
}

#[inline(always)]
fn immediate_lwsp(parcel: u32) -> u32
    ensures { result ≡ imm_lwsp parcel }
{
    (parcel >> 12) % 2 * 32 + (parcel >> 4) % 8 * 4 + (parcel >> 2) % 4 * 64
}

#[inline(always)]
fn immediate_swsp(parcel: u32) -> u32
    ensures { result ≡ imm_swsp parcel }
{
    (parcel >> 9) % 16 * 4 + (parcel >> 7) % 4 * 64
}

#[inline(always)]
fn addi4spn<H: InstrVisitor>(parcel: u32, handler: &mut H) -> H::Answer
    ensures { H.handles handler.old (addi4spn_of parcel) result handler.new }
{
    let offset = immediate_addi4spn(parcel);
    if offset == 0 {
        return handler.illegal();
    }
    handler.op_imm(Op::Add, short_rd(parcel), 2, offset)
}

#[inline(always)]
fn quadrant0<H: InstrVisitor>(parcel: u32, handler: &mut H) -> H::Answer
    ensures { H.handles handler.old (quadrant0_of parcel (bits_of parcel 13 3)) result handler.new }
{
    match top(parcel) {
        0 => addi4spn(parcel, handler),
        2 => {
            let offset = immediate_word(parcel);
            handler.load(LoadKind::Lw, short_rd(parcel), short_rs1(parcel), offset)
        }
        6 => {
            let offset = immediate_word(parcel);
            handler.store(Width::Word, short_rs1(parcel), short_rd(parcel), offset)
        }
        _ => handler.illegal(),
    }
}

#[inline(always)]
fn upper<H: InstrVisitor>(parcel: u32, handler: &mut H) -> H::Answer
    ensures { H.handles handler.old (upper_of parcel) result handler.new }
{
    if rd(parcel) == 2 {
        let imm = immediate_addi16sp(parcel);
        if imm == 0 {
            return handler.illegal();
        }
        return handler.op_imm(Op::Add, 2, 2, imm);
    }
    let imm = immediate_lui(parcel);
    if imm == 0 {
        return handler.illegal();
    }
    handler.lui(rd(parcel), imm)
}

#[inline(always)]
fn shift<H: InstrVisitor>(op: Op, parcel: u32, handler: &mut H) -> H::Answer
    ensures { H.handles handler.old (Some (shift_short op parcel)) result handler.new }
{
    let register = short_rs1(parcel);
    handler.op_imm(op, register, register, u32::from(rs2(parcel)))
}

#[inline(always)]
fn registers<H: InstrVisitor>(op: Op, parcel: u32, handler: &mut H) -> H::Answer
    ensures { H.handles handler.old (Some (registers_short op parcel)) result handler.new }
{
    let register = short_rs1(parcel);
    handler.op(op, register, register, short_rd(parcel))
}

#[inline(always)]
fn and_immediate<H: InstrVisitor>(parcel: u32, handler: &mut H) -> H::Answer
    ensures { H.handles handler.old (Some (andi_short parcel)) result handler.new }
{
    let register = short_rs1(parcel);
    handler.op_imm(Op::And, register, register, immediate(parcel))
}

#[inline(always)]
fn arithmetic<H: InstrVisitor>(parcel: u32, handler: &mut H) -> H::Answer
    ensures { H.handles handler.old (arithmetic_of parcel) result handler.new }
{
    match ((parcel >> 10) % 4, bit12(parcel), (parcel >> 5) % 4) {
        (0, 0, _) => shift(Op::Srl, parcel, handler),
        (1, 0, _) => shift(Op::Sra, parcel, handler),
        (2, _, _) => and_immediate(parcel, handler),
        (3, 0, 0) => registers(Op::Sub, parcel, handler),
        (3, 0, 1) => registers(Op::Xor, parcel, handler),
        (3, 0, 2) => registers(Op::Or, parcel, handler),
        (3, 0, 3) => registers(Op::And, parcel, handler),
        _ => handler.illegal(),
    }
}

#[inline(always)]
fn branch<H: InstrVisitor>(test: BranchTest, parcel: u32, handler: &mut H) -> H::Answer
    ensures { H.handles handler.old (Some (branch_short test parcel)) result handler.new }
{
    handler.branch(test, short_rs1(parcel), 0, immediate_branch(parcel))
}

#[inline(always)]
fn quadrant1<H: InstrVisitor>(parcel: u32, handler: &mut H) -> H::Answer
    ensures { H.handles handler.old (quadrant1_of parcel (bits_of parcel 13 3)) result handler.new }
{
    match top(parcel) {
        0 => handler.op_imm(Op::Add, rd(parcel), rd(parcel), immediate(parcel)),
        1 => handler.jal(1, immediate_jump(parcel)),
        2 => handler.op_imm(Op::Add, rd(parcel), 0, immediate(parcel)),
        3 => upper(parcel, handler),
        4 => arithmetic(parcel, handler),
        5 => handler.jal(0, immediate_jump(parcel)),
        6 => branch(BranchTest::Beq, parcel, handler),
        7 => branch(BranchTest::Bne, parcel, handler),
        _ => handler.illegal(),
    }
}

#[inline(always)]
fn slli<H: InstrVisitor>(parcel: u32, handler: &mut H) -> H::Answer
    ensures { H.handles handler.old (slli_of parcel) result handler.new }
{
    if bit12(parcel) != 0 {
        return handler.illegal();
    }
    handler.op_imm(Op::Sll, rd(parcel), rd(parcel), u32::from(rs2(parcel)))
}

#[inline(always)]
fn lwsp<H: InstrVisitor>(parcel: u32, handler: &mut H) -> H::Answer
    ensures { H.handles handler.old (lwsp_of parcel) result handler.new }
{
    let rd = rd(parcel);
    if rd == 0 {
        return handler.illegal();
    }
    handler.load(LoadKind::Lw, rd, 2, immediate_lwsp(parcel))
}

#[inline(always)]
fn moves<H: InstrVisitor>(parcel: u32, handler: &mut H) -> H::Answer
    ensures { H.handles handler.old (moves_of parcel) result handler.new }
{
    let rd = rd(parcel);
    let rs2 = rs2(parcel);
    match (bit12(parcel), rs2, rd) {
        (0, 0, 0) => handler.illegal(),
        (0, 0, _) => handler.jalr(0, rd, 0),
        (0, _, _) => handler.op(Op::Add, rd, 0, rs2),
        (_, 0, 0) => handler.ebreak(),
        (_, 0, _) => handler.jalr(1, rd, 0),
        _ => handler.op(Op::Add, rd, rd, rs2),
    }
}

#[inline(always)]
fn quadrant2<H: InstrVisitor>(parcel: u32, handler: &mut H) -> H::Answer
    ensures { H.handles handler.old (quadrant2_of parcel (bits_of parcel 13 3)) result handler.new }
{
    match top(parcel) {
        0 => slli(parcel, handler),
        2 => lwsp(parcel, handler),
        4 => moves(parcel, handler),
        6 => handler.store(Width::Word, 2, rs2(parcel), immediate_swsp(parcel)),
        _ => handler.illegal(),
    }
}

/// Hands the instruction of 32 bits that a parcel of 16 expands to (RISC-V unprivileged manual, "C
/// Standard Extension for Compressed Instructions") on to a handler. It is none exactly where no row of
/// the table fits; a hint means its expansion.
#[inline(always)]
#[tactic(auto, using(crate::proofs::ByQuadrant::by_quadrants))]
pub fn handle16<H: InstrVisitor>(parcel: u16, handler: &mut H) -> H::Answer
    ensures { H.handles handler.old (decoding16 parcel) result handler.new }
{
    let parcel = u32::from(parcel);
    match parcel % 4 {
        0 => quadrant0(parcel, handler),
        1 => quadrant1(parcel, handler),
        2 => quadrant2(parcel, handler),
        _ => handler.illegal(),
    }
}

/// The instruction of 32 bits that a parcel of 16 expands to. None exactly where no row of the table fits.
pub fn decode16(parcel: u16) -> Option<Instr>
    ensures { result ≡ decoding16 parcel }
{
    handle16(parcel, &mut ToInstr)
}
