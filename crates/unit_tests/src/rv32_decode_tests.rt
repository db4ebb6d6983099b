//! Words as LLVM's assembler encodes them, and what they mean.
use rv32_decode::*;
use rv32_model::{BranchTest, LoadKind, Op};
use tk_base::Width;

fn branch(test: BranchTest, rs1: u8, rs2: u8, offset: u32) -> Instr {
    Instr::Branch {
        test,
        rs1,
        rs2,
        offset,
    }
}

fn load(kind: LoadKind, rd: u8, rs1: u8, offset: u32) -> Instr {
    Instr::Load {
        kind,
        rd,
        rs1,
        offset,
    }
}

fn store(width: Width, rs1: u8, rs2: u8, offset: u32) -> Instr {
    Instr::Store {
        width,
        rs1,
        rs2,
        offset,
    }
}

fn op_imm(op: Op, rd: u8, rs1: u8, imm: u32) -> Instr {
    Instr::OpImm { op, rd, rs1, imm }
}

fn op_reg(op: Op, rd: u8, rs1: u8, rs2: u8) -> Instr {
    Instr::Op { op, rd, rs1, rs2 }
}

#[test]
fn upper_immediates_and_jumps(rt: HostRuntime) {
    let rows = [
        // lui x5, 0xfffff
        (
            0xffff_f2b7,
            Instr::Lui {
                rd: 5,
                imm: 0xffff_f000,
            },
        ),
        // auipc x6, 0x12345
        (
            0x1234_5317,
            Instr::Auipc {
                rd: 6,
                imm: 0x1234_5000,
            },
        ),
        // jal x1, -2048
        (
            0x801f_f0ef,
            Instr::Jal {
                rd: 1,
                offset: 0xffff_f800,
            },
        ),
        // jal x0, 1048574
        (
            0x7fff_f06f,
            Instr::Jal {
                rd: 0,
                offset: 0x000f_fffe,
            },
        ),
        // jal x9, 2562
        (
            0x2030_04ef,
            Instr::Jal {
                rd: 9,
                offset: 0xa02,
            },
        ),
        // jalr x1, -4(x5)
        (
            0xffc2_80e7,
            Instr::Jalr {
                rd: 1,
                rs1: 5,
                offset: 0xffff_fffc,
            },
        ),
        // fence rw, rw
        (0x0330_000f, Instr::Fence),
        // fence.tso
        (0x8330_000f, Instr::Fence),
        // ecall
        (0x0000_0073, Instr::Ecall),
        // ebreak
        (0x0010_0073, Instr::Ebreak),
    ];
    for (word, instr) in rows {
        assert_eq!(rt; decode32(word), Some(instr), "{word}");
    }
}

#[test]
fn branches(rt: HostRuntime) {
    let rows = [
        // beq x1, x2, -4096
        (0x8020_8063, branch(BranchTest::Beq, 1, 2, 0xffff_f000)),
        // bne x3, x4, 4094
        (0x7e41_9fe3, branch(BranchTest::Bne, 3, 4, 0xffe)),
        // blt x5, x6, -2
        (0xfe62_cfe3, branch(BranchTest::Blt, 5, 6, 0xffff_fffe)),
        // bge x7, x8, 2048
        (0x0083_d0e3, branch(BranchTest::Bge, 7, 8, 0x800)),
        // bltu x9, x10, 64
        (0x04a4_e063, branch(BranchTest::Bltu, 9, 10, 0x40)),
        // bgeu x31, x30, -32
        (0xffef_f0e3, branch(BranchTest::Bgeu, 31, 30, 0xffff_ffe0)),
    ];
    for (word, instr) in rows {
        assert_eq!(rt; decode32(word), Some(instr), "{word}");
    }
}

#[test]
fn loads_and_stores(rt: HostRuntime) {
    let rows = [
        // lb x10, -1(x11)
        (0xfff5_8503, load(LoadKind::Lb, 10, 11, 0xffff_ffff)),
        // lh x12, 2047(x13)
        (0x7ff6_9603, load(LoadKind::Lh, 12, 13, 0x7ff)),
        // lw x14, -2048(x15)
        (0x8007_a703, load(LoadKind::Lw, 14, 15, 0xffff_f800)),
        // lbu x16, 1(x17)
        (0x0018_c803, load(LoadKind::Lbu, 16, 17, 1)),
        // lhu x18, 2(x19)
        (0x0029_d903, load(LoadKind::Lhu, 18, 19, 2)),
        // sb x20, -1(x21)
        (0xff4a_8fa3, store(Width::Byte, 21, 20, 0xffff_ffff)),
        // sh x22, 2047(x23)
        (0x7f6b_9fa3, store(Width::Half, 23, 22, 0x7ff)),
        // sw x24, -2048(x25)
        (0x818c_a023, store(Width::Word, 25, 24, 0xffff_f800)),
    ];
    for (word, instr) in rows {
        assert_eq!(rt; decode32(word), Some(instr), "{word}");
    }
}

#[test]
fn operations_with_an_immediate(rt: HostRuntime) {
    let rows = [
        // addi x26, x27, -1
        (0xfffd_8d13, op_imm(Op::Add, 26, 27, 0xffff_ffff)),
        // slti x28, x29, 2047
        (0x7ffe_ae13, op_imm(Op::Slt, 28, 29, 0x7ff)),
        // sltiu x30, x31, -2048
        (0x800f_bf13, op_imm(Op::Sltu, 30, 31, 0xffff_f800)),
        // xori x1, x2, 1
        (0x0011_4093, op_imm(Op::Xor, 1, 2, 1)),
        // ori x3, x4, -256
        (0xf002_6193, op_imm(Op::Or, 3, 4, 0xffff_ff00)),
        // andi x5, x6, 255
        (0x0ff3_7293, op_imm(Op::And, 5, 6, 0xff)),
        // slli x7, x8, 31
        (0x01f4_1393, op_imm(Op::Sll, 7, 8, 31)),
        // srli x9, x10, 1
        (0x0015_5493, op_imm(Op::Srl, 9, 10, 1)),
        // srai x11, x12, 16
        (0x4106_5593, op_imm(Op::Sra, 11, 12, 16)),
    ];
    for (word, instr) in rows {
        assert_eq!(rt; decode32(word), Some(instr), "{word}");
    }
}

#[test]
fn operations(rt: HostRuntime) {
    let rows = [
        // add x13, x14, x15
        (0x00f7_06b3, op_reg(Op::Add, 13, 14, 15)),
        // sub x16, x17, x18
        (0x4128_8833, op_reg(Op::Sub, 16, 17, 18)),
        // sll x19, x20, x21
        (0x015a_19b3, op_reg(Op::Sll, 19, 20, 21)),
        // slt x22, x23, x24
        (0x018b_ab33, op_reg(Op::Slt, 22, 23, 24)),
        // sltu x25, x26, x27
        (0x01bd_3cb3, op_reg(Op::Sltu, 25, 26, 27)),
        // xor x28, x29, x30
        (0x01ee_ce33, op_reg(Op::Xor, 28, 29, 30)),
        // srl x31, x1, x2
        (0x0020_dfb3, op_reg(Op::Srl, 31, 1, 2)),
        // sra x3, x4, x5
        (0x4052_51b3, op_reg(Op::Sra, 3, 4, 5)),
        // or x6, x7, x8
        (0x0083_e333, op_reg(Op::Or, 6, 7, 8)),
        // and x9, x10, x11
        (0x00b5_74b3, op_reg(Op::And, 9, 10, 11)),
    ];
    for (word, instr) in rows {
        assert_eq!(rt; decode32(word), Some(instr), "{word}");
    }
}

#[test]
fn multiplications_and_divisions(rt: HostRuntime) {
    let rows = [
        // mul x12, x13, x14
        (0x02e6_8633, op_reg(Op::Mul, 12, 13, 14)),
        // mulh x15, x16, x17
        (0x0318_17b3, op_reg(Op::Mulh, 15, 16, 17)),
        // mulhsu x18, x19, x20
        (0x0349_a933, op_reg(Op::Mulhsu, 18, 19, 20)),
        // mulhu x21, x22, x23
        (0x037b_3ab3, op_reg(Op::Mulhu, 21, 22, 23)),
        // div x24, x25, x26
        (0x03ac_cc33, op_reg(Op::Div, 24, 25, 26)),
        // divu x27, x28, x29
        (0x03de_5db3, op_reg(Op::Divu, 27, 28, 29)),
        // rem x30, x31, x1
        (0x021f_ef33, op_reg(Op::Rem, 30, 31, 1)),
        // remu x2, x3, x4
        (0x0241_f133, op_reg(Op::Remu, 2, 3, 4)),
    ];
    for (word, instr) in rows {
        assert_eq!(rt; decode32(word), Some(instr), "{word}");
    }
}

#[test]
fn what_is_no_row_is_illegal(rt: HostRuntime) {
    let words = [
        // fence.i
        0x0000_100f,
        // wfi
        0x1050_0073,
        // mret
        0x3020_0073,
        // sret
        0x1020_0073,
        // csrrw x1, mstatus, x2
        0x3001_10f3,
        // a shift by an immediate with funct7 1
        0x0200_1013,
        // an operation with funct7 2
        0x0400_0033,
        // a branch of funct3 2
        0x0000_2063,
        // a load of funct3 3
        0x0000_3003,
        // a store of funct3 3
        0x0000_3023,
        // a jalr of funct3 1
        0x0000_1067,
        // an unknown opcode
        0x0000_007f,
        // all zeros
        0x0000_0000,
    ];
    for word in words {
        assert_eq!(rt; decode32(word), None, "{word}");
    }
}
