//! Parcels as LLVM's assembler encodes them, and the expansions that the RISC-V manual gives.
use rv32_compressed::*;
use rv32_model::{BranchTest, LoadKind, Op};
use tk_base::Width;

fn op_imm(op: Op, rd: u8, rs1: u8, imm: u32) -> Instr {
    Instr::OpImm { op, rd, rs1, imm }
}

fn op_reg(op: Op, rd: u8, rs1: u8, rs2: u8) -> Instr {
    Instr::Op { op, rd, rs1, rs2 }
}

fn load(rd: u8, rs1: u8, offset: u32) -> Instr {
    Instr::Load {
        kind: LoadKind::Lw,
        rd,
        rs1,
        offset,
    }
}

fn store(rs1: u8, rs2: u8, offset: u32) -> Instr {
    Instr::Store {
        width: Width::Word,
        rs1,
        rs2,
        offset,
    }
}

fn branch(test: BranchTest, rs1: u8, offset: u32) -> Instr {
    Instr::Branch {
        test,
        rs1,
        rs2: 0,
        offset,
    }
}

#[test]
fn stack_and_memory_rows_expand(rt: HostRuntime) {
    let rows = [
        // c.addi4spn x10, x2, 1020
        (0x1fe8, op_imm(Op::Add, 10, 2, 1020)),
        // c.addi4spn x15, x2, 8
        (0x003c, op_imm(Op::Add, 15, 2, 8)),
        // c.lw x8, 68(x9)
        (0x40e0, load(8, 9, 68)),
        // c.sw x10, 56(x11)
        (0xdd88, store(11, 10, 56)),
        // c.lwsp x1, 196(x2)
        (0x409e, load(1, 2, 196)),
        // c.swsp x31, 232(x2)
        (0xd5fe, store(2, 31, 232)),
    ];
    for (parcel, instr) in rows {
        assert_eq!(rt; decode16(parcel), Some(instr), "{parcel}");
    }
}

#[test]
fn immediate_rows_expand(rt: HostRuntime) {
    let rows = [
        // c.addi x5, -32
        (0x1281, op_imm(Op::Add, 5, 5, 0xffff_ffe0)),
        // c.nop
        (0x0001, op_imm(Op::Add, 0, 0, 0)),
        // c.li x10, 0
        (0x4501, op_imm(Op::Add, 10, 0, 0)),
        // c.li x31, -1
        (0x5ffd, op_imm(Op::Add, 31, 0, 0xffff_ffff)),
        // c.addi16sp x2, -512
        (0x7101, op_imm(Op::Add, 2, 2, 0xffff_fe00)),
        // c.addi16sp x2, 336
        (0x6171, op_imm(Op::Add, 2, 2, 336)),
        // c.lui x3, 31
        (
            0x61fd,
            Instr::Lui {
                rd: 3,
                imm: 0x1_f000,
            },
        ),
        // c.lui x4, 0xfffe0
        (
            0x7201,
            Instr::Lui {
                rd: 4,
                imm: 0xfffe_0000,
            },
        ),
        // c.srli x8, 31
        (0x807d, op_imm(Op::Srl, 8, 8, 31)),
        // c.srai x9, 1
        (0x8485, op_imm(Op::Sra, 9, 9, 1)),
        // c.andi x15, -2
        (0x9bf9, op_imm(Op::And, 15, 15, 0xffff_fffe)),
        // c.slli x31, 16
        (0x0fc2, op_imm(Op::Sll, 31, 31, 16)),
    ];
    for (parcel, instr) in rows {
        assert_eq!(rt; decode16(parcel), Some(instr), "{parcel}");
    }
}

#[test]
fn register_rows_expand(rt: HostRuntime) {
    let rows = [
        // c.sub x8, x9
        (0x8c05, op_reg(Op::Sub, 8, 8, 9)),
        // c.xor x10, x11
        (0x8d2d, op_reg(Op::Xor, 10, 10, 11)),
        // c.or x12, x13
        (0x8e55, op_reg(Op::Or, 12, 12, 13)),
        // c.and x14, x15
        (0x8f7d, op_reg(Op::And, 14, 14, 15)),
        // c.mv x1, x31
        (0x80fe, op_reg(Op::Add, 1, 0, 31)),
        // c.add x30, x2
        (0x9f0a, op_reg(Op::Add, 30, 30, 2)),
        // c.ebreak
        (0x9002, Instr::Ebreak),
    ];
    for (parcel, instr) in rows {
        assert_eq!(rt; decode16(parcel), Some(instr), "{parcel}");
    }
}

#[test]
fn jump_and_branch_rows_expand(rt: HostRuntime) {
    let rows = [
        // c.jal -2048
        (
            0x3001,
            Instr::Jal {
                rd: 1,
                offset: 0xffff_f800,
            },
        ),
        // c.jal 1366
        (
            0x2b99,
            Instr::Jal {
                rd: 1,
                offset: 1366,
            },
        ),
        // c.j 680
        (0xa465, Instr::Jal { rd: 0, offset: 680 }),
        // c.beqz x8, -256
        (0xd001, branch(BranchTest::Beq, 8, 0xffff_ff00)),
        // c.bnez x9, 170
        (0xe4cd, branch(BranchTest::Bne, 9, 170)),
        // c.beqz x15, 84
        (0xcbb1, branch(BranchTest::Beq, 15, 84)),
        // c.jr x1
        (
            0x8082,
            Instr::Jalr {
                rd: 0,
                rs1: 1,
                offset: 0,
            },
        ),
        // c.jalr x31
        (
            0x9f82,
            Instr::Jalr {
                rd: 1,
                rs1: 31,
                offset: 0,
            },
        ),
    ];
    for (parcel, instr) in rows {
        assert_eq!(rt; decode16(parcel), Some(instr), "{parcel}");
    }
}

#[test]
fn what_is_no_row_is_illegal(rt: HostRuntime) {
    let parcels = [
        // c.addi4spn, c.addi16sp and c.lui of 0
        0x0000, 0x6101, 0x6081,
        // c.slli and c.srli with bit 12 set
        0x1002, 0x9001,
        // c.lwsp into x0
        0x4002,
        // c.jr of x0
        0x8002,
        // c.subw, which RV64 alone has
        0x9c01,
        // rows of floating point, and the low bits of 32-bit instructions
        0x2000, 0xffff,
    ];
    for parcel in parcels {
        assert_eq!(rt; decode16(parcel), None, "{parcel}");
    }
}
