//! The instructions, with their operands as values. The variants have the names of the RISC-V
//! unprivileged manual.
use tk_base::Width;

/// An operation of two values ("Integer Computational Instructions", and the chapter of the M
/// extension for multiplication and division).
#[derive(Clone, Copy, Debug, PartialEq, Eq)]
pub enum Op {
    /// The sum.
    Add,
    /// The difference.
    Sub,
    /// The first, shifted left by the lowest 5 bits of the second.
    Sll,
    /// 1 where the first is less, as signed numbers; else 0.
    Slt,
    /// 1 where the first is less, as unsigned numbers; else 0.
    Sltu,
    /// The exclusive or of the bits.
    Xor,
    /// The first, shifted right by the lowest 5 bits of the second; zeros come in.
    Srl,
    /// The first, shifted right by the lowest 5 bits of the second; the sign bit comes in.
    Sra,
    /// The or of the bits.
    Or,
    /// The and of the bits.
    And,
    /// The lower half of the product.
    Mul,
    /// The upper half of the product of two signed numbers.
    Mulh,
    /// The upper half of the product of a signed and an unsigned number.
    Mulhsu,
    /// The upper half of the product of two unsigned numbers.
    Mulhu,
    /// The signed quotient, rounded towards zero.
    Div,
    /// The unsigned quotient.
    Divu,
    /// The remainder of the signed quotient.
    Rem,
    /// The remainder of the unsigned quotient.
    Remu,
}

/// When a branch is taken ("Conditional Branches").
#[derive(Clone, Copy, Debug, PartialEq, Eq)]
pub enum BranchTest {
    /// The values are equal.
    Beq,
    /// The values differ.
    Bne,
    /// The first is less, as signed numbers.
    Blt,
    /// The first is not less, as signed numbers.
    Bge,
    /// The first is less, as unsigned numbers.
    Bltu,
    /// The first is not less, as unsigned numbers.
    Bgeu,
}

/// How many bytes a load reads, and what fills the register above them ("Load and Store
/// Instructions").
#[derive(Clone, Copy, Debug, PartialEq, Eq)]
pub enum LoadKind {
    /// A byte, sign-extended.
    Lb,
    /// Two bytes, sign-extended.
    Lh,
    /// Four bytes.
    Lw,
    /// A byte, zero-extended.
    Lbu,
    /// Two bytes, zero-extended.
    Lhu,
}

/// An instruction. Registers are named by their numbers, 0 to 31; an immediate or an offset is the
/// number that is added or loaded, sign-extended to 32 bits.
#[derive(Clone, Copy, Debug, PartialEq, Eq)]
pub enum Instr {
    /// Loads the immediate, whose low 12 bits are 0.
    Lui {
        rd: u8,
        imm: u32,
    },
    /// Adds the immediate, whose low 12 bits are 0, to pc.
    Auipc {
        rd: u8,
        imm: u32,
    },
    /// Jumps to an address relative to pc, and links.
    Jal {
        rd: u8,
        offset: u32,
    },
    /// Jumps to an address relative to a register, and links.
    Jalr {
        rd: u8,
        rs1: u8,
        offset: u32,
    },
    /// Jumps to an address relative to pc where a test of two registers holds.
    Branch {
        test: BranchTest,
        rs1: u8,
        rs2: u8,
        offset: u32,
    },
    /// Loads from an address relative to a register.
    Load {
        kind: LoadKind,
        rd: u8,
        rs1: u8,
        offset: u32,
    },
    /// Stores the lowest bytes of register rs2 at an address relative to rs1.
    Store {
        width: Width,
        rs1: u8,
        rs2: u8,
        offset: u32,
    },
    /// An operation of a register and the immediate.
    OpImm {
        op: Op,
        rd: u8,
        rs1: u8,
        imm: u32,
    },
    /// An operation of two registers.
    Op {
        op: Op,
        rd: u8,
        rs1: u8,
        rs2: u8,
    },
    /// Orders memory accesses, of which no other processor sees any: does nothing.
    Fence,
    /// A system call.
    Ecall,
    /// A breakpoint.
    Ebreak,
}
