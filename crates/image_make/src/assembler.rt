//! The instructions that the programs are made of, and their words (RISC-V unprivileged manual, "RV32I
//! Base Integer Instruction Set" and "RISC-V Assembly Programmer's Handbook").
ghost use Rattle.std.specs.Prelude.{◌≡◌, ◌<◌};
ghost use Rattle.image_make.specs.Assembler.{bne, i_type};
ghost use Rattle.image_make.specs.Encoding.{instruction_word, register_number, sw};

/// The registers that the programs use, by their names in the calling convention.
#[derive(Clone, Copy)]
pub enum Register {
    Zero,
    Ra,
    T0,
    S0,
    S1,
    A0,
    A1,
    A2,
    A3,
    A4,
}

impl Register {
    /// The register's number, from 0 to 31.
    fn number(self) -> u32
        ensures number { result ≡ register_number self }
        ensures below { result < 32 }
    {
        match self {
            Register::Zero => 0,
            Register::Ra => 1,
            Register::T0 => 5,
            Register::S0 => 8,
            Register::S1 => 9,
            Register::A0 => 10,
            Register::A1 => 11,
            Register::A2 => 12,
            Register::A3 => 13,
            Register::A4 => 14,
        }
    }
}

/// An instruction as an assembler writes it, or a word of data: the register that is written comes
/// first, and of a store the register that is stored. A number below zero is given modulo `2^12`, and
/// the offset of a branch, in bytes, modulo `2^13`.
#[derive(Clone, Copy)]
pub enum Instruction {
    /// A word of data.
    Word(u32),
    /// Adds a number to a register.
    Addi(Register, Register, u32),
    /// Sets a register to a number.
    Li(Register, u32),
    /// Copies a register.
    Mv(Register, Register),
    /// Branches where the two registers differ.
    Bne(Register, Register, u32),
    /// Goes on at an address in a register, and keeps the address of the next instruction.
    Jalr(Register, Register, u32),
    /// Stores a word at an offset from the address in the second register.
    Sw(Register, Register, u32),
    /// A system call.
    Ecall,
}

/// An instruction with a 12-bit number.
#[tactic(auto, unfolding(crate::specs::Assembler::i_type))]
fn i_type(opcode: u32, rd: Register, rs1: Register, number: u32) -> u32
    requires { opcode < 128 }
    ensures { result ≡ i_type opcode (register_number rd) (register_number rs1) number }
{
    number % (1 << 12) * (1 << 20) + rs1.number() * (1 << 15) + rd.number() * (1 << 7) + opcode
}

/// A branch where two registers differ, whose offset has 13 bits.
#[tactic(auto, unfolding(crate::specs::Assembler::bne))]
fn bne(rs1: Register, rs2: Register, offset: u32) -> u32
    ensures { result ≡ bne (register_number rs1) (register_number rs2) offset }
{
    offset / (1 << 12) % 2 * (1 << 31)
        + offset / (1 << 5) % (1 << 6) * (1 << 25)
        + rs2.number() * (1 << 20)
        + rs1.number() * (1 << 15)
        + (1 << 12)
        + offset / 2 % (1 << 4) * (1 << 8)
        + offset / (1 << 11) % 2 * (1 << 7)
        + 0x63
}

/// A store of a word, whose offset has 12 bits.
#[tactic(auto, unfolding(crate::specs::Encoding::sw))]
fn sw(rs2: Register, rs1: Register, offset: u32) -> u32
    ensures { result ≡ sw (register_number rs2) (register_number rs1) offset }
{
    offset / (1 << 5) % (1 << 7) * (1 << 25)
        + rs2.number() * (1 << 20)
        + rs1.number() * (1 << 15)
        + 2 * (1 << 12)
        + offset % (1 << 5) * (1 << 7)
        + 0x23
}

impl Instruction {
    /// The instruction's word.
    pub fn word(self) -> u32
        ensures { result ≡ instruction_word self }
    {
        match self {
            Instruction::Word(word) => word,
            Instruction::Addi(rd, rs1, number) => i_type(0x13, rd, rs1, number),
            Instruction::Li(rd, number) => i_type(0x13, rd, Register::Zero, number),
            Instruction::Mv(rd, rs1) => i_type(0x13, rd, rs1, 0),
            Instruction::Bne(rs1, rs2, offset) => bne(rs1, rs2, offset),
            Instruction::Jalr(rd, rs1, offset) => i_type(0x67, rd, rs1, offset),
            Instruction::Sw(rs2, rs1, offset) => sw(rs2, rs1, offset),
            Instruction::Ecall => 0x73,
        }
    }
}
