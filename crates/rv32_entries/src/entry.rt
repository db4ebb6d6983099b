//! An instruction that was decoded before, with one variant for each thing to do.
ghost use Rattle.std.specs.Prelude.{◌≡◌};
ghost use Rattle.rv32_entries.specs.Entries.{entry_reach};

use crate::register::{Register, Target};

/// An instruction, and by its variant its length; or nothing known of what stands at a place. No variant groups several
/// operations or lengths, so that one look tells what to do, and what comes next does not wait for memory to tell it.
/// Those of two bytes begin with C. None names x0 as a register to set: a jump that keeps no link has a variant of its
/// own, and so has what does nothing. Nor does one name x0 where code often reads it: what sets a register to a number
/// has its own, and so have, of two bytes, what copies one and what branches by whether one is 0. Offsets and
/// immediates are numbers modulo 2^32, as in [`rv32_model::Instr`]; of a jump or branch by an offset it is the half, by
/// so many parcels.
#[derive(Clone, Copy)]
pub enum Entry {
    /// Nothing is known: bits that are no instruction, a breakpoint, half an instruction, one that sets x0 and has no
    /// variant here, or a place that was not decoded.
    Cold,
    Lui {
        rd: Target,
        imm: u32,
    },
    Auipc {
        rd: Target,
        imm: u32,
    },
    Jal {
        rd: Target,
        half: u32,
    },
    /// A jump that keeps no link.
    J {
        half: u32,
    },
    Jalr {
        rd: Target,
        rs1: Register,
        offset: u32,
    },
    /// A jump to where a register tells, which keeps no link.
    Jr {
        rs1: Register,
        offset: u32,
    },
    Beq {
        rs1: Register,
        rs2: Register,
        half: u32,
    },
    Bne {
        rs1: Register,
        rs2: Register,
        half: u32,
    },
    Blt {
        rs1: Register,
        rs2: Register,
        half: u32,
    },
    Bge {
        rs1: Register,
        rs2: Register,
        half: u32,
    },
    Bltu {
        rs1: Register,
        rs2: Register,
        half: u32,
    },
    Bgeu {
        rs1: Register,
        rs2: Register,
        half: u32,
    },
    Lb {
        rd: Target,
        rs1: Register,
        offset: u32,
    },
    Lh {
        rd: Target,
        rs1: Register,
        offset: u32,
    },
    Lw {
        rd: Target,
        rs1: Register,
        offset: u32,
    },
    Lbu {
        rd: Target,
        rs1: Register,
        offset: u32,
    },
    Lhu {
        rd: Target,
        rs1: Register,
        offset: u32,
    },
    Sb {
        rs1: Register,
        rs2: Register,
        offset: u32,
    },
    Sh {
        rs1: Register,
        rs2: Register,
        offset: u32,
    },
    Sw {
        rs1: Register,
        rs2: Register,
        offset: u32,
    },
    Addi {
        rd: Target,
        rs1: Register,
        imm: u32,
    },
    Slti {
        rd: Target,
        rs1: Register,
        imm: u32,
    },
    Sltiu {
        rd: Target,
        rs1: Register,
        imm: u32,
    },
    Xori {
        rd: Target,
        rs1: Register,
        imm: u32,
    },
    Ori {
        rd: Target,
        rs1: Register,
        imm: u32,
    },
    Andi {
        rd: Target,
        rs1: Register,
        imm: u32,
    },
    Slli {
        rd: Target,
        rs1: Register,
        imm: u32,
    },
    Srli {
        rd: Target,
        rs1: Register,
        imm: u32,
    },
    Srai {
        rd: Target,
        rs1: Register,
        imm: u32,
    },
    Add {
        rd: Target,
        rs1: Register,
        rs2: Register,
    },
    Sub {
        rd: Target,
        rs1: Register,
        rs2: Register,
    },
    Sll {
        rd: Target,
        rs1: Register,
        rs2: Register,
    },
    Slt {
        rd: Target,
        rs1: Register,
        rs2: Register,
    },
    Sltu {
        rd: Target,
        rs1: Register,
        rs2: Register,
    },
    Xor {
        rd: Target,
        rs1: Register,
        rs2: Register,
    },
    Srl {
        rd: Target,
        rs1: Register,
        rs2: Register,
    },
    Sra {
        rd: Target,
        rs1: Register,
        rs2: Register,
    },
    Or {
        rd: Target,
        rs1: Register,
        rs2: Register,
    },
    And {
        rd: Target,
        rs1: Register,
        rs2: Register,
    },
    Mul {
        rd: Target,
        rs1: Register,
        rs2: Register,
    },
    Mulh {
        rd: Target,
        rs1: Register,
        rs2: Register,
    },
    Mulhsu {
        rd: Target,
        rs1: Register,
        rs2: Register,
    },
    Mulhu {
        rd: Target,
        rs1: Register,
        rs2: Register,
    },
    Div {
        rd: Target,
        rs1: Register,
        rs2: Register,
    },
    Divu {
        rd: Target,
        rs1: Register,
        rs2: Register,
    },
    Rem {
        rd: Target,
        rs1: Register,
        rs2: Register,
    },
    Remu {
        rd: Target,
        rs1: Register,
        rs2: Register,
    },
    Fence,
    /// `addi` of x0, which sets a register to a number.
    Li {
        rd: Target,
        imm: u32,
    },
    /// `addi x0, x0, 0`, which does nothing.
    Nop,
    Ecall,
    CLui {
        rd: Target,
        imm: u32,
    },
    CJal {
        rd: Target,
        half: u32,
    },
    CJ {
        half: u32,
    },
    CJalr {
        rd: Target,
        rs1: Register,
        offset: u32,
    },
    CJr {
        rs1: Register,
        offset: u32,
    },
    /// A branch where a register is 0.
    CBeqz {
        rs1: Register,
        half: u32,
    },
    /// A branch where it is not.
    CBnez {
        rs1: Register,
        half: u32,
    },
    CLw {
        rd: Target,
        rs1: Register,
        offset: u32,
    },
    CSw {
        rs1: Register,
        rs2: Register,
        offset: u32,
    },
    CNop,
    CLi {
        rd: Target,
        imm: u32,
    },
    CAddi {
        rd: Target,
        rs1: Register,
        imm: u32,
    },
    CAndi {
        rd: Target,
        rs1: Register,
        imm: u32,
    },
    CSlli {
        rd: Target,
        rs1: Register,
        imm: u32,
    },
    CSrli {
        rd: Target,
        rs1: Register,
        imm: u32,
    },
    CSrai {
        rd: Target,
        rs1: Register,
        imm: u32,
    },
    /// `add` of x0, which copies a register.
    CMv {
        rd: Target,
        rs2: Register,
    },
    CAdd {
        rd: Target,
        rs1: Register,
        rs2: Register,
    },
    CSub {
        rd: Target,
        rs1: Register,
        rs2: Register,
    },
    CXor {
        rd: Target,
        rs1: Register,
        rs2: Register,
    },
    COr {
        rd: Target,
        rs1: Register,
        rs2: Register,
    },
    CAnd {
        rd: Target,
        rs1: Register,
        rs2: Register,
    },
}

impl Entry {
    /// How many bytes from its place on hold the instruction, and the first parcel of the one behind it where it may go
    /// on there; 0 where nothing is known.
    #[inline(always)]
    pub fn reach(self) -> u8
        ensures { result ≡ entry_reach self }
    {
        match self {
            Entry::Cold => 0,
            Entry::CJal { .. } | Entry::CJ { .. } | Entry::CJalr { .. } | Entry::CJr { .. } => 2,
            Entry::CBeqz { .. } | Entry::CBnez { .. } => 2,
            Entry::Jal { .. } | Entry::J { .. } | Entry::Jalr { .. } | Entry::Jr { .. } => 4,
            Entry::Ecall | Entry::CNop => 4,
            Entry::Beq { .. } | Entry::Bne { .. } | Entry::Blt { .. } => 4,
            Entry::Bge { .. } | Entry::Bltu { .. } | Entry::Bgeu { .. } => 4,
            Entry::CLui { .. } | Entry::CLw { .. } | Entry::CSw { .. } => 4,
            Entry::CLi { .. } | Entry::CMv { .. } => 4,
            Entry::CAddi { .. } | Entry::CAndi { .. } | Entry::CSlli { .. } => 4,
            Entry::CSrli { .. } | Entry::CSrai { .. } | Entry::CAdd { .. } => 4,
            Entry::CSub { .. } | Entry::CXor { .. } | Entry::COr { .. } | Entry::CAnd { .. } => 4,
            _ => 6,
        }
    }
}
