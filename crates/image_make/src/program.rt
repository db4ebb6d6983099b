//! The program of a soak application.
ghost use Rattle.std.specs.Prelude.{◌≡◌};
ghost use Rattle.image_make.specs.Program.{program};
ghost use Rattle.image_make.specs.Generator.{assembled};
ghost use Rattle.image_make.specs.Encoding.{code_bytes};

use crate::assembler::Instruction::{self, Addi, Bne, Ecall, Jalr, Li, Mv};
use crate::assembler::Register::{A0, A1, A2, A3, A4, Ra, S0, S1, T0, Zero};

/// Minus 1, as a 12-bit number.
pub const MINUS_1: u32 = (1 << 12) - 1;

/// The offset of the instruction before a branch.
const BACK_4: u32 = (1 << 13) - 4;

/// The offset from the end of a round to its begin.
const BACK_76: u32 = (1 << 13) - 76;

/// The program that in so many rounds writes its message to the console, waits for the end of the write
/// and spins so many times, and then exits with a code.
#[tactic(auto, unfolding(crate::specs::Program::program))]
pub fn program(rounds: u32, spins: u32, code: u32) -> [Instruction; 33]
    ensures { code_bytes result ≡ assembled (program rounds spins code) }
{
    [
        Mv(S0, A0),
        Li(S1, rounds),
        // Subscribe to the end of a write.
        Li(A4, 1),
        Li(A0, 1),
        Li(A1, 1),
        Addi(A2, S0, 128),
        Li(A3, 0),
        Ecall,
        // A round: allow the message.
        Li(A4, 4),
        Li(A0, 1),
        Li(A1, 1),
        Addi(A2, S0, 132),
        Li(A3, 8),
        Ecall,
        // Write it.
        Li(A4, 2),
        Li(A0, 1),
        Li(A1, 1),
        Li(A2, 8),
        Li(A3, 0),
        Ecall,
        // Wait.
        Li(A4, 0),
        Li(A0, 1),
        Ecall,
        // Spin.
        Li(T0, spins),
        Addi(T0, T0, MINUS_1),
        Bne(T0, Zero, BACK_4),
        // The next round.
        Addi(S1, S1, MINUS_1),
        Bne(S1, Zero, BACK_76),
        // Exit.
        Li(A4, 6),
        Li(A0, 0),
        Li(A1, code),
        Ecall,
        // The upcall's function.
        Jalr(Zero, Ra, 0),
    ]
}
