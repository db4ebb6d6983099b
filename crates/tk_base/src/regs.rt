//! The registers of one process.
ghost use Rattle.std.specs.Prelude.{◌≡◌, replicate};
ghost use Rattle.tk_base.specs.Regs.{register, with_register};

use crate::access::Addr;
use std::marker::Model;

/// The integer registers x0 to x31 and the program counter (RISC-V unprivileged manual,
/// "Programmers' Model for Base Integer ISA"). x0 is 0 at all times, so it is read as the others are,
/// and never written.
#[derive(Clone, Copy, Debug, PartialEq, Eq)]
pub struct Regs {
    x: [u32; 32],
    pc: Addr,
}

impl Model for Regs {
    ghost use Rattle.std.specs.Prelude.{◌≡◌, slice_index};
    ghost use Rattle.tk_base.specs.Regs.{Registers};

    ghost Value = { Registers };

    ghost view = { λ r. record { x = r.x; pc = r.pc } };

    ghost invariant = { λ r. slice_index r.x 0 ≡ 0 };

    ghost inverse = { λ r. record { x = r.x; pc = r.pc } };
}

impl Regs {
    /// All registers 0, and pc at the given address.
    pub fn at(pc: Addr) -> Regs
        ensures { result ≡ record { x = replicate 32 0; pc = pc } }
    {
        Regs { x: [0; 32], pc }
    }

    /// The address of the next instruction.
    #[inline(always)]
    pub fn pc(&self) -> Addr
        ensures { result ≡ self.now.pc }
    {
        self.pc
    }

    /// The next instruction is that at an address.
    #[inline(always)]
    pub fn set_pc(&mut self, to: Addr)
        ensures { self.new ≡ record self.old { pc = to } }
    {
        self.pc = to;
    }

    /// The value of a register; 0 for x0 and past x31.
    #[inline(always)]
    pub fn get(&self, n: u8) -> u32
        ensures { result ≡ register self.now n }
    {
        let n = n as usize;
        if n < 32 { self.x[n] } else { 0 }
    }

    /// Sets a register; a write to x0 or past x31 does nothing.
    #[inline(always)]
    pub fn set(&mut self, n: u8, value: u32)
        ensures { self.new ≡ with_register self.old n value }
    {
        let n = n as usize;
        if n > 0 && n < 32 {
            self.x[n] = value;
        }
    }
}
