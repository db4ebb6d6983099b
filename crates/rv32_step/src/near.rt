//! A processor that executes instructions which are known, as long as what they touch is near.
ghost use Rattle.std.specs.Prelude.{◌≡◌, ◌↔◌, ◌+◌, ◌/◌, ◌%◌, ◌<◌, ◌^◌, IsTrue};
ghost use Rattle.tk_base.specs.Regs.{with_register};
ghost use Rattle.rv32_model.specs.UserTurn.{w32_of};
ghost use Rattle.rv32_step.specs.declared.near.Served.TheVariants.{Jumped, Straight};
ghost use Rattle.rv32_step.specs.Near.{address_of, standing_of, surroundings_of, TurnsNear};

use crate::execute::{extend, read_width};
use crate::handling::{SizedVisitor, handle_entry};
use crate::operate::{operate, takes};
use rv32_entries::Predecoded;
use rv32_model::{BranchTest, InstrVisitor, LoadKind, Op};
use tk_base::{Addr, Regs, Width};

/// How an instruction that is known was served.
#[derive(Clone, Copy, Debug, PartialEq, Eq)]
pub enum Served {
    /// It went, and the next one stands behind it.
    Straight,
    /// It went, and the next one may stand anywhere.
    Jumped,
    /// It is a system call, and nothing changed.
    Called,
    /// It touches what is not near, and nothing changed.
    Elsewhere,
}

/// The registers and the bus of a process, and the place of its present instruction.
#[derive(Drop)]
pub struct Near<'a, B> {
    /// The registers, but for pc.
    pub regs: &'a mut Regs,
    pub bus: &'a mut B,
    /// How many parcels stand before the instruction.
    pub place: usize,
    /// How many bytes the instruction has.
    pub length: u32,
}

impl<B: Predecoded> Near<'_, B> {
    /// Whether the instruction may be known, as its place has an entry.
    #[inline(always)]
    pub fn has_entry(&self) -> bool
        ensures { IsTrue result ↔ self.now.place < B.count self.now.bus.now }
    {
        self.place < self.bus.count()
    }

    /// Makes the turn of the instruction, where it is known.
    #[inline(always)]
    pub fn turn(&mut self) -> Served
        requires { self.old.place < B.count self.old.bus.now }
        ensures turned { TurnsNear result (surroundings_of B.denies B.frame B.start B.count self.old)
            (standing_of B.bytes self.old) (standing_of B.bytes self.new) }
        ensures stays { surroundings_of B.denies B.frame B.start B.count self.new
            ≡ surroundings_of B.denies B.frame B.start B.count self.old }
    {
        // All places lie in the lower half of the addresses.
        self.bus.start();
        let place = self.place;
        let entry = self.bus.entry(place);
        match handle_entry(entry, self) {
            Some(served) => served,
            None => Served::Elsewhere,
        }
    }

    /// The address of the instruction.
    #[inline(always)]
    pub fn pc(&self) -> Addr
        ensures { self.now.place < 2 ^ 31 → result ≡ address_of (B.start self.now.bus.now) self.now.place }
    {
        let offset = (self.place % 0x8000_0000) as u32 * 2;
        self.bus.start().wrapping_add(offset)
    }

    /// The address of the one behind it.
    #[inline(always)]
    fn link(&self) -> Addr
        ensures { self.now.place < 2 ^ 31
            → result ≡ w32_of (address_of (B.start self.now.bus.now) self.now.place + self.now.length) }
    {
        self.pc().wrapping_add(self.length)
    }

    /// The instruction went, and the next one stands behind it.
    #[inline(always)]
    fn go_on(&mut self) -> Served
        ensures served { result ≡ Straight }
        ensures place { self.old.place < 2 ^ 31 → self.new.place ≡ self.old.place + self.old.length / 2 }
        ensures regs { self.new.regs ≡ self.old.regs }
        ensures bus { self.new.bus ≡ self.old.bus }
    {
        self.place = self.place.wrapping_add((self.length / 2) as usize);
        Served::Straight
    }

    /// A register is set, and the instruction went.
    #[inline(always)]
    fn compute(&mut self, rd: u8, value: u32) -> Served
        ensures served { result ≡ Straight }
        ensures place { self.old.place < 2 ^ 31 → self.new.place ≡ self.old.place + self.old.length / 2 }
        ensures regs { self.new.regs.now ≡ with_register self.old.regs.now rd value }
        ensures name { self.new.regs.ghost_name ≡ self.old.regs.ghost_name }
        ensures bus { self.new.bus ≡ self.old.bus }
    {
        self.regs.set(rd, value);
        self.go_on()
    }

    /// The instruction went, and the next one stands so many bytes further on, modulo 2^32.
    #[inline(always)]
    fn hop(&mut self, distance: u32) -> Served
        ensures served { result ≡ Jumped }
        ensures place { self.old.place < 2 ^ 31
            → self.new.place ≡ (self.old.place + distance / 2) % 2 ^ 31 }
        ensures regs { self.new.regs ≡ self.old.regs }
        ensures bus { self.new.bus ≡ self.old.bus }
    {
        self.place = self.place.wrapping_add((distance / 2) as usize) % 0x8000_0000;
        Served::Jumped
    }
}

/// What is denied, or may be, is left to others: a processor that looks for a rule.
impl<B: Predecoded> InstrVisitor for Near<'_, B> {
    ghost use Rattle.rv32_step.specs.Near.{ServesNear, standing_of, surroundings_of};

    type Answer = Served;

    ghost handles = { λ before instr answer after.
        ServesNear before.length instr answer
        (surroundings_of B.denies B.frame B.start B.count before) (standing_of B.bytes before)
        (surroundings_of B.denies B.frame B.start B.count after) (standing_of B.bytes after) };

    #[inline(always)]
    #[tactic(auto, unfolding(rv32_model::specs::UserTurn::executed))]
    fn lui(&mut self, rd: u8, imm: u32) -> Served {
        self.compute(rd, imm)
    }

    #[inline(always)]
    #[tactic(auto, unfolding(rv32_model::specs::UserTurn::executed))]
    fn auipc(&mut self, rd: u8, imm: u32) -> Served {
        let value = self.pc().wrapping_add(imm);
        self.compute(rd, value)
    }

    #[inline(always)]
    #[tactic(auto, unfolding(rv32_model::specs::UserTurn::executed))]
    fn jal(&mut self, rd: u8, offset: u32) -> Served {
        let link = self.link();
        self.regs.set(rd, link);
        self.hop(offset)
    }

    #[inline(always)]
    #[tactic(auto, unfolding(rv32_model::specs::UserTurn::executed))]
    fn jalr(&mut self, rd: u8, rs1: u8, offset: u32) -> Served {
        let to = self.regs.get(rs1).wrapping_add(offset);
        let link = self.link();
        self.regs.set(rd, link);
        self.place = (to.wrapping_sub(self.bus.start()) / 2) as usize;
        Served::Jumped
    }

    #[inline(always)]
    #[tactic(auto, unfolding(rv32_model::specs::UserTurn::executed))]
    fn branch(&mut self, test: BranchTest, rs1: u8, rs2: u8, offset: u32) -> Served {
        if takes(test, self.regs.get(rs1), self.regs.get(rs2)) {
            return self.hop(offset);
        }
        self.go_on();
        Served::Jumped
    }

    #[inline(always)]
    #[tactic(auto, unfolding(rv32_model::specs::UserTurn::executed))]
    fn load(&mut self, kind: LoadKind, rd: u8, rs1: u8, offset: u32) -> Served {
        let at = self.regs.get(rs1).wrapping_add(offset);
        match self.bus.load_near(at, read_width(kind)) {
            Some(number) => self.compute(rd, extend(kind, number)),
            None => Served::Elsewhere,
        }
    }

    #[inline(always)]
    #[tactic(auto, unfolding(rv32_model::specs::UserTurn::executed))]
    fn store(&mut self, width: Width, rs1: u8, rs2: u8, offset: u32) -> Served {
        let at = self.regs.get(rs1).wrapping_add(offset);
        let value = self.regs.get(rs2);
        if self.bus.store_near(at, width, value) {
            self.go_on()
        } else {
            Served::Elsewhere
        }
    }

    #[inline(always)]
    #[tactic(auto, unfolding(rv32_model::specs::UserTurn::executed))]
    fn op_imm(&mut self, op: Op, rd: u8, rs1: u8, imm: u32) -> Served {
        let value = operate(op, self.regs.get(rs1), imm);
        self.compute(rd, value)
    }

    #[inline(always)]
    #[tactic(auto, unfolding(rv32_model::specs::UserTurn::executed))]
    fn op(&mut self, op: Op, rd: u8, rs1: u8, rs2: u8) -> Served {
        let value = operate(op, self.regs.get(rs1), self.regs.get(rs2));
        self.compute(rd, value)
    }

    #[inline(always)]
    #[tactic(auto, unfolding(rv32_model::specs::UserTurn::executed))]
    fn fence(&mut self) -> Served {
        self.go_on()
    }

    #[inline(always)]
    #[tactic(auto, unfolding(rv32_model::specs::UserTurn::executed))]
    fn ecall(&mut self) -> Served {
        Served::Called
    }

    #[inline(always)]
    #[tactic(auto, unfolding(rv32_model::specs::UserTurn::executed))]
    fn ebreak(&mut self) -> Served {
        Served::Elsewhere
    }

    #[inline(always)]
    #[tactic(auto, unfolding(rv32_model::specs::UserTurn::executed))]
    fn illegal(&mut self) -> Served {
        Served::Elsewhere
    }
}

impl<B: Predecoded> SizedVisitor for Near<'_, B> {
    ghost sized = { λ near length. record near { length = length } };

    #[inline(always)]
    fn begin(&mut self, length: u8) {
        self.length = u32::from(length);
    }

    #[inline(always)]
    #[tactic(auto, unfolding(rv32_model::specs::UserTurn::executed))]
    fn li(&mut self, rd: u8, imm: u32) -> Served {
        self.compute(rd, imm)
    }

    #[inline(always)]
    #[tactic(auto, unfolding(rv32_model::specs::UserTurn::executed))]
    fn mv(&mut self, rd: u8, rs2: u8) -> Served {
        let value = self.regs.get(rs2);
        self.compute(rd, value)
    }

    #[inline(always)]
    #[tactic(auto, unfolding(rv32_model::specs::UserTurn::executed))]
    fn branch_by_zero(&mut self, test: BranchTest, rs1: u8, offset: u32) -> Served {
        if takes(test, self.regs.get(rs1), 0) {
            return self.hop(offset);
        }
        self.go_on();
        Served::Jumped
    }
}
