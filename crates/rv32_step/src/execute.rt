//! The effects of the kinds of instructions.
ghost use Rattle.std.specs.Prelude.{◌≡◌, if◌then◌else◌};
ghost use Rattle.tk_base.specs.declared.access.Rule.TheVariants as rules;
ghost use Rattle.tk_base.specs.Access.{is_misaligned};
ghost use Rattle.tk_base.specs.Bus.{unless_denied};
ghost use Rattle.tk_base.specs.Regs.{register};
ghost use Rattle.rv32_model.specs.UserTurn.{bytes_left, denied_at, branch_effect, load_effect, store_effect, computed};
ghost use Rattle.rv32_model.specs.UserTurn.{jumped, load_width, loaded};
ghost use Rattle.rv32_step.specs.Executed.{access_end, at_pc, next_pc};

use crate::operate::takes;
use rv32_model::{BranchTest, LoadKind};
use tk_base::{Access, Addr, Bus, Denial, Regs, Rule, Width};

/// A denied access, or an instruction that is none. It is never inlined, as it seldom comes.
#[cold]
#[inline(never)]
pub fn denial(access: Access, address: Addr, rule: Rule) -> Denial
    ensures { result ≡ denied_at access address rule }
{
    Denial {
        access,
        address,
        rule,
    }
}

/// How wide the access of a load is.
#[inline(always)]
pub fn read_width(kind: LoadKind) -> Width
    ensures { result ≡ load_width kind }
{
    match kind {
        LoadKind::Lb | LoadKind::Lbu => Width::Byte,
        LoadKind::Lh | LoadKind::Lhu => Width::Half,
        LoadKind::Lw => Width::Word,
    }
}

/// What a load gives of the number that was read.
#[inline(always)]
pub fn extend(kind: LoadKind, number: u32) -> u32
    ensures { result ≡ loaded kind number }
{
    match kind {
        LoadKind::Lb => i32::from(((number % 0x100) as u8).cast_signed()).cast_unsigned(),
        LoadKind::Lh => i32::from(((number % 0x1_0000) as u16).cast_signed()).cast_unsigned(),
        LoadKind::Lw => number,
        LoadKind::Lbu => number % 0x100,
        LoadKind::Lhu => number % 0x1_0000,
    }
}

/// Refuses a misaligned load or store, before the bus is asked.
#[inline(always)]
fn require_aligned(access: Access, at: Addr, width: Width) -> Result<(), Rule>
    ensures { result
        ≡ unless_denied (if is_misaligned access at width then Some rules.Misaligned else None) tt }
{
    if access == Access::Fetch || at % width.bytes() == 0 {
        Ok(())
    } else {
        Err(Rule::Misaligned)
    }
}

/// A load into a register, and where the next instruction is.
#[inline(always)]
pub fn load<B: Bus>(
    kind: LoadKind,
    rd: u8,
    at: Addr,
    pc: Addr,
    length: u32,
    regs: &mut Regs,
    bus: &B,
) -> Result<Addr, Denial>
    ensures regs { at_pc regs.new (next_pc pc result)
        ≡ (load_effect (B.denies bus.now) (B.bytes bus.now) length (at_pc regs.old pc) kind rd
        at).regs }
    ensures end { access_end result
        ≡ (load_effect (B.denies bus.now) (B.bytes bus.now) length (at_pc regs.old pc) kind rd
        at).end }
{
    let width = read_width(kind);
    let answer = match require_aligned(Access::Load, at, width) {
        Ok(()) => bus.load(at, width),
        Err(rule) => Err(rule),
    };
    match answer {
        Ok(number) => {
            regs.set(rd, extend(kind, number));
            Ok(pc.wrapping_add(length))
        }
        Err(rule) => Err(denial(Access::Load, at, rule)),
    }
}

/// A store of the lowest bytes of register `rs2`, and where the next instruction is.
#[inline(always)]
pub fn store<B: Bus>(
    width: Width,
    at: Addr,
    rs2: u8,
    pc: Addr,
    length: u32,
    regs: &Regs,
    bus: &mut B,
) -> Result<Addr, Denial>
    ensures regs { at_pc regs.now (next_pc pc result)
        ≡ (store_effect (B.denies bus.old) length (at_pc regs.now pc) width at
        (register regs.now rs2)).regs }
    ensures end { access_end result
        ≡ (store_effect (B.denies bus.old) length (at_pc regs.now pc) width at
        (register regs.now rs2)).end }
    ensures bytes { let turn =
        store_effect (B.denies bus.old) length (at_pc regs.now pc) width at
        (register regs.now rs2) in B.bytes bus.new ≡ bytes_left turn (B.bytes bus.old) }
    ensures denies { B.denies bus.new ≡ B.denies bus.old }
    ensures frame { B.frame bus.new ≡ B.frame bus.old }
{
    let answer = match require_aligned(Access::Store, at, width) {
        Ok(()) => bus.store(at, width, regs.get(rs2)),
        Err(rule) => Err(rule),
    };
    match answer {
        Ok(()) => Ok(pc.wrapping_add(length)),
        Err(rule) => Err(denial(Access::Store, at, rule)),
    }
}

/// Sets a register, and answers where the next instruction is.
#[inline(always)]
pub fn compute(rd: u8, value: u32, pc: Addr, length: u32, regs: &mut Regs) -> Addr
    ensures { at_pc regs.new result ≡ (computed length (at_pc regs.old pc) rd value).regs }
{
    regs.set(rd, value);
    pc.wrapping_add(length)
}

/// A jump that sets a register, and answers where the next instruction is.
#[inline(always)]
pub fn jump(rd: u8, to: Addr, pc: Addr, length: u32, regs: &mut Regs) -> Addr
    ensures { at_pc regs.new result ≡ (jumped length (at_pc regs.old pc) rd to).regs }
{
    regs.set(rd, pc.wrapping_add(length));
    to
}

/// Where the instruction after a branch is.
#[inline(always)]
pub fn branch(
    test: BranchTest,
    rs1: u8,
    rs2: u8,
    offset: u32,
    pc: Addr,
    length: u32,
    regs: &Regs,
) -> Addr
    ensures { at_pc regs.now result
        ≡ (branch_effect length (at_pc regs.now pc) test rs1 rs2 offset).regs }
{
    let taken = takes(test, regs.get(rs1), regs.get(rs2));
    pc.wrapping_add(if taken { offset } else { length })
}
