//! One turn of a process in user mode, over any bus.
#![tactic(auto)]

mod execute;
mod handling;
mod near;
mod nothing_ahead;
pub mod operate;
mod processor;

ghost use Rattle.std.specs.Prelude.{◌≡◌, ◌≢◌, ◌-◌, ◌%◌, ◌<◌, ◌≤◌, ◌^◌, IfOk};
ghost use Rattle.std.specs.Bool.{OnTrue};
ghost use Rattle.rv32_model.specs.declared.turn_end.TurnEnd.TheVariants.{Call};
ghost use Rattle.rv32_model.specs.UserTurn.{user_turn, fetched, parcel_at, bytes_after};
ghost use Rattle.rv32_model.specs.Stretch.{Goes, Stops};
ghost use Rattle.rv32_step.specs.Executed.{LeavesTurn, at_pc, turn_end_of};
ghost use Rattle.rv32_step.specs.Fetched.{Fetches};
ghost use Rattle.rv32_model.specs.Laws.{MayWrite};

use crate::execute::denial;
use crate::near::{Near, Served};
use crate::nothing_ahead::NothingAhead;
use crate::processor::Hart;
use rv32_compressed::handle16;
use rv32_decode::handle32;
use rv32_entries::Predecoded;
pub use rv32_model::TurnEnd;
use rv32_model::{
    Prefetch, one_is_the_turn, stopped_turns_change_nothing, turns_follow, writes_are_permitted,
};
use tk_base::{Access, Addr, Bus, Denial, Regs};

#[inline(always)]
fn parcel<B: Bus>(bus: &B, at: Addr) -> Result<u16, Denial>
    ensures { result ≡ parcel_at (B.denies bus.now) (B.bytes bus.now) at }
{
    match bus.fetch16(at) {
        Ok(parcel) => Ok(parcel),
        Err(rule) => Err(denial(Access::Fetch, at, rule)),
    }
}

/// The bits of the instruction at pc, parcel by parcel.
#[inline(always)]
#[tactic(auto, unfolding(rv32_model::specs::UserTurn::fetched))]
fn fetch_parcels<B: Bus>(bus: &B, pc: Addr) -> Result<u32, Denial>
    ensures value { result ≡ fetched (B.denies bus.now) (B.bytes bus.now) pc }
    ensures parcel { IfOk result (λ word. word % 4 ≢ 3 → word < 2 ^ 16) }
{
    let first = parcel(bus, pc)?;
    if first % 4 != 3 {
        return Ok(u32::from(first));
    }
    let second = parcel(bus, pc.wrapping_add(2))?;
    Ok(u32::from(first) + u32::from(second) * 65536)
}

/// The bits of the instruction at pc, and what follows them where it has 16.
#[inline(always)]
#[tactic(auto, unfolding(rv32_model::specs::UserTurn::fetched))]
fn fetch<B: Prefetch>(bus: &B, pc: Addr) -> Result<u32, Denial>
    ensures { Fetches (fetched (B.denies bus.now) (B.bytes bus.now) pc) result }
{
    match bus.word(pc) {
        Some(word) => Ok(word),
        None => fetch_parcels(bus, pc),
    }
}

/// The instruction at pc, as [`turn`] has it, and whether it went: fetched, decoded and executed, with each access as
/// the bus says.
#[inline(always)]
#[tactic(auto, unfolding(rv32_model::specs::UserTurn::user_turn, rv32_model::specs::UserTurn::on_word, rv32_model::specs::UserTurn::instr_of))]
fn fetch_and_execute<B: Prefetch>(hart: &mut Hart<'_, B>) -> bool
    ensures leaves { let bytes = B.bytes hart.old.bus.now in
        LeavesTurn (user_turn (B.denies hart.old.bus.now) bytes
        (at_pc hart.old.regs.now hart.old.pc)) bytes
        (at_pc hart.new.regs.now hart.new.pc) (B.bytes hart.new.bus.now)
        (turn_end_of result hart.new.denial) }
    ensures denies { B.denies hart.new.bus.now ≡ B.denies hart.old.bus.now }
    ensures frame { B.frame hart.new.bus.now ≡ B.frame hart.old.bus.now }
    ensures regs { hart.new.regs.ghost_name ≡ hart.old.regs.ghost_name }
    ensures bus { hart.new.bus.ghost_name ≡ hart.old.bus.ghost_name }
{
    let word = match fetch(&*hart.bus, hart.pc) {
        Ok(word) => word,
        Err(denial) => return hart.deny(denial),
    };
    if word % 4 == 3 {
        hart.length = 4;
        handle32(word, hart)
    } else {
        hart.length = 2;
        handle16((word % 65536) as u16, hart)
    }
}

/// Where one instruction led.
#[derive(Clone, Copy)]
struct Turned {
    /// The address of the next instruction; of this one where it did not go.
    pc: Addr,
    /// Whether it went.
    went: bool,
    /// Why it was denied, where it did not go; None where it is a system call.
    denial: Option<Denial>,
}

/// One instruction, of which nothing need be known.
#[inline(always)]
fn turn_by_fetching<B: Prefetch>(regs: &mut Regs, bus: &mut B, pc: Addr) -> Turned
    ensures leaves { LeavesTurn (user_turn (B.denies bus.old) (B.bytes bus.old) (at_pc regs.old pc))
        (B.bytes bus.old) (at_pc regs.new result.pc) (B.bytes bus.new)
        (turn_end_of result.went result.denial) }
    ensures denies { B.denies bus.new ≡ B.denies bus.old }
    ensures frame { B.frame bus.new ≡ B.frame bus.old }
{
    let mut hart = Hart {
        pc,
        regs: &mut *regs,
        bus,
        length: 0,
        denial: None,
    };
    let went = fetch_and_execute(&mut hart);
    Turned {
        pc: hart.pc,
        went,
        denial: hart.denial,
    }
}

/// What instructions that are known did.
#[derive(Clone, Copy)]
struct NearTurns {
    /// The address of the next instruction.
    pc: Addr,
    /// How many of those that were asked for did not go yet.
    left: u32,
    /// Whether the next one is a system call. Else nothing is said of it.
    is_call: bool,
}

/// As many instructions as are known and go, and touch what is near alone, at most `most`.
#[inline(always)]
fn near_turns<B: Predecoded>(regs: &mut Regs, bus: &mut B, pc: Addr, most: u32) -> NearTurns
    ensures left { result.left ≤ most }
    ensures goes { Goes (B.denies bus.old) (most - result.left) (at_pc regs.old pc) (B.bytes bus.old)
        (at_pc regs.new result.pc) (B.bytes bus.new) }
    ensures call { OnTrue result.is_call ((0 < result.left)
        × ((user_turn (B.denies bus.old) (B.bytes bus.new) (at_pc regs.new result.pc)).end ≡ Call)) }
    ensures denies { B.denies bus.new ≡ B.denies bus.old }
    ensures frame { B.frame bus.new ≡ B.frame bus.old }
{
    turns_follow();
    let offset = pc.wrapping_sub(bus.start());
    let place = (offset / 2) as usize;
    if offset % 2 != 0 || place >= bus.count() {
        return NearTurns {
            pc,
            left: most,
            is_call: false,
        };
    }
    let mut near = Near {
        regs: &mut *regs,
        bus,
        place,
        length: 0,
    };
    let mut left = most;
    while left > 0 {
        match near.turn() {
            Served::Straight => left -= 1,
            Served::Jumped => {
                left -= 1;
                if !near.has_entry() {
                    return NearTurns {
                        pc: near.pc(),
                        left,
                        is_call: false,
                    };
                }
            }
            Served::Called => {
                return NearTurns {
                    pc: near.pc(),
                    left,
                    is_call: true,
                };
            }
            Served::Elsewhere => break,
        }
    }
    NearTurns {
        pc: near.pc(),
        left,
        is_call: false,
    }
}

/// What instructions that follow one another did.
#[derive(Clone, Copy, Debug, PartialEq, Eq)]
pub struct Stretch {
    /// How many went.
    pub went: u32,
    /// How the one after them ends, where it does not go; else `Went`.
    pub end: TurnEnd,
}

/// As many instructions as go, one after another, at most `most`. It stops before one that makes a system call or is
/// denied, and says how that one ends: it leaves registers and bytes as they are. Where all went, the end is `Went`.
#[inline(always)]
pub fn turns<B: Predecoded>(regs: &mut Regs, bus: &mut B, most: u32) -> Stretch
    ensures most { result.went ≤ most }
    ensures goes { Goes (B.denies bus.old) result.went regs.old (B.bytes bus.old) regs.new
        (B.bytes bus.new) }
    ensures stops { Stops (B.denies bus.old) most result.went result.end regs.new
        (B.bytes bus.new) }
    ensures denies { B.denies bus.new ≡ B.denies bus.old }
    ensures frame { B.frame bus.new ≡ B.frame bus.old }
{
    stopped_turns_change_nothing();
    turns_follow();
    let mut pc = regs.pc();
    let mut left = most;
    while left > 0 {
        let near = near_turns(regs, bus, pc, left);
        pc = near.pc;
        left = near.left;
        if near.is_call {
            regs.set_pc(pc);
            return Stretch {
                went: most - left,
                end: TurnEnd::Call,
            };
        }
        if left > 0 {
            let turned = turn_by_fetching(regs, bus, pc);
            pc = turned.pc;
            if !turned.went {
                regs.set_pc(pc);
                let end = turned.denial.map_or(TurnEnd::Call, TurnEnd::Trap);
                return Stretch {
                    went: most - left,
                    end,
                };
            }
            left -= 1;
        }
    }
    regs.set_pc(pc);
    Stretch {
        went: most,
        end: TurnEnd::Went,
    }
}

/// One instruction of the process whose registers these are, 32 or 16 bits long (RISC-V
/// unprivileged manual). `Call` leaves pc at the `ecall`; a trap leaves registers and bytes as they
/// were. The answer, the registers and the bytes are those of the definition of a user turn.
pub fn turn<B: Bus>(regs: &mut Regs, bus: &mut B) -> TurnEnd
    ensures regs { regs.new ≡ (user_turn (B.denies bus.old) (B.bytes bus.old) regs.old).regs }
    ensures end { result ≡ (user_turn (B.denies bus.old) (B.bytes bus.old) regs.old).end }
    ensures bytes { B.bytes bus.new ≡ bytes_after (B.denies bus.old) (B.bytes bus.old) regs.old }
    ensures denies { B.denies bus.new ≡ B.denies bus.old }
    ensures frame { B.frame bus.new ≡ B.frame bus.old }
    ensures permitted { MayWrite (B.denies bus.old) (B.bytes bus.old) regs.old }
{
    writes_are_permitted();
    one_is_the_turn();
    let mut memory = NothingAhead { bus };
    turns(regs, &mut memory, 1).end
}
