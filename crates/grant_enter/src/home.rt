//! The memory of all processes.
ghost use Rattle.std.specs.Prelude.{◌≡◌, ◌≤◌, ◌<◌, ◌+◌, ◌%◌, ◌^◌, ℕ, nat_lt, slice_get};
ghost use Rattle.std.specs.Prelude.{All, AllPairs, length, map, IfOk};
ghost use Rattle.std.specs.Prelude.{is_some, vec_len};
ghost use Rattle.tk_base.specs.declared.limits.TheConstants.{FLASH_LIMIT};
ghost use Rattle.board_memory.specs.Registers.{process_registers, Protect};
ghost use Rattle.process_model.specs.Own.{block_of, layout_of, opened};
ghost use Rattle.process_model.specs.Own.{own_restarted, own_ended};
ghost use Rattle.rv32_model.specs.declared.turn_end.TurnEnd.TheVariants.{Went};
ghost use Rattle.upcall_queue.specs.Pending.{due};
ghost use Rattle.process_model.specs.Handed.{HoldsInPlace};
ghost use Rattle.grant_enter.specs.Homes.{own_of, is_life, living, ChangesOnly, IsInPlace};
ghost use Rattle.grant_enter.specs.Homes.{IsStopped, CanMoveIn, FootprintBefore, MakesInstruction};
ghost use Rattle.grant_enter.specs.Homes.{MakesAll};
ghost use Rattle.process_seat.specs.Places.{has_permissions};

use crate::decode::Predecoder;
use board_memory::{Memory, set_process};
use grant_model::what_is_laid_is_read_back;
use memory_turns::{instruction_laws, turn_in, turns_in};
use pmp_regions::Pmp;
use process_layout::Layout;
use process_model::Footprint;
use process_seat::{Seat, block_at, restart_seat};
use rv32_model::{TurnEnd, sees_only_permitted, writes_are_permitted};
use rv32_step::Stretch;
use std::alloc::Global;
use std::marker::Model;
use tk_base::{Addr, NoMemory, ProcessId, Regs, Slot, Upcall, Wait, a_store_is_put};

/// The memory of the processes, and what the kernel keeps of each beside its registers: where its
/// memory lies, which life it is in, whether it lives, how many upcalls it missed (Levy et al.,
/// SOSP 2017).
///
/// Contracts see flash and, for each slot, what is its own: no call on one slot changes what
/// another's is. The blocks lie in one RAM, one after another, and none reaches into another.
#[derive(Drop)]
pub struct Home {
    pub(crate) memory: Memory,
    /// The processes, slot 0 first.
    pub(crate) seats: Vec<Seat>,
}

impl Model for Home {
    ghost use Rattle.grant_enter.specs.Homes.{Homes};

    ghost Value = { Homes };

    ghost use Rattle.grant_enter.specs.Housed.{homes_of, IsHome};

    ghost view = { homes_of };

    ghost invariant = { IsHome };
}

/// The same seats again. The one error is want of memory.
fn copied_seats(alloc: Global, seats: &[Seat]) -> Result<Vec<Seat>, NoMemory>
    ensures { IfOk result (λ copies. copies.items ≡ seats.now) }
{
    let mut copies = Vec::new(alloc);
    for seat in seats {
        let Ok(()) = copies.push(seat.copied()) else {
            return Err(NoMemory);
        };
    }
    Ok(copies)
}

impl Home {
    /// Memory with these bytes in flash, and so many bytes of RAM, in which each process has its
    /// block, slot 0 first. All blocks are zero, and each process lives its first life and has no
    /// grants. The one error is want of memory; flash is dropped then.
    pub fn new(
        alloc: Global,
        flash: Vec<u8>,
        ram: u32,
        footprints: &[Footprint],
    ) -> Result<Home, NoMemory>
        requires short { vec_len flash ≤ FLASH_LIMIT }
        requires settled { All (CanMoveIn (vec_len flash) ram) footprints.now }
        requires apart { AllPairs FootprintBefore footprints.now }
        ensures { IfOk result
            (λ home. home ≡ record { flash = flash.items; owns = map opened footprints.now }) }
    {
        what_is_laid_is_read_back();
        let memory = Memory::new(alloc, flash, ram)?;
        let flash = memory.flash();
        let mut seats = Vec::new(alloc);
        for footprint in footprints {
            let Ok(()) = seats.push(Seat::first(flash, footprint)) else {
                return Err(NoMemory);
            };
        }
        Ok(Home { memory, seats })
    }

    /// The same memory of the same processes again. The one error is want of memory.
    pub fn copied(&self, alloc: Global) -> Result<Home, NoMemory>
        ensures { IfOk result (λ home. home ≡ self.now) }
    {
        let memory = self.memory.copied(alloc)?;
        let seats = copied_seats(alloc, &self.seats)?;
        Ok(Home { memory, seats })
    }

    /// The bytes of flash.
    pub fn flash(&self) -> &[u8]
        ensures { result.now ≡ self.now.flash }
    {
        self.memory.flash()
    }

    /// Whether the header of the object of the process in a slot has a Permissions TLV (Tock Binary
    /// Format, "Permissions").
    pub fn has_permissions(&self, slot: Slot) -> bool
        requires { slot < length self.now.owns }
        ensures { result ≡ has_permissions self.now.flash (own_of self.now slot).object }
    {
        self.seats[slot.index()].has_permissions
    }

    /// Where the memory of the process in a slot lies.
    pub fn layout(&self, slot: Slot) -> Layout
        requires { slot < length self.now.owns }
        ensures { result ≡ layout_of (own_of self.now slot) }
    {
        self.seats[slot.index()].layout
    }

    /// The upcalls that wait to be delivered to the process in a slot, the first one first (TRD
    /// 104, "Yield").
    pub fn pending(&self, slot: Slot) -> &[Upcall]
        requires { slot < length self.now.owns }
        ensures { result.now ≡ (own_of self.now slot).inbox.pending }
    {
        self.seats[slot.index()].inbox.pending.as_slice()
    }

    /// How many upcalls of the process in a slot were dropped.
    pub fn dropped(&self, slot: Slot) -> u32
        requires { slot < length self.now.owns }
        ensures { result ≡ (own_of self.now slot).inbox.dropped }
    {
        self.seats[slot.index()].inbox.dropped
    }

    /// What the process in a slot waits for, where it has yielded.
    pub fn wait(&self, slot: Slot) -> Wait
        requires { slot < length self.now.owns }
        ensures { result ≡ (own_of self.now slot).inbox.wait }
    {
        self.seats[slot.index()].inbox.wait
    }

    /// Sets the protection registers for the process in a slot (the privileged RISC-V manual,
    /// "Physical Memory Protection"): the first two entries for its accessible flash, two for its
    /// accessible RAM, the others off. So they deny what its layout denies, and permit it to store
    /// in its accessible RAM alone.
    // Whether they have to be set is asked inline, and most often they have not.
    #[inline(never)]
    pub fn protect(&self, slot: Slot, pmp: &mut Pmp)
        requires { slot < length self.now.owns }
        ensures registers { pmp.new ≡ process_registers (own_of self.now slot).layout }
        ensures protect { Protect pmp.new (own_of self.now slot).layout }
    {
        set_process(pmp, &self.seats[slot.index()].layout);
    }

    /// Decodes the instructions in the flash of the process in a slot, where that was not done before. So
    /// the flash of one that has no turn costs no time, nor does a restart. No contract tells the
    /// difference.
    // Called where the slot that has turns changes, so that no turn asks for it.
    #[inline(never)]
    pub fn decode(&mut self, slot: Slot)
        requires { slot < length self.old.owns }
        ensures { self.new ≡ self.old }
    {
        let seat = &mut self.seats[slot.index()];
        if seat.decoded {
            return;
        }
        seat.decoded = true;
        let layout = seat.layout;
        self.memory
            .decode(&Predecoder, layout.flash_start, layout.flash_end);
    }

    /// Starts the process in a slot again, with its first break (TRD 104, "Exit"): every byte of
    /// its block is 0, it has no grants, nothing is scheduled for it, its next life begins, and it
    /// lives. How many upcalls were dropped stays. Nothing of another slot changes.
    pub fn restart(&mut self, slot: Slot, brk: Addr)
        requires slot { slot < length self.old.owns }
        requires from { (own_of self.old slot).layout.start ≤ brk }
        requires to { brk ≤ (own_of self.old slot).layout.end }
        requires aligned { brk % 4 ≡ 0 }
        requires life { (own_of self.old slot).life + 1 < 2 ^ 32 }
        ensures own { own_of self.new slot ≡ own_restarted brk (own_of self.old slot) }
        ensures rest { ChangesOnly slot self.old self.new }
    {
        let seat = &mut self.seats[slot.index()];
        restart_seat(&mut self.memory, seat, brk);
    }

    /// Ends the process in a slot: it lives no more, and nothing is scheduled for it. Its memory
    /// stays as it is, and nothing of another slot changes. Where no process was placed in the slot
    /// nothing changes.
    pub fn end(&mut self, slot: Slot)
        ensures own { own_of self.new slot ≡ own_ended (own_of self.old slot) }
        ensures rest { ChangesOnly slot self.old self.new }
    {
        if !self.is_placed(slot) {
            return;
        }
        let seat = &mut self.seats[slot.index()];
        seat.inbox.clear();
        seat.lives = false;
    }

    /// Whether a process was placed in a slot.
    fn is_placed(&self, slot: Slot) -> bool
        ensures { result ≡ nat_lt slot (length self.now.owns) }
    {
        slot.index() < self.seats.len()
    }

    /// Whether the process of an id is there: it lives in its slot, in that life.
    pub(crate) fn is_there(&self, id: &ProcessId) -> bool
        ensures { result ≡ is_life id.now.life (slice_get self.now.owns id.now.slot) }
    {
        match self.seats.get(id.slot.index()) {
            Some(seat) => seat.lives && seat.life == id.life,
            None => false,
        }
    }

    /// The process that lives in a slot, in its present life. None exactly where none lives there.
    pub fn id(&self, slot: Slot) -> Option<ProcessId>
        ensures { result ≡ living slot (slice_get self.now.owns slot) }
    {
        let seat = self.seats.get(slot.index())?;
        seat.lives.then_some(ProcessId {
            slot,
            life: seat.life,
        })
    }

    /// Whether there is anything to deliver to the process in a slot, once it has yielded (TRD 104,
    /// "Yield").
    pub fn is_due(&self, slot: Slot) -> bool
        requires { slot < length self.now.owns }
        ensures { result ≡ is_some (due (own_of self.now slot).inbox) }
    {
        self.seats[slot.index()].inbox.is_due()
    }

    /// The bytes of the block of the process in a slot: its own, and those of its grants.
    pub fn block(&self, slot: Slot) -> &[u8]
        requires { slot < length self.now.owns }
        ensures { result.now ≡ block_of (own_of self.now slot) }
    {
        let seat = &self.seats[slot.index()];
        block_at(&self.memory, seat)
    }

    /// As always, every buffer that a process has allowed a driver lies where it may (TRD 104,
    /// "Read-Only Allow", "Read-Write Allow"): it has no bytes, or it lies in accessible RAM, or a
    /// read-only one in accessible flash. The function does nothing.
    pub fn held_buffers_lie_in_place(&self)
        ensures { (slot : ℕ) → slot < length self.now.owns → HoldsInPlace (own_of self.now slot) }
    {
        let _seats = &self.seats;
    }

    /// As always, the object of each process ends at an address. The function does nothing.
    pub fn objects_end_at_addresses(&self)
        ensures { (slot : ℕ) → slot < length self.now.owns
            → let object = (own_of self.now slot).object in object.address + object.size < 2 ^ 32 }
    {
        let _seats = &self.seats;
    }

    /// As always, what is a process's own lies in its place. The function does nothing.
    pub fn owns_lie_in_place(&self)
        ensures { (slot : ℕ) → slot < length self.now.owns → IsInPlace (own_of self.now slot) }
    {
        let _seats = &self.seats;
    }

    /// One instruction of the process in a slot, while the registers protect it. It sees its own
    /// accessible bytes and no other, whatever stands elsewhere in flash and RAM, and it writes to
    /// its own accessible RAM alone: nothing of another slot changes.
    pub fn instruct(&mut self, slot: Slot, pmp: &Pmp, regs: &mut Regs) -> TurnEnd
        requires slot { slot < length self.old.owns }
        requires protect { Protect pmp.now (own_of self.old slot).layout }
        ensures made { MakesInstruction self.old.flash (own_of self.old slot) regs.old
            (own_of self.new slot) regs.new result }
        ensures rest { ChangesOnly slot self.old self.new }
        // as always
        ensures place { IsInPlace (own_of self.old slot) }
    {
        sees_only_permitted();
        writes_are_permitted();
        a_store_is_put();
        turn_in(regs, &mut self.memory, pmp, slot)
    }

    /// As many instructions of the process in a slot as go, one after another, at most `most`,
    /// while the registers protect it; how many they were, and how the next one ends, where it does
    /// not go. It stops before one that makes a system call or is denied. Each sees the process's
    /// own accessible bytes and no other, and writes to its own accessible RAM alone: nothing of
    /// another slot changes.
    pub fn instruct_quietly(&mut self, slot: Slot, pmp: &Pmp, regs: &mut Regs, most: u32) -> Stretch
        requires slot { slot < length self.old.owns }
        requires protect { Protect pmp.now (own_of self.old slot).layout }
        ensures most { result.went ≤ most }
        ensures made { MakesAll result.went self.old.flash (own_of self.old slot) regs.old
            (own_of self.new slot) regs.new }
        ensures all { result.went ≡ most → result.end ≡ Went }
        ensures stops { result.went < most
            → IsStopped self.old.flash (own_of self.new slot) regs.new result.end }
        ensures rest { ChangesOnly slot self.old self.new }
    {
        instruction_laws();
        turns_in(regs, &mut self.memory, pmp, slot, most)
    }
}
