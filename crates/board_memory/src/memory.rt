//! Flash and RAM.
ghost use Rattle.std.specs.Prelude.{◌≡◌, ◌+◌, ◌-◌, ◌≤◌, length, replicate, IfOk};
ghost use Rattle.tk_base.specs.declared.access.TheConstants.{RAM_START};
ghost use Rattle.std.specs.Borrow.{sem};
ghost use Rattle.board_memory.specs.Bytes.{StoresLieIn};

use crate::flash::{Decoder, cold_entries, decode_between};
use crate::parts::Block;
use crate::view::View;
use crate::windows::Windows;
use pmp_regions::Pmp;
use process_layout::Layout;
use rv32_entries::Entry;
use std::alloc::Global;
use std::marker::Model;
use tk_base::{Addr, FLASH_START, NoMemory, RAM_START, SLOT_COUNT, Slot};

/// The board's memory: flash, whose first byte has the address [`FLASH_START`], and RAM, whose first byte
/// has the address [`RAM_START`]. All processes have their blocks in the one RAM.
#[derive(Drop)]
pub struct Memory {
    flash: Vec<u8>,
    /// Of each even place of flash the instruction there, or nothing known.
    entries: Vec<Entry>,
    ram: Vec<u8>,
    /// Of each slot the windows of the registers under which its process last reached memory, or empty ones.
    windows: [Windows; SLOT_COUNT],
}

impl Model for Memory {
    ghost use Rattle.board_memory.specs.Memory.{MemoryBytes};

    ghost Value = { MemoryBytes };

    ghost use Rattle.std.specs.Prelude.{All, length};
    ghost use Rattle.board_memory.specs.Known.{AreEntries};
    ghost use Rattle.board_memory.specs.Windows.{AreWindows};

    ghost view = { λ m. record { flash = m.flash.items; ram = m.ram.items } };

    ghost invariant = { λ m. AreEntries m.flash.items m.entries.items
        × All (AreWindows m.flash.items m.entries.items (length m.ram.items)) m.windows };
}

impl Memory {
    ghost use Rattle.board_memory.specs.Lending.{LendsView, LendsBlock, LendsPart};
    ghost use Rattle.board_memory.specs.Memory.{IsPlaced, block_cleared, ram_between, accessible_flash};

    /// Memory with these bytes in flash, and so many bytes of RAM, which are 0. The one error is want
    /// of memory; flash is dropped then.
    pub fn new(alloc: Global, flash: Vec<u8>, ram: u32) -> Result<Memory, NoMemory>
        ensures { IfOk result
            (λ memory. memory ≡ record { flash = flash.items; ram = replicate ram 0 }) }
    {
        let ram = vec![in alloc; 0u8; ram as usize]?;
        let entries = cold_entries(alloc, flash.as_slice())?;
        Ok(Memory {
            flash,
            entries,
            ram,
            windows: [Windows::none(); SLOT_COUNT],
        })
    }

    /// The same memory again. The one error is want of memory.
    pub fn copied(&self, alloc: Global) -> Result<Memory, NoMemory>
        ensures { IfOk result (λ memory. memory ≡ self.now) }
    {
        let ram = self.ram.as_slice().to_vec(alloc)?;
        let flash = self.flash.as_slice().to_vec(alloc)?;
        let entries = self.entries.as_slice().to_vec(alloc)?;
        Ok(Memory {
            flash,
            entries,
            ram,
            windows: [Windows::none(); SLOT_COUNT],
        })
    }

    /// Decodes the instructions of flash between two addresses, so that they need not be decoded when they are
    /// executed.
    pub fn decode<D: Decoder>(&mut self, decoder: &D, from: Addr, to: Addr)
        ensures { self.new ≡ self.old }
    {
        decode_between(decoder, self.flash.as_slice(), &mut self.entries, from, to);
        self.windows = [Windows::none(); SLOT_COUNT];
    }

    /// The bytes of flash.
    pub fn flash(&self) -> &[u8]
        ensures { result.now ≡ self.now.flash }
    {
        self.flash.as_slice()
    }

    /// Makes every byte of a block 0. Nothing else of memory changes.
    pub fn clear_block(&mut self, layout: &Layout)
        requires { IsPlaced layout.now self.old }
        ensures { self.new ≡ block_cleared layout.now self.old }
    {
        let from = (layout.start - RAM_START) as usize;
        let to = (layout.end - RAM_START) as usize;
        self.ram.slice_mut(from..to).fill(0);
    }

    /// What the process in a slot reaches, in user mode, under these registers.
    #[inline(always)]
    pub fn view<'a>(&'a mut self, pmp: &'a Pmp, slot: Slot) -> View<'a>
        requires { StoresLieIn (length self.old.ram) pmp.now }
        ensures* writes_back { sem 𝓛 (LendsView self.entry result) }
        ensures flash { result.sight.flash.now ≡ self.old.flash }
        ensures ram { result.ram.now ≡ self.old.ram }
        ensures pmp { result.sight.pmp.now ≡ pmp.now }
    {
        let place = slot.index();
        self.windows[place].follow(
            self.flash.as_slice(),
            self.entries.as_slice(),
            self.ram.len(),
            pmp,
        );
        let windows = self.windows[place];
        let flash = self.flash.as_slice();
        let entries = self.entries.as_slice();
        let ram = self.ram.as_mut_slice();
        View::new(flash, entries, ram, pmp, windows)
    }

    /// The accessible flash of a process, and its block with the place of the kernel break in it. What is
    /// written to the block's bytes stands in memory afterwards.
    pub fn lend_block(&mut self, layout: &Layout) -> Block<'_>
        requires { IsPlaced layout.now self.old }
        ensures* writes_back { sem 𝓛 (LendsBlock self.entry layout.now result) }
        ensures flash { result.flash.now ≡ accessible_flash layout.now self.old.flash }
        ensures bytes { result.bytes.now
            ≡ ram_between self.old.ram layout.now.start layout.now.end }
        ensures cut { result.cut ≡ layout.now.kernel_break - layout.now.start }
        ensures inside { result.cut ≤ length result.bytes.now }
    {
        let (flash_from, flash_to) = (
            layout.flash_start - FLASH_START,
            layout.flash_end - FLASH_START,
        );
        let (from, to) = (layout.start - RAM_START, layout.end - RAM_START);
        let cut = (layout.kernel_break - layout.start) as usize;
        let flash = &self.flash.as_slice()[flash_from as usize..flash_to as usize];
        Block::new(flash, self.ram.slice_mut(from as usize..to as usize), cut)
    }

    /// The bytes of RAM from one address up to another.
    pub fn part(&self, from: Addr, to: Addr) -> &[u8]
        requires from { RAM_START ≤ from }
        requires order { from ≤ to }
        requires to { to ≤ RAM_START + length self.now.ram }
        ensures { result.now ≡ ram_between self.now.ram from to }
    {
        &self.ram.as_slice()[(from - RAM_START) as usize..(to - RAM_START) as usize]
    }

    /// The bytes of RAM from one address up to another, to be written. What is written to them stands in
    /// memory afterwards.
    pub fn part_mut(&mut self, from: Addr, to: Addr) -> &mut [u8]
        requires from { RAM_START ≤ from }
        requires order { from ≤ to }
        requires to { to ≤ RAM_START + length self.old.ram }
        ensures* writes_back { sem 𝓛 (LendsPart self.entry from result) }
        ensures part { result.now ≡ ram_between self.old.ram from to }
    {
        self.ram
            .slice_mut((from - RAM_START) as usize..(to - RAM_START) as usize)
    }
}
