//! Where the registers need no search for an access.
ghost use Rattle.std.specs.Prelude.{◌≡◌, ◌+◌, ◌-◌, ◌/◌, ◌%◌, ◌≤◌, ◌^◌, length, take, drop};
ghost use Rattle.std.specs.Bool.{OnTrue};
ghost use Rattle.tk_base.specs.declared.access.TheConstants.{FLASH_START, RAM_START};
ghost use Rattle.pmp_regions.specs.Windows.{end_of};
ghost use Rattle.board_memory.specs.Bytes.{AreWords, IsCode};
ghost use Rattle.board_memory.specs.Known.{AreEntries, AreKnown};
ghost use Rattle.board_memory.specs.Windows.{AreWindows, FitAnywhere, Permit};

use crate::words::{Words, words_in};
use pmp_regions::{Extent, Pmp};
use rv32_entries::Entry;
use tk_base::{Addr, FLASH_START, RAM_START};

/// The words of flash and of RAM that lie in the two windows of some registers.
#[derive(Clone, Copy)]
pub struct Windows {
    /// The addresses in which the registers permit every fetch and every load.
    executable: Extent,
    /// Those in which they permit every load and every store.
    writable: Extent,
    /// The words of flash between the first ones.
    pub code: Words,
    /// Of how many of the even places of these words the instructions are known, where none goes on behind the last.
    pub count: usize,
    /// The words of RAM between the others.
    pub near: Words,
}

impl Windows {
    /// Those of registers that permit nothing.
    pub fn none() -> Windows
        ensures { FitAnywhere result }
    {
        Windows {
            executable: Extent { from: 0, length: 0 },
            writable: Extent { from: 0, length: 0 },
            code: Words {
                start: FLASH_START,
                size: 0,
            },
            count: 0,
            near: Words {
                start: RAM_START,
                size: 0,
            },
        }
    }

    /// Makes them those of some registers, over flash and so many bytes of RAM.
    // Where they stand: what is found is not moved.
    #[cold]
    #[inline(never)]
    fn find(&mut self, flash: &[u8], entries: &[Entry], size: usize, pmp: &Pmp)
        requires { AreEntries flash.now entries.now }
        ensures windows { AreWindows flash.now entries.now size self.new }
        ensures permit { Permit pmp.now self.new }
    {
        self.executable = pmp.executable();
        self.writable = pmp.writable();
        self.code = code_words(self.executable, flash.len());
        self.count = known_count(flash, entries, self.code);
        self.near = near_words(self.writable, size);
    }

    /// Makes them those of some registers, over flash and so many bytes of RAM, where they are not.
    #[inline(always)]
    pub fn follow(&mut self, flash: &[u8], entries: &[Entry], size: usize, pmp: &Pmp)
        requires entries { AreEntries flash.now entries.now }
        requires windows { AreWindows flash.now entries.now size self.old }
        ensures windows { AreWindows flash.now entries.now size self.new }
        ensures permit { Permit pmp.now self.new }
    {
        if !self.are_of(pmp) {
            self.find(flash, entries, size, pmp);
        }
    }

    /// Whether they are those of some registers.
    #[inline(always)]
    fn are_of(&self, pmp: &Pmp) -> bool
        ensures { OnTrue result (Permit pmp.now self.now) }
    {
        are_same(self.executable, pmp.executable()) && are_same(self.writable, pmp.writable())
    }
}

/// Whether they are the same addresses.
#[inline(always)]
fn are_same(some: Extent, others: Extent) -> bool
    ensures { OnTrue result (some ≡ others) }
{
    some.from == others.from && some.length == others.length
}

/// The words of flash, of so many bytes, in a window.
#[tactic(auto, using(crate::proofs::Near::of_more))]
fn code_words(window: Extent, size: usize) -> Words
    ensures words { AreWords FLASH_START size window.from (end_of window) result.start result.size }
    ensures below { result.start + result.size ≤ RAM_START }
{
    let most = (RAM_START - FLASH_START) as usize;
    words_in(window, FLASH_START, size.min(most))
}

/// The words of RAM, of so many bytes, in a window.
#[tactic(auto, using(crate::proofs::Near::of_more))]
fn near_words(window: Extent, size: usize) -> Words
    ensures words { AreWords RAM_START size window.from (end_of window) result.start result.size }
    ensures wraps { result.start + result.size ≤ 2 ^ 32 }
{
    words_in(window, RAM_START, size.min(0x7fff_ffff))
}

/// How many entries there are of the even places of some words of flash: none where one of the last two would go on
/// behind them.
fn known_count(flash: &[u8], entries: &[Entry], code: Words) -> usize
    requires entries { AreEntries flash.now entries.now }
    requires starts { FLASH_START ≤ code.start }
    requires even { code.start % 4 ≡ 0 }
    requires inside { code.start - FLASH_START + code.size ≤ length flash.now }
    ensures fits { (code.start - FLASH_START) / 2 + result ≤ length entries.now }
    ensures known { AreKnown flash.now code.start code.size
        (take result (drop ((code.start - FLASH_START) / 2) entries.now)) }
{
    let from = ((code.start - FLASH_START) / 2) as usize;
    let count = code.size as usize / 2;
    if count < 2 {
        return 0;
    }
    if entries[from + count - 1].reach() > 2 || entries[from + count - 2].reach() > 4 {
        return 0;
    }
    count
}

/// The bytes of flash in the windows.
#[tactic(auto, using(crate::proofs::Near::is_code))]
#[inline(always)]
pub fn code_in<'a>(flash: &'a [u8], pmp: &Pmp, windows: Windows) -> &'a [u8]
    requires words { AreWords FLASH_START (length flash.now) windows.executable.from
        (end_of windows.executable) windows.code.start windows.code.size }
    requires below { windows.code.start + windows.code.size ≤ RAM_START }
    requires permit { Permit pmp.now windows }
    ensures code { IsCode flash.now pmp.now windows.code.start result.now }
    ensures long { length result.now ≡ windows.code.size }
{
    let from = (windows.code.start - FLASH_START) as usize;
    &flash[from..from + windows.code.size as usize]
}

/// The entries of their even places.
#[inline(always)]
pub fn known_in<'a>(flash: &[u8], entries: &'a [Entry], windows: Windows) -> &'a [Entry]
    requires starts { FLASH_START ≤ windows.code.start }
    requires fits { (windows.code.start - FLASH_START) / 2 + windows.count ≤ length entries.now }
    requires known { AreKnown flash.now windows.code.start windows.code.size
        (take windows.count (drop ((windows.code.start - FLASH_START) / 2) entries.now)) }
    ensures { AreKnown flash.now windows.code.start windows.code.size result.now }
{
    let from = ((windows.code.start - FLASH_START) / 2) as usize;
    &entries[from..from + windows.count]
}
