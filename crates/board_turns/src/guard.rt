//! The one protection register file.
ghost use Rattle.std.specs.Prelude.{◌≡◌, ◌<◌, false, None, length};
ghost use Rattle.board_memory.specs.Registers.{Protect};
ghost use Rattle.grant_enter.specs.Homes.{own_of};
ghost use Rattle.syscall_abi.specs.Forms.{form_of};
ghost use Rattle.board_turns.specs.Guards.{GuardsOnly, GuardsOthers, IsSetFor, may_move};

use grant_enter::Home;
use pmp_regions::Pmp;
use syscall_abi::Call;
use tk_base::{Addr, Slot};

/// The board's protection registers (RISC-V privileged manual, "Physical Memory Protection"), and
/// the slot for whose process they are set, if they are for any.
#[derive(Drop)]
pub struct ActivePmp {
    pub pmp: Pmp,
    pub slot: Option<Slot>,
}

impl ActivePmp {
    /// The registers when the board starts: they permit nothing, and are set for no process.
    pub fn new() -> ActivePmp
        ensures { result.slot ≡ None }
    {
        ActivePmp {
            pmp: Pmp::new(),
            slot: None,
        }
    }

    /// The same registers again, set for the same slot.
    pub fn copied(&self) -> ActivePmp
        ensures { result ≡ self.now }
    {
        ActivePmp {
            pmp: self.pmp.copied(),
            slot: self.slot,
        }
    }

    /// Sets the registers for the process in a slot, where they are set for another one or for
    /// none, and has its instructions decoded, if they were not yet.
    // Inlined: most turns are those of the slot that had the last one.
    #[inline(always)]
    pub fn bring_in(&mut self, home: &mut Home, slot: Slot)
        requires slot { slot < length home.old.owns }
        requires guards { GuardsOnly self.old home.old }
        ensures home { home.new ≡ home.old }
        ensures set { IsSetFor slot self.new home.new }
    {
        let set = self.slot;
        if set != Some(slot) {
            home.decode(slot);
            home.protect(slot, &mut self.pmp);
            self.slot = Some(slot);
        }
    }

    /// Sets the registers again where they are set for the process in a slot, whose layout may have
    /// moved.
    pub fn follow(&mut self, home: &Home, slot: Slot)
        requires slot { slot < length home.now.owns }
        requires others { GuardsOthers slot self.old home.now }
        ensures { GuardsOnly self.new home.now }
    {
        if self.slot == Some(slot) {
            home.protect(slot, &mut self.pmp);
        }
    }

    /// Sets the registers again for the process in a slot, where its break is another one than that
    /// for which they were set. It asks that they fit but for that.
    #[inline(always)]
    pub fn refresh_break(&mut self, home: &Home, slot: Slot, before: Addr)
        requires slot { slot < length home.now.owns }
        requires set { Protect self.old.pmp
            (record (own_of home.now slot).layout { brk = before }) }
        ensures slot { self.new.slot ≡ self.old.slot }
        ensures protect { Protect self.new.pmp (own_of home.now slot).layout }
    {
        if home.layout(slot).brk != before {
            home.protect(slot, &mut self.pmp);
        }
    }

    /// Sets the registers again for the process in a slot after it made a call: a memop may have moved
    /// what it may access, and an exit, by which it starts again. It asks that no other call has.
    // Inlined: most calls are none of these two.
    #[inline(always)]
    pub fn refresh_after(&mut self, call: &Call, home: &Home, slot: Slot)
        requires slot { slot < length home.now.owns }
        requires stays { may_move (form_of call.now) ≡ false
            → Protect self.old.pmp (own_of home.now slot).layout }
        ensures slot { self.new.slot ≡ self.old.slot }
        ensures protect { Protect self.new.pmp (own_of home.now slot).layout }
    {
        if let Call::Memop { .. } | Call::Exit { .. } = call {
            home.protect(slot, &mut self.pmp);
        }
    }
}
