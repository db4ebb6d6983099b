//! Where one process's memory lies: its accessible flash, its accessible RAM and its break, and the
//! room above the break that its grants take.
#![tactic(auto)]

ghost use Rattle.std.specs.Prelude.{◌≡◌, ◌+◌, ◌-◌, ◌%◌, ◌≤◌, IfNone, OnSome};
ghost use Rattle.std.specs.Bool.{OnTrue, OnFalse};
ghost use Rattle.std.specs.Option.{SomeIff};

use std::marker::Model;
use tk_base::Addr;

/// Where the memory of one process lies. All fields are byte addresses.
///
/// Always `start <= brk <= kernel_break <= end`, `mark <= brk` and `flash_start <= flash_end`, and
/// `start`, `end`, `brk` and `kernel_break` are multiples of 4.
#[derive(Clone, Copy, Debug, PartialEq, Eq)]
pub struct Layout {
    /// The first byte of flash that the process may execute and read.
    pub flash_start: Addr,
    /// The end of that flash: the first address after it.
    pub flash_end: Addr,
    /// The first byte of the process's block of RAM.
    pub start: Addr,
    /// The end of the block.
    pub end: Addr,
    /// The break: the end of the RAM that the process may read and write.
    pub brk: Addr,
    /// The lowest address of a grant, or the block's end.
    pub kernel_break: Addr,
    /// The break may not move below this address, at which the highest RAM buffer ends that the
    /// process has allowed.
    pub mark: Addr,
}

impl Model for Layout {
    ghost use Rattle.std.specs.Prelude.{◌≡◌, ◌%◌, ◌≤◌};
    ghost use Rattle.process_layout.specs.LayoutView.{LayoutView};

    ghost Value = { LayoutView };

    ghost view = { λ l. record {
      flash_start = l.flash_start;
      flash_end = l.flash_end;
      start = l.start;
      end = l.end;
      brk = l.brk;
      kernel_break = l.kernel_break;
      mark = l.mark;
    } };

    ghost use Rattle.process_layout.specs.Ordered.{IsOrdered};

    ghost invariant = { λ l. IsOrdered
        (record {
          flash_start = l.flash_start;
          flash_end = l.flash_end;
          start = l.start;
          end = l.end;
          brk = l.brk;
          kernel_break = l.kernel_break;
          mark = l.mark;
        }) };

    ghost inverse = { λ e. record {
      flash_start = e.flash_start;
      flash_end = e.flash_end;
      start = e.start;
      end = e.end;
      brk = e.brk;
      kernel_break = e.kernel_break;
      mark = e.mark;
    } };
}

impl Layout {
    ghost use Rattle.tk_base.specs.Numbers.{rounded_up};
    ghost use Rattle.process_layout.specs.LayoutView.{first_break, with_break, extents_at_start};
    ghost use Rattle.process_layout.specs.Bounds.{bounds_of, permits_break};
    ghost use Rattle.process_layout.specs.Interval.{lies_within};

    /// Where the memory of a process lies at its start (TRD 104, "Exit"; Levy et al., SOSP 2017), by
    /// the ends of its accessible flash and of its block, and by how many bytes of RAM it needs at
    /// least: the break is past them, rounded up to a multiple of 4, and there are no grants and no
    /// buffers.
    pub fn for_start(
        flash_start: Addr,
        flash_end: Addr,
        start: Addr,
        end: Addr,
        minimum_ram: u32,
    ) -> Layout
        requires flash { flash_start ≤ flash_end }
        requires start { start % 4 ≡ 0 }
        requires end { end % 4 ≡ 0 }
        requires room { first_break start minimum_ram ≤ end }
        ensures { result ≡ extents_at_start flash_start flash_end start end minimum_ram }
    {
        let mut layout = Layout {
            flash_start,
            flash_end,
            start,
            end,
            brk: start,
            kernel_break: end,
            mark: start,
        };
        layout.restart(layout.first_break(minimum_ram));
        layout
    }

    /// Moves the break to an address, rounded up to a multiple of 4 (TRD 104, "Memop"), and says
    /// whether it did. It is refused where the rounded address is below the block's start, above
    /// the kernel break, or below the mark; then nothing changes. An address that rounds to `2^32`
    /// is above every kernel break.
    pub fn set_break(&mut self, new: u32) -> bool
        ensures answer { result ≡ permits_break (bounds_of self.old) self.old.kernel_break new }
        ensures moved { OnTrue result (self.new ≡ record self.old { brk = rounded_up new }) }
        ensures refused { OnFalse result (self.new ≡ self.old) }
    {
        let rounded = (u64::from(new) + 3) / 4 * 4;
        if rounded < u64::from(self.start)
            || rounded > u64::from(self.kernel_break)
            || rounded < u64::from(self.mark)
        {
            return false;
        }
        self.brk = rounded as u32;
        true
    }

    /// The first break of a process that needs at least so many bytes of RAM: past them, rounded up to a
    /// multiple of 4.
    pub fn first_break(&self, minimum_ram: u32) -> Addr
        requires { first_break self.now.start minimum_ram ≤ self.now.end }
        ensures { result ≡ first_break self.now.start minimum_ram }
    {
        let least = (u64::from(self.start) + u64::from(minimum_ram)).next_multiple_of(4);
        let is_in_block = least <= u64::from(self.end);
        prove!(is_in_block);
        least as u32
    }

    /// Moves the break to an address, and kernel break and mark to where they are at the process's start
    /// (TRD 104, "Exit"; Levy et al., SOSP 2017): there are no grants and no buffers.
    pub fn restart(&mut self, brk: Addr)
        requires from { self.old.start ≤ brk }
        requires to { brk ≤ self.old.end }
        requires aligned { brk % 4 ≡ 0 }
        ensures { self.new ≡ with_break brk self.old }
    {
        self.brk = brk;
        self.kernel_break = self.end;
        self.mark = self.start;
    }

    /// Takes room for a grant of so many bytes, which is from the new kernel break up to the old
    /// one (Levy et al., SOSP 2017), and gives the new kernel break. There is no room, and nothing
    /// changes, exactly where it would be below the break.
    pub fn take_grant(&mut self, cost: u32) -> Option<u32>
        requires { cost % 4 ≡ 0 }
        ensures answer { SomeIff result (self.old.brk + cost ≤ self.old.kernel_break)
            (self.old.kernel_break - cost) }
        ensures taken { OnSome result
            (self.new ≡ record self.old { kernel_break = self.old.kernel_break - cost }) }
        ensures refused { IfNone result (self.new ≡ self.old) }
    {
        if cost > self.kernel_break - self.brk {
            return None;
        }
        let lowest = self.kernel_break - cost;
        self.kernel_break = lowest;
        Some(lowest)
    }

    /// Whether all of the bytes from an address on lie in the RAM that the process may read and
    /// write. No bytes lie in it from its first address up to its end, the break.
    pub fn in_ram(&self, at: Addr, size: u32) -> bool
        ensures { result ≡ lies_within self.now.start self.now.brk at size }
    {
        self.start <= at && u64::from(at) + u64::from(size) <= u64::from(self.brk)
    }

    /// Whether all of the bytes from an address on lie in the flash that the process may execute
    /// and read. No bytes lie in it from its first address up to its end.
    pub fn in_flash(&self, at: Addr, size: u32) -> bool
        ensures { result ≡ lies_within self.now.flash_start self.now.flash_end at size }
    {
        self.flash_start <= at && u64::from(at) + u64::from(size) <= u64::from(self.flash_end)
    }
}
