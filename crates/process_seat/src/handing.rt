//! What a process hands to a driver, in its seat.
ghost use Rattle.std.specs.Prelude.{◌≡◌, IsTrue, is_ok, IfOk, IfErr, OnOk, OnErr};
ghost use Rattle.swap_tables.specs.Swaps.{CanHand};
ghost use Rattle.process_model.specs.Handed.{handing, has_place as has_place_in, held, marked};
ghost use Rattle.process_model.specs.Handed.{may_share, raised, still_pending};
ghost use Rattle.process_layout.specs.Bounds.{bounds_of};
ghost use Rattle.process_layout.specs.Ordered.{IsOrdered};
ghost use Rattle.process_seat.specs.Seats.{HasBlock, Reseats, SitsIn, SwapsIn, TellsBreaks};
ghost use Rattle.process_seat.specs.Seats.{fits_in, own_in};

use crate::seat::Seat;
use board_memory::{Block, Memory, SplitBlock};
use grant_model::pairs_stand_by_kind;
use grant_region::NoRoom;
use process_layout::Layout;
use swap_tables::{Handover, swap_pair};
use tk_base::PairKind;
use upcall_queue::Inbox;

/// The parts of a layout are in their order, as always. This does nothing.
pub(crate) fn in_order(layout: &Layout)
    ensures { IsOrdered layout.now }
{
    let _start = layout.start;
}

/// Swaps the pair in a block of memory.
#[inline(always)]
fn swap_in(
    memory: &mut Memory,
    layout: &mut Layout,
    handover: Handover,
) -> Result<(u32, u32), NoRoom>
    requires block { HasBlock memory.old layout.old }
    requires pair { CanHand handover }
    ensures room { is_ok result ≡ fits_in handover.driver memory.old.ram layout.old }
    ensures swapped { IfOk result (SwapsIn handover memory.old layout.old memory.new layout.new) }
    ensures refused { OnErr result ((memory.new ≡ memory.old) × (layout.new ≡ layout.old)) }
    ensures breaks { IfErr result (λ full. (full.brk ≡ layout.old.brk)
        × (full.lowest ≡ layout.old.kernel_break)) }
{
    let Block { bytes, cut, .. } = memory.lend_block(layout);
    let SplitBlock { app, kernel } = SplitBlock::of(bytes, cut);
    let former = swap_pair(layout, app, kernel, handover);
    in_order(layout);
    former
}

/// The break may not move below the end of a buffer in RAM that has bytes.
fn raise_mark(layout: &mut Layout, buffer: (u32, u32))
    ensures { layout.new ≡ record layout.old { mark = (raised buffer (bounds_of layout.old)).mark } }
{
    let (at, size) = buffer;
    if size == 0 || !layout.in_ram(at, size) {
        return;
    }
    layout.mark = layout.mark.max(at + size);
}

/// What else changes where a process has handed a pair to a driver: a buffer raises the mark, and
/// another upcall takes away the pending ones of its driver and number.
fn note_handed(layout: &mut Layout, inbox: &mut Inbox, handover: Handover)
    ensures layout { layout.new ≡ record layout.old {
      mark = (marked handover.kind handover.pair (bounds_of layout.old)).mark;
    } }
    ensures inbox { inbox.new ≡ record inbox.old {
      pending = still_pending handover.kind handover.driver handover.number inbox.old.pending;
    } }
{
    match handover.kind {
        PairKind::Upcall => inbox.pending.drop_of(handover.driver, handover.number),
        PairKind::ReadOnly | PairKind::ReadWrite | PairKind::Readable => raise_mark(
            layout,
            handover.pair,
        ),
    }
}

/// Hands a pair of the process in a seat to a driver. [`NoRoom`] tells the break and the kernel break of the process,
/// in which nothing has changed.
#[inline(always)]
pub fn hand_at(
    memory: &mut Memory,
    seat: &mut Seat,
    handover: Handover,
) -> Result<(u32, u32), NoRoom>
    requires sits { SitsIn memory.old seat.old }
    requires pair { CanHand handover }
    requires may { IsTrue (may_share handover.kind (bounds_of seat.old.layout) handover.pair) }
    ensures room { is_ok result ≡ has_place_in handover.driver (own_in memory.old.ram seat.old) }
    ensures former { IfOk result (λ former. former
        ≡ held handover.kind handover.driver handover.number (own_in memory.old.ram seat.old)) }
    ensures handed { OnOk result (own_in memory.new.ram seat.new
        ≡ handing handover.kind handover.driver handover.number handover.pair
        (own_in memory.old.ram seat.old)) }
    ensures refused { OnErr result
        (own_in memory.new.ram seat.new ≡ own_in memory.old.ram seat.old) }
    ensures breaks { IfErr result (TellsBreaks (own_in memory.old.ram seat.old)) }
    ensures reseats { Reseats memory.old seat.old memory.new seat.new }
{
    pairs_stand_by_kind();
    let former = swap_in(memory, &mut seat.layout, handover)?;
    note_handed(&mut seat.layout, &mut seat.inbox, handover);
    Ok(former)
}
