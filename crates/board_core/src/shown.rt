//! What a step of a board shows.
ghost use Rattle.std.specs.Prelude.{◌≡◌};
ghost use Rattle.process_record.specs.Emit.{nothing};
ghost use Rattle.board_core.specs.Makes.{shown_act, shown_printed};

use arrayvec::ArrayVec;
use process_record::Emit;
use tk_base::{PRINT_LIMIT, Slot, Verb};

/// Takes back what the last step told: of this one it is told whose turn it is, if it is one, and
/// nothing else so far. What was printed, an act, a call or a denial is seldom there, and writing it
/// takes time.
#[inline(always)]
pub(crate) fn clear(emit: &mut Emit, slot: Option<Slot>)
    ensures { emit.new ≡ record nothing { slot = slot } }
{
    emit.slot = slot;
    emit.printed.clear();
    if emit.act.is_some() {
        emit.act = None;
    }
    if emit.made.is_some() {
        emit.made = None;
    }
    if emit.denial.is_some() {
        emit.denial = None;
    }
}

/// The step printed bytes for a slot's process, if it printed any.
pub(crate) fn show(emit: &mut Emit, slot: Slot, printed: ArrayVec<u8, PRINT_LIMIT>)
    ensures { emit.new ≡ shown_printed slot printed.items }
{
    clear(emit, None);
    if !printed.is_empty() {
        emit.slot = Some(slot);
        emit.printed = printed;
    }
}

/// An operator acted on a slot's process, and these bytes were printed.
pub(crate) fn show_act(emit: &mut Emit, slot: Slot, verb: Verb, printed: ArrayVec<u8, PRINT_LIMIT>)
    ensures { emit.new ≡ shown_act slot verb printed.items }
{
    clear(emit, Some(slot));
    emit.act = Some((slot, verb));
    emit.printed = printed;
}
