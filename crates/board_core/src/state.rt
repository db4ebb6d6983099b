//! What a board is made of.

use crate::slices::PresentSlot;
use arrayvec::ArrayVec;
use board_turns::Machine;
use process_record::Process;
use tk_base::{OBJECT_LIMIT, PlaceFault};

/// What a board is made of. A board promises of it that it is one (`IsBoard`), as functions over it
/// ask, and shows its world (`world_of`).
#[derive(Drop)]
pub(crate) struct BoardState {
    /// The memory of the processes, the registers under which they run, the drivers and the moment,
    /// and what is kept of them.
    pub machine: Machine,
    /// The processes, slot 0 first.
    pub processes: Vec<Process>,
    /// The applications that have no place.
    pub unplaced: ArrayVec<(u32, PlaceFault), OBJECT_LIMIT>,
    /// The slot that had the last turn, in its slice.
    pub present: PresentSlot,
}
