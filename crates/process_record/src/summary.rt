//! What the report says of a board.
use crate::process::State;
use arrayvec::ArrayVec;
use tk_base::{Denial, OBJECT_LIMIT, PENDING_LIMIT, PlaceFault, SLOT_COUNT, Wait};

/// What the report says of one slot.
#[derive(Drop, Default)]
pub struct SlotLine {
    /// The first 32 bytes of the package name; empty where there is none.
    pub name: ArrayVec<u8, 32>,
    pub state: State,
    /// Whether an operator holds it.
    pub held: bool,
    /// What it waits for, where it has yielded.
    pub wait: Wait,
    /// The last denial.
    pub denial: Option<Denial>,
    pub turns: u32,
    pub restarts: u32,
    /// How many upcalls were dropped since [`PENDING_LIMIT`] were pending.
    pub dropped: u32,
}

/// What the report says of a board.
#[derive(Drop)]
pub struct Summary {
    /// The slots that have a process, slot 0 first.
    pub slots: ArrayVec<SlotLine, SLOT_COUNT>,
    /// The applications that were not placed, in flash order: the offset of the object in flash, in
    /// bytes, and why it has no place.
    pub unplaced: ArrayVec<(u32, PlaceFault), OBJECT_LIMIT>,
    /// Bit n is LED n, from 0.
    pub leds: u32,
    /// How many LEDs there are.
    pub led_count: u32,
    /// How many steps were made.
    pub steps: u64,
    /// The board's time in ticks.
    pub time: u64,
}
