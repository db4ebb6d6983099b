//! Where applications are placed.
use process_layout::Layout;
use tk_base::{Addr, PlaceFault, Slot};

/// An application with its place, or why it has none.
#[derive(Clone, Copy, Debug, PartialEq, Eq)]
pub struct Placed {
    /// Where its object begins, in bytes from the start of flash.
    pub offset: u32,
    /// The slot, and where its memory lies.
    pub place: Result<(Slot, Layout), PlaceFault>,
}

impl Default for Placed {
    ghost use Rattle.std.specs.Prelude.{◌≡◌, Err};
    ghost use Rattle.tk_base.specs.declared.process.PlaceFault.TheVariants.{NoSlot};

    ghost is_default = { λ p. (p.offset ≡ 0) × (p.place ≡ Err NoSlot) };

    /// An application at the start of flash that has no place.
    fn default() -> Placed {
        Placed {
            offset: 0,
            place: Err(PlaceFault::NoSlot),
        }
    }
}

/// Where the next block may lie.
#[derive(Clone, Copy, Debug, PartialEq, Eq)]
pub struct Room {
    /// The first address.
    pub from: Addr,
    /// The end.
    pub to: Addr,
}

/// How far RAM and the slots are filled.
#[derive(Clone, Copy, Debug, PartialEq, Eq)]
pub struct Filled {
    /// The end of the last block, or the first address of RAM.
    pub last_end: Addr,
    /// How many applications are placed.
    pub count: usize,
}
