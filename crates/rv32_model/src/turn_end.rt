//! How a turn of a process ends.
use tk_base::Denial;

/// How one turn in user mode ends.
#[derive(Clone, Copy, Debug, PartialEq, Eq)]
pub enum TurnEnd {
    /// The instruction had its effect.
    Went,
    /// The instruction is an `ecall`; pc is still its address.
    Call,
    /// The instruction was denied, and had no effect.
    Trap(Denial),
}
