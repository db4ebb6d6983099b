//! What one step shows.
ghost use Rattle.std.specs.Prelude.{◌≡◌};
ghost use Rattle.process_record.specs.Emit.{nothing};

use arrayvec::ArrayVec;
use tk_base::{CallRule, Denial, PRINT_LIMIT, Slot, Verb};

/// A system call that was made in a step.
#[derive(Clone, Copy, Debug, PartialEq, Eq)]
pub struct CallMade {
    /// Its class, a4.
    pub class: u32,
    /// Its arguments, a0 to a3 before the call.
    pub args: [u32; 4],
    /// a0 to a3 after the call, where a reply was put into them.
    pub reply: Option<[u32; 4]>,
    /// The rule that it broke, where it was refused.
    pub rule: Option<CallRule>,
}

/// What a step printed, whose turn it was or on whose process an operator acted, and the call or
/// the denial in it.
#[derive(Drop)]
pub struct Emit {
    /// The bytes that went to the console, at most [`PRINT_LIMIT`] a step.
    pub printed: ArrayVec<u8, PRINT_LIMIT>,
    /// The slot whose turn it was, or for whose process something was printed or done.
    pub slot: Option<Slot>,
    /// An operator's act on the process of a slot.
    pub act: Option<(Slot, Verb)>,
    pub made: Option<CallMade>,
    pub denial: Option<Denial>,
}

impl Emit {
    /// Nothing was shown yet.
    pub fn new() -> Emit
        ensures { result ≡ nothing }
    {
        Emit {
            printed: ArrayVec::new(),
            slot: None,
            act: None,
            made: None,
            denial: None,
        }
    }
}
