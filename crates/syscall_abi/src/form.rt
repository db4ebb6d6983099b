//! The forms of system calls, which are fewer than their classes.
use tk_base::PairKind;

/// What a system call asks for, with its arguments (TRD 104, "System Call API"). What a process hands to a driver
/// is one form, whatever its kind is.
#[derive(Clone, Copy, Debug, PartialEq, Eq)]
pub enum CallForm {
    /// The process gives up the processor, in the way of that number.
    Yield {
        number: u32,
        a1: u32,
        a2: u32,
    },
    /// The process hands a pair to a driver: a subscribe or an allow.
    Swap(Swap),
    /// The driver is to act.
    Command {
        driver: u32,
        command: u32,
        a2: u32,
        a3: u32,
    },
    /// The process asks about its memory, or moves its break.
    Memop {
        operation: u32,
        argument: u32,
    },
    /// The process ends itself, in the way of that kind, with the completion code.
    Exit {
        kind: u32,
        code: u32,
    },
}

/// A pair that a process hands to a driver, as its one of that kind and number; the former one comes back (TRD 104,
/// "Subscribe", "Read-Only Allow", "Read-Write Allow").
#[derive(Clone, Copy, Debug, PartialEq, Eq)]
pub struct Swap {
    pub kind: PairKind,
    pub driver: u32,
    pub number: u32,
    pub pair: (u32, u32),
}
