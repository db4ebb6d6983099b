//! What a process hands to a driver.

use tk_base::{Counts, PairKind};

/// A pair that a process hands to a driver (TRD 104, "Subscribe", "Read-Only Allow", "Read-Write
/// Allow"): the pair of a kind and a number, of a driver with these counts.
#[derive(Clone, Copy, Debug, PartialEq, Eq)]
pub struct Handover {
    pub kind: PairKind,
    /// The driver's number.
    pub driver: u32,
    /// The driver's counts.
    pub counts: Counts,
    /// The number of the pair among those of its kind.
    pub number: u32,
    /// The function and the application data of an upcall, or the address and the size of a buffer.
    pub pair: (u32, u32),
}
