//! The kinds of pairs.
ghost use Rattle.std.specs.Prelude.{◌≡◌, ◌<◌, ◌*◌, ◌^◌};
ghost use Rattle.tk_base.specs.Kinds.{count_of, pair_count, pairs_before};

use crate::upcall::Counts;

/// The kinds of pairs that a process hands to a driver (TRD 104, "Subscribe", "Read-Only Allow",
/// "Read-Write Allow"; Tock's userspace-readable allow), in the order in which they stand in a grant.
#[derive(Clone, Copy, Debug, PartialEq, Eq)]
pub enum PairKind {
    /// The function of an upcall, and the application data.
    Upcall,
    /// The address and the size of a read-only buffer, in bytes.
    ReadOnly,
    /// The address and the size of a read-write buffer, in bytes.
    ReadWrite,
    /// The address and the size of a buffer, in bytes, that the process may read while the kernel
    /// writes it.
    Readable,
}

impl PairKind {
    /// How many pairs of this kind a driver with these counts has.
    pub fn count(self, counts: &Counts) -> u32
        ensures { result ≡ count_of self counts.now }
    {
        match self {
            PairKind::Upcall => counts.upcalls,
            PairKind::ReadOnly => counts.ro,
            PairKind::ReadWrite => counts.rw,
            PairKind::Readable => counts.ur,
        }
    }

    /// How many pairs stand before those of this kind in the grant of a driver with these counts.
    pub fn pairs_before(self, counts: &Counts) -> usize
        ensures pairs { result ≡ pairs_before self counts.now }
        ensures bound { result < 3 * 2 ^ 32 }
    {
        match self {
            PairKind::Upcall => 0,
            PairKind::ReadOnly => counts.upcalls as usize,
            PairKind::ReadWrite => counts.upcalls as usize + counts.ro as usize,
            PairKind::Readable => counts.upcalls as usize + counts.ro as usize + counts.rw as usize,
        }
    }
}

impl Counts {
    /// How many pairs the grant of a driver with these counts has, of all kinds.
    pub fn pairs(&self) -> usize
        ensures pairs { result ≡ pair_count self.now }
        ensures bound { result < 4 * 2 ^ 32 }
    {
        self.upcalls as usize + self.ro as usize + self.rw as usize + self.ur as usize
    }
}
