//! Where areas lie.

/// Where the area of a driver's grant lies in the kernel's bytes of a process's block (Levy et al.,
/// SOSP 2017, section 4).
#[derive(Clone, Copy, Debug, PartialEq, Eq)]
pub struct Area {
    /// How many bytes lie between the kernel break and the area, a multiple of 8.
    pub offset: u32,
    /// How many bytes the area has, a multiple of 8.
    pub cost: u32,
}
