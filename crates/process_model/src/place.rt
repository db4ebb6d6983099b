//! Where a process lies.
use process_layout::Layout;
use tk_base::Addr;

/// Where the object of a process lies in flash (Tock Binary Format, "TBF Header Base").
#[derive(Clone, Copy, Debug, PartialEq, Eq)]
pub struct Object {
    /// The address of its header.
    pub address: Addr,
    /// Its total size in bytes.
    pub size: u32,
}

/// What a process takes up: its object in flash, and its memory.
#[derive(Clone, Copy, Debug, PartialEq, Eq)]
pub struct Footprint {
    pub object: Object,
    pub layout: Layout,
}
