//! Want of memory.
use std::alloc::AllocError;

/// There was no memory for what was to be made.
#[derive(Clone, Copy, Debug, PartialEq, Eq)]
pub struct NoMemory;

impl From<AllocError> for NoMemory {
    /// Why there was none is not kept.
    fn from(_error: AllocError) -> NoMemory {
        NoMemory
    }
}
