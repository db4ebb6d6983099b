//! What a device tells a process.
use arrayvec::ArrayVec;
use tk_base::{ProcessId, RING_SIZE};

/// An answer of a device, and whose request it serves.
#[derive(Debug, PartialEq, Eq, Drop)]
pub struct Answer {
    pub to: ProcessId,
    pub kind: Kind,
}

/// All that a device may tell a process.
#[derive(Debug, PartialEq, Eq, Drop)]
pub enum Kind {
    /// The UART took the next bytes of a write.
    Taken,
    /// The UART has taken all bytes of a write.
    WriteDone,
    /// Bytes came in, the oldest first; a read has them.
    Input(ArrayVec<u8, RING_SIZE>),
    /// The next random word.
    Word(u32),
    /// A request for random bytes took no word.
    NoWord,
    /// A storage request was served; true where its bytes were moved, false where it failed.
    Stored(bool),
    /// An alarm fired, when the clock stood at this tick.
    Alarm(u32),
}
