//! What a Program or a Main TLV says.

/// Where an application begins and what memory it asks for (Tock Binary Format, "Main" and
/// "Program").
#[derive(Clone, Copy, Debug, PartialEq, Eq)]
pub struct Main {
    /// The entry's offset from the header's end, in bytes.
    pub init: u32,
    /// How many bytes after the header are protected.
    pub protected: u32,
    /// How many bytes of RAM the application needs at least.
    pub minimum_ram: u32,
    /// The offset of the binary's end from the object's start. Only a Program TLV has it.
    pub binary_end: Option<u32>,
}
