//! Why a header is refused.

/// The first fault of a header, in the order of the variants.
#[derive(Clone, Copy, Debug, PartialEq, Eq)]
pub enum HeaderFault {
    /// There are fewer than 16 bytes.
    Short,
    /// The version is not 2.
    Version,
    /// The total size is 0, beyond the bytes or no multiple of 4, or the header size is below 16,
    /// above the total size or no multiple of 4.
    Sizes,
    /// The checksum is not the exclusive or of the header's other words.
    Checksum,
    /// The first TLV that is bad, by its offset from the header's start. Its content passes the
    /// header's end, or is too short for its type or for the entries that it counts.
    Tlv(u32),
}
