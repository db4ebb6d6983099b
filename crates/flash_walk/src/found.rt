//! What is found in a flash image.
use tbf_headers::HeaderFault;

/// What is said of an object: the first of these that fits.
#[derive(Clone, Copy, Debug, Default, PartialEq, Eq)]
pub enum Verdict {
    /// Its header has a fault.
    Bad(HeaderFault),
    /// It has neither a Program nor a Main TLV.
    #[default]
    Padding,
    /// Bit 0 of its flags is clear.
    Disabled,
    /// The header with the protected bytes passes the object, the binary's end passes the object
    /// or stands before the end of the protected bytes, or the entry is odd or outside of
    /// accessible flash.
    BadEntry,
    /// It is linked for a flash start other than the address after its protected bytes.
    WrongFlash,
    /// It is an application that can be placed.
    App,
}

/// An object that was found.
#[derive(Clone, Copy, Debug, Default, PartialEq, Eq)]
pub struct Found {
    /// Where it begins, in bytes from the start of flash.
    pub offset: u32,
    /// Its total size, in bytes.
    pub size: u32,
    pub verdict: Verdict,
}
