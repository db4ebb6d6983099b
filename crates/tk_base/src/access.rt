//! What a process does to memory, and why it may be denied.
ghost use Rattle.std.specs.Prelude.{◌≡◌};
ghost use Rattle.tk_base.specs.Access.{width_bytes, cause_of};

/// A byte's address, from 0 to `2^32 - 1`.
pub type Addr = u32;

/// The address of the first byte of flash.
pub const FLASH_START: Addr = 0x2000_0000;

/// The address of the first byte of RAM.
pub const RAM_START: Addr = 0x8000_0000;

/// How many bytes an access covers: 1, 2 or 4.
#[derive(Clone, Copy, Debug, PartialEq, Eq)]
pub enum Width {
    Byte,
    Half,
    Word,
}

impl Width {
    /// The number of bytes.
    pub fn bytes(self) -> u32
        ensures { result ≡ width_bytes self }
    {
        match self {
            Width::Byte => 1,
            Width::Half => 2,
            Width::Word => 4,
        }
    }
}

/// The kind of an access.
#[derive(Clone, Copy, Debug, PartialEq, Eq)]
pub enum Access {
    /// An instruction parcel is read to be executed.
    Fetch,
    /// Data is read.
    Load,
    /// Data is written.
    Store,
}

/// Why an access or an instruction is denied.
#[derive(Clone, Copy, Debug, PartialEq, Eq)]
pub enum Rule {
    /// No region holds all bytes of the access.
    NoRegion,
    /// The region that holds the bytes may not be executed.
    NoExecute,
    /// The region that holds the bytes may not be written.
    NoWrite,
    /// The region that holds the bytes may not be read.
    NoRead,
    /// The address is no multiple of the width.
    Misaligned,
    /// The bits are no instruction of this processor.
    Illegal,
    /// The instruction is `ebreak`.
    Breakpoint,
    /// The instruction is an `ecall` whose class is no system call.
    UnknownClass,
}

/// One denied access or instruction. An instruction that is illegal, a breakpoint or an unknown
/// system call is named as a fetch at its own address.
#[derive(Clone, Copy, Debug, PartialEq, Eq)]
pub struct Denial {
    // First, so that a denial has eight bytes.
    pub address: Addr,
    pub access: Access,
    pub rule: Rule,
}

impl Denial {
    /// The exception code of `mcause` that the privileged RISC-V manual gives for the denial
    /// ("Machine Cause Register"). An unknown system call is an environment call from user mode.
    pub fn cause(&self) -> u32
        ensures { result ≡ cause_of self.now }
    {
        match (self.rule, self.access) {
            (Rule::Illegal, _) => 2,
            (Rule::Breakpoint, _) => 3,
            (Rule::UnknownClass, _) => 8,
            (Rule::Misaligned, Access::Fetch) => 0,
            (Rule::Misaligned, Access::Load) => 4,
            (Rule::Misaligned, Access::Store) => 6,
            (_, Access::Fetch) => 1,
            (_, Access::Load) => 5,
            (_, Access::Store) => 7,
        }
    }
}
