//! How a system call is refused.
ghost use Rattle.std.specs.Prelude.{◌≡◌};
ghost use Rattle.tk_base.specs.Call.{code_of, error_of};

/// The error codes of Tock's system call interface, by the names that Tock's own `ErrorCode` has (TRD 104, "Error
/// codes").
#[derive(Clone, Copy, Debug, PartialEq, Eq)]
pub enum ErrorCode {
    FAIL,
    BUSY,
    ALREADY,
    OFF,
    RESERVE,
    INVAL,
    SIZE,
    CANCEL,
    NOMEM,
    NOSUPPORT,
    NODEVICE,
    UNINSTALLED,
    NOACK,
    BADRVAL,
}

impl ErrorCode {
    /// The number that a process sees.
    pub fn code(self) -> u32
        ensures { result ≡ code_of self }
    {
        match self {
            ErrorCode::FAIL => 1,
            ErrorCode::BUSY => 2,
            ErrorCode::ALREADY => 3,
            ErrorCode::OFF => 4,
            ErrorCode::RESERVE => 5,
            ErrorCode::INVAL => 6,
            ErrorCode::SIZE => 7,
            ErrorCode::CANCEL => 8,
            ErrorCode::NOMEM => 9,
            ErrorCode::NOSUPPORT => 10,
            ErrorCode::NODEVICE => 11,
            ErrorCode::UNINSTALLED => 12,
            ErrorCode::NOACK => 13,
            ErrorCode::BADRVAL => 1024,
        }
    }
}

/// The rule that a refused system call broke.
#[derive(Clone, Copy, Debug, PartialEq, Eq)]
pub enum CallRule {
    /// The application's header does not permit it.
    Permission,
    /// There is no such driver.
    NoDriver,
    /// The driver has no upcall or buffer of that number.
    NoNumber,
    /// The driver has no such command.
    NoCommand,
    /// There is no such memory operation, or no such way to exit.
    NoOperation,
    /// The bytes do not lie where the process may have them.
    Outside,
    /// An argument is out of range.
    Range,
    /// There is no room for the driver's grant.
    NoRoom,
    /// The break may not be there.
    Break,
    /// A request of the same kind waits already.
    Busy,
    /// The request is for no bytes.
    Empty,
    /// There is nothing to stop.
    Nothing,
    /// There is no region of that index.
    Index,
}

impl CallRule {
    /// The error with which the call is refused.
    pub fn error(self) -> ErrorCode
        ensures { result ≡ error_of self }
    {
        match self {
            CallRule::Permission | CallRule::NoDriver => ErrorCode::NODEVICE,
            CallRule::NoNumber | CallRule::NoCommand | CallRule::NoOperation =>
                ErrorCode::NOSUPPORT,
            CallRule::Outside | CallRule::Range => ErrorCode::INVAL,
            CallRule::NoRoom | CallRule::Break => ErrorCode::NOMEM,
            CallRule::Busy => ErrorCode::BUSY,
            CallRule::Empty => ErrorCode::SIZE,
            CallRule::Nothing => ErrorCode::ALREADY,
            CallRule::Index => ErrorCode::FAIL,
        }
    }
}
