//! What comes of a system call.
use syscall_abi::Reply;
use tk_base::CallRule;

/// What comes of a system call (TRD 104, "Return Values", "Yield", "Exit").
#[derive(Clone, Copy, Debug, PartialEq, Eq)]
pub enum Outcome {
    /// The call returned: what the process got back, and the rule that the call broke, where it was
    /// refused.
    Replied(Reply, Option<CallRule>),
    /// The call is a command, and its driver is to answer it.
    ToDriver,
    /// The process waits for an upcall, or for one alone.
    Waits,
    /// The process got what is delivered to it: an upcall whose function runs, or the arguments of
    /// the one that it asked for alone.
    Delivered,
    /// The process goes on after the call, which has no reply.
    GoesOn,
    /// The process ended itself.
    Ended,
    /// The process started again.
    Again,
}
