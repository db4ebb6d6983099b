//! Upcalls, and how many of each kind a driver has.

/// An upcall that waits for its process (TRD 104, "Subscribe"): the driver and the number under which it was
/// subscribed, the function and the application data of the subscription, and the driver's three
/// arguments. The default is the null upcall of all zeros.
#[derive(Clone, Copy, Debug, Default, PartialEq, Eq)]
pub struct Upcall {
    pub driver: u32,
    pub number: u32,
    /// The address of the function; 0 for the null upcall, which never runs.
    pub function: u32,
    /// The application data, which the function gets as its fourth argument.
    pub app: u32,
    pub args: [u32; 3],
}

/// What a process that has yielded waits for (TRD 104, "Yield").
#[derive(Clone, Copy, Debug, Default, PartialEq, Eq)]
pub enum Wait {
    /// Any upcall.
    #[default]
    No,
    /// The upcall of a driver and a number alone, whose arguments it gets; no function of it runs.
    For(u32, u32),
    /// Nothing any more: the upcall that it waited for alone came, with these arguments.
    Given([u32; 3]),
}

/// How many upcalls and buffers of each kind a driver has, and how many bytes it keeps of each process
/// (Levy et al., SOSP 2017).
#[derive(Clone, Copy, Debug, PartialEq, Eq)]
pub struct Counts {
    /// Upcalls that can be subscribed.
    pub upcalls: u32,
    /// Read-only buffers that can be allowed.
    pub ro: u32,
    /// Read-write buffers that can be allowed.
    pub rw: u32,
    /// Buffers that can be allowed which the process may read while the kernel writes them.
    pub ur: u32,
    /// Bytes of the value that the driver keeps.
    pub value: u32,
}
