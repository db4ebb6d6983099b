//! How a run is told.

/// What is written of a run before its end.
#[derive(Clone, Copy, Debug, PartialEq, Eq)]
pub enum Mode {
    /// The bytes that it prints, as they come.
    Boot,
    /// The lines of its steps: each system call, each denial, and what was printed.
    Trace,
    /// How many bytes it printed, and their sum.
    Soak,
}
