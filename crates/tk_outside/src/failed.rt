//! The errors of what lies outside.

/// A read or a write failed. Nothing more is said of the cause; the count of faults of the object
/// that failed rose.
#[derive(Clone, Copy, Debug, PartialEq, Eq)]
pub struct Failed;
