//! Finds the objects in a flash image: applications in the Tock Binary Format, and what stands
//! between them.
#![tactic(auto)]

mod found;
mod laws;
mod verdict;
mod walking;

pub use found::{Found, Verdict};
pub use laws::objects_are_found;
pub use walking::walk;
