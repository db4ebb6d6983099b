//! The system call interface: registers to a call, and a reply to registers (TRD 104, "System Call
//! API").
#![tactic(auto)]

mod call;
mod form;
mod reply;

pub use call::{Call, forms_tell_calls};
pub use form::{CallForm, Swap};
pub use reply::{Reply, reply_of};
