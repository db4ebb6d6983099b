//! The system calls that the kernel serves itself: yield, subscribe, the allows, memop and exit
//! (TRD 104, "System Call API"); what a driver answers to a command; and the delivery of upcalls.
#![tactic(auto)]

mod caller;
mod exits;
mod headers;
mod lent;
mod memops;
mod permissions;
mod replies;
mod serving;
mod swaps;
mod yields;

pub use process_record::Outcome;
pub use replies::give_reply;
pub use serving::kernel_call;
pub use yields::deliver;
