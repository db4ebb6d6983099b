//! Requests that processes make of a driver, and that its device serves one after another: what a
//! driver keeps of a request, how one begins to wait, whose it is that waits, and how the device
//! answers whoever waits longest (TRD 104, "Command"; Levy et al., SOSP 2017, section 4). A driver
//! says what its request is, where it keeps it, and what its device does for one; the rest is the
//! same for all.
#![tactic(auto)]

mod begin;
mod kinds;
mod queue;
mod request;
mod service;
mod visit;
mod waiting;

pub use queue::RequestQueue;
pub use request::Request;
pub use service::Service;
pub use visit::{Attended, VisitRequest, visit_request};
pub use waiting::Waiting;
