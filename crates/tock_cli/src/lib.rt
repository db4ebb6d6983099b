//! `tock`: runs the applications of a flash image on the board, tells what they print or what they
//! ask of the kernel, and lists what an image holds. Here is all of it but for the program, which
//! hands it the system's files and standard output.
#![tactic(auto)]

mod run;
pub mod serve;
mod teller;

pub use run::{run_out, trace_out};
pub use run_text::Mode;
