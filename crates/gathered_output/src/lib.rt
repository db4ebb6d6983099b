//! Output that is gathered before it is written, so that many small pieces are one write of the
//! sink below.
#![tactic(auto)]

mod buffer;
mod laws;
mod text;

pub use buffer::{BUFFER_LEN, OutputBuffer};
pub use laws::puts_compose;
pub use text::Text;
