//! Grants in the kernel's bytes of a process's block: where a driver's area lies, and room for one
//! more (Levy et al., SOSP 2017, section 4).
#![tactic(auto)]

mod laws;
mod region;
mod room;

pub use grant_model::Area;
pub use laws::parts_join;
pub use region::area;
pub use room::{NoRoom, make_area, make_room};
