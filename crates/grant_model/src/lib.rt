//! What a process keeps in its own block for each driver that it has entered, in `specs/`, and laws
//! of it. Nothing here runs.
#![tactic(auto)]

mod laws;
mod places;

pub use laws::{
    areas_are_found, pairs_are_found, pairs_stand_by_kind, values_are_found,
    what_is_laid_is_read_back,
};
pub use places::Area;
