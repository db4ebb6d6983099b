//! Which turns may change an alarm or ask anything of the devices, by what they show; and the laws
//! that no others do, and no answer of another device, contracts of functions that do nothing.
#![tactic(auto)]

mod acting;

pub use acting::{alarms_change_at_their_commands, answers_leave_alarms};
