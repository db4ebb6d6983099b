//! The machine: the memory, the registers under which a process runs, the drivers, the moment, and
//! what is kept so that a step looks at no more than it changed. On it are made the turns of a
//! process, what a device tells one, and an operator's acts; and it tells which device steps are
//! ready.
#![tactic(auto)]

mod after_calls;
mod ahead;
mod devices;
mod guard;
mod machine;
mod operating;
mod quiet_turns;
mod readiness;
mod ready_slots;
mod turn;

pub use guard::ActivePmp;
pub use machine::Machine;
pub use ready_slots::{ReadySlots, can_run};
pub use turn::Shown;
