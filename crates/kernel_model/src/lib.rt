//! The abstract kernel, in `specs/`: the record of one process and its turn, the world, a step, a
//! run, the round robin. Nothing here runs.
#![tactic(auto)]

mod every_run;
mod laws;
mod settings;

pub use every_run::{calls_are_filtered, each_access_is_permitted};
pub use laws::{
    a_record_is_the_replay_of_its_events, an_operator_acts_on_one, devices_answer_one,
    drivers_promise, next_is_ready, no_call_is_left, only_its_own_events,
    refused_changes_nothing_else,
};
pub use settings::Settings;
