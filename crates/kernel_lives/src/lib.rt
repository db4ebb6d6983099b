//! Laws of what holds of processes after any choices, each the contract of a function that does
//! nothing: how they live, where they lie, what is whole, counts, lists; and what each step answers
//! for.
#![tactic(auto)]

mod accounted;
mod certified;

pub use accounted::steps_are_accounted_for;
pub use certified::{
    answers_are_what_is_told, calls_write_what_they_promise, lists_are_of_requests,
    owns_stay_whole, places_never_change, prints_are_of_buffers, processes_live_as_they_run,
    queues_follow_requests, requests_complete_once, restarts_are_as_opened, storage_is_memory,
    time_steps_and_turns_add_up, writes_complete_truly,
};
