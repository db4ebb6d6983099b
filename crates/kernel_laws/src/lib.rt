//! Laws of the abstract kernel's steps and of its runs by round robin, each the contract of a
//! function that does nothing: what a turn keeps, asks and changes, quiet stretches, who has turns.
#![tactic(auto)]

mod bytes;
mod edges;
mod rounds;
mod steps;

pub use bytes::{answers_have_causes, steps_have_causes, turns_have_causes};
pub use edges::edges_schedule_once;
pub use rounds::{
    a_run_is_one_run, alarms_fire_when_due, next_is_of_the_window, one_alone_goes_on,
    passes_stop_at_the_nearest, ready_processes_have_turns, round_is_stretch, rounds_join,
};
pub use steps::{
    alarms_and_buttons_are_set_by_commands, breaks_are_moved, deliveries_stand_in_registers,
    devices_change_their_own, grants_change_at_calls, input_is_kept,
    only_ready_processes_have_turns, queues_are_first_come_first_served, refusals_change_little,
    replies_stand_in_registers, requests_are_as_asked, requests_are_not_lost, restarts_are_made,
    tables_name_the_same_drivers, time_comes_in_by_the_alarm, turns_keep_lines,
    words_are_drawn_in_order,
};
