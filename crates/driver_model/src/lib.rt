//! What a driver does for a process: what comes of its commands, and what its device's answers
//! change.
#![tactic(auto)]

mod laws;
mod lines;

pub use laws::{
    a_command_drops_at_most_one_upcall, a_driver_that_refuses_changes_nothing, a_due_slot_is_there,
    an_alarm_is_due_where_no_ticks_are_left, an_alarm_leaves_the_rest, commands_stay_in_place,
    drivers_ask_for_their_own, drivers_keep_buffers_below_the_mark, drivers_keep_places_and_order,
    drivers_leave_pairs, drivers_schedule_their_own, drivers_schedule_what_is_held,
    drivers_write_in_buffers, no_alarm_is_due_before_the_next, time_brings_an_alarm_nearer,
};
pub use lines::{
    events_tell_steps, lines_follow_answers, lines_follow_commands, only_drivers_move_lines,
};
