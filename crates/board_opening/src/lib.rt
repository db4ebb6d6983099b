//! The board before its first step: the first processes of a flash image, the world that they open
//! with, and laws of each run from there.
#![tactic(auto)]

mod boot;
mod certified;
mod laws;

pub use boot::{LoadedProcesses, first_crew, placed_in, unplaced};
pub use certified::{
    alarms_from_boot_are_exact, changes_from_boot_have_causes, counts_from_boot_add_up,
    drops_from_boot_add_up, ended_processes_from_boot_stay, input_from_boot_is_kept,
    lists_from_boot_are_of_requests, prints_from_boot_are_of_buffers,
    processes_from_boot_keep_their_places, requests_from_boot_complete_once,
    restarts_from_boot_are_as_opened, runs_from_boot_are_accounted_for,
    runs_from_boot_are_done_where_nothing_is_left, storage_from_boot_is_memory,
    words_from_boot_are_the_scripts, writes_from_boot_complete_truly,
};
pub use laws::{
    a_process_depends_on_its_own_view_alone, deliveries_from_boot_are_of_the_last,
    edges_from_boot_come_once, runs_from_boot_are_fair, swaps_from_boot_give_back_the_last,
};
