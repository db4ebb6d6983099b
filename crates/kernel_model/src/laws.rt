//! Laws of the definitions, each the contract of a function that does nothing.
ghost use Rattle.kernel_model.specs.Laws.{DriversPromise, NextIsReady, NextLiesAhead, NoneIsLeft};
ghost use Rattle.kernel_model.specs.Console.{StepsOperateOne};
ghost use Rattle.kernel_model.specs.Laws.{DevicesAnswerOne, OnlyItsOwnEvents};
ghost use Rattle.kernel_model.specs.Laws.{RefusedChangesNothingElse};
ghost use Rattle.kernel_model.specs.Replay.{RecordIsReplay, RoundFollowsChoices};
ghost use Rattle.kernel_model.specs.Replay.{SameHistorySameRecord};

use driver_model::{
    a_command_drops_at_most_one_upcall, a_driver_that_refuses_changes_nothing,
    an_alarm_is_due_where_no_ticks_are_left, commands_stay_in_place, drivers_keep_places_and_order,
    lines_follow_commands, only_drivers_move_lines,
};

/// What the laws of calls rest on: the laws of the drivers' commands, and of the requests that
/// drivers keep.
pub fn drivers_promise()
    ensures { DriversPromise }
{
    a_driver_that_refuses_changes_nothing();
    a_command_drops_at_most_one_upcall();
    commands_stay_in_place();
    lines_follow_commands();
    only_drivers_move_lines();
    drivers_keep_places_and_order();
}

/// A step changes the record of each process by the one event that it tells it, its turn, a
/// device's answer or an operator's act, or not at all.
pub fn only_its_own_events()
    ensures { OnlyItsOwnEvents }
{}

/// A device's step that answers one process changes its record and the devices, and tells of it
/// alone; one that answers nobody changes the devices alone. One that tells of an edge of a button
/// changes the record of each process that had another state for that button; nothing is printed,
/// and nothing shown of it. Each step of a device is one of these, or none.
#[tactic(auto, using(crate::proofs::Told::devices_answer_one))]
pub fn devices_answer_one()
    ensures { DevicesAnswerOne }
{}

/// An operator's act changes the record of the process that it names, that process's requests in
/// the waiting lists, the list of what is still to come in, and the count of steps: of the rest of
/// the board it changes nothing. It is told to that process alone, and prints its line where it is
/// listed. Where nobody has the name the event is taken, and that is all.
pub fn an_operator_acts_on_one()
    ensures { StepsOperateOne }
{}

/// Below the limit of steps the next choice of the round robin may be made. Where no device step is
/// ready, the nearest time at which one becomes ready lies ahead, so that a pass to it takes some
/// ticks.
pub fn next_is_ready()
    ensures ready { NextIsReady }
    ensures ahead { NextLiesAhead }
{
    an_alarm_is_due_where_no_ticks_are_left();
}

/// A refused call, a command that its driver refuses too, changes of its process the reply
/// registers, pc and the recorded refusal, and nothing else.
pub fn refused_changes_nothing_else()
    ensures { RefusedChangesNothingElse }
{
    drivers_promise();
}

/// A call that is served has come to its end: no driver has it still to answer.
pub fn no_call_is_left()
    ensures { NoneIsLeft }
{
    drivers_promise();
}

/// After any choices a process's record is the replay of its own turns, of what devices answered it
/// and of an operator's acts on it alone, and a run by round robin follows its choices. So in any
/// two worlds in which a process has the same record under the same settings, and then the same
/// turns, answers and acts, it has the same record: its registers, memory and storage byte by byte.
pub fn a_record_is_the_replay_of_its_events()
    ensures replay { RecordIsReplay }
    ensures same { SameHistorySameRecord }
    ensures round { RoundFollowsChoices }
{}
