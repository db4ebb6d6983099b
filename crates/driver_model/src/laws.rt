//! Laws of the definitions, each the contract of a function that does nothing.
ghost use Rattle.driver_model.specs.Asked.{AskTheirOwn};
ghost use Rattle.driver_model.specs.Bytes.{AnswersWriteInBuffers, CommandsWriteInBuffers};
ghost use Rattle.driver_model.specs.Laws.{AnAlarmLeavesTheRest, CommandsStayInPlace};
ghost use Rattle.driver_model.specs.Laws.{DueSlotIsThere, IsDueWhereNoneAreLeft, QuietUntilNext};
ghost use Rattle.driver_model.specs.Laws.{TimeBringsNearer};
ghost use Rattle.driver_model.specs.Laws.{CommandDropsAtMostOne, RefusedByAnyDriver};
ghost use Rattle.driver_model.specs.Keeping.{DriversKeep, DriversKeepSettled};
ghost use Rattle.driver_model.specs.Pairs.{DriversLeavePairs};
ghost use Rattle.driver_model.specs.Upcalls.{DriversScheduleHeld, DriversScheduleTheirOwn};

use process_model::{only_handing_changes_pairs, only_writes_change_bytes};

/// A command changes of what is a process's own its room for grants, its grants, what waits to be
/// delivered and the count of dropped upcalls; where it lies, its life, and that it lives, stay.
pub fn commands_stay_in_place()
    ensures { CommandsStayInPlace }
{}

/// A command that its driver refuses, whichever driver that is, changes nothing of what is the
/// process's own, and asks nothing of the board (TRD 104, "Return Values").
pub fn a_driver_that_refuses_changes_nothing()
    ensures { RefusedByAnyDriver }
{}

/// A command, whichever driver takes it, raises the count of the process's dropped upcalls by one
/// at most, and never lowers it.
pub fn a_command_drops_at_most_one_upcall()
    ensures { CommandDropsAtMostOne }
{}

/// No ticks are left until the next alarm exactly where an alarm of some slot is due.
#[tactic(auto, using(crate::proofs::Nearing::is_due_where_none_are_left))]
pub fn an_alarm_is_due_where_no_ticks_are_left()
    ensures { IsDueWhereNoneAreLeft }
{}

/// As many ticks as pass, up to when an alarm is due, so many fewer are left of it.
#[tactic(auto, using(crate::proofs::Nearing::time_brings_nearer))]
pub fn time_brings_an_alarm_nearer()
    ensures { TimeBringsNearer }
{}

/// No alarm is due before as many ticks have passed as are left until the next one, and none ever
/// is where no process that lives has armed one.
pub fn no_alarm_is_due_before_the_next()
    ensures { QuietUntilNext }
{}

/// A slot whose alarm is due is one of those that there are.
#[tactic(auto, using(crate::proofs::Firing::due_slot_is_there))]
pub fn a_due_slot_is_there()
    ensures { DueSlotIsThere }
{}

/// An alarm that fires changes of its process its bytes, where the clock is shown, what waits to be
/// delivered, the count of dropped upcalls, by at most 1, and its grants, and nothing else.
pub fn an_alarm_leaves_the_rest()
    ensures { AnAlarmLeavesTheRest }
{}

/// What the commands to each driver ask of the board concerns that driver alone: who waits for it,
/// or an LED.
pub fn drivers_ask_for_their_own()
    ensures { AskTheirOwn }
{}

/// What is scheduled for a process after a command, or after a device's answer, is what was before,
/// and one upcall more at most: the one that the process then holds of its driver and number (TRD
/// 104, "Subscribe", "Yield").
#[tactic(auto, using(crate::proofs::Upcalls::drivers_schedule_held))]
pub fn drivers_schedule_what_is_held()
    ensures { DriversScheduleHeld }
{}

/// What a command has a driver schedule is an upcall of that driver, and so is what its device's
/// answer schedules (TRD 104, "Subscribe", "Yield"). A command to the buttons schedules none.
#[tactic(auto, using(crate::proofs::Upcalls::drivers_schedule_their_own))]
pub fn drivers_schedule_their_own()
    ensures { DriversScheduleTheirOwn }
{}

/// Neither a command to any driver nor what a device answers changes a pair that the process has
/// handed (TRD 104, "Subscribe", "Read-Only Allow", "Read-Write Allow").
pub fn drivers_leave_pairs()
    ensures { DriversLeavePairs }
{
    only_handing_changes_pairs();
}

/// A command to a driver changes a byte below the kernel break of the process that gives it only
/// where it shows the clock, in the readable buffer that the process has allowed for it; and what a
/// device answers changes bytes inside the buffer alone that the process has allowed the driver
/// (TRD 104, "Read-Write Allow"; the userspace-readable allow of Tock's kernel; Levy et al., SOSP
/// 2017).
pub fn drivers_write_in_buffers()
    ensures commands { CommandsWriteInBuffers }
    ensures answers { AnswersWriteInBuffers }
{
    only_writes_change_bytes();
}

/// Whatever drivers do to a process, by a command or by a device's answer: where it lies, its life,
/// and that it lives, stay; its memory stays in order, the grants of the drivers entered filling
/// the block from the kernel break on; at most [`tk_base::PENDING_LIMIT`] upcalls wait, and one is
/// dropped only where as many wait (Levy et al., SOSP 2017; TRD 104, "Yield").
#[tactic(auto, using(crate::proofs::Held::drivers_keep))]
pub fn drivers_keep_places_and_order()
    ensures { DriversKeep }
{}

/// So what is a process's own stays settled: its bytes end at the kernel break, where its grants
/// begin, and each buffer with bytes that it has allowed lies in its RAM below the mark, or, a
/// read-only one, there or in accessible flash; also where it hands a pair that it may hand. What
/// is settled is whole (TRD 104, "Read-Only Allow", "Read-Write Allow"; Levy et al., SOSP 2017).
pub fn drivers_keep_buffers_below_the_mark()
    ensures { DriversKeepSettled }
{
    only_handing_changes_pairs();
    drivers_leave_pairs();
}
