//! Laws of what is scheduled for a process, and delivered to it.
ghost use Rattle.kernel_histories.specs.Deliveries.{DeliveriesAreOfTheLast};
ghost use Rattle.kernel_histories.specs.Inboxes.{InboxesAreExact};
ghost use Rattle.kernel_histories.specs.Waits.{WaitsGetTheFirst};

use driver_model::{drivers_leave_pairs, drivers_schedule_what_is_held};
use kernel_laws::only_ready_processes_have_turns;
use process_model::only_handing_changes_pairs;
use rv32_model::denials_are_due;

/// In every run from a world in which a process has handed nothing yet, each upcall that waits for
/// it is the one that it then holds of its driver and number, and not the null upcall; so each
/// delivery of a pending upcall is of the one that is subscribed at that moment. What a turn
/// delivers is the upcall of the first scheduling that waits, or of the first of the driver and
/// number for which it asks: it stands in the registers then. What waits is what was scheduled and
/// neither delivered nor taken away since: by a subscribe of the same driver and number, or by the
/// end of that life of the process, by itself or by an operator's act (TRD 104, "Subscribe",
/// "Yield", "Exit").
pub fn deliveries_are_of_the_last()
    ensures { DeliveriesAreOfTheLast }
{
    only_handing_changes_pairs();
    drivers_leave_pairs();
    drivers_schedule_what_is_held();
    denials_are_due();
}

/// In every run a process whose yield asks for the upcall of a driver and a number alone, of which
/// none waits, gets in its next turn the arguments of the first one that is scheduled from then on,
/// null or not and with however many that wait, if no operator ends its life before; until then it
/// waits, whatever else is scheduled for it, and has no turn (TRD 104, "Yield").
pub fn waits_get_the_first()
    ensures { WaitsGetTheFirst }
{
    denials_are_due();
    only_ready_processes_have_turns();
}

/// What is scheduled for a process after each thing that happens to it is exactly this, whoever
/// makes the choices: after a turn all that was, but what it takes to be delivered and what it
/// subscribes anew, or nothing where it ends a life; then upcall 2 of the console where its call
/// cancels a read, and no other. It waits for one upcall alone where it asks for one of which none
/// waits, and for nothing any more once it was given that one's arguments. What a device tells it
/// leaves all, and schedules one upcall at most; an operator's act leaves all, or nothing where it
/// ends a life (TRD 104, "Subscribe", "Command", "Yield", "Exit").
pub fn inboxes_are_exact()
    ensures { InboxesAreExact }
{
    only_handing_changes_pairs();
}
