//! Laws of the edges of buttons.
ghost use Rattle.kernel_model.specs.Edges.{EachIsScheduledOnce, StepsServeEdges};

use driver_model::{a_driver_that_refuses_changes_nothing, drivers_schedule_their_own};
use kernel_model::only_its_own_events;
use rv32_model::denials_are_due;

/// Each edge of a button that is served while a process lives, has that button enabled and knew the
/// other state of it, schedules upcall 0 of the buttons for it, once: the wait for that upcall
/// alone is given, or it is put last, or dropped where as many are pending as may be. No other step
/// schedules, drops or gives one of the buttons (TRD 104, "Subscribe", "Yield").
pub fn edges_schedule_once()
    ensures steps { StepsServeEdges }
    ensures once { EachIsScheduledOnce }
{
    drivers_schedule_their_own();
    a_driver_that_refuses_changes_nothing();
    only_its_own_events();
    denials_are_due();
}
