//! The law of the edges of buttons.
ghost use Rattle.kernel_histories.specs.Edges.{EachEdgeComesOnce};

use driver_model::{a_driver_that_refuses_changes_nothing, drivers_schedule_their_own};
use kernel_model::only_its_own_events;
use rv32_model::denials_are_due;

/// In every run each edge of a button that is served while a process lives, has that button enabled
/// and knew the other state of it, schedules upcall 0 of the buttons for it once, in the order of
/// the script: the wait for that upcall alone is given, null or not; else a null one does nothing,
/// and another is put last, or dropped and counted where as many are pending as may be. No other
/// step schedules, drops or gives one of them (TRD 104, "Subscribe", "Yield").
pub fn each_edge_comes_once()
    ensures { EachEdgeComesOnce }
{
    drivers_schedule_their_own();
    a_driver_that_refuses_changes_nothing();
    only_its_own_events();
    denials_are_due();
}
