//! The law of dropped upcalls.
ghost use Rattle.kernel_histories.specs.Drops.{DropsAddUp};

use driver_model::{a_driver_that_refuses_changes_nothing, drivers_schedule_their_own};
use kernel_model::only_its_own_events;
use rv32_model::denials_are_due;

/// In every run, after any choices, the count of dropped upcalls of a process is what it was
/// before, and one more for each step among them that scheduled an upcall for it which is not null
/// and for which it did not wait alone, while [`tk_base::PENDING_LIMIT`] waited. No end of a life
/// and no restart changes the count (TRD 104, "Subscribe", "Yield").
pub fn drops_add_up()
    ensures { DropsAddUp }
{
    drivers_schedule_their_own();
    a_driver_that_refuses_changes_nothing();
    only_its_own_events();
    denials_are_due();
}
