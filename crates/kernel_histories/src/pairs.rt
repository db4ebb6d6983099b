//! The law of swaps.
ghost use Rattle.kernel_model.specs.Histories.{SwapsGiveBackTheLast};

use driver_model::{drivers_leave_pairs, drivers_schedule_what_is_held};
use process_model::only_handing_changes_pairs;

/// Over all choices, from a world in which a process has handed nothing yet: each subscribe and
/// each allow of it that succeeds gives back the pair of the last one of its kind, driver and
/// number that succeeded in its present life, and (0, 0) where there was none; an operator's act
/// that ends a life ends it too (TRD 104,
/// "Subscribe", "Read-Only Allow", "Read-Write Allow").
pub fn swaps_give_back_the_last()
    ensures { SwapsGiveBackTheLast }
{
    only_handing_changes_pairs();
    drivers_leave_pairs();
    drivers_schedule_what_is_held();
}
