//! What each step answers for.
ghost use Rattle.kernel_model.specs.Accounts.{StepsAreAccountedFor};

use crate::certified::prints_are_of_buffers;
use kernel_laws::{edges_schedule_once, refusals_change_little, steps_have_causes};
use kernel_model::{an_operator_acts_on_one, each_access_is_permitted};

/// What each step answers for: the cause of each byte that it changes, that its accesses were
/// permitted and its denials due, that a refused call changes little, that what it prints was in
/// the buffer that its process then held or is its line in a list, that an edge of a button
/// schedules one upcall for each process that is told of it, and nothing else one of the buttons,
/// and that an operator's act changes the process that it names and its requests, and nothing else
/// of the board.
pub fn steps_are_accounted_for()
    ensures { StepsAreAccountedFor }
{
    steps_have_causes();
    each_access_is_permitted();
    refusals_change_little();
    prints_are_of_buffers();
    edges_schedule_once();
    an_operator_acts_on_one();
}
