//! Laws of runs with time partitions. The functions do nothing.
ghost use Rattle.kernel_partitions.specs.Partitions.{ASlotSeesItselfAlone};
ghost use Rattle.kernel_partitions.specs.Partitions.{RecordIsReplayedUpToATime};
ghost use Rattle.kernel_partitions.specs.Partitions.{SameRecordAtEachTime};
ghost use Rattle.kernel_partitions.specs.Windows.{EachTickIsItsTurn, WholeWindowIsItsTurns};

use driver_model::no_alarm_is_due_before_the_next;
use kernel_laws::next_is_of_the_window;
use kernel_model::a_record_is_the_replay_of_its_events;
use partition_turns::windows_are_in_turn;

/// With time partitions, and where no operator is to act, what a process does, and when, is a
/// matter of its own slot alone. In any two worlds that are alike in a slot, whatever else they
/// hold, and in runs of any lengths: up to each time that both have reached, the slot's process has
/// the same turns at the same times, the same answers at the same times, and the same is printed
/// for it; and where the runs first reach that time it has the same record. So no process learns of
/// another from when its turns and answers come (Levy et al., SOSP 2017).
pub fn a_partition_sees_itself_alone()
    ensures told { ASlotSeesItselfAlone }
    ensures replayed { RecordIsReplayedUpToATime }
    ensures record_is { SameRecordAtEachTime }
{
    no_alarm_is_due_before_the_next();
    windows_are_in_turn();
    next_is_of_the_window();
    a_record_is_the_replay_of_its_events();
}

/// In a run below the limit of steps that reaches the window's end, a slot that is ready up to the
/// end of a window of its own has a turn in each tick up to there: so from the window's first time
/// on, as many as the window has ticks.
pub fn a_ready_slot_has_its_window()
    ensures ticks { EachTickIsItsTurn }
    ensures whole { WholeWindowIsItsTurns }
{
    windows_are_in_turn();
    next_is_of_the_window();
}
