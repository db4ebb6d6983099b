//! Laws of runs with time partitions from a boot. The functions do nothing.
ghost use Rattle.board_partitions.specs.Boot.{BlocksStartWithTheirShares, RunsArePartitioned};
ghost use Rattle.board_partitions.specs.Boot.{SameObjectSameRecord, SameObjectSameTimes};
ghost use Rattle.board_partitions.specs.Scripts.{ScriptsWithPartitionsHaveNoActs};

use board_opening::a_process_depends_on_its_own_view_alone;
use kernel_partitions::a_partition_sees_itself_alone;

/// In no script that is read and divides time does an operator act: after a line `partition` the
/// lines of his acts are not known, and that line stands before all events.
pub fn scripts_with_partitions_have_no_acts()
    ensures { ScriptsWithPartitionsHaveNoActs }
{}

/// Under a script with time partitions, in which no operator acts, what a process does, and when,
/// is a matter of its own slot alone. On two boards of one script and any two flash images that
/// have the same object in the same place of a slot: up to each time that both runs have reached,
/// the slot's process has the same turns at the same times, the same answers at the same times, and
/// the same is printed for it; and where the runs first reach that time it has the same record.
/// Where its block starts is decided by its slot (Levy et al., SOSP 2017).
pub fn partitions_from_boot_see_themselves_alone()
    ensures starts { BlocksStartWithTheirShares }
    ensures told { SameObjectSameTimes }
    ensures record_is { SameObjectSameRecord }
    ensures runs { RunsArePartitioned }
{
    scripts_with_partitions_have_no_acts();
    a_process_depends_on_its_own_view_alone();
    a_partition_sees_itself_alone();
}
