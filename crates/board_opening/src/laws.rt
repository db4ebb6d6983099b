//! Laws of all runs from a boot. The functions do nothing.
ghost use Rattle.board_opening.specs.Alone.{OpeningsAreAlone, RunsAreAlone, SameViewSameRecord};
ghost use Rattle.board_opening.specs.Histories.{DeliveriesFromBootAreOfTheLast};
ghost use Rattle.board_opening.specs.Histories.{EdgesFromBootComeOnce};
ghost use Rattle.board_opening.specs.Histories.{OpensWithNothingHanded, RunsFromBootAreFair};
ghost use Rattle.board_opening.specs.Histories.{SwapsFromBootGiveBackTheLast};
ghost use Rattle.board_opening.specs.Histories.{WaitsFromBootGetTheFirst};

use kernel_histories::{
    deliveries_are_of_the_last, each_edge_comes_once, swaps_give_back_the_last, waits_get_the_first,
};
use kernel_laws::ready_processes_have_turns;
use kernel_model::a_record_is_the_replay_of_its_events;

/// Whatever choices are made after a boot, each subscribe and each allow of a process that succeeds
/// gives back the pair of the last one of its kind, driver and number that succeeded in the
/// process's present life, and (0, 0) where there was none (TRD 104, "Subscribe", "Read-Only
/// Allow", "Read-Write Allow"). At the boot no process has handed anything.
pub fn swaps_from_boot_give_back_the_last()
    ensures opens { OpensWithNothingHanded }
    ensures swaps { SwapsFromBootGiveBackTheLast }
{
    swaps_give_back_the_last();
}

/// Whatever choices are made after a boot, each delivery of a pending upcall is of the one that it
/// has subscribed at that moment, and was scheduled since it subscribed it, in the process's
/// present life. One that asks for the upcall of a driver and a number alone gets the arguments of
/// the first that waits then; where none waits, of the first that is scheduled from then on, if no
/// operator ends its life before (TRD 104, "Subscribe", "Yield", "Exit").
pub fn deliveries_from_boot_are_of_the_last()
    ensures last { DeliveriesFromBootAreOfTheLast }
    ensures waits { WaitsFromBootGetTheFirst }
{
    swaps_from_boot_give_back_the_last();
    deliveries_are_of_the_last();
    waits_get_the_first();
}

/// Whatever choices are made after a boot: what came in, and then what is still to come in, is what
/// the script says. Each edge of a button of which a process is told, which lives then and has the
/// button enabled, schedules upcall 0 of the buttons for it once, in the order of the script: the
/// wait for that upcall alone is given, null or not; else a null one does nothing, and another is
/// put last, or dropped and counted where as many are pending as may be. No other step schedules,
/// gives or drops one of them (TRD 104, "Subscribe", "Yield").
pub fn edges_from_boot_come_once()
    ensures { EdgesFromBootComeOnce }
{
    each_edge_comes_once();
}

/// No process that is ready waits for good after a boot without time partitions, where a slice has
/// some turns: in the run by round robin, every window of as many turns of processes as all slots
/// have in a slice each, in which a process is ready throughout, has a turn of that process.
pub fn runs_from_boot_are_fair()
    ensures { RunsFromBootAreFair }
{
    ready_processes_have_turns();
}

/// What becomes of a process depends on nothing but its object, where that and its block lie, the
/// settings that it can see, its own turns with their times, and its answers. On any two boards,
/// whatever their other objects and scripts are, and after any two lists of choices, two processes
/// that agree in these have equal records: registers, state and counts, the whole block with its
/// grants, layout, pending upcalls, life and storage, byte by byte. The slots may differ. So it is
/// in each world of a run by round robin (Levy et al., SOSP 2017).
pub fn a_process_depends_on_its_own_view_alone()
    ensures opens { OpeningsAreAlone }
    ensures same { SameViewSameRecord }
    ensures runs { RunsAreAlone }
{
    a_record_is_the_replay_of_its_events();
}
