//! Laws that a certifier asks for, of all runs from a boot. The functions do nothing.
ghost use Rattle.kernel_model.specs.Lives.{HasOrder, HasPendingWithinLimit, LivesAsItRuns};
ghost use Rattle.kernel_model.specs.Prints.{PrintsItsBuffer, PrintsWhatItCouldLoad};
ghost use Rattle.kernel_model.specs.Wholes.{HasWholeOwn};
ghost use Rattle.kernel_lives.specs.Ended.{IsFreeOnceEnded};
ghost use Rattle.kernel_lives.specs.OwnBuffers.{BuffersAreItsOwn};
ghost use Rattle.kernel_lives.specs.Registers.{HasRegisters};
ghost use Rattle.board_opening.specs.Certified.{AlarmsFromBootAreExact, EndedFromBootStays};
ghost use Rattle.board_opening.specs.Certified.{BlocksFromBootAreApart, ChangesFromBootHaveCauses};
ghost use Rattle.board_opening.specs.Certified.{CountsFromBootAddUp, DropsFromBootAddUp};
ghost use Rattle.board_opening.specs.Certified.{EachFromBoot};
ghost use Rattle.board_opening.specs.Certified.{EachLabelFromBoot};
ghost use Rattle.board_opening.specs.Certified.{InputFromBootIsKept, RingsFromBootHaveTheLast};
ghost use Rattle.board_opening.specs.Certified.{IsDoneFromBoot, ListsFromBootAreOfRequests};
ghost use Rattle.board_opening.specs.Certified.{ReadsFromBootGiveStorage};
ghost use Rattle.board_opening.specs.Certified.{RequestsFromBootBeginByCommands};
ghost use Rattle.board_opening.specs.Certified.{RequestsFromBootAddUp, RestartsFromBoot};
ghost use Rattle.board_opening.specs.Certified.{RunsFromBootAreAccountedFor};
ghost use Rattle.board_opening.specs.Certified.{StorageFromBootIsMemory};
ghost use Rattle.board_opening.specs.Certified.{WordsFromBootAreTheScripts};
ghost use Rattle.board_opening.specs.Certified.{WritesFromBootCompleteTruly};

use crate::laws::a_process_depends_on_its_own_view_alone;
use kernel_histories::drops_add_up;
use kernel_laws::{
    a_run_is_one_run, alarms_fire_when_due, input_is_kept, words_are_drawn_in_order,
};
use kernel_lives::{
    lists_are_of_requests, owns_stay_whole, places_never_change, prints_are_of_buffers,
    processes_live_as_they_run, requests_complete_once, restarts_are_as_opened,
    steps_are_accounted_for, storage_is_memory, time_steps_and_turns_add_up, writes_complete_truly,
};
use process_model::only_handing_changes_pairs;

/// Whatever choices are made after a boot: a process lives exactly while it is Running or Yielded,
/// and its life is the number of its restarts. Its memory is in order: the block's start, the mark,
/// the break, the kernel break, which is the block's end less what the drivers cost that it has
/// entered. No two blocks overlap. At most [`tk_base::PENDING_LIMIT`] upcalls wait. It has 32
/// registers.
pub fn processes_from_boot_keep_their_places()
    ensures lives { EachFromBoot LivesAsItRuns }
    ensures registers { EachFromBoot HasRegisters }
    ensures order { EachFromBoot HasOrder }
    ensures apart { BlocksFromBootAreApart }
    ensures pending { EachFromBoot HasPendingWithinLimit }
{
    places_never_change();
    processes_live_as_they_run();
}

/// Whatever choices are made after a boot, a step that starts a process again leaves it as it was
/// at the boot, but for its turns, its restarts and its life, its dropped upcalls, its last denial,
/// its last refusal, its storage, and which buttons it was told are pressed.
pub fn restarts_from_boot_are_as_opened()
    ensures { RestartsFromBoot }
{
    restarts_are_as_opened();
}

/// After choices from a boot that are each ready in its turn, time is the turns made and the ticks
/// passed, the steps are the choices made, and the turns of all processes together are the turns
/// made.
pub fn counts_from_boot_add_up()
    ensures { CountsFromBootAddUp }
{
    time_steps_and_turns_add_up();
}

/// After any choices from a boot the count of dropped upcalls of a process is the number of steps
/// among them that scheduled an upcall for it which is not null and for which it did not wait
/// alone, while [`tk_base::PENDING_LIMIT`] waited (TRD 104, "Subscribe", "Yield").
pub fn drops_from_boot_add_up()
    ensures { DropsFromBootAddUp }
{
    drops_add_up();
}

/// After any choices from a boot the round robin is done exactly where no process and no device is
/// ready, nothing is still to come in, no process that lives has an alarm armed, and no request
/// waits but a read to which nothing came in.
pub fn runs_from_boot_are_done_where_nothing_is_left()
    ensures { IsDoneFromBoot }
{
    a_run_is_one_run();
}

/// Whatever choices are made after a boot, a slot stands in a waiting list once where its process
/// lives and keeps that request, and else not at all.
pub fn lists_from_boot_are_of_requests()
    ensures { ListsFromBootAreOfRequests }
{
    lists_are_of_requests();
}

/// Whatever choices are made after a boot, in each lane the random words that processes were told,
/// in that order, and then those that are left are the script's: with time partitions each slot
/// gets all of them.
pub fn words_from_boot_are_the_scripts()
    ensures { WordsFromBootAreTheScripts }
{
    words_are_drawn_in_order();
}

/// Whatever choices are made after a boot, what processes are told that came in on the serial line,
/// in that order, and then what is left in the ring, is what remains of what came in, in its order;
/// with time partitions so it is of each slot. It is all that came in where the ring never
/// overflowed. Each step leaves in the ring the last of what stood in it and came in, as many bytes
/// as it holds, but for the first of these, which it read.
pub fn input_from_boot_is_kept()
    ensures kept { InputFromBootIsKept }
    ensures rings { RingsFromBootHaveTheLast }
{
    input_is_kept();
}

/// Whatever choices are made after a boot, a write to the console that begins to wait prints the
/// first bytes of the buffer that its process has allowed, in order, as long as that stays as it
/// is; and where it completes, its upcall's first argument is how many bytes were printed of it,
/// which are no more than it asked for, and at least the lesser of that and of what the buffer has
/// that is held then, and the step that tells it prints nothing of it (TRD 104, "Read-Only Allow").
pub fn writes_from_boot_complete_truly()
    ensures { WritesFromBootCompleteTruly }
{
    only_handing_changes_pairs();
    owns_stay_whole();
    writes_complete_truly();
}

/// Whatever choices are made after a boot: a process's own bytes end at its kernel break, where its
/// grants begin, and each buffer with bytes that it has allowed lies in its RAM below the mark, or,
/// a read-only one, there or in accessible flash; so each byte of a buffer lies in accessible RAM
/// below the kernel break, and so off its grants, or, of a read-only one, in accessible flash. No
/// step changes a byte of a process without a cause among the step's labels (Levy et al., SOSP
/// 2017; TRD 104, "Read-Only Allow", "Read-Write Allow").
pub fn changes_from_boot_have_causes()
    ensures whole { EachFromBoot HasWholeOwn }
    ensures buffers { EachFromBoot BuffersAreItsOwn }
    ensures causes { ChangesFromBootHaveCauses }
{
    only_handing_changes_pairs();
    owns_stay_whole();
}

/// In each run by round robin from a boot, each byte of a process that changes has its cause. One
/// below its kernel break is changed by an own permitted act, also by the command that has it shown
/// the clock, lies in a buffer that the process then allowed to the driver which answers it, or is
/// zeroed where the process starts again, by an operator, by its exit or by the policy after a
/// denial; one of its grants, above, is changed in its own turn or by an answer to it (of a device,
/// by an edge of a button, or by an operator's act); one of its storage by a served write of its
/// own. Each access was permitted, each denial was due and is shown with its address and rule, and
/// a refused call changed little. Each edge of a button scheduled one upcall for each process that
/// was told of it, and nothing else scheduled any of the buttons. The record of each process is
/// what becomes of it alone, by its own turns and answers (Levy et al., SOSP 2017).
pub fn runs_from_boot_are_accounted_for()
    ensures { RunsFromBootAreAccountedFor }
{
    changes_from_boot_have_causes();
    steps_are_accounted_for();
    a_process_depends_on_its_own_view_alone();
}

/// Whatever choices are made after a boot, what a step prints is of the read-only buffer 1 that a
/// process holds of the console before the step, one that lives and has a write waiting, and the
/// process could load it there; or it is the line of a process that an operator lists.
pub fn prints_from_boot_are_of_buffers()
    ensures prints { EachLabelFromBoot PrintsItsBuffer }
    ensures loads { EachLabelFromBoot PrintsWhatItCouldLoad }
{
    only_handing_changes_pairs();
    prints_are_of_buffers();
}

/// Whatever choices are made after a boot, no process is held which has ended, so that it is
/// neither Running nor Yielded; and its record changes no more as long as no operator has it start
/// again, but for the buttons that it knows to be pressed (TRD 104, "Exit").
pub fn ended_processes_from_boot_stay()
    ensures free { EachFromBoot IsFreeOnceEnded }
    ensures stay { EndedFromBootStays }
{
    processes_live_as_they_run();
}

/// Whatever choices are made after a boot, the storage of a process has each byte as the last of
/// its own served writes that covers it left it, and 0xFF where none does, through each end and
/// start of the process; and a read of it that is served gives the process each byte that it asks
/// for, and that its buffer has room for, as the storage has it then.
pub fn storage_from_boot_is_memory()
    ensures memory { StorageFromBootIsMemory }
    ensures reads { ReadsFromBootGiveStorage }
{
    only_handing_changes_pairs();
    storage_is_memory();
}

/// Whatever choices are made after a boot: the next choice, of the round robin or of the windows,
/// gives no process a turn and lets no time pass as long as the alarm of a process is due that may
/// be served; and time that it lets pass ends when the next of these becomes due, if not before.
pub fn alarms_from_boot_are_exact()
    ensures { AlarmsFromBootAreExact }
{
    alarms_fire_when_due();
    places_never_change();
}

/// Whatever choices are made after a boot, the requests of a process in a queue that began to wait
/// are exactly those that an answer completed, the one that waits still, and those that were
/// withdrawn. And one begins to wait by an accepted command to its driver alone (TRD 104,
/// "Command").
pub fn requests_from_boot_complete_once()
    ensures whole { RequestsFromBootAddUp }
    ensures begin { RequestsFromBootBeginByCommands }
{
    requests_complete_once();
    lists_from_boot_are_of_requests();
    processes_live_as_they_run();
}
