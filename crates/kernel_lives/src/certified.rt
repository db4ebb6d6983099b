//! Laws that a certifier asks for, each the contract of a function that does nothing.
ghost use Rattle.kernel_lives.specs.Counts.{CountsAddUp};
ghost use Rattle.kernel_lives.specs.Ended.{IsFreeOnceEnded};
ghost use Rattle.kernel_lives.specs.Given.{AnswersAreGiven, ClocksAreShown, FlagsTell};
ghost use Rattle.kernel_lives.specs.Lists.{ListsStay};
ghost use Rattle.kernel_lives.specs.OwnBuffers.{WholeOwnsHoldTheirBuffers};
ghost use Rattle.kernel_lives.specs.Registers.{HasRegisters};
ghost use Rattle.kernel_lives.specs.Requests.{QueuesFollowRequests, RequestsAddUp};
ghost use Rattle.kernel_lives.specs.Requests.{RequestsAreWithdrawn, RequestsBeginByCommands};
ghost use Rattle.kernel_lives.specs.Requests.{RequestsEndWithTheirLife};
ghost use Rattle.kernel_lives.specs.StoredBytes.{ReadsGiveStorage, ReadsInRunsGiveStorage};
ghost use Rattle.kernel_lives.specs.StoredBytes.{RequestsStayWithin, StorageIsMemory};
ghost use Rattle.kernel_lives.specs.Writes.{WritesCompleteTruly};
ghost use Rattle.kernel_model.specs.Lives.{AsManyStay, BlocksStayApart, DropsOnlyWhereFull};
ghost use Rattle.kernel_model.specs.Lives.{EndedStays, HasOrder, HasPendingWithinLimit};
ghost use Rattle.kernel_model.specs.Lives.{LivesAsItRuns, PlacesStay, RestartsAsOpened};
ghost use Rattle.kernel_model.specs.Lives.{HoldsThroughout};
ghost use Rattle.kernel_model.specs.Prints.{PrintsAreOfBuffers, PrintsCouldBeLoaded};
ghost use Rattle.kernel_model.specs.Wholes.{ChoicesHaveCauses, HasWholeOwn, OwnsStayWhole};

use driver_model::{
    a_due_slot_is_there, drivers_keep_buffers_below_the_mark, drivers_keep_places_and_order,
    events_tell_steps, lines_follow_answers,
};
use kernel_laws::{queues_are_first_come_first_served, steps_have_causes, turns_keep_lines};
use kernel_model::drivers_promise;
use process_model::only_handing_changes_pairs;
use rv32_model::denials_are_due;

/// Whatever choices are made: a process lives exactly while it is Running or Yielded, and its life
/// is the number of its restarts, where that was so before; none that has ended is held, where that
/// was so before; and the record of one that has ended changes no more as long as no operator has
/// it start again, but for the buttons that it knows to be pressed. It has 32 registers throughout.
pub fn processes_live_as_they_run()
    ensures lives { HoldsThroughout LivesAsItRuns }
    ensures registers { HoldsThroughout HasRegisters }
    ensures free { HoldsThroughout IsFreeOnceEnded }
    ensures ended { EndedStays }
{
    drivers_keep_places_and_order();
}

/// First come, first served, by who asks: in every step of a world in which the lists are those of
/// requests, those in a queue that have a request still stand in the order in which they stood, the
/// others are gone, and behind them stands the one whose request begins to wait in the step, if one
/// does.
pub fn queues_follow_requests()
    ensures { QueuesFollowRequests }
{
    queues_are_first_come_first_served();
    lists_are_of_requests();
}

/// Whatever choices are made, where a process lies never changes: its object, its accessible flash
/// and its block; so blocks that were apart stay so. Its memory stays in order: the block's start,
/// the mark, the break, the kernel break, which is the block's end less what the drivers cost that
/// it has entered (Levy et al., SOSP 2017). At most [`tk_base::PENDING_LIMIT`] upcalls wait, and
/// one is dropped only where as many do. No process comes or goes.
pub fn places_never_change()
    ensures places { PlacesStay }
    ensures apart { BlocksStayApart }
    ensures order { HoldsThroughout HasOrder }
    ensures pending { HoldsThroughout HasPendingWithinLimit }
    ensures many { AsManyStay }
    ensures drops { DropsOnlyWhereFull }
{
    drivers_promise();
    drivers_keep_places_and_order();
}

/// After choices that are each ready in its turn, from a world in which those that wait are slots
/// of the board: time is later by the turns made and the ticks passed, the steps are more by the
/// choices made, and the turns of all processes together are more by the turns made.
pub fn time_steps_and_turns_add_up()
    ensures { CountsAddUp }
{
    a_due_slot_is_there();
}

/// Whatever choices are made: a step that starts a process again leaves it as it was opened, but
/// for its turns, its restarts and its life, its dropped upcalls, its last denial, its last
/// refusal, its storage, and the buttons that it knows to be pressed (TRD 104, "Exit").
pub fn restarts_are_as_opened()
    ensures { RestartsAsOpened }
{
    drivers_keep_places_and_order();
}

/// Whatever choices are made, what a step prints is of the read-only buffer 1 that a process holds
/// of the console before the step, one that lives and has a write waiting: byte k is the byte at
/// the offset that was taken so far, and k (TRD 104, "Read-Only Allow"). And where what is the
/// processes' own was whole, it could load each of them there. Or what is printed is the line of a
/// process that an operator lists.
pub fn prints_are_of_buffers()
    ensures prints { PrintsAreOfBuffers }
    ensures loads { PrintsCouldBeLoaded }
{
    owns_stay_whole();
}

/// Whatever choices are made: a slot stands in a waiting list once where its process lives and
/// keeps that request, and else not at all, where that was so before, and processes lived as they
/// run.
pub fn lists_are_of_requests()
    ensures { ListsStay }
{
    events_tell_steps();
    lines_follow_answers();
    turns_keep_lines();
    processes_live_as_they_run();
}

/// Whatever choices are made: where a process's memory is in order, its bytes end at the kernel
/// break, where its grants begin, and each buffer with bytes that it has allowed lies in its RAM
/// below the mark, or, a read-only one, there or in accessible flash, so it stays. What is its own
/// is then whole in every world; each byte of a buffer lies in accessible RAM below the kernel
/// break, so off its grants, or, of a read-only one, in accessible flash; and no step changes a
/// byte of a process without a cause among its labels (Levy et al., SOSP 2017; TRD 104, "Read-Only
/// Allow", "Read-Write Allow").
pub fn owns_stay_whole()
    ensures stays { HoldsThroughout HasWholeOwn }
    ensures whole { OwnsStayWhole }
    ensures buffers { WholeOwnsHoldTheirBuffers }
    ensures causes { ChoicesHaveCauses }
{
    drivers_keep_places_and_order();
    drivers_keep_buffers_below_the_mark();
    only_handing_changes_pairs();
    steps_have_causes();
}

/// Storage is memory: whatever choices are made, the storage of a process is what it was with the
/// process's own served writes over it, one after another, through each end and start of it. A read
/// that is served gives the process bytes of its storage as they are then, where what is its own is
/// whole and the read asks for bytes that are there. So each request does that waits, of a process
/// that lives as it runs, after any choices; and so each read that is served then gives it what its
/// storage has.
pub fn storage_is_memory()
    ensures memory { StorageIsMemory }
    ensures reads { ReadsGiveStorage }
    ensures within { RequestsStayWithin }
    ensures runs { ReadsInRunsGiveStorage }
{
    turns_keep_lines();
    processes_live_as_they_run();
    owns_stay_whole();
}

/// Whatever choices are made: the requests of a process in a queue that began to wait, and the one
/// that waited at first, are exactly those that an answer completed, the one that waits still, and
/// those that were withdrawn, of which the process is told no answer; where the lists were those of
/// requests at first. One is withdrawn only as its process cancels its read, or as a life of the
/// process ends. No request outlives the life in which it waits; and one begins to wait by an
/// accepted command to its driver alone, in a turn of a process that lives as it runs (TRD 104,
/// "Command").
pub fn requests_complete_once()
    ensures whole { RequestsAddUp }
    ensures withdrawn { RequestsAreWithdrawn }
    ensures life { RequestsEndWithTheirLife }
    ensures begin { RequestsBeginByCommands }
{
    events_tell_steps();
    lines_follow_answers();
    queues_are_first_come_first_served();
    lists_are_of_requests();
    drivers_keep_places_and_order();
    turns_keep_lines();
}

/// Writes to the console complete truly: where what is the processes' own was whole, a write that
/// begins to wait in a step, and waits after each of some choices, has printed the first bytes of
/// the buffer that its process held meanwhile, in order, if that stayed as it was; and where the
/// next step tells the process that it completed, its upcall's first argument is how many bytes
/// these choices printed of it. These are no more than it asked for, and at least the lesser of
/// that and of what the buffer has that is held then, and that step prints nothing more of it (TRD
/// 104, "Read-Only Allow").
pub fn writes_complete_truly()
    ensures { WritesCompleteTruly }
{
    drivers_keep_places_and_order();
    owns_stay_whole();
}

/// What a device tells of a process is what the process gets, in every step, whoever makes the
/// choices: bytes that came in are no more than its read asked for and its buffer has; where what
/// is its own is whole they stand in that, and the bytes of a random word behind those written
/// before; and the upcall by which a request completes, or an alarm fires, has the arguments of its
/// driver, after which the request waits no more, or the alarm is not armed any more. As an alarm
/// fires the clock is shown, as by [`calls_write_what_they_promise`] (Tock's drivers 0x0, 0x1,
/// 0x40001 and 0x50001).
pub fn answers_are_what_is_told()
    ensures { AnswersAreGiven }
{}

/// What a process's own calls write has the bytes that they promise, in every step, whoever makes
/// the choices, where what is the process's own is whole. An accepted command 2 of the alarm shows
/// the clock: as many of its four bytes as the buffer has, the lowest first, and every other byte is
/// as it was. And the flag of a yield which doesn't wait, where it lies in accessible RAM, is 1
/// where an upcall was delivered, and 0 where none waited (TRD 104, "Yield").
pub fn calls_write_what_they_promise()
    ensures clocks { ClocksAreShown }
    ensures flags { FlagsTell }
{
    denials_are_due();
}
