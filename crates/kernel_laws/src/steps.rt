//! Laws of steps: what a turn keeps, what a call and a delivery leave in registers, which commands
//! set requests, alarms and buttons, which words are drawn, who has turns and who is served; and of
//! tables.
ghost use Rattle.kernel_model.specs.Laws.{DropsAtMostOne, GrantsChangeAtCalls, TurnsActAtCalls};
ghost use Rattle.kernel_model.specs.Laws.{TurnsKeepLines};
ghost use Rattle.kernel_model.specs.Refused.{RefusalsChangeLittle};
ghost use Rattle.kernel_laws.specs.Arming.{AlarmsAndButtonsAreSetByCommands};
ghost use Rattle.kernel_laws.specs.Arming.{AlarmsAndButtonsFollowCommands};
ghost use Rattle.kernel_laws.specs.Asking.{CommandsAsk, RequestsAreAsAsked};
ghost use Rattle.kernel_laws.specs.Breaks.{BreaksAreMoved};
ghost use Rattle.kernel_laws.specs.Clock.{TimeComesInByTheAlarm};
ghost use Rattle.kernel_laws.specs.Delivered.{DeliveriesAreSeen};
ghost use Rattle.kernel_laws.specs.Devices.{DevicesChangeTheirOwn};
ghost use Rattle.kernel_laws.specs.Inputs.{InputIsKept, RingsHaveTheLast};
ghost use Rattle.kernel_laws.specs.Queues.{FirstAreServed, QueuesKeepOrder};
ghost use Rattle.kernel_laws.specs.Ready.{TurnsAreOfReadyProcesses, TurnsAreOfThose};
ghost use Rattle.kernel_laws.specs.Ready.{UnreadyTurnsDoNothing};
ghost use Rattle.kernel_laws.specs.Replies.{EcallsAreTold, RefusalsAreSeen, RepliesStand};
ghost use Rattle.kernel_laws.specs.Restarting.{ExitsEnd, RestartsAreMade};
ghost use Rattle.kernel_laws.specs.Tables.{EachRowFitsAWord, SameDrivers};
ghost use Rattle.kernel_laws.specs.Withdrawing.{RequestsAreNotLost};
ghost use Rattle.kernel_laws.specs.Words.{WordsAreDrawnInOrder};

use driver_model::{drivers_ask_for_their_own, drivers_keep_places_and_order, events_tell_steps};
use kernel_model::{drivers_promise, refused_changes_nothing_else};
use rv32_model::denials_are_due;

/// So a step in which a call is refused changes of the world that process, the time, the count of
/// steps, the present slot and its used turns, and nothing else; of the process also the count of
/// its turns (TRD 104, "Return Values").
pub fn refusals_change_little()
    ensures { RefusalsChangeLittle }
{
    refused_changes_nothing_else();
    denials_are_due();
}

/// What drivers keep of a process changes at its own calls, at a fault, and by what a driver
/// answers it. A turn without a call or a denial leaves its grants, and no turn drops more than one
/// upcall (Levy et al., SOSP 2017).
#[tactic(auto, using(crate::proofs::Kept::grants_change_at_calls))]
pub fn grants_change_at_calls()
    ensures grants { GrantsChangeAtCalls }
    ensures drops { DropsAtMostOne }
{
    drivers_promise();
}

/// After a turn a process that lives keeps a request for a device exactly where it waits for that
/// device after what the turn asked of the board, if it did so before; and where it keeps one it is
/// in the same life. It begins to wait only where it does not wait already. A request for storage
/// lies in the bytes that a slot has, where one that was kept before did. The process's object is
/// that of an application, as it is of every process that was placed. A turn without a call or a
/// denial asks nothing of the board.
#[tactic(auto, using(crate::proofs::Kept::turns_act_at_calls))]
pub fn turns_keep_lines()
    ensures lines { TurnsKeepLines }
    ensures acts { TurnsActAtCalls }
{
    drivers_promise();
}

/// The drivers that take commands are those that have grants. Each row of the instruction table
/// fits a word.
pub fn tables_name_the_same_drivers()
    ensures drivers { SameDrivers }
    ensures rows { EachRowFitsAWord }
{}

/// Whatever choices are made: in each lane the random words that were left before them are those
/// that processes were told, in that order, and then those that are left. No word is drawn twice,
/// and none is passed over.
pub fn words_are_drawn_in_order()
    ensures { WordsAreDrawnInOrder }
{
    events_tell_steps();
}

/// Input is kept: whatever choices are made, what the processes of a lane are told that came in on
/// the serial line, in that order, and then what is left in the ring of the lane, is what remains
/// of what stood in the ring and what came in by these choices, in its order. It is all of that
/// where the ring never overflowed. Each of these steps leaves in a ring that is there, and not
/// fuller than it may be, the last of what stood in it and came in, but for what it read of that,
/// the first bytes: so an overflow loses the oldest bytes, and no more than there is no room for.
pub fn input_is_kept()
    ensures kept { InputIsKept }
    ensures rings { RingsHaveTheLast }
{}

/// A device speaks to processes by its own events alone, and changes its own queue and its own part
/// of the lane that serves, in every step, whoever makes the choices: an alarm that fires nothing,
/// the UART how long it sends, a read the ring, a random word the words that are left, a storage
/// request how many were served. All else of the devices is as it was. Bytes that come in change the
/// rings, and an operator's act who waits.
pub fn devices_change_their_own()
    ensures { DevicesChangeTheirOwn }
{}

/// Time comes into a turn by the alarm alone: one that makes no command to the alarm leaves, tells
/// and asks for the same at any other time, wherever the clock began (TRD 104, "Command").
#[tactic(auto, using(crate::proofs::Time::time_comes_in_by_the_alarm))]
pub fn time_comes_in_by_the_alarm()
    ensures { TimeComesInByTheAlarm }
{}

/// Whoever makes the choices, a turn is that of a process which may have one: which no operator
/// holds, and which runs, or has yielded and something is due to it (TRD 104, "Yield", "Exit"). A
/// turn of one that may have none would change nothing.
pub fn only_ready_processes_have_turns()
    ensures ready { TurnsAreOfReadyProcesses }
    ensures those { TurnsAreOfThose }
    ensures others { UnreadyTurnsDoNothing }
{}

/// The board's queues are first come, first served: in every step, whoever makes the choices, a
/// queue stays as it was, or a slot that the step names joins it as its last one or leaves it, so
/// that all others stand as they stood; and a device answers the first of those that may be served.
pub fn queues_are_first_come_first_served()
    ensures order { QueuesKeepOrder }
    ensures first { FirstAreServed }
{
    drivers_ask_for_their_own();
    denials_are_due();
}

/// What a process gets of a call stands where it looks for it, in every step, whoever makes the
/// choices: the call that a turn tells is that of the process's a4 and a0 to a3; its reply of four
/// words stands in a0 to a3 then, pc stands behind the `ecall`, and each other register is as it was
/// (TRD 104, "System Call API", "Return Values"); and each `ecall` of a class that there is is told.
/// A refused call of a process with 32 registers changes nothing but a0 and a1, which have the
/// failure and its error, pc, the count of turns and the recorded refusal; all else of the process,
/// of each other one and of the devices is as it was.
pub fn replies_stand_in_registers()
    ensures replies { RepliesStand }
    ensures told { EcallsAreTold }
    ensures refused { RefusalsAreSeen }
{
    refusals_change_little();
    denials_are_due();
}

/// What is delivered to a process stands in its registers, in every step, whoever makes the
/// choices: where the function of an upcall runs, a0 to a2 have its arguments, a3 the application
/// data, ra the address to go back to, and pc is the function; where a process goes on with
/// arguments alone, a0 to a2 have them. Each other register is as it was. It is the first upcall
/// that waits, or the first of the driver and number for which the process asks, and the others
/// wait still. Of registers it is said where these are 32, and the arguments three. A yield that
/// delivers nothing changes pc alone, which stands behind the `ecall`; the process goes on, or waits
/// (TRD 104, "Subscribe", "Yield").
pub fn deliveries_stand_in_registers()
    ensures { DeliveriesAreSeen }
{
    denials_are_due();
}

/// What a request of a process asks for is what its command said, in every step, whoever makes the
/// choices: one that waits after a turn waited before it, and is the same, or the turn tells the
/// accepted command of which it has the arguments; and while it waits no more of it changes than how
/// much of it was done. And what an accepted command asks for waits after its turn, of a process
/// that lives; and after one that cancels a read none does (TRD 104, "Command").
pub fn requests_are_as_asked()
    ensures asked { RequestsAreAsAsked }
    ensures begin { CommandsAsk }
{
    drivers_promise();
    drivers_keep_places_and_order();
    denials_are_due();
}

/// The alarm of a process, and the buttons of which it is told, are what its commands said: where a
/// turn leaves another alarm, or other buttons, than before, it tells the accepted command of which
/// they have the arguments, or the next life of the process begins, which has none; and where it
/// tells an accepted command that sets one, they are as its arguments say, whatever was before (TRD
/// 104, "Command"; Tock's drivers 0x0 and 0x3).
pub fn alarms_and_buttons_are_set_by_commands()
    ensures set { AlarmsAndButtonsAreSetByCommands }
    ensures follow { AlarmsAndButtonsFollowCommands }
{
    denials_are_due();
}

/// A process starts again where it asks for that, or an operator does, in every step, whoever makes
/// the choices: an accepted exit with 1, and an act that has it start again, make its restarts one
/// more, and it runs in its next life, if its object is that of an application. And an accepted exit
/// with 0 ends it with the completion code that it gives (TRD 104, "Exit").
pub fn restarts_are_made()
    ensures made { RestartsAreMade }
    ensures ends { ExitsEnd }
{
    denials_are_due();
}

/// An accepted memop 0 moves the break of its process to its argument, and 1 by that as a signed
/// number, rounded up to a multiple of 4; all else of the process's own is as it was (TRD 104,
/// "Memop").
pub fn breaks_are_moved()
    ensures { BreaksAreMoved }
{
    denials_are_due();
}

/// No request is lost, in every step, whoever makes the choices: a turn leaves each request that its
/// process keeps as it is, or tells the accepted command that asks for it or takes it away, or the
/// next life begins, which has none; and what a device or an operator does leaves it, but for the
/// answers of its own device, and a start in a next life (TRD 104, "Command", "Exit").
pub fn requests_are_not_lost()
    ensures { RequestsAreNotLost }
{}
