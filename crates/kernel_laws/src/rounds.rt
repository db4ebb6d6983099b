//! Laws of runs by round robin.
ghost use Rattle.kernel_model.specs.Stretch.{NoneIsStretch, PresentIsNextOnTheWay, PresentStaysOn};
ghost use Rattle.kernel_model.specs.Stretch.{RoundIsStretch, RoundsJoin, StretchesJoin};
ghost use Rattle.kernel_laws.specs.Windows.{LanesAreAhead, NextIsOfTheWindow};
ghost use Rattle.kernel_laws.specs.Alone.{OneAloneGoesOn, OneAloneIsNext};
ghost use Rattle.kernel_laws.specs.Alarms.{AlarmsComeFirst, NextIsTheLeast, NoneFiresEarly};
ghost use Rattle.kernel_laws.specs.Alarms.{PassesStopAtAlarms};
ghost use Rattle.kernel_laws.specs.Fairness.{ReadyProcessesHaveTurns};
ghost use Rattle.kernel_laws.specs.Passes.{PassesStopAtTheNearest};
ghost use Rattle.kernel_laws.specs.OneRun.{ChosenAreReady, IsDoneWhereNothingIsLeft, OneRun};

use driver_model::{an_alarm_is_due_where_no_ticks_are_left, no_alarm_is_due_before_the_next};
use turn_scheduler::ready_has_turn;

/// As long as a slot is the next choice, a run makes the instructions of its process, those that
/// go, one after another, up to the end of its slice; and the round robin chooses the present slot
/// as long as no device step is ready. Such a stretch may be followed by another.
#[tactic(auto, using(crate::proofs::Stretch::round_is_stretch, crate::proofs::Stretch::present_is_next_on_the_way, crate::proofs::Stretch::none_is_stretch, crate::proofs::Stretch::stays_on))]
pub fn round_is_stretch()
    ensures round { RoundIsStretch }
    ensures chosen { PresentIsNextOnTheWay }
    ensures stays { PresentStaysOn }
    ensures none { NoneIsStretch }
    ensures join { StretchesJoin }
{}

/// Where the process in one slot alone can have a turn, and it runs, that slot has the next turn,
/// whoever is present and however much of the slice is used. So as long as no device step is ready
/// a run makes the instructions of its process, those that go, slice after slice.
#[tactic(auto, using(crate::proofs::Alone::one_alone_is_next, crate::proofs::Alone::one_alone_goes_on))]
pub fn one_alone_goes_on()
    ensures next { OneAloneIsNext }
    ensures stretch { OneAloneGoesOn }
{}

/// A run is one of its first steps, and then one of the others.
#[tactic(auto, using(crate::proofs::Stretch::rounds_join))]
pub fn rounds_join()
    ensures { RoundsJoin }
{}

/// No process that is ready waits for good: in every run by the round robin without time
/// partitions, where a slice has some turns, on a board of no more processes than slots, every
/// window of as many turns of processes as all slots have in a slice each, in which a process is
/// ready throughout, has a turn of that process. Device steps and passes of time may come between
/// the turns.
pub fn ready_processes_have_turns()
    ensures { ReadyProcessesHaveTurns }
{
    ready_has_turn();
}

/// A run by the round robin is one run: it leads where its choices lead, and tells what their steps
/// tell. Each of its choices is ready in its turn, below the limit of steps. On a board of no more
/// processes than slots it is done exactly where no process and no device is ready, nothing is
/// still to come in, no process that lives has an alarm armed, and no request waits but a read to
/// which nothing came in.
pub fn a_run_is_one_run()
    ensures one { OneRun }
    ensures ready { ChosenAreReady }
    ensures done { IsDoneWhereNothingIsLeft }
{
    an_alarm_is_due_where_no_ticks_are_left();
}

/// With time partitions the next choice of a world is that of the slot whose window it is
/// ([`partition_turns::next_in_window`]), and each time at which a device step becomes ready for that
/// slot lies ahead where it is not ready now.
#[tactic(auto, using(crate::proofs::Windows::next_is_of_the_window))]
pub fn next_is_of_the_window()
    ensures next { NextIsOfTheWindow }
    ensures ahead { LanesAreAhead }
{
    an_alarm_is_due_where_no_ticks_are_left();
}

/// Alarms are exact. On a board of no more processes than slots, the next choice, of the round
/// robin or of the windows, gives no process a turn and lets no time pass as long as the alarm of a
/// process is due that may be served; and time that it lets pass ends when the next of these
/// becomes due, if not before. And whoever makes the choices, an alarm that fires is due then, by
/// the clock that its process is told. The next one is that of which the fewest ticks are left.
#[tactic(auto, using(crate::proofs::Alarms::alarms_come_first, crate::proofs::Alarms::passes_stop_at_alarms))]
pub fn alarms_fire_when_due()
    ensures first { AlarmsComeFirst }
    ensures passes { PassesStopAtAlarms }
    ensures early { NoneFiresEarly }
    ensures least { NextIsTheLeast }
{}

/// Time passes no further than to the nearest time at which there is something to do: where the next
/// choice, of the round robin or of the windows, is a pass, no device step is ready, for those that
/// are served now, at any time before it ends.
pub fn passes_stop_at_the_nearest()
    ensures { PassesStopAtTheNearest }
{
    no_alarm_is_due_before_the_next();
}
