//! Which calls may change an alarm or ask anything of the devices.
ghost use Rattle.std.specs.Prelude.{◌≡◌, true, None};
ghost use Rattle.kernel_alarms.specs.Acting.{may_have_acted};
ghost use Rattle.board_turns.specs.AfterCalls.{is_for_alarm};

use grant_values::Driver;
use process_record::Emit;

/// The class of a command (TRD 104, "Command").
const COMMAND: u32 = 2;

/// The class of an exit (TRD 104, "Exit").
const EXIT: u32 = 6;

/// How many commands of the alarm, the first ones, ask it something and have it do nothing: that it
/// is there, how many ticks a second has, what the clock shows.
const QUESTIONS: u32 = 3;

/// Whether the call that a turn showed, if it showed one, may have changed what its process keeps
/// for the alarm, or whether it lives, or have asked anything of the devices: an exit or a command
/// that was not refused. A command that only asks the alarm something is none of these.
#[inline(always)]
pub(crate) fn may_have_acted(emit: &Emit) -> bool
    ensures { result ≡ may_have_acted emit.now.made None }
{
    let Some(made) = &emit.made else {
        return false;
    };
    if made.rule.is_some() {
        return false;
    }
    match made.class {
        COMMAND => made.args[0] != Driver::Alarm.number() || made.args[1] >= QUESTIONS,
        EXIT => true,
        _ => false,
    }
}

/// Whether the call that a turn showed, if it showed one, is for the alarm: a command of it, or a
/// call of another class. Of calls that may have acted these are the ones that may have changed what
/// their process keeps for the alarm, or whether it lives.
#[inline(always)]
pub(crate) fn is_for_alarm(emit: &Emit) -> bool
    ensures { result ≡ is_for_alarm emit.now.made }
{
    match &emit.made {
        Some(made) => made.class != COMMAND || made.args[0] == Driver::Alarm.number(),
        None => false,
    }
}
