//! Which calls may change an alarm or ask anything of the devices: the laws that no others do.
ghost use Rattle.kernel_alarms.specs.Acting.{AlarmsChangeAtTheirCommands, AnswersLeaveAlarms};
ghost use Rattle.kernel_alarms.specs.Acting.{QuietTurnsLeaveAlarms};

use driver_model::a_driver_that_refuses_changes_nothing;

/// A turn that shows no denial and no call that may arm leaves what its process keeps for the
/// alarm, and whether it lives: no other driver's commands change it, and no pair that is handed.
/// One that shows no denial and no call that may act asks nothing of the board either (TRD 104,
/// "Command", "Subscribe", "Exit").
pub fn alarms_change_at_their_commands()
    ensures alarms { AlarmsChangeAtTheirCommands }
    ensures quiet { QuietTurnsLeaveAlarms }
{
    a_driver_that_refuses_changes_nothing();
}

/// What any device but the alarm tells a process leaves what it keeps for the alarm, and that it
/// lives.
pub fn answers_leave_alarms()
    ensures { AnswersLeaveAlarms }
{}
