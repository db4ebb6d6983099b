//! Laws of what changes the bytes of processes, each the contract of a function that does nothing.
ghost use Rattle.kernel_model.specs.Causes.{AnswersHaveCauses, StepsHaveCauses, TurnsHaveCauses};
ghost use Rattle.kernel_laws.specs.Clock.{StepsWithoutClockHaveCauses, TurnsWithoutClockHaveCauses};

use driver_model::drivers_write_in_buffers;
use process_model::only_writes_change_bytes;
use rv32_model::denials_are_due;

/// The turn of a process changes a byte below its kernel break only by a store that the turn lists
/// and that covers it, by the flag of a yield that it tells, as the process starts again, or by the
/// clock that a command of its shows in the buffer which it held for it; and nothing of its storage
/// (Levy et al., SOSP 2017; TRD 104, "Yield", "Exit"). So it is where the turn makes a call, if
/// what is the process's own is whole; and, whatever its record is, where it doesn't ask for the
/// clock.
pub fn turns_have_causes()
    ensures whole { TurnsHaveCauses }
    ensures others { TurnsWithoutClockHaveCauses }
{
    only_writes_change_bytes();
    drivers_write_in_buffers();
    denials_are_due();
}

/// An answer of a device to a process changes a byte below its kernel break inside the buffer alone
/// that the process held for the device before, and one of its storage only where a request that
/// was served writes over it; if what is the process's own is whole (TRD 104, "Read-Write Allow").
pub fn answers_have_causes()
    ensures { AnswersHaveCauses }
{
    drivers_write_in_buffers();
}

/// So each byte that a step changes of a process has its cause among the labels of the step; and
/// where the step is no turn of the process and no answer to it, nothing of its record changes. Of
/// a turn that doesn't ask for the clock that holds in any world.
pub fn steps_have_causes()
    ensures causes { StepsHaveCauses }
    ensures others { StepsWithoutClockHaveCauses }
{
    turns_have_causes();
    drivers_write_in_buffers();
}
