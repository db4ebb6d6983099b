//! What processes keep for the console.
ghost use Rattle.std.specs.Prelude.{◌≡◌};
ghost use Rattle.grant_values.specs.declared.drivers.Driver.TheVariants.{Console as ConsoleDriver};
ghost use Rattle.grant_values.specs.Drivers.{counts_by};
ghost use Rattle.driver_model.specs.Console.{console};

use grant_enter::Grant;
use grant_values::{Console, Driver};

/// The grants that processes keep for the console: three upcalls, two read-only and two read-write
/// buffers.
pub(crate) type Consoles = Grant<Console, 3, 2, 2, 0>;

/// Those that there are.
#[tactic(auto, unfolding(grant_values::specs::Drivers::counts_of, grant_values::specs::Drivers::drivers))]
pub(crate) fn consoles() -> Consoles
    ensures driver { result.driver ≡ console }
    ensures counts { result.counts ≡ counts_by ConsoleDriver }
{
    Consoles::of(Driver::Console.number())
}
