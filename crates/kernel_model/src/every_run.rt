//! Laws of whole runs, each the contract of a function that does nothing.
ghost use Rattle.kernel_model.specs.Accesses.{EachAccessIsPermitted, EachDenialIsDue};
ghost use Rattle.kernel_model.specs.Accesses.{StepsAreGuarded};
ghost use Rattle.kernel_model.specs.Filter.{StepsAreFiltered};

use rv32_model::{accesses_are_permitted, data_is_aligned, denials_are_due};

/// In every run, from any world and by any choices, each fetch, load and store of a turn is one
/// that the process may make as it is before the turn: nothing denies it, and a load or store lies
/// at a multiple of its width (Levy et al., SOSP 2017; RISC-V privileged manual, "Physical Memory
/// Protection"). What a turn is denied for is a fetch, a load or a store that its instruction tries
/// and that the process may not make then, or the instruction itself, which no row fits, which is
/// EBREAK, or an ECALL of a class above 7: an access that it may make is not denied.
pub fn each_access_is_permitted()
    ensures accesses { EachAccessIsPermitted }
    ensures denials { EachDenialIsDue }
    ensures steps { StepsAreGuarded }
{
    accesses_are_permitted();
    data_is_aligned();
    denials_are_due();
}

/// The system call filter holds in every step, whoever makes the choices: a subscribe, an allow or
/// a command that was not refused is one that the object of its process allows by its list of
/// permissions, or, without one, a filter that is not strict (Tock Binary Format, "Permissions").
pub fn calls_are_filtered()
    ensures { StepsAreFiltered }
{}
