//! Laws of the definitions. The functions do nothing.
ghost use Rattle.process_model.specs.Changes.{OnlyWritesChangeBytes};
ghost use Rattle.process_model.specs.Flash.{ReadsOwnFlash};
ghost use Rattle.process_model.specs.Laws.{KeepingCommutes, RestartForgets};
ghost use Rattle.process_model.specs.Pairs.{OnlyHandingChangesPairs};

use grant_model::pairs_stand_by_kind;
use rv32_model::{writes_are_listed, writes_are_permitted};

/// A restart forgets every byte of a process's block, its grants and its pending upcalls, and where
/// the breaks were.
pub fn restart_forgets()
    ensures { RestartForgets }
{}

/// It is the same whether a driver keeps another value for a process before it schedules an upcall,
/// or after: the pairs that the process has handed stay (TRD 104, "Yield"; Levy et al., SOSP 2017,
/// section 4).
#[tactic(auto, using(crate::proofs::Scheduling::keeping_commutes))]
pub fn keeping_commutes()
    ensures { KeepingCommutes }
{}

/// What a driver reads of a read-only buffer depends on no other process's object: it lies in the
/// process's own RAM, or in its own object in flash (TRD 104, "Read-Only Allow").
pub fn reads_own_flash()
    ensures { ReadsOwnFlash }
{}

/// A pair that a process hands to a driver changes that pair alone, and nothing else that becomes
/// of the process changes any, but a restart, after which it has handed none (TRD 104, "Subscribe",
/// "Read-Only Allow", "Read-Write Allow").
pub fn only_handing_changes_pairs()
    ensures { OnlyHandingChangesPairs }
{
    pairs_stand_by_kind();
}

/// Of the bytes below a process's kernel break an instruction that goes changes those that a store
/// covers which it lists, a yield that does not wait its flag, and a driver those inside the buffer
/// that it writes. Entering a driver and handing it a pair change none (Levy et al., SOSP 2017,
/// section 4; TRD 104, "Yield", "Read-Write Allow").
pub fn only_writes_change_bytes()
    ensures { OnlyWritesChangeBytes }
{
    writes_are_listed();
    writes_are_permitted();
}
