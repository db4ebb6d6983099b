//! The law of scripts that agree up to a time. The function does nothing.
ghost use Rattle.board_views.specs.Agreeing.{AddedIsScripted, ScriptsAgree, ToTimeIsWithin, WorldsAgree};

use kernel_model::next_is_ready;

/// An event of a time changes no step that begins before it and ends at it or before: under a script
/// that says it besides, so many steps of the round robin are the same, and it is still to come in
/// then; and so from any world on in which it is to come in besides. The steps of `go_to` are such
/// steps. So an event that is added to a board later than all that was made is as one that the
/// script said from the start.
pub fn scripts_agree_up_to_a_time()
    ensures scripts { ScriptsAgree }
    ensures worlds { WorldsAgree }
    ensures within { ToTimeIsWithin }
    ensures added { AddedIsScripted }
{
    next_is_ready();
}
