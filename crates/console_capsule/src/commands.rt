//! Commands to read, and to read no more.
ghost use Rattle.driver_model.specs.Commands.{Reads};
ghost use Rattle.driver_model.specs.Requests.{request_in};
ghost use Rattle.driver_model.specs.Console.{cancelling, console, console_reads};
ghost use Rattle.driver_model.specs.Parts.{asking_to_read};
ghost use Rattle.driver_requests.specs.Asking.{IsPresent, MayAskAt, MayBeTold, Obeys};

use crate::grants::consoles;
use driver_requests::{RequestQueue, VisitRequest, visit_request};
use grant_enter::{Entered, Home};
use grant_values::WaitingRead;
use syscall_abi::Reply;
use tk_base::{CallRule, ErrorCode, ProcessId};

/// A process asks to read so many bytes: where its request begins to wait it is put last.
pub(crate) fn read(
    waiting: &mut RequestQueue<WaitingRead>,
    home: &mut Home,
    id: ProcessId,
    count: u32,
) -> Result<Reply, CallRule>
    requires { MayAskAt console_reads waiting.old home.old id }
    ensures { Obeys Reads id (asking_to_read count) waiting.old home.old result waiting.new
        home.new }
{
    if count == 0 {
        return Err(CallRule::Empty);
    }
    waiting.ask(&consoles(), home, id, WaitingRead { length: count })
}

/// Drops the read that waits, and tells it.
#[derive(Drop)]
struct DropRead;

impl VisitRequest<WaitingRead> for DropRead {
    ghost use Rattle.std.specs.Prelude.{◌≡◌, ◌+◌, ◌<◌, ◌^◌, [], ◌∷◌, None};
    ghost use Rattle.tk_base.specs.Call.{code_of};
    ghost use Rattle.tk_base.specs.declared.call.ErrorCode.TheVariants.{CANCEL};
    ghost use Rattle.driver_model.specs.Steps.{scheduling};

    type Answer = ();

    ghost asks = { λ drop read seen. (seen.driver ≡ console) × (2 < seen.counts.upcalls)
        × (seen.own.inbox.dropped + 1 < 2 ^ 32) };

    ghost step = { λ drop read seen.
        scheduling console 2 (code_of CANCEL ∷ 0 ∷ 0 ∷ []) seen.own };

    ghost rest = { λ drop read seen. None };

    ghost answers = { λ drop read seen answer. Unit {0} };

    fn run(self, _read: &WaitingRead, entered: &mut Entered<'_>) -> ((), Option<WaitingRead>) {
        entered.schedule(2, [ErrorCode::CANCEL.code(), 0, 0]);
        ((), None)
    }
}

/// A process drops its read: where one waits it waits no more.
pub(crate) fn cancel(
    waiting: &mut RequestQueue<WaitingRead>,
    home: &mut Home,
    id: ProcessId,
) -> Result<Reply, CallRule>
    requires there { IsPresent home.old id }
    requires told { MayBeTold home.old id }
    ensures { Obeys Reads id (λ own. cancelling (request_in console_reads own) own) waiting.old
        home.old result waiting.new home.new }
{
    let slot = id.slot;
    let Ok(_attended) = visit_request(&consoles(), home, id, DropRead) else {
        return Err(CallRule::Nothing);
    };
    waiting.leave(slot);
    Ok(Reply::Success)
}
