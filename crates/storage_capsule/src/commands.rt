//! Requests to the storage.
ghost use Rattle.driver_model.specs.Commands.{Stores};
ghost use Rattle.driver_model.specs.Storage.{requesting, storages as request_kind};
ghost use Rattle.driver_requests.specs.Asking.{MayAskAt, Obeys};

use crate::visits::storages;
use driver_requests::RequestQueue;
use grant_enter::Home;
use grant_values::StorageRequest;
use syscall_abi::Reply;
use tk_base::{CallRule, ProcessId};

/// A process asks for bytes of its slot's storage, which has so many: where its request begins to
/// wait it is put last.
pub(crate) fn ask_within(
    waiting: &mut RequestQueue<StorageRequest>,
    home: &mut Home,
    size: u32,
    id: ProcessId,
    request: StorageRequest,
) -> Result<Reply, CallRule>
    requires { MayAskAt request_kind waiting.old home.old id }
    ensures { Obeys Stores id (requesting size request) waiting.old home.old result waiting.new
        home.new }
{
    if u64::from(request.offset) + u64::from(request.length) > u64::from(size) {
        return Err(CallRule::Range);
    }
    waiting.ask(&storages(), home, id, request)
}
