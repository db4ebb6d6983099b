//! The storage, and who waits for it.
ghost use Rattle.std.specs.Prelude.{◌≡◌, None, IfSome, OnErr};
ghost use Rattle.grant_enter.specs.Homes.{own_of};
ghost use Rattle.driver_model.specs.Commands.{by_number, Stores as InStores};
ghost use Rattle.driver_model.specs.Lines.{IsWithin};
ghost use Rattle.driver_model.specs.Storage.{commands, storages};
ghost use Rattle.driver_requests.specs.Answers.{AnswersFirst};
ghost use Rattle.driver_requests.specs.Waiting.{first_of, without};
ghost use Rattle.driver_requests.specs.Asking.{MayAskAt, MayBeTold, Obeys, Replies};
ghost use Rattle.storage_capsule.specs.Answers.{answer_to};

use crate::commands::ask_within;
use crate::steps::serve;
use board_devices::{Answer, Stores};
use driver_requests::RequestQueue;
use grant_enter::Home;
use grant_values::{StorageKind, StorageRequest};
use syscall_abi::{Reply, reply_of};
use tk_base::{CallRule, NotReady, ProcessId, Slot};

/// The storage.
#[derive(Default, Drop)]
pub struct StorageCapsule {
    /// The processes that wait for it.
    pub waiting: RequestQueue<StorageRequest>,
}

impl StorageCapsule {
    /// The same again.
    pub fn copied(&self) -> StorageCapsule
        ensures { result ≡ self.now }
    {
        StorageCapsule {
            waiting: self.waiting.copied(),
        }
    }

    /// A command of the process of an id to the storage, of which a slot has `size` bytes: the
    /// reply, or the rule that refuses it.
    #[tactic(auto, unfolding(driver_model::specs::Storage::commands))]
    fn obey(
        &mut self,
        home: &mut Home,
        size: u32,
        id: ProcessId,
        number: u32,
        a2: u32,
        a3: u32,
    ) -> Result<Reply, CallRule>
        requires { MayAskAt storages self.old.waiting home.old id }
        ensures { Obeys InStores id (by_number (commands size a2 a3) number) self.old.waiting home.old
            result self.new.waiting home.new }
    {
        let (offset, length) = (a2, a3);
        let read = StorageRequest {
            kind: StorageKind::Read,
            offset,
            length,
        };
        match number {
            0 => Ok(Reply::Success),
            1 => Ok(Reply::SuccessU32(size)),
            2 => ask_within(&mut self.waiting, home, size, id, read),
            3 => {
                let write = StorageRequest {
                    kind: StorageKind::Write,
                    ..read
                };
                ask_within(&mut self.waiting, home, size, id, write)
            }
            _ => Err(CallRule::NoCommand),
        }
    }

    /// Serves a command of the process of an id to the storage, of which a slot has `size` bytes
    /// (TRD 104, "Command"): the reply, and the rule that refuses it, if one does. 0 asks whether
    /// the driver is there. 1 asks for `size`. 2 asks to read, and 3 to write, `a3` bytes from the
    /// offset `a2` in the slot's storage on; the process then waits, after all others. It is
    /// refused with [`CallRule::Range`] where `a2 + a3` is above `size`, else with
    /// [`CallRule::Busy`] where one of its requests waits already, of either kind, else with
    /// [`CallRule::NoRoom`] where there is no room for its grant. Any other number is refused with
    /// [`CallRule::NoCommand`]. Nothing of another process changes, and nothing at all where it is
    /// refused.
    ///
    /// It asks that the process is there, and that it waits only where it has a request.
    pub fn command(
        &mut self,
        home: &mut Home,
        size: u32,
        id: ProcessId,
        number: u32,
        a2: u32,
        a3: u32,
    ) -> (Reply, Option<CallRule>)
        requires { MayAskAt storages self.old.waiting home.old id }
        ensures { Replies InStores id (by_number (commands size a2 a3) number) self.old.waiting home.old
            result self.new.waiting home.new }
    {
        reply_of(self.obey(home, size, id, number, a2, a3))
    }

    /// Answers the process that waits longest, or that of the one slot which is served: its request is
    /// served and completes, and the process waits no more. A read copies bytes of the slot's storage
    /// to the start of read-write buffer 0, and completes by upcall 0; a write copies bytes from the
    /// start of read-only buffer 0 over the slot's storage, and completes by upcall 1. As many are
    /// copied as were asked for, and no more than the buffer has that is held now; the upcall has that
    /// count, 0 and 0. Where the storage counts the request among its faults nothing is copied, and the
    /// upcall has 0, 1 and 0. Nothing changes where the process is not there in that life, or has no
    /// request; and nothing of another slot. The answer is whom it served, and what it told it: that
    /// the request was served, or failed. [`NotReady`] comes exactly where none waits that is served,
    /// and then nothing changes.
    ///
    /// It asks that the slot of whom it serves is one of the home's, that its count of dropped upcalls
    /// has room for one more, and that its request lies in a slot's storage, as
    /// [`StorageCapsule::command`] sees to.
    pub fn answer(
        &mut self,
        home: &mut Home,
        stores: &mut Stores,
        only: Option<Slot>,
    ) -> Result<Answer, NotReady>
        requires told { IfSome (first_of only self.old.waiting) (MayBeTold home.old) }
        requires within { IfSome (first_of only self.old.waiting)
            (λ id. IsWithin stores.old.size (own_of home.old id.slot)) }
        ensures none { OnErr result (first_of only self.old.waiting ≡ None) }
        ensures answers { AnswersFirst only (answer_to stores.old home.old) self.old.waiting
            stores.old home.old result self.new.waiting stores.new home.new }
    {
        let id = self.waiting.first(only)?;
        let service = serve(home, &id, stores);
        Ok(self.waiting.answered(id, service))
    }

    /// The process of an id ended, or starts again: no request of it waits any more. The others
    /// keep their order.
    #[inline(always)]
    pub fn gone(&mut self, id: ProcessId)
        ensures { self.new.waiting ≡ without id.slot self.old.waiting }
    {
        self.waiting.leave(id.slot);
    }
}
