//! What the storage does with the value that a process keeps for it.
ghost use Rattle.std.specs.Prelude.{◌≡◌, ◌+◌, ◌<◌, ◌≤◌, ◌^◌, min, length};
ghost use Rattle.tk_base.specs.declared.kinds.PairKind.TheVariants.{ReadWrite};
ghost use Rattle.process_model.specs.Handed.{held};
ghost use Rattle.board_devices.specs.Storage.{bytes_from, slot_bytes};
ghost use Rattle.process_model.specs.Flash.{flash_byte};
ghost use Rattle.process_model.specs.Served.{ram_at, with_written};
ghost use Rattle.process_seat.specs.Seen.{Framed, IsLent, own_entered, seen};
ghost use Rattle.grant_values.specs.declared.drivers.Driver.TheVariants.{Storage as StorageDriver};
ghost use Rattle.grant_values.specs.Drivers.{counts_by};
ghost use Rattle.driver_model.specs.Storage.{completing, moving, storage_served, storage};
ghost use Rattle.driver_model.specs.Steps.{own_after};
ghost use Rattle.storage_capsule.specs.Serving.{storage_after};

use crate::moves::{fill, put};
use board_devices::Stores;
use driver_requests::VisitRequest;
use grant_enter::{Entered, Grant, a_buffer_is_written, buffers_are_whole, frames_join};
use grant_values::{Driver, Storage, StorageKind, StorageRequest};
use tk_base::Slot;

/// How an upcall tells that bytes were moved.
const MOVED: u32 = 0;

/// How it tells of a fault.
const FAULT: u32 = 1;

/// The grants that processes keep for the storage: two upcalls, one read-only and one read-write
/// buffer.
pub(crate) type Storages = Grant<Storage, 2, 1, 1, 0>;

/// Those that there are.
#[tactic(auto, unfolding(grant_values::specs::Drivers::counts_of, grant_values::specs::Drivers::drivers))]
pub(crate) fn storages() -> Storages
    ensures driver { result.driver ≡ storage }
    ensures counts { result.counts ≡ counts_by StorageDriver }
{
    Storages::of(Driver::Storage.number())
}

/// Serves the request that waits, over the storage of a slot, which counts it; on a fault it moves
/// nothing. It hands the storage back.
#[derive(Drop)]
pub(crate) struct Transfer<'a> {
    pub stores: &'a mut Stores,
    pub slot: Slot,
}

impl<'a> VisitRequest<StorageRequest> for Transfer<'a> {
    ghost use Rattle.std.specs.Prelude.{◌≡◌, ◌+◌, ◌<◌, ◌≤◌, ◌^◌, None};
    ghost use Rattle.storage_capsule.specs.Serving.{storage_serving, storage_stored};

    type Answer = &'a mut Stores;

    ghost asks = { λ transfer request seen. (seen.driver ≡ storage) × (1 < seen.counts.upcalls)
        × (0 < seen.counts.ro) × (0 < seen.counts.rw) × (seen.own.inbox.dropped + 1 < 2 ^ 32)
        × (request.offset + request.length ≤ transfer.stores.now.size) };

    ghost step = { λ transfer request seen.
        (storage_serving transfer.slot seen.flash transfer.stores.now request seen.own).step };

    ghost rest = { λ transfer request seen. None };

    ghost answers = { λ transfer request seen stores.
        let s = storage_serving transfer.slot seen.flash transfer.stores.now request seen.own in
        (stores.ghost_name ≡ transfer.stores.ghost_name)
        × (stores.now ≡ storage_stored transfer.slot s.written transfer.stores.now) };

    fn run(
        self,
        request: &StorageRequest,
        entered: &mut Entered<'_>,
    ) -> (&'a mut Stores, Option<StorageRequest>) {
        let Transfer { stores, slot } = self;
        let fault = stores.count(slot);
        serve_request(entered, stores, slot, request, fault);
        (stores, None)
    }
}

/// Copies bytes of the storage into the buffer of a process. The answer is how many.
fn read(entered: &mut Entered<'_>, stores: &Stores, slot: Slot, request: &StorageRequest) -> u32
    requires lent { IsLent entered.old }
    requires driver { (seen entered.old).driver ≡ storage }
    requires buffer { 0 < (seen entered.old).counts.rw }
    requires within { request.now.offset + request.now.length ≤ stores.now.size }
    ensures count { result ≡ min request.now.length
        (held ReadWrite storage 0 (own_entered entered.old)).1 }
    ensures own { own_entered entered.new ≡ with_written ReadWrite storage 0 0
        (bytes_from stores.now slot request.now.offset result) (own_entered entered.old) }
    // what a visitor owes
    ensures lent { IsLent entered.new }
    ensures framed { Framed entered.old entered.new }
{
    a_buffer_is_written();
    buffers_are_whole();
    fill(entered.read_write(0), stores, slot, request)
}

/// Moves the bytes of a request. The answer is how many.
fn move_bytes(
    entered: &mut Entered<'_>,
    stores: &mut Stores,
    slot: Slot,
    request: &StorageRequest,
) -> u32
    requires lent { IsLent entered.old }
    requires driver { (seen entered.old).driver ≡ storage }
    requires read { 0 < (seen entered.old).counts.ro }
    requires write { 0 < (seen entered.old).counts.rw }
    requires within { request.now.offset + request.now.length ≤ stores.old.size }
    ensures moved { let s = moving request.now.kind (flash_byte (seen entered.old).flash)
        (slot_bytes stores.old slot) request.now (own_entered entered.old) in
        (completing request.now.kind result 0 (own_entered entered.new) ≡ s.step)
        × (stores.new ≡ storage_after slot s.written stores.old) }
    ensures dropped { (own_entered entered.new).inbox.dropped
        ≡ (own_entered entered.old).inbox.dropped }
    // what a visitor owes
    ensures lent { IsLent entered.new }
    ensures framed { Framed entered.old entered.new }
{
    frames_join();
    buffers_are_whole();
    match request.kind {
        StorageKind::Read => read(entered, stores, slot, request),
        StorageKind::Write => put(stores, slot, request, entered.read_only(0)),
    }
}

/// Has a request complete: its upcall tells how many bytes were moved, and how.
fn complete(entered: &mut Entered<'_>, kind: StorageKind, count: u32, outcome: u32)
    requires lent { IsLent entered.old }
    requires driver { (seen entered.old).driver ≡ storage }
    requires upcalls { 1 < (seen entered.old).counts.upcalls }
    requires dropped { (own_entered entered.old).inbox.dropped + 1 < 2 ^ 32 }
    ensures own { own_entered entered.new
        ≡ own_after (completing kind count outcome (own_entered entered.old)) }
    // what a visitor owes
    ensures lent { IsLent entered.new }
    ensures framed { Framed entered.old entered.new }
{
    match kind {
        StorageKind::Read => entered.schedule(0, [count, outcome, 0]),
        StorageKind::Write => entered.schedule(1, [count, outcome, 0]),
    };
}

/// Serves a request; on a fault it moves nothing.
fn serve_request(
    entered: &mut Entered<'_>,
    stores: &mut Stores,
    slot: Slot,
    request: &StorageRequest,
    fault: bool,
)
    requires lent { IsLent entered.old }
    requires driver { (seen entered.old).driver ≡ storage }
    requires upcalls { 1 < (seen entered.old).counts.upcalls }
    requires read { 0 < (seen entered.old).counts.ro }
    requires write { 0 < (seen entered.old).counts.rw }
    requires dropped { (own_entered entered.old).inbox.dropped + 1 < 2 ^ 32 }
    requires within { request.now.offset + request.now.length ≤ stores.old.size }
    ensures served { let s = storage_served fault (flash_byte (seen entered.old).flash)
        (slot_bytes stores.old slot) request.now (own_entered entered.old) in
        (own_entered entered.new ≡ own_after s.step)
        × (stores.new ≡ storage_after slot s.written stores.old) }
    // what a visitor owes
    ensures lent { IsLent entered.new }
    ensures framed { Framed entered.old entered.new }
{
    frames_join();
    if fault {
        complete(entered, request.kind, 0, FAULT);
        return;
    }
    let count = move_bytes(entered, stores, slot, request);
    complete(entered, request.kind, count, MOVED);
}
