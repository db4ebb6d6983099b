//! Bytes between the storage of a slot and a buffer of its process.
ghost use Rattle.std.specs.Prelude.{◌≡◌, ◌+◌, ◌≤◌, min, length, take};
ghost use Rattle.board_devices.specs.Storage.{bytes_from, with_slot_bytes};
ghost use Rattle.tk_base.specs.Bytes.{over};

use board_devices::Stores;
use grant_values::StorageRequest;
use tk_base::Slot;

/// Copies bytes of a slot's storage to the start of a buffer, as many as a request asks for, and no
/// more than the buffer has. The answer is how many.
pub(crate) fn fill(buffer: &mut [u8], stores: &Stores, slot: Slot, request: &StorageRequest) -> u32
    requires { request.now.offset + request.now.length ≤ stores.now.size }
    ensures count { result ≡ min request.now.length (length buffer.old) }
    ensures fits { length (bytes_from stores.now slot request.now.offset result)
        ≤ length buffer.old }
    ensures buffer { buffer.new
        ≡ over buffer.old 0 (bytes_from stores.now slot request.now.offset result) }
    ensures long { length buffer.new ≡ length buffer.old }
{
    let count = (request.length as usize).min(buffer.len());
    let (front, _) = buffer.split_at_mut(count);
    stores.read(slot, request.offset, front);
    count as u32
}

/// Writes bytes from the start of a buffer over those of a slot's storage, as many as a request
/// asks for, and no more than the buffer has. The answer is how many.
pub(crate) fn put(stores: &mut Stores, slot: Slot, request: &StorageRequest, buffer: &[u8]) -> u32
    requires { request.now.offset + request.now.length ≤ stores.old.size }
    ensures count { result ≡ min request.now.length (length buffer.now) }
    ensures stores { stores.new
        ≡ with_slot_bytes stores.old slot request.now.offset (take result buffer.now) }
{
    let count = (request.length as usize).min(buffer.len());
    let (part, _) = buffer.split_at(count);
    stores.write(slot, request.offset, part);
    count as u32
}
