//! The storage of the slots.
ghost use Rattle.std.specs.Prelude.{◌≡◌, ◌+◌, ◌^◌, ◌<◌, ◌≤◌, IfOk, length, replicate, slice_range};
ghost use Rattle.board_devices.specs.Storage.{overwritten, fresh_slots};

use arrayvec::ArrayVec;
use std::alloc::{AllocError, Global};
use std::marker::Model;
use tk_base::{FAULT_LIMIT, SLOT_COUNT, Slot};
use tk_outside::NoMemory;

/// The value of a byte that was never written, as flash has it after it was erased.
const ERASED: u8 = 0xFF;

/// The storage of one slot. Contracts see its bytes.
#[derive(Drop)]
struct Store {
    bytes: Vec<u8>,
}

impl Model for Store {
    ghost use Rattle.std.specs.Prelude.{ℕ, List};

    ghost Value = { List ℕ };

    ghost view = { λ s. s.bytes.items };
}

impl Store {
    /// So many erased bytes.
    fn new(alloc: Global, size: usize) -> Result<Store, AllocError>
        ensures { IfOk result (λ store. store ≡ replicate size ERASED) }
    {
        let bytes = vec![in alloc; ERASED; size]?;
        Ok(Store { bytes })
    }

    /// The same again. The one error is want of memory.
    fn copied(&self, alloc: Global) -> Result<Store, NoMemory>
        ensures { IfOk result (λ it. it ≡ self.now) }
    {
        let mut bytes = Vec::new(alloc);
        let Ok(()) = bytes.extend_from_slice(&self.bytes) else {
            return Err(NoMemory);
        };
        Ok(Store { bytes })
    }

    /// All bytes.
    fn all(&self) -> &[u8]
        ensures { result.now ≡ self.now }
    {
        &self.bytes
    }

    /// Copies bytes from an offset on.
    fn read(&self, offset: usize, into: &mut [u8])
        requires within { offset + length into.old ≤ length self.now }
        requires fits { offset + length into.old < 2 ^ 32 }
        ensures { into.new ≡ slice_range self.now offset (offset + length into.old) }
    {
        let end = offset + into.len();
        into.copy_from_slice(&self.bytes[offset..end]);
    }

    /// Puts bytes over those from an offset on.
    fn write(&mut self, offset: usize, from: &[u8])
        requires within { offset + length from.now ≤ length self.old }
        requires fits { offset + length from.now < 2 ^ 32 }
        ensures { self.new ≡ overwritten self.old offset from.now }
    {
        let end = offset + from.len();
        self.bytes[offset..end].copy_from_slice(from);
    }
}

/// The storage of each slot, and which of the requests fail that are served in a lane: there is one
/// for all slots, or one for each. Contracts see the bytes of each slot, slot 0 first, and the size of
/// a slot in bytes, the count of requests served in each lane, and the numbers of those that fail,
/// counted from 1.
#[derive(Drop)]
pub struct Stores {
    slots: Vec<Store>,
    size: u32,
    served: Vec<u64>,
    faults: ArrayVec<u32, FAULT_LIMIT>,
}

impl Model for Stores {
    ghost use Rattle.std.specs.Prelude.{◌<◌, length};
    ghost use Rattle.board_devices.specs.Storage.{StoredSlots, AreSized};

    ghost Value = { StoredSlots };

    ghost view = { λ s. record {
      slots = s.slots.items;
      size = s.size;
      served = s.served.items;
      faults = s.faults.items;
    } };

    ghost invariant = { λ s. AreSized s.size s.slots.items × (0 < length s.served.items) };
}

/// The erased storage of each slot.
fn erased_slots(alloc: Global, size: usize) -> Result<Vec<Store>, AllocError>
    ensures { IfOk result (λ slots. slots.items ≡ fresh_slots size) }
{
    let mut slots = Vec::new(alloc);
    for _ in 0..SLOT_COUNT {
        slots.push(Store::new(alloc, size)?)?;
    }
    Ok(slots)
}

/// No request was served in any of so many lanes.
fn none_served(alloc: Global, lanes: usize) -> Result<Vec<u64>, AllocError>
    ensures { IfOk result (λ served. served.items ≡ replicate lanes 0) }
{
    vec![in alloc; 0; lanes]
}

/// The storage of each slot again. The one error is want of memory.
fn same_slots(alloc: Global, slots: &[Store]) -> Result<Vec<Store>, NoMemory>
    ensures { IfOk result (λ copies. copies.items ≡ slots.now) }
{
    let mut copies = Vec::new(alloc);
    for store in slots {
        let copy = store.copied(alloc)?;
        let Ok(()) = copies.push(copy) else {
            return Err(NoMemory);
        };
    }
    Ok(copies)
}

/// The same counts again. The one error is want of memory.
fn same_counts(alloc: Global, counts: &[u64]) -> Result<Vec<u64>, NoMemory>
    ensures { IfOk result (λ copy. copy.items ≡ counts.now) }
{
    let mut copy = Vec::new(alloc);
    let Ok(()) = copy.extend_from_slice(counts) else {
        return Err(NoMemory);
    };
    Ok(copy)
}

/// The same numbers again.
fn same_faults(faults: &ArrayVec<u32, FAULT_LIMIT>) -> ArrayVec<u32, FAULT_LIMIT>
    ensures { result.items ≡ faults.now.items }
{
    let mut copy = ArrayVec::new();
    let Ok(()) = copy.try_extend_from_slice(faults) else {
        unreachable!()
    };
    copy
}

impl Stores {
    ghost use Rattle.tk_outside.specs.Count.{counted};
    ghost use Rattle.board_devices.specs.Storage.{AreSized, fresh_storage, bytes_from, slot_bytes, with_slot_bytes};
    ghost use Rattle.board_devices.specs.Storage.{is_fault};
    ghost use Rattle.board_devices.specs.Storage.{storage_lane, served_at, with_served};

    /// The storage of all slots with so many bytes each, which are 0xFF, before the first request in
    /// so many lanes. `faults` are the numbers of the requests that fail. It asks for one lane at
    /// least, and fails where there is no memory.
    pub fn new(
        alloc: Global,
        lanes: usize,
        size: u32,
        faults: ArrayVec<u32, FAULT_LIMIT>,
    ) -> Result<Stores, NoMemory>
        requires { 0 < lanes }
        ensures { IfOk result (λ stores. stores ≡ fresh_storage lanes size faults.items) }
    {
        let Ok(slots) = erased_slots(alloc, size as usize) else {
            return Err(NoMemory);
        };
        let Ok(served) = none_served(alloc, lanes) else {
            return Err(NoMemory);
        };
        Ok(Stores {
            slots,
            size,
            served,
            faults,
        })
    }

    /// The same again. The one error is want of memory.
    pub fn copied(&self, alloc: Global) -> Result<Stores, NoMemory>
        ensures { IfOk result (λ it. it ≡ self.now) }
    {
        let slots = same_slots(alloc, &self.slots)?;
        let served = same_counts(alloc, &self.served)?;
        Ok(Stores {
            slots,
            size: self.size,
            served,
            faults: same_faults(&self.faults),
        })
    }

    /// The bytes of a slot.
    pub fn bytes(&self, slot: Slot) -> &[u8]
        ensures { result.now ≡ slot_bytes self.now slot }
    {
        self.slots[slot.index()].all()
    }

    /// The size of a slot's storage in bytes. Each slot has so many.
    pub fn size(&self) -> u32
        ensures size { result ≡ self.now.size }
        ensures slots { AreSized result self.now.slots }
    {
        self.size
    }

    /// The place of the lane of a slot.
    fn lane(&self, slot: Slot) -> usize
        ensures place { result ≡ storage_lane slot self.now }
        ensures there { result < length self.now.served }
    {
        slot.index() % self.served.len()
    }

    /// How many requests were served in the lane of a slot.
    fn served(&self, slot: Slot) -> u64
        ensures { result ≡ served_at slot self.now }
    {
        self.served[self.lane(slot)]
    }

    /// Whether the next request that is served in the lane of a slot is one of those that fail.
    pub fn fails_next(&self, slot: Slot) -> bool
        ensures { result ≡ is_fault self.now.faults (counted (served_at slot self.now)) }
    {
        let number = self.served(slot).saturating_add(1);
        self.faults.iter().any(|fault| u64::from(*fault) == number)
    }

    /// Counts a request that is served in the lane of a slot, from 1, and says whether it is one of
    /// those that fail. The count stands still at `2^64 - 1`. Nothing else changes.
    pub fn count(&mut self, slot: Slot) -> bool
        ensures fault { result ≡ is_fault self.old.faults (counted (served_at slot self.old)) }
        ensures counted { self.new ≡ with_served slot self.old }
    {
        let fails = self.fails_next(slot);
        let lane = self.lane(slot);
        self.served[lane] = self.served[lane].saturating_add(1);
        fails
    }

    /// Copies bytes of a slot, from an offset on, as many as the slice has. It asks that they lie in the
    /// slot's storage.
    pub fn read(&self, slot: Slot, offset: u32, into: &mut [u8])
        requires { offset + length into.old ≤ self.now.size }
        ensures { into.new ≡ bytes_from self.now slot offset (length into.old) }
    {
        self.slots[slot.index()].read(offset as usize, into);
    }

    /// Puts bytes over those of a slot, from an offset on. It asks that they lie in the slot's storage.
    /// The other slots have what they had, and nothing else changes.
    pub fn write(&mut self, slot: Slot, offset: u32, from: &[u8])
        requires { offset + length from.now ≤ self.old.size }
        ensures { self.new ≡ with_slot_bytes self.old slot offset from.now }
    {
        self.slots[slot.index()].write(offset as usize, from);
    }
}
