//! The upcalls of one process that wait to be delivered.
ghost use Rattle.std.specs.Prelude.{◌≡◌, ◌≤◌, ◌==◌, [], length, drop, remove, slice_get, IfNone};
ghost use Rattle.std.specs.List.{position};
ghost use Rattle.tk_base.specs.declared.limits.TheConstants.{PENDING_LIMIT};

use arrayvec::ArrayVec;
use std::marker::Model;
use tk_base::{PENDING_LIMIT, Upcall};

/// The pending upcalls of one process, the first one first (TRD 104, "Yield"): never more than
/// [`PENDING_LIMIT`]. Contracts see the list.
#[derive(Drop)]
pub struct Queue {
    pending: ArrayVec<Upcall, PENDING_LIMIT>,
}

impl Model for Queue {
    ghost use Rattle.std.specs.Prelude.{List};
    ghost use Rattle.tk_base.specs.declared.upcall.Upcall.{Upcall};

    ghost Value = { List Upcall };

    ghost view = { λ q. q.pending.items };
}

impl Queue {
    ghost use Rattle.upcall_queue.specs.Pending.{appended, has_room, is_of, place_of, without_key};

    /// The queue of a process for which no upcall is pending.
    pub fn new() -> Queue
        ensures { result ≡ [] }
    {
        Queue {
            pending: ArrayVec::new(),
        }
    }

    /// The same upcalls again.
    pub fn copied(&self) -> Queue
        ensures { result ≡ self.now }
    {
        let mut pending = ArrayVec::new();
        let Ok(()) = pending.try_extend_from_slice(&self.pending) else {
            unreachable!()
        };
        Queue { pending }
    }

    /// Appends an upcall and says whether it did: false, and nothing changes, exactly where
    /// [`PENDING_LIMIT`] are pending.
    pub fn append(&mut self, upcall: Upcall) -> bool
        ensures answer { result ≡ has_room self.old }
        ensures list { self.new ≡ appended upcall self.old }
    {
        if self.pending.is_full() {
            return false;
        }
        self.pending.push(upcall);
        true
    }

    /// Takes the first upcall out, for its delivery. None exactly where none is pending.
    pub fn pop(&mut self) -> Option<Upcall>
        ensures first { result ≡ slice_get self.old 0 }
        ensures rest { self.new ≡ drop 1 self.old }
    {
        self.pending.pop_at(0)
    }

    /// The place of the first upcall of a driver and number.
    fn place_of(&self, driver: u32, number: u32) -> Option<usize>
        ensures { result ≡ position (is_of driver number) self.now }
    {
        self.pending.iter().position(|upcall| upcall.driver == driver && upcall.number == number)
    }

    /// Takes the first upcall of a driver and number out (TRD 104, "Yield"). None exactly
    /// where none is pending, and then nothing changes.
    pub fn pop_of(&mut self, driver: u32, number: u32) -> Option<Upcall>
        ensures first { result ≡ slice_get self.old (place_of driver number self.old) }
        ensures rest { self.new ≡ remove self.old (place_of driver number self.old) }
        ensures none { IfNone result (self.new ≡ self.old) }
    {
        let place = self.place_of(driver, number)?;
        self.pending.pop_at(place)
    }

    /// Drops the upcalls of a driver and number, as a successful subscribe does (TRD 104,
    /// "Subscribe"). The others stay in their order.
    pub fn drop_of(&mut self, driver: u32, number: u32)
        ensures { self.new ≡ without_key driver number self.old }
    {
        self.pending.retain(|upcall| !(upcall.driver == driver && upcall.number == number));
    }

    /// Drops all upcalls, as at a restart and at the end of the process.
    pub fn clear(&mut self)
        ensures { self.new ≡ [] }
    {
        self.pending.clear();
    }

    /// How many upcalls are pending.
    pub fn len(&self) -> usize
        ensures count { result ≡ length self.now }
        ensures limit { result ≤ PENDING_LIMIT }
    {
        self.pending.len()
    }

    /// Whether none is pending.
    pub fn is_empty(&self) -> bool
        ensures { result ≡ (length self.now == 0) }
    {
        self.pending.is_empty()
    }

    /// The pending upcalls, the first one first.
    pub fn as_slice(&self) -> &[Upcall]
        ensures list { result.now ≡ self.now }
        ensures limit { length result.now ≤ PENDING_LIMIT }
    {
        self.pending.as_slice()
    }
}

impl Default for Queue {
    ghost use Rattle.std.specs.Prelude.{◌≡◌, []};

    ghost is_default = { λ q. q ≡ [] };

    /// The queue of a process for which no upcall is pending.
    fn default() -> Queue {
        Queue::new()
    }
}
