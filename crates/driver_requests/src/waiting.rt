//! The list of processes that wait for one device.
ghost use Rattle.std.specs.Prelude.{◌≡◌, ◌==◌, length, false, find, [], ◌∷◌, ◌++◌, slice_get};
ghost use Rattle.driver_requests.specs.Waiting.{first_of};

use arrayvec::ArrayVec;
use std::marker::Model;
use tk_base::{ProcessId, SLOT_COUNT, Slot};

/// A process in a list. Contracts see its id.
#[derive(Clone, Copy)]
pub struct Waiting {
    /// By its slot, and the life in which it began to wait.
    pub id: ProcessId,
}

impl Model for Waiting {
    ghost use Rattle.tk_base.specs.declared.process.ProcessId.{ProcessId};

    ghost Value = { ProcessId };

    ghost view = { λ w. w.id };

    ghost inverse = { λ id. record { id = id } };
}

impl Default for Waiting {
    ghost use Rattle.std.specs.Prelude.{◌≡◌};

    ghost is_default = { λ w. w ≡ record { slot = 0; life = 0 } };

    /// What stands in a place that is not taken.
    fn default() -> Waiting {
        Waiting {
            id: ProcessId {
                slot: Slot::new(0),
                life: 0,
            },
        }
    }
}

/// The processes that wait for one device, the first one first: of each slot at most one, so that
/// there is room for each that does not wait yet. Contracts see the list of their ids.
#[derive(Drop)]
pub(crate) struct WaitingList {
    ids: ArrayVec<Waiting, SLOT_COUNT>,
}

impl Model for WaitingList {
    ghost use Rattle.std.specs.Prelude.{List};
    ghost use Rattle.tk_base.specs.declared.process.ProcessId.{ProcessId};
    ghost use Rattle.driver_requests.specs.Waiting.{OnceEach};

    ghost Value = { List ProcessId };

    ghost view = { λ w. w.ids.items };

    ghost invariant = { λ w. OnceEach w.ids.items };
}

impl WaitingList {
    ghost use Rattle.std.specs.List.{position};
    ghost use Rattle.driver_requests.specs.Waiting.{waits, without};

    /// A list in which none waits.
    #[tactic(auto, using(crate::proofs::Room::none_once))]
    pub fn new() -> WaitingList
        ensures { result ≡ [] }
    {
        WaitingList {
            ids: ArrayVec::new(),
        }
    }

    /// The same again.
    pub fn copied(&self) -> WaitingList
        ensures { result ≡ self.now }
    {
        let mut ids = ArrayVec::new();
        let Ok(()) = ids.try_extend_from_slice(&self.ids) else {
            unreachable!()
        };
        WaitingList { ids }
    }

    /// Puts a process last. It asks that none of its slot waits; then there is room.
    pub fn push(&mut self, id: ProcessId)
        requires { waits id.slot self.old ≡ false }
        ensures { self.new ≡ self.old ++ id ∷ [] }
    {
        self.ids.push(Waiting { id });
    }

    /// The place at which the process of a slot waits, where it does.
    fn place_of(&self, slot: Slot) -> Option<usize>
        ensures { result ≡ position (λ id. id.slot == slot) self.now }
    {
        self.ids.iter().position(|waiting| waiting.id.slot == slot)
    }

    /// The process at a place.
    fn at(&self, place: usize) -> Option<ProcessId>
        ensures { result ≡ slice_get self.now place }
    {
        let waiting = self.ids.as_slice().get(place)?;
        Some(waiting.id)
    }

    /// The process of a slot, where it waits. It is not asked for without time partitions, and what
    /// is asked for then is inlined.
    #[inline(never)]
    fn of_slot(&self, slot: Slot) -> Option<ProcessId>
        ensures { result ≡ find (λ id. id.slot == slot) self.now }
    {
        match self.place_of(slot) {
            None => None,
            Some(place) => self.at(place),
        }
    }

    /// The process that waits longest, or that of the one slot that is served. None exactly where
    /// none waits that is served.
    #[inline(always)]
    pub fn first(&self, only: Option<Slot>) -> Option<ProcessId>
        ensures { result ≡ first_of only self.now }
    {
        if let Some(slot) = only {
            return self.of_slot(slot);
        }
        let first = self.ids.as_slice().first()?;
        Some(first.id)
    }

    /// Those that wait, the one that waits longest first.
    pub fn as_slice(&self) -> &[Waiting]
        ensures { result.now ≡ self.now }
    {
        self.ids.as_slice()
    }

    /// Takes the process of a slot out, where it waits. The others keep their order.
    // Inlined is whether any waits: most often none does.
    #[inline(always)]
    pub fn remove(&mut self, slot: Slot)
        ensures { self.new ≡ without slot self.old }
    {
        if !self.ids.is_empty() {
            self.take_out(slot);
        }
    }

    /// The same by a look at each.
    #[inline(never)]
    fn take_out(&mut self, slot: Slot)
        ensures { self.new ≡ without slot self.old }
    {
        self.ids.retain(|waiting| waiting.id.slot != slot);
    }
}

impl Default for WaitingList {
    ghost use Rattle.std.specs.Prelude.{◌≡◌, []};

    ghost is_default = { λ w. w ≡ [] };

    /// A list in which none waits.
    fn default() -> WaitingList {
        WaitingList::new()
    }
}
