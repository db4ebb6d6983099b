//! Which processes can have a turn.
ghost use Rattle.std.specs.Prelude.{◌≡◌, ◌<◌, ◌≤◌, ◌==◌, false, length, replicate, slice_get};
ghost use Rattle.std.specs.Prelude.{slice_index_or, nat_lt, slice_set};
ghost use Rattle.std.specs.List.{zip};
ghost use Rattle.tk_base.specs.declared.limits.TheConstants.{SLOT_COUNT};
ghost use Rattle.kernel_calls.specs.Residents.{can_turn_in};
ghost use Rattle.board_turns.specs.ReadySlots.{NoneBeyond, TurnsTell, how_many};

use grant_enter::Home;
use process_record::{Process, State};
use std::marker::Model;
use tk_base::{SLOT_COUNT, Slot};

/// Whether the process in a slot can have a turn, if there is one: no operator holds it, and it
/// runs, or it has yielded and something is due to it.
pub fn can_run(home: &Home, processes: &[Process], slot: Slot) -> bool
    requires { length home.now.owns ≡ length processes.now }
    ensures { result ≡ can_turn_in (slice_get (zip processes.now home.now.owns) slot) }
{
    let Some(process) = processes.get(slot.index()) else {
        return false;
    };
    if process.held {
        return false;
    }
    match process.state {
        State::Running => true,
        State::Yielded => home.is_due(slot),
        State::Faulted | State::Terminated(_) => false,
    }
}

/// Whether the process in each slot can have a turn, as it was looked for last. The choice of the
/// next turn looks at many slots, and a step changes one of them.
#[derive(Drop)]
pub struct ReadySlots {
    ready: [bool; SLOT_COUNT],
    /// How many of them can.
    count: usize,
}

impl Model for ReadySlots {
    ghost use Rattle.std.specs.Prelude.{◌≡◌, Bool, List};
    ghost use Rattle.board_turns.specs.ReadySlots.{how_many};

    ghost Value = { List Bool };

    ghost view = { λ r. r.ready };

    ghost invariant = { λ r. r.count ≡ how_many r.ready };
}

impl ReadySlots {
    /// There is no process.
    pub fn new() -> ReadySlots
        ensures { result ≡ replicate SLOT_COUNT false }
    {
        ReadySlots {
            ready: [false; SLOT_COUNT],
            count: 0,
        }
    }

    /// The same again.
    pub fn copied(&self) -> ReadySlots
        ensures { result ≡ self.now }
    {
        ReadySlots {
            ready: self.ready,
            count: self.count,
        }
    }

    /// Whether the process in a slot can have a turn.
    #[inline(always)]
    pub fn has(&self, slot: Slot) -> bool
        ensures { result ≡ slice_index_or self.now slot false }
    {
        self.ready[slot.index()]
    }

    /// Whether the process in any slot can.
    #[inline(always)]
    pub fn has_any(&self) -> bool
        ensures { result ≡ nat_lt 0 (how_many self.now) }
    {
        self.count > 0
    }

    /// Whether the process in one slot alone can.
    #[inline(always)]
    pub fn has_one(&self) -> bool
        ensures { result ≡ (how_many self.now == 1) }
    {
        self.count == 1
    }

    /// Notes whether the process in a slot can have a turn.
    #[inline(always)]
    pub(crate) fn note(&mut self, slot: Slot, can: bool)
        ensures there { slot < length self.old }
        ensures noted { self.new ≡ slice_set self.old slot can }
    {
        let place = slot.index();
        if self.ready[place] == can {
            return;
        }
        self.ready[place] = can;
        if can {
            self.count += 1;
        } else {
            self.count -= 1;
        }
    }

    /// Looks again whether the process in each slot can have a turn. It asks that there is a process
    /// for no other slot.
    #[inline(never)]
    pub fn look_at_all(&mut self, home: &Home, processes: &[Process])
        requires owns { length home.now.owns ≡ length processes.now }
        requires few { length processes.now ≤ SLOT_COUNT }
        requires beyond { NoneBeyond (length processes.now) self.old }
        ensures { TurnsTell self.new (zip processes.now home.now.owns) }
    {
        for slot in 0..processes.len() {
            let slot = Slot::new(slot);
            self.note(slot, can_run(home, processes, slot));
        }
    }
}
