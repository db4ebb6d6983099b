//! The seat of one process, lent with memory.
ghost use Rattle.std.specs.Prelude.{◌<◌, length, List, ℕ};
ghost use Rattle.process_model.specs.Own.{Own};
ghost use Rattle.process_seat.specs.Seats.{Reseats, own_in};
ghost use Rattle.grant_enter.specs.Lent.{IsLentSeat};
ghost use Rattle.grant_enter.specs.Homes.{own_of, ChangesOnly};

use crate::home::Home;
use board_memory::Memory;
use process_seat::Seat;
use tk_base::Slot;

/// What is done with a process in its seat, and with what is lent beside it. A visitor says itself
/// what it asks, and what it leaves.
pub trait VisitSeat<P> {
    /// What it answers.
    type Answer;

    /// What it asks of flash, of what is the process's own, and of what is lent beside.
    ghost asks: { Self → List ℕ → Own → P → Type 0 };

    /// What it leaves of them.
    ghost leaves: { Self → List ℕ → Own → P → Self.Answer → Own → P → Type 0 };

    /// Visits a process.
    fn run(self, memory: &mut Memory, seat: &mut Seat, beside: &mut P) -> Self::Answer
        requires seat { IsLentSeat memory.old seat.old }
        requires asks { asks self memory.old.flash (own_in memory.old.ram seat.old) beside.old }
        ensures leaves { leaves self memory.old.flash (own_in memory.old.ram seat.old) beside.old
            result (own_in memory.new.ram seat.new) beside.new }
        ensures reseats { Reseats memory.old seat.old memory.new seat.new };
}

impl Home {
    /// Lends the process in a slot to a visitor, with its registers or whatever stands beside it.
    /// All of another slot stays.
    pub fn lend<P, V: VisitSeat<P>>(&mut self, slot: Slot, beside: &mut P, visitor: V) -> V::Answer
        requires slot { slot < length self.old.owns }
        requires asks { V.asks visitor self.old.flash (own_of self.old slot) beside.old }
        ensures leaves { V.leaves visitor self.old.flash (own_of self.old slot) beside.old result
            (own_of self.new slot) beside.new }
        ensures rest { ChangesOnly slot self.old self.new }
    {
        let seat = &mut self.seats[slot.index()];
        visitor.run(&mut self.memory, seat, beside)
    }
}
