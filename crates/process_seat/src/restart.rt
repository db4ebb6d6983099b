//! A process that is started again, in its seat.
ghost use Rattle.std.specs.Prelude.{◌≡◌, ◌+◌, ◌<◌, ◌≤◌, ◌%◌, ◌^◌};
ghost use Rattle.process_model.specs.Own.{own_restarted};
ghost use Rattle.process_seat.specs.Seats.{Reseats, SitsIn, own_in};

use crate::seat::Seat;
use board_memory::Memory;
use grant_model::what_is_laid_is_read_back;
use tk_base::Addr;

/// Starts the process in a seat again, with its first break: every byte of its block is 0, it has
/// no grants, nothing is scheduled for it, its next life begins, and it lives.
pub fn restart_seat(memory: &mut Memory, seat: &mut Seat, brk: Addr)
    requires sits { SitsIn memory.old seat.old }
    requires from { seat.old.layout.start ≤ brk }
    requires to { brk ≤ seat.old.layout.end }
    requires aligned { brk % 4 ≡ 0 }
    requires life { seat.old.life + 1 < 2 ^ 32 }
    ensures own { own_in memory.new.ram seat.new
        ≡ own_restarted brk (own_in memory.old.ram seat.old) }
    ensures reseats { Reseats memory.old seat.old memory.new seat.new }
{
    what_is_laid_is_read_back();
    seat.layout.restart(brk);
    seat.inbox.clear();
    seat.life += 1;
    seat.lives = true;
    memory.clear_block(&seat.layout);
}
