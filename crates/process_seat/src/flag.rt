//! The byte by which a yield tells whether an upcall was delivered.
ghost use Rattle.std.specs.Prelude.{◌≡◌};
ghost use Rattle.process_model.specs.Flag.{with_flag};
ghost use Rattle.process_seat.specs.Seats.{Reseats, SitsIn, own_in};

use crate::seat::Seat;
use board_memory::{Block, Memory};
use tk_base::Addr;

/// Writes a byte of a process, where it lies in accessible RAM.
pub fn put_flag_at(memory: &mut Memory, seat: &Seat, at: Addr, flag: u8)
    requires { SitsIn memory.old seat.now }
    ensures own { own_in memory.new.ram seat.now
        ≡ with_flag at flag (own_in memory.old.ram seat.now) }
    ensures reseats { Reseats memory.old seat.now memory.new seat.now }
{
    let layout = seat.layout;
    if !layout.in_ram(at, 1) {
        return;
    }
    let Block { bytes, .. } = memory.lend_block(&layout);
    bytes[(at - layout.start) as usize] = flag;
}
