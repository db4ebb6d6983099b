//! The list of a flash image.
ghost use Rattle.std.specs.Prelude.{◌≤◌, length};
ghost use Rattle.tk_base.specs.declared.limits.TheConstants.{FLASH_LIMIT};
ghost use Rattle.tk_outside.specs.Writes.{Writes};
ghost use Rattle.board_report.specs.FlashList.{list_text};

use arrayvec::ArrayVec;
use board_report::write_list;
use flash_walk::walk;
use tk_outside::{Failed, Sink};

/// Finds the objects of a flash image of at most [`FLASH_LIMIT`](tk_base::FLASH_LIMIT) bytes, and
/// writes their list.
///
/// [`Failed`] comes only where the sink's count of faults rose; a part of the list was written then
/// that lacks at least one byte. No memory is taken.
pub fn list_out<K: Sink>(flash: &[u8], out: &mut K) -> Result<(), Failed>
    requires { length flash.now ≤ FLASH_LIMIT }
    ensures { Writes K.tells out.old out.new (list_text flash.now) result }
{
    let mut found = ArrayVec::new();
    walk(flash, &mut found);
    write_list(flash, &found, out)
}
