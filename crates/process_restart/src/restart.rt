//! A process that starts again (TRD 104, "Exit").
ghost use Rattle.std.specs.Prelude.{◌≡◌, ◌+◌, ◌<◌, ◌^◌, length};
ghost use Rattle.process_model.specs.Flash.{object_in};
ghost use Rattle.grant_enter.specs.Homes.{own_of, ChangesOnly};
ghost use Rattle.process_restart.specs.Own.{IsOwn, KeepsObject, LivesOn};
ghost use Rattle.process_restart.specs.Restarts.{StartsAgain};

use crate::headers::start_of;
use grant_enter::Home;
use process_record::Process;
use tk_base::Slot;

/// Starts the process in a slot again, over a block of zeros, by the header of its object. It asks
/// that the process is that slot's, with an object that can start, and that its counts of restarts
/// and of lives can rise.
pub fn restart_process(home: &mut Home, process: &mut Process, slot: Slot)
    requires slot { slot < length home.old.owns }
    requires own { IsOwn home.old.flash process.old (own_of home.old slot) }
    requires count { process.old.restarts + 1 < 2 ^ 32 }
    requires life { (own_of home.old slot).life + 1 < 2 ^ 32 }
    ensures restarted { StartsAgain (object_in home.old.flash process.old.object)
        (process.old, own_of home.old slot) (process.new, own_of home.new slot) }
    ensures own { IsOwn home.new.flash process.new (own_of home.new slot) }
    ensures stays { KeepsObject process.old process.new }
    ensures lives_on { LivesOn (own_of home.old slot) (own_of home.new slot) }
    ensures rest { ChangesOnly slot home.old home.new }
{
    let start = start_of(home.flash(), &process.object);
    let layout = home.layout(slot);
    let brk = layout.first_break(start.minimum_ram);
    process.restart(start, layout.start, layout.end - layout.start, brk);
    home.restart(slot, brk);
}
