//! What an operator does to the process in a slot, in the words of Tock's process console.
ghost use Rattle.std.specs.Prelude.{◌≡◌, ◌+◌, ◌<◌, ◌^◌, length};
ghost use Rattle.tk_base.specs.declared.process.Verb.TheVariants.{Start, Stop, Terminate};
ghost use Rattle.process_model.specs.Flash.{object_in};
ghost use Rattle.process_record.specs.Operator.{applies, process_operated};
ghost use Rattle.grant_enter.specs.Homes.{own_of, ChangesOnly};
ghost use Rattle.process_restart.specs.Own.{IsOwn, KeepsObject, LivesOn};
ghost use Rattle.process_console.specs.Acts.{Operates};

use grant_enter::Home;
use process_record::Process;
use process_restart::restart_process;
use tk_base::{Slot, Verb};

/// A process that lives is held from now on.
fn stop(process: &mut Process) -> bool
    ensures applies { result ≡ applies Stop process.old }
    ensures leaves { process.new ≡ process_operated Stop process.old }
{
    let lives = process.state.is_alive();
    if lives {
        process.hold(true);
    }
    lives
}

/// A process that is held is let go.
fn start(process: &mut Process) -> bool
    ensures applies { result ≡ applies Start process.old }
    ensures leaves { process.new ≡ process_operated Start process.old }
{
    let held = process.held;
    if held {
        process.hold(false);
    }
    held
}

/// A process that lives ends with code 0.
fn terminate(process: &mut Process) -> bool
    ensures applies { result ≡ applies Terminate process.old }
    ensures leaves { process.new ≡ process_operated Terminate process.old }
{
    let lives = process.state.is_alive();
    if lives {
        process.end(0);
    }
    lives
}

/// Does to the process in a slot what a verb says, and answers whether it applies: one that lives
/// can be stopped and ended, one that is held started, and any listed and started again (TRD 104,
/// "Exit"). A verb that does not apply changes nothing. It asks that the slot is placed, that the
/// process is that slot's, with an object whose header can start it again, and that its counts of
/// restarts and of lives can rise.
pub fn act(process: &mut Process, home: &mut Home, slot: Slot, verb: Verb) -> bool
    requires slot { slot < length home.old.owns }
    requires own { IsOwn home.old.flash process.old (own_of home.old slot) }
    requires count { process.old.restarts + 1 < 2 ^ 32 }
    requires life { (own_of home.old slot).life + 1 < 2 ^ 32 }
    ensures applies { result ≡ applies verb process.old }
    ensures leaves { Operates verb (object_in home.old.flash process.old.object)
        (process.old, own_of home.old slot) (process.new, own_of home.new slot) }
    ensures own { IsOwn home.new.flash process.new (own_of home.new slot) }
    ensures stays { KeepsObject process.old process.new }
    ensures lives_on { LivesOn (own_of home.old slot) (own_of home.new slot) }
    ensures rest { ChangesOnly slot home.old home.new }
{
    match verb {
        Verb::List => true,
        Verb::Stop => stop(process),
        Verb::Start => start(process),
        Verb::Terminate => {
            let lived = terminate(process);
            if lived {
                home.end(slot);
            }
            lived
        }
        Verb::Restart => {
            restart_process(home, process, slot);
            true
        }
    }
}
