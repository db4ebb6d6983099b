//! Commands to the alarm (TRD 104, "Command").
ghost use Rattle.std.specs.Prelude.{◌≡◌, ◌+◌, ◌%◌, ◌<◌, ◌^◌, false, length, is_some};
ghost use Rattle.grant_enter.specs.Homes.{own_of, ChangesOnly};
ghost use Rattle.driver_requests.specs.Asking.{IsPresent};
ghost use Rattle.driver_model.specs.Alarm.{alarm_in, arming, commands, expiration, showing};
ghost use Rattle.driver_model.specs.Alarm.{stopping};
ghost use Rattle.driver_model.specs.Commands.{as_commanded, by_number};

use crate::visits::{Arm, Show, Stop, alarms};
use grant_enter::Home;
use grant_values::Armed;
use syscall_abi::Reply;
use tk_base::{CallRule, ProcessId};

/// Ticks of the clock in a second.
const FREQUENCY: u32 = 1000;

/// The tick at which an alarm expires.
pub(crate) fn expiration(alarm: &Armed) -> u32
    ensures { result ≡ expiration alarm.now }
{
    alarm.reference.wrapping_add(alarm.delta)
}

/// Arms an alarm of a process, in place of the one before.
fn arm(home: &mut Home, id: ProcessId, alarm: Armed) -> Result<Reply, CallRule>
    requires { IsPresent home.old id }
    ensures answer { as_commanded result (own_of home.new id.slot)
        ≡ arming alarm (own_of home.old id.slot) }
    ensures rest { ChangesOnly id.slot home.old home.new }
{
    let reply = Reply::SuccessU32(expiration(&alarm));
    match alarms().enter(home, id, Arm { alarm }) {
        Ok(()) => Ok(reply),
        Err(_) => Err(CallRule::NoRoom),
    }
}

/// Stops the alarm of a process; it is refused where none is armed.
#[tactic(auto, using(driver_requests::proofs::Keeping::kept_still))]
fn stop(home: &mut Home, id: ProcessId) -> Result<Reply, CallRule>
    requires { IsPresent home.old id }
    ensures answer { let own = own_of home.old id.slot in
        as_commanded result (own_of home.new id.slot) ≡ stopping (alarm_in own) own }
    ensures rest { ChangesOnly id.slot home.old home.new }
{
    match alarms().visit(home, id, Stop) {
        Ok(true) => Ok(Reply::Success),
        Ok(false) | Err(_) => Err(CallRule::Nothing),
    }
}

/// Shows the clock to a process, where it has a buffer for that.
fn show(home: &mut Home, id: ProcessId, now: u32)
    requires { IsPresent home.old id }
    ensures shown { own_of home.new id.slot ≡ showing now (own_of home.old id.slot) }
    ensures rest { ChangesOnly id.slot home.old home.new }
{
    let _ = alarms().visit(home, id, Show { now });
}

/// A command of the process of an id to the alarm, at a tick of the clock: the reply, or the rule
/// that refuses it.
#[tactic(auto, unfolding(driver_model::specs::Alarm::commands))]
pub(crate) fn obey(
    home: &mut Home,
    now: u32,
    id: ProcessId,
    number: u32,
    a2: u32,
    a3: u32,
) -> Result<Reply, CallRule>
    requires { IsPresent home.old id }
    ensures answer { as_commanded result (own_of home.new id.slot)
        ≡ by_number (commands now a2 a3) number (own_of home.old id.slot) }
    ensures rest { ChangesOnly id.slot home.old home.new }
{
    match number {
        0 => Ok(Reply::Success),
        1 => Ok(Reply::SuccessU32(FREQUENCY)),
        2 => {
            show(home, id, now);
            Ok(Reply::SuccessU32(now))
        }
        3 => stop(home, id),
        5 => arm(
            home,
            id,
            Armed {
                reference: now,
                delta: a2,
            },
        ),
        6 => arm(
            home,
            id,
            Armed {
                reference: a2,
                delta: a3,
            },
        ),
        _ => Err(CallRule::NoCommand),
    }
}
