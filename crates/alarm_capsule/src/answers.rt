//! An alarm that is due fires.
ghost use Rattle.std.specs.Prelude.{◌≡◌, ◌+◌, ◌<◌, ◌^◌, slice_get, is_some, IfSome};
ghost use Rattle.grant_enter.specs.Homes.{own_of, ChangesOnly};
ghost use Rattle.driver_requests.specs.Asking.{IsPresent};
ghost use Rattle.driver_requests.specs.Answers.{kinds};
ghost use Rattle.driver_model.specs.Alarm.{answered, due_alarm, has_due};
ghost use Rattle.driver_model.specs.Parts.{is_due};
ghost use Rattle.driver_model.specs.Steps.{own_after};
ghost use Rattle.alarm_capsule.specs.Due.{AlarmIsDue};

use crate::commands::expiration;
use crate::visits::{Fire, alarms};
use board_devices::{Answer, Kind};
use grant_enter::Home;
use grant_values::{Alarm, Armed};
use tk_base::{ProcessId, Slot};

/// An alarm that is due, and whose it is.
#[derive(Clone, Copy)]
pub struct Due {
    pub id: ProcessId,
    pub alarm: Armed,
}

/// Whether an alarm has expired at a tick: its delta has passed since its reference.
fn has_expired(alarm: &Armed, now: u32) -> bool
    ensures { result ≡ is_due now alarm.now }
{
    now.wrapping_sub(alarm.reference) >= alarm.delta
}

/// The alarm of a process, where it has expired.
fn expired_alarm(home: &Home, id: &ProcessId, now: u32) -> Option<Armed>
    requires { IsPresent home.now id.now }
    ensures { result ≡ due_alarm now (own_of home.now id.now.slot) }
{
    match alarms().peek(home, *id) {
        Ok(Some(Alarm { armed: Some(alarm) })) if has_expired(&alarm, now) => Some(alarm),
        _ => None,
    }
}

/// The alarm of the process that lives in a slot, where it has expired.
pub(crate) fn expired_in(home: &Home, slot: Slot, now: u32) -> Option<Due>
    ensures is { is_some result ≡ has_due now (slice_get home.now.owns slot) }
    ensures due { IfSome result (AlarmIsDue now slot home.now) }
{
    let id = home.id(slot)?;
    match expired_alarm(home, &id, now) {
        Some(alarm) => Some(Due { id, alarm }),
        None => None,
    }
}

/// Fires an alarm that is due. The answer is whose it was, and the tick.
pub(crate) fn fire(home: &mut Home, due: &Due, now: u32) -> Answer
    requires due { AlarmIsDue now due.now.id.slot home.old due.now }
    requires dropped { (own_of home.old due.now.id.slot).inbox.dropped + 1 < 2 ^ 32 }
    ensures answer { result ≡ record { to = due.now.id; kind = kinds.alarmed now } }
    ensures own { own_of home.new due.now.id.slot
        ≡ own_after (answered now (own_of home.old due.now.id.slot)) }
    ensures rest { ChangesOnly due.now.id.slot home.old home.new }
{
    let fire = Fire {
        now,
        expiration: expiration(&due.alarm),
    };
    let _ = alarms().visit(home, due.id, fire);
    Answer {
        to: due.id,
        kind: Kind::Alarm(now),
    }
}
