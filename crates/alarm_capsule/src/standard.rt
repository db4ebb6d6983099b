//! What the surface of a driver owes and the board does not take: the alarm's answer, found by
//! asking each process. The board's alarm answers by times that are kept
//! ([`AlarmCapsule::answer_by`]).
ghost use Rattle.std.specs.Prelude.{◌≡◌, ◌+◌, ◌-◌, ◌<◌, ◌^◌, false, All, find, slice_get, IfSome};
ghost use Rattle.std.specs.List.{range_with_len};
ghost use Rattle.std.specs.Option.{option_map};
ghost use Rattle.driver_model.specs.Alarm.{due_for, due_slot, has_due};
ghost use Rattle.alarm_capsule.specs.Answers.{AlarmAnswers};
ghost use Rattle.alarm_capsule.specs.Due.{AlarmIsDue};

use crate::answers::{Due, expired_in, fire};
use crate::capsule::AlarmCapsule;
use board_devices::Answer;
use grant_enter::Home;
use tk_base::{NotReady, SLOT_COUNT, Slot};

/// The alarm that is due in the lowest slot.
#[tactic(auto, unfolding(driver_model::specs::Alarm::due_slot))]
fn first_expired(home: &Home, now: u32) -> Option<Due>
    ensures slot { option_map (λ due. due.id.slot) result ≡ due_slot now home.now.owns }
    ensures due { IfSome result (λ due. AlarmIsDue now due.id.slot home.now due) }
{
    for slot in 0..SLOT_COUNT {
        if let Some(due) = expired_in(home, Slot::new(slot), now) {
            return Some(due);
        }
    }
    None
}

/// The alarm that is due in the lowest slot, or in the one slot that is served.
fn expired_for(home: &Home, now: u32, only: Option<Slot>) -> Option<Due>
    ensures slot { option_map (λ due. due.id.slot) result ≡ due_for only now home.now.owns }
    ensures due { IfSome result (λ due. AlarmIsDue now due.id.slot home.now due) }
{
    match only {
        None => first_expired(home, now),
        Some(slot) => expired_in(home, slot, now),
    }
}

impl AlarmCapsule {
    /// The alarm of the lowest slot whose alarm is due at a tick of the clock fires, or that of the
    /// one slot which is served: it is disarmed, the clock is shown as by command 2, and upcall 0 is
    /// scheduled with that tick and its expiration. The answer is whose alarm it was, and the tick.
    /// [`NotReady`] comes exactly where no alarm of a process that lives and is served is due, and
    /// then nothing changes. Nothing of another slot changes.
    pub fn answer(
        &mut self,
        home: &mut Home,
        now: u32,
        only: Option<Slot>,
    ) -> Result<Answer, NotReady>
        requires dropped { All (λ own. own.inbox.dropped + 1 < 2 ^ 32) home.old.owns }
        ensures { AlarmAnswers only now home.old result home.new }
    {
        let Some(due) = expired_for(home, now, only) else {
            return Err(NotReady);
        };
        Ok(fire(home, &due, now))
    }
}
