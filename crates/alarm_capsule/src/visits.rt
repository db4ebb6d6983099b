//! What the alarm does with the value that a process keeps for it.
ghost use Rattle.std.specs.Prelude.{◌≡◌, ◌<◌};
ghost use Rattle.grant_values.specs.declared.drivers.Driver.TheVariants.{Alarm as AlarmDriver};
ghost use Rattle.grant_values.specs.Drivers.{counts_by};
ghost use Rattle.driver_model.specs.Alarm.{alarm_driver, showing};
ghost use Rattle.process_seat.specs.Seen.{Framed, IsLent, own_entered, seen};

use grant_enter::{
    Entered, Grant, Visit, a_buffer_is_written, buffers_are_whole, frames_join, put_from,
};
use grant_values::{Alarm, Armed, Driver};

/// The grants that processes keep for the alarm: one upcall, and one readable buffer.
pub(crate) type Alarms = Grant<Alarm, 1, 0, 0, 1>;

/// Those that there are.
#[tactic(auto, unfolding(grant_values::specs::Drivers::counts_of, grant_values::specs::Drivers::drivers))]
pub(crate) fn alarms() -> Alarms
    ensures driver { result.driver ≡ alarm_driver }
    ensures counts { result.counts ≡ counts_by AlarmDriver }
{
    Alarms::of(Driver::Alarm.number())
}

/// Arms an alarm, in place of the one before.
#[derive(Drop)]
pub(crate) struct Arm {
    pub alarm: Armed,
}

impl Visit<Alarm> for Arm {
    ghost use Rattle.std.specs.Prelude.{◌≡◌, Some};

    type Answer = ();

    ghost asks = { λ arm value seen. Unit {0} };

    ghost leaves = { λ arm value seen answer value' own.
        (value' ≡ record { armed = Some arm.alarm }) × (own ≡ seen.own) };

    fn run(self, value: &mut Alarm, _entered: &mut Entered<'_>) {
        frames_join();
        value.armed = Some(self.alarm);
    }
}

/// Stops the alarm. It answers whether one was armed.
#[derive(Drop)]
pub(crate) struct Stop;

impl Visit<Alarm> for Stop {
    ghost use Rattle.std.specs.Prelude.{◌≡◌, None, is_some};

    type Answer = bool;

    ghost asks = { λ stop value seen. Unit {0} };

    ghost leaves = { λ stop value seen was_armed value' own.
        (was_armed ≡ is_some value.armed) × (value' ≡ record { armed = None }) × (own ≡ seen.own) };

    fn run(self, value: &mut Alarm, _entered: &mut Entered<'_>) -> bool {
        frames_join();
        let was_armed = value.armed.is_some();
        value.armed = None;
        was_armed
    }
}

/// Shows the clock to a process, in the buffer that it reads.
fn show_clock(entered: &mut Entered<'_>, now: u32)
    requires lent { IsLent entered.old }
    requires driver { (seen entered.old).driver ≡ alarm_driver }
    requires number { 0 < (seen entered.old).counts.ur }
    ensures own { own_entered entered.new ≡ showing now (own_entered entered.old) }
    // what a visitor owes
    ensures lent { IsLent entered.new }
    ensures framed { Framed entered.old entered.new }
{
    a_buffer_is_written();
    buffers_are_whole();
    put_from(entered.readable(0), 0, &now.to_le_bytes());
}

/// Shows the clock.
#[derive(Drop)]
pub(crate) struct Show {
    pub now: u32,
}

impl Visit<Alarm> for Show {
    ghost use Rattle.std.specs.Prelude.{◌≡◌, ◌<◌};
    ghost use Rattle.driver_model.specs.Alarm.{alarm_driver, showing};

    type Answer = ();

    ghost asks = { λ shows value seen. (seen.driver ≡ alarm_driver) × (0 < seen.counts.ur) };

    ghost leaves = { λ shows value seen answer value' own.
        (value' ≡ value) × (own ≡ showing shows.now seen.own) };

    fn run(self, _value: &mut Alarm, entered: &mut Entered<'_>) {
        show_clock(entered, self.now);
    }
}

/// Fires the alarm: it is stopped, the clock is shown, and its upcall tells the clock and the
/// expiration.
#[derive(Drop)]
pub(crate) struct Fire {
    pub now: u32,
    pub expiration: u32,
}

impl Visit<Alarm> for Fire {
    ghost use Rattle.std.specs.Prelude.{◌≡◌, ◌+◌, ◌<◌, ◌^◌, [], ◌∷◌, None};
    ghost use Rattle.process_model.specs.Served.{own_scheduled};
    ghost use Rattle.driver_model.specs.Alarm.{alarm_driver, showing};

    type Answer = ();

    ghost asks = { λ fire value seen. (seen.driver ≡ alarm_driver) × (0 < seen.counts.ur)
        × (0 < seen.counts.upcalls) × (seen.own.inbox.dropped + 1 < 2 ^ 32) };

    ghost leaves = { λ fire value seen answer value' own. (value' ≡ record { armed = None })
        × (own ≡ own_scheduled seen.driver 0 (fire.now ∷ fire.expiration ∷ 0 ∷ [])
        (showing fire.now seen.own)) };

    fn run(self, value: &mut Alarm, entered: &mut Entered<'_>) {
        frames_join();
        let Fire { now, expiration } = self;
        value.armed = None;
        show_clock(entered, now);
        entered.schedule(0, [now, expiration, 0]);
    }
}
