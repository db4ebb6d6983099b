//! Commands to the LEDs (TRD 104, "Command").
ghost use Rattle.std.specs.Prelude.{◌≡◌, length, OnErr, OnSome};
ghost use Rattle.process_model.specs.Own.{Own};
ghost use Rattle.driver_model.specs.Commands.{by_number, Switch, Toggle};
ghost use Rattle.driver_model.specs.Leds.{commands, is_on_after, switching};
ghost use Rattle.tk_base.specs.Bits.{bits_of, has_bit};
ghost use Rattle.led_capsule.specs.Obeys.{LedsObey, LedsReply};

use board_devices::Leds;
use syscall_abi::{Reply, reply_of};
use tk_base::{CallRule, flags_are_bits};

/// Whether an LED is on. One that there is not is off.
fn is_on(leds: &Leds, led: u32) -> bool
    ensures { result ≡ has_bit (bits_of leds.now) led }
{
    flags_are_bits();
    led < leds.len() && leds.is_on(led)
}

/// Turns an LED on or off; it is refused where there is none of that number.
fn light(leds: &mut Leds, led: u32, on: bool) -> Result<Reply, CallRule>
    ensures obeys { (own : Own) (switch : Switch)
        → is_on_after switch (has_bit (bits_of leds.old) led) ≡ on
        → LedsObey (switching (length leds.old) led switch own) leds.old result leds.new }
    ensures kept { OnErr result (leds.new ≡ leds.old) }
{
    flags_are_bits();
    if led >= leds.len() {
        return Err(CallRule::Range);
    }
    leds.set(led, on);
    Ok(Reply::Success)
}

/// Turns an LED to what it is not; it is refused where there is none of that number.
fn toggle(leds: &mut Leds, led: u32) -> Result<Reply, CallRule>
    ensures obeys { (own : Own) →
        LedsObey (switching (length leds.old) led Toggle own) leds.old result leds.new }
    ensures kept { OnErr result (leds.new ≡ leds.old) }
{
    let on = !is_on(leds, led);
    light(leds, led, on)
}

/// A command of a process to the LEDs: the reply, or the rule that refuses it.
#[tactic(auto, unfolding(driver_model::specs::Leds::commands))]
fn obey(leds: &mut Leds, number: u32, a2: u32) -> Result<Reply, CallRule>
    ensures obeys { (own : Own) → let lit = leds.old in
        LedsObey (by_number (commands (length lit) a2) number own) lit result leds.new }
    ensures kept { OnErr result (leds.new ≡ leds.old) }
{
    match number {
        0 => Ok(Reply::SuccessU32(leds.len())),
        1 => light(leds, a2, true),
        2 => light(leds, a2, false),
        3 => toggle(leds, a2),
        _ => Err(CallRule::NoCommand),
    }
}

/// Serves a command of a process to the LEDs: the reply, and the rule that refuses it, if one does. 0 asks for the
/// number of LEDs; 1 turns LED `a2` on, 2 turns it off, 3 turns it to what it is not, each refused with
/// [`CallRule::Range`] where there is no LED of that number. Any other number is refused with [`CallRule::NoCommand`].
/// No LED but `a2` changes, and none where it is refused.
pub fn command(leds: &mut Leds, number: u32, a2: u32) -> (Reply, Option<CallRule>)
    ensures replies { (own : Own) → let lit = leds.old in
        LedsReply (by_number (commands (length lit) a2) number own) lit result leds.new }
    ensures kept { OnSome result.1 (leds.new ≡ leds.old) }
{
    reply_of(obey(leds, number, a2))
}
