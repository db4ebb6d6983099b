//! The LEDs as one number.
ghost use Rattle.std.specs.Prelude.{◌≡◌, ◌<◌, ◌^◌, if◌then◌else◌};
ghost use Rattle.tk_base.specs.Bits.{bits_of};

use board_devices::Leds;

/// The bit of an LED, where it is on.
fn bit(led: u32, on: bool) -> u32
    requires { led < 16 }
    ensures { result ≡ (if on then 2 ^ led else 0) }
{
    if on { 1 << led } else { 0 }
}

/// The LEDs as one number: bit n is LED n.
pub fn bits(leds: &Leds) -> u32
    ensures { result ≡ bits_of leds.now }
{
    let mut bits = 0;
    for led in 0..leds.len() {
        bits += bit(led, leds.is_on(led));
    }
    bits
}
