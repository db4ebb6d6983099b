//! Bits of a mask.
ghost use Rattle.std.specs.Prelude.{◌≡◌, ◌<◌};
ghost use Rattle.tk_base.specs.Bits.{has_bit, with_bit};

/// Whether a bit of a mask is 1. Bits are counted from 0, the lowest one.
pub fn has_bit(mask: u32, n: u32) -> bool
    requires { n < 32 }
    ensures { result ≡ has_bit mask n }
{
    (mask >> n) % 2 == 1
}

/// A mask with one bit 1, or 0. All others are as they were.
pub fn with_bit(mask: u32, n: u32, on: bool) -> u32
    requires { n < 32 }
    ensures { result ≡ with_bit mask n on }
{
    match (has_bit(mask, n), on) {
        (false, true) => mask + (1 << n),
        (true, false) => mask - (1 << n),
        (false, false) | (true, true) => mask,
    }
}
