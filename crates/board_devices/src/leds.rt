//! The LEDs.
ghost use Rattle.std.specs.Prelude.{◌≡◌, ◌==◌, ◌<◌, ◌≤◌, false, length, replicate, slice_index_or, slice_set};
ghost use Rattle.tk_base.specs.declared.limits.TheConstants.{LED_LIMIT};

use arrayvec::ArrayVec;
use std::marker::Model;
use tk_base::LED_LIMIT;

/// The LEDs of the board, at most [`LED_LIMIT`]. Contracts see the list of whether each is on, LED 0 first.
#[derive(Drop)]
pub struct Leds {
    lit: ArrayVec<bool, LED_LIMIT>,
}

impl Model for Leds {
    ghost use Rattle.std.specs.Prelude.{Bool, List, ◌≤◌, length};
    ghost use Rattle.tk_base.specs.declared.limits.TheConstants.{LED_LIMIT};

    ghost Value = { List Bool };

    ghost view = { λ l. l.lit.items };

    ghost invariant = { λ l. length l.lit.items ≤ LED_LIMIT };
}

impl Leds {
    /// So many LEDs, at most [`LED_LIMIT`], which are off.
    pub fn new(n: u32) -> Leds
        requires { n ≤ LED_LIMIT }
        ensures { result ≡ replicate n false }
    {
        let mut lit = ArrayVec::from([false; LED_LIMIT]);
        lit.truncate(n as usize);
        Leds { lit }
    }

    /// The same again.
    pub fn copied(&self) -> Leds
        ensures { result ≡ self.now }
    {
        let mut lit = ArrayVec::new();
        let Ok(()) = lit.try_extend_from_slice(&self.lit) else {
            unreachable!()
        };
        Leds { lit }
    }

    /// How many LEDs there are.
    pub fn len(&self) -> u32
        ensures number { result ≡ length self.now }
        ensures few { result ≤ LED_LIMIT }
    {
        self.lit.len() as u32
    }

    /// Whether there are none.
    pub fn is_empty(&self) -> bool
        ensures { result ≡ (length self.now == 0) }
    {
        self.lit.is_empty()
    }

    /// Turns an LED on or off. It asks that there is one of this number.
    pub fn set(&mut self, n: u32, on: bool)
        requires { n < length self.old }
        ensures { self.new ≡ slice_set self.old n on }
    {
        self.lit[n as usize] = on;
    }

    /// Whether an LED is on. It asks that there is one of this number.
    pub fn is_on(&self, n: u32) -> bool
        requires { n < length self.now }
        ensures { result ≡ slice_index_or self.now n false }
    {
        self.lit[n as usize]
    }
}
