//! What the devices' surface owes and the tool does not take: the clock as a value. What it shows is
//! asked for by [`clock_at`].
ghost use Rattle.std.specs.Prelude.{◌≡◌};
ghost use Rattle.board_devices.specs.Clock.{clock_at};

use crate::clock::clock_at;
use std::marker::Model;

/// A clock of 32 bits, which wraps (Tock's 32-bit alarm). Contracts see what it shows at time 0.
#[derive(Drop)]
pub struct Clock {
    start: u32,
}

impl Model for Clock {
    ghost use Rattle.std.specs.Prelude.{ℕ};

    ghost Value = { ℕ };

    ghost view = { λ c. c.start };
}

impl Clock {
    /// The clock that shows `start` at time 0.
    pub fn new(start: u32) -> Clock
        ensures { result ≡ start }
    {
        Clock { start }
    }

    /// What the clock shows at a time, in ticks.
    pub fn now(&self, time: u64) -> u32
        ensures { result ≡ clock_at self.now time }
    {
        clock_at(self.start, time)
    }
}
