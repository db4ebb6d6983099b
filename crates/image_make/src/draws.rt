//! Random draws.
ghost use Rattle.std.specs.Prelude.{◌≡◌};
ghost use Rattle.image_make.specs.Generator.{next_draw};

use std::marker::Model;

/// The draws that follow a number. Contracts see the last draw, at first the number.
#[derive(Drop)]
pub struct Draws {
    last: u32,
}

impl Model for Draws {
    ghost use Rattle.std.specs.Prelude.{ℕ};

    ghost Value = { ℕ };

    ghost view = { λ d. d.last };
}

impl Draws {
    /// The draws after a number.
    pub fn after(number: u32) -> Draws
        ensures { result ≡ number }
    {
        Draws { last: number }
    }

    /// The next draw.
    pub fn draw(&mut self) -> u32
        ensures value { result ≡ next_draw self.old }
        ensures last { self.new ≡ result }
    {
        self.last = self
            .last
            .wrapping_mul(1_664_525)
            .wrapping_add(1_013_904_223);
        self.last
    }
}
