//! The buttons.
ghost use Rattle.std.specs.Prelude.{◌≡◌, ◌<◌, ◌≤◌, if◌then◌else◌};
ghost use Rattle.tk_base.specs.Bits.{with_bit};
ghost use Rattle.tk_base.specs.declared.limits.TheConstants.{BUTTON_LIMIT};
ghost use Rattle.board_devices.specs.Arriving.{differs};

use std::marker::Model;
use tk_base::{BUTTON_LIMIT, has_bit, with_bit};

/// A button's change.
#[derive(Clone, Copy, Debug, PartialEq, Eq)]
pub struct Edge {
    /// Which one.
    pub button: u32,
    /// Whether it is pressed now.
    pub state: bool,
}

/// The buttons of the board, at most [`BUTTON_LIMIT`]. Contracts see how many there are, and a mask
/// of those that are pressed.
#[derive(Drop)]
pub struct Buttons {
    count: u32,
    pressed: u32,
}

impl Model for Buttons {
    ghost use Rattle.std.specs.Prelude.{◌≤◌};
    ghost use Rattle.tk_base.specs.declared.limits.TheConstants.{BUTTON_LIMIT};
    ghost use Rattle.board_devices.specs.Buttons.{ButtonsView};

    ghost Value = { ButtonsView };

    ghost view = { λ b. record { count = b.count; pressed = b.pressed } };

    ghost invariant = { λ b. b.count ≤ BUTTON_LIMIT };
}

impl Buttons {
    /// So many buttons, at most [`BUTTON_LIMIT`], none of which is pressed.
    pub fn new(count: u32) -> Buttons
        requires { count ≤ BUTTON_LIMIT }
        ensures { result ≡ record { count = count; pressed = 0 } }
    {
        Buttons { count, pressed: 0 }
    }

    /// The same again.
    pub fn copied(&self) -> Buttons
        ensures { result ≡ self.now }
    {
        Buttons {
            count: self.count,
            pressed: self.pressed,
        }
    }

    /// How many buttons there are.
    pub fn count(&self) -> u32
        ensures number { result ≡ self.now.count }
        ensures few { result ≤ BUTTON_LIMIT }
    {
        self.count
    }

    /// Those that are pressed: bit n for button n.
    pub fn pressed(&self) -> u32
        ensures { result ≡ self.now.pressed }
    {
        self.pressed
    }

    /// A button is pressed, or released. Answers whether its state was another one before. It asks
    /// for the number of a button that some board has.
    pub fn set(&mut self, button: u32, state: bool) -> bool
        requires { button < BUTTON_LIMIT }
        ensures differs { result ≡ differs self.old.pressed button state }
        ensures pressed { self.new ≡ record self.old {
          pressed = if differs self.old.pressed button state then with_bit self.old.pressed button state
              else self.old.pressed;
        } }
    {
        let differs = has_bit(self.pressed, button) != state;
        if differs {
            self.pressed = with_bit(self.pressed, button, state);
        }
        differs
    }
}
