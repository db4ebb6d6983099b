//! The buttons' value.
ghost use Rattle.std.specs.Prelude.{◌≡◌, ◌≤◌};

use crate::value::GrantValue;
use crate::words::{put_words, word_at};

/// What the buttons keep of a process: of which buttons it is told, as a mask, bit n for button n.
#[derive(Clone, Copy, Debug, PartialEq, Eq)]
pub struct Buttons {
    pub enabled: u32,
}

impl GrantValue for Buttons {
    ghost use Rattle.std.specs.Prelude.{refl};
    ghost use Rattle.grant_values.specs.declared.drivers.Driver.TheVariants as of;
    ghost use Rattle.grant_values.specs.Values.{ButtonsValue};
    ghost use Rattle.grant_values.specs.Kept.{buttons_in};

    const SIZE: u32 = 16;

    ghost SIZE = { 16 };

    ghost count = { 4 };

    ghost driver = { of.Buttons };

    ghost kept = { λ buttons. ButtonsValue buttons.enabled };

    ghost value_of = { buttons_in };

    ghost tells = { λ value. refl };

    #[tactic(auto, unfolding(crate::specs::Words::words_of))]
    fn fresh() -> Self {
        Buttons { enabled: 0 }
    }

    fn put(&self, into: &mut [u8]) {
        put_words(into, &[self.enabled, 0, 0, 0]);
    }

    /// The first word is the mask.
    fn take(from: &[u8]) -> Self {
        let (words, _) = from.split_at(Self::SIZE as usize);
        Buttons {
            enabled: word_at(words, 0),
        }
    }

    ghost whole = { refl };
}
