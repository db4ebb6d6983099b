//! The alarm's value.
ghost use Rattle.std.specs.Prelude.{◌≡◌, ◌≤◌};

use crate::value::GrantValue;
use crate::words::{put_words, word_at};

/// An alarm that is armed: it is due once so many ticks have passed since the reference, mod
/// `2^32`.
#[derive(Clone, Copy, Debug, PartialEq, Eq)]
pub struct Armed {
    /// Ticks of the alarm's clock.
    pub reference: u32,
    /// Ticks.
    pub delta: u32,
}

/// What the alarm keeps of a process: its alarm, where it is armed.
#[derive(Clone, Copy, Debug, PartialEq, Eq)]
pub struct Alarm {
    pub armed: Option<Armed>,
}

impl GrantValue for Alarm {
    ghost use Rattle.std.specs.Prelude.{refl};
    ghost use Rattle.grant_values.specs.declared.drivers.Driver.TheVariants as of;
    ghost use Rattle.grant_values.specs.Values.{AlarmValue};
    ghost use Rattle.grant_values.specs.Kept.{alarm_kept};

    const SIZE: u32 = 24;

    ghost SIZE = { 24 };

    ghost count = { 6 };

    ghost driver = { of.Alarm };

    ghost kept = { λ alarm. AlarmValue alarm.armed };

    ghost value_of = { alarm_kept };

    ghost tells = { λ value. refl };

    #[tactic(auto, unfolding(crate::specs::Words::words_of))]
    fn fresh() -> Self {
        Alarm { armed: None }
    }

    fn put(&self, into: &mut [u8]) {
        put_words(
            into,
            &[
                u32::from(self.armed.is_some()),
                self.armed.map_or(0, |armed| armed.reference),
                self.armed.map_or(0, |armed| armed.delta),
                0,
                0,
                0,
            ],
        );
    }

    /// The alarm is armed exactly where the first word is not 0.
    fn take(from: &[u8]) -> Self {
        let (words, _) = from.split_at(Self::SIZE as usize);
        if word_at(words, 0) == 0 {
            return Alarm { armed: None };
        }
        Alarm {
            armed: Some(Armed {
                reference: word_at(words, 1),
                delta: word_at(words, 2),
            }),
        }
    }

    ghost whole = { refl };
}
