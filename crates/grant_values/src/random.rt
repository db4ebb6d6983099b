//! The value of the source of random words.
ghost use Rattle.std.specs.Prelude.{◌≡◌, ◌≤◌};

use crate::value::GrantValue;
use crate::words::{put_words, word_at};

/// A request for random bytes that waits.
#[derive(Clone, Copy, Debug, PartialEq, Eq)]
pub struct RandomRequest {
    /// How many bytes the process asked for.
    pub count: u32,
    /// How many of them were written so far.
    pub written: u32,
}

/// What the source of random words keeps of a process: its request, where one waits.
#[derive(Clone, Copy, Debug, PartialEq, Eq)]
pub struct Random {
    pub request: Option<RandomRequest>,
}

impl GrantValue for Random {
    ghost use Rattle.std.specs.Prelude.{refl};
    ghost use Rattle.grant_values.specs.declared.drivers.Driver.TheVariants as of;
    ghost use Rattle.grant_values.specs.Values.{RandomValue};
    ghost use Rattle.grant_values.specs.Kept.{random_in};

    const SIZE: u32 = 24;

    ghost SIZE = { 24 };

    ghost count = { 6 };

    ghost driver = { of.Random };

    ghost kept = { λ random. RandomValue random.request };

    ghost value_of = { random_in };

    ghost tells = { λ value. refl };

    #[tactic(auto, unfolding(crate::specs::Words::words_of))]
    fn fresh() -> Self {
        Random { request: None }
    }

    fn put(&self, into: &mut [u8]) {
        put_words(
            into,
            &[
                u32::from(self.request.is_some()),
                self.request.map_or(0, |request| request.count),
                self.request.map_or(0, |request| request.written),
                0,
                0,
                0,
            ],
        );
    }

    /// A request waits exactly where the first word is not 0.
    fn take(from: &[u8]) -> Self {
        let (words, _) = from.split_at(Self::SIZE as usize);
        if word_at(words, 0) == 0 {
            return Random { request: None };
        }
        Random {
            request: Some(RandomRequest {
                count: word_at(words, 1),
                written: word_at(words, 2),
            }),
        }
    }

    ghost whole = { refl };
}
