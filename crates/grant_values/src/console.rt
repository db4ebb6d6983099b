//! The console's value.
ghost use Rattle.std.specs.Prelude.{◌≡◌, ◌≤◌};

use crate::value::GrantValue;
use crate::words::{put_words, word_at};

/// A write that waits.
#[derive(Clone, Copy, Debug, PartialEq, Eq)]
pub struct WaitingWrite {
    /// How many bytes the process asked to write.
    pub length: u32,
    /// How many of them were taken so far.
    pub taken: u32,
}

/// A read that waits.
#[derive(Clone, Copy, Debug, PartialEq, Eq)]
pub struct WaitingRead {
    /// How many bytes the process asked to read.
    pub length: u32,
}

/// What the console keeps of a process: its write and its read, where they wait.
#[derive(Clone, Copy, Debug, PartialEq, Eq)]
pub struct Console {
    pub write: Option<WaitingWrite>,
    pub read: Option<WaitingRead>,
}

impl GrantValue for Console {
    ghost use Rattle.std.specs.Prelude.{refl};
    ghost use Rattle.grant_values.specs.declared.drivers.Driver.TheVariants as of;
    ghost use Rattle.grant_values.specs.Values.{ConsoleValue};
    ghost use Rattle.grant_values.specs.Kept.{console_kept};

    const SIZE: u32 = 32;

    ghost SIZE = { 32 };

    ghost count = { 8 };

    ghost driver = { of.Console };

    ghost kept = { ConsoleValue };

    ghost value_of = { console_kept };

    ghost tells = { λ value. refl };

    #[tactic(auto, unfolding(crate::specs::Words::words_of))]
    fn fresh() -> Self {
        Console {
            write: None,
            read: None,
        }
    }

    fn put(&self, into: &mut [u8]) {
        put_words(
            into,
            &[
                u32::from(self.write.is_some()),
                self.write.map_or(0, |write| write.length),
                self.write.map_or(0, |write| write.taken),
                u32::from(self.read.is_some()),
                self.read.map_or(0, |read| read.length),
                0,
                0,
                0,
            ],
        );
    }

    /// A write waits exactly where the first word is not 0, a read where the fourth is not 0.
    fn take(from: &[u8]) -> Self {
        let (words, _) = from.split_at(Self::SIZE as usize);
        Console {
            write: write_in(words),
            read: read_in(words),
        }
    }

    ghost whole = { refl };
}

ghost use Rattle.std.specs.Prelude.{length, slice_index};
ghost use Rattle.grant_values.specs.Words.{words_of};
ghost use Rattle.grant_values.specs.Console.{write_of, read_of};

/// The write that waits.
fn write_in(words: &[u8]) -> Option<WaitingWrite>
    requires { 32 ≤ length words.now }
    ensures { result ≡ write_of (words_of words.now) }
{
    if word_at(words, 0) == 0 {
        return None;
    }
    Some(WaitingWrite {
        length: word_at(words, 1),
        taken: word_at(words, 2),
    })
}

/// The read that waits.
fn read_in(words: &[u8]) -> Option<WaitingRead>
    requires { 32 ≤ length words.now }
    ensures { result ≡ read_of (words_of words.now) }
{
    if word_at(words, 3) == 0 {
        return None;
    }
    Some(WaitingRead {
        length: word_at(words, 4),
    })
}
