//! A list of words.
ghost use Rattle.std.specs.Prelude.{◌≡◌};

use std::marker::Model;

/// A list of 32-bit words. Contracts see the list.
#[derive(Drop)]
pub struct WordList {
    words: Vec<u32>,
}

impl Model for WordList {
    ghost use Rattle.std.specs.Prelude.{ℕ, List};

    ghost Value = { List ℕ };

    ghost view = { λ w. w.words.items };
}

impl WordList {
    /// The list of the words of a `Vec`. It takes no memory.
    pub fn new(words: Vec<u32>) -> WordList
        ensures { result ≡ words.items }
    {
        WordList { words }
    }

    /// The words, the first one first.
    pub fn as_slice(&self) -> &[u32]
        ensures { result.now ≡ self.now }
    {
        &self.words
    }

    /// The `Vec` that has the words. It takes no memory.
    pub fn into_vec(self) -> Vec<u32>
        ensures { result.items ≡ self }
    {
        self.words
    }
}
