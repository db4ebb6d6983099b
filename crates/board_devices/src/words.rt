//! The source of random words.
ghost use Rattle.std.specs.Prelude.{◌≡◌, ◌<◌, ◌∷◌, IfOk, length, slice_get};

use std::alloc::Global;
use std::marker::Model;
use tk_base::WordList;
use tk_outside::NoMemory;

/// The random words that are left. Contracts see the list of them.
#[derive(Drop)]
pub struct Words {
    words: WordList,
    drawn: usize,
}

impl Model for Words {
    ghost use Rattle.std.specs.Prelude.{ℕ, List, ◌≤◌, drop, length};

    ghost Value = { List ℕ };

    ghost view = { λ w. drop w.drawn w.words };

    ghost invariant = { λ w. w.drawn ≤ length w.words };
}

/// The same list again. The one error is want of memory.
pub(crate) fn same_words(alloc: Global, words: &WordList) -> Result<WordList, NoMemory>
    ensures { IfOk result (λ copy. copy ≡ words.now) }
{
    let mut copy = Vec::new(alloc);
    let Ok(()) = copy.extend_from_slice(words.as_slice()) else {
        return Err(NoMemory);
    };
    Ok(WordList::new(copy))
}

impl Words {
    /// All words of a list, the first to be drawn first.
    pub fn new(words: WordList) -> Words
        ensures { result ≡ words }
    {
        Words { words, drawn: 0 }
    }

    /// The same again. The one error is want of memory.
    pub fn copied(&self, alloc: Global) -> Result<Words, NoMemory>
        ensures { IfOk result (λ it. it ≡ self.now) }
    {
        let words = same_words(alloc, &self.words)?;
        Ok(Words {
            words,
            drawn: self.drawn,
        })
    }

    /// How many words are left.
    pub fn left(&self) -> usize
        ensures { result ≡ length self.now }
    {
        self.words.as_slice().len() - self.drawn
    }

    /// The next word, which stays. None exactly where none is left.
    pub fn peek(&self) -> Option<u32>
        ensures { result ≡ slice_get self.now 0 }
    {
        if self.left() == 0 {
            return None;
        }
        Some(self.words.as_slice()[self.drawn])
    }

    /// Takes the next word. It asks that one is left.
    pub fn draw(&mut self) -> u32
        requires { 0 < length self.old }
        ensures { self.old ≡ result ∷ self.new }
    {
        let word = self.words.as_slice()[self.drawn];
        self.drawn += 1;
        word
    }
}
