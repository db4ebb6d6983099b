//! Words in bytes.
ghost use Rattle.std.specs.Prelude.{◌≡◌, ℕ, ◌+◌, ◌*◌, ◌≤◌, ◌++◌, List, length, slice_index, slice_set, take, drop};
ghost use Rattle.std.specs.List.{AllByRecursion};
ghost use Rattle.grant_values.specs.Words.{IsWord, bytes_of_words, words_of};

use byteorder::{ByteOrder, LittleEndian};

/// Word `i` of some bytes, the lowest byte first.
#[tactic(auto, using(crate::proofs::WordPlaces::word_places))]
pub fn word_at(bytes: &[u8], i: usize) -> u32
    requires { 4 * i + 4 ≤ length bytes.now }
    ensures { result ≡ slice_index (words_of bytes.now) i }
{
    let (_, rest) = bytes.split_at(4 * i);
    LittleEndian::read_u32(rest)
}

/// Puts word `i` of some bytes. All others stay.
#[tactic(auto, using(crate::proofs::WordPlaces::word_places))]
pub fn put_word(bytes: &mut [u8], i: usize, word: u32)
    requires { 4 * i + 4 ≤ length bytes.old }
    ensures words { words_of bytes.new ≡ slice_set (words_of bytes.old) i word }
    ensures bytes { (words : List ℕ) → bytes.old ≡ bytes_of_words words
        → bytes.new ≡ bytes_of_words (slice_set words i word) }
    ensures length { length bytes.new ≡ length bytes.old }
{
    let (_, rest) = bytes.split_at_mut(4 * i);
    LittleEndian::write_u32(rest, word);
}

/// Puts words into the first bytes. All bytes after them stay.
pub fn put_words(bytes: &mut [u8], words: &[u32])
    requires { 4 * length words.now ≤ length bytes.old }
    ensures written { bytes.new
        ≡ bytes_of_words words.now ++ drop (4 * length words.now) bytes.old }
    ensures back { words_of (take (4 * length words.now) bytes.new) ≡ words.now }
    ensures fits { AllByRecursion IsWord words.now }
{
    let (front, _) = bytes.split_at_mut(4 * words.len());
    LittleEndian::write_u32_into(words, front);
}
