//! The pairs that a process holds.
ghost use Rattle.std.specs.Prelude.{◌≡◌, ℕ, ◌+◌, ◌*◌, ◌/◌, ◌≤◌, List, length, slice_index, slice_set};
ghost use Rattle.grant_values.specs.Words.{bytes_of_words, words_of};
ghost use Rattle.tk_base.specs.Places.{pair_place};
ghost use Rattle.swap_tables.specs.Swaps.{CanLookUp, held_pair};

use grant_model::{Area, areas_are_found, pairs_are_found};
use grant_region::area;
use grant_values::{put_word, word_at, words_in_bytes};
use tk_base::{Counts, PairKind};

/// The pair of a kind and a number that the process holds with the driver (TRD 104, "Subscribe",
/// "Read-Only Allow", "Read-Write Allow"): an upcall's function and application data, or a buffer's
/// address and size in bytes. It is (0, 0) where the process has not entered the driver. `kernel` is
/// the block from the kernel break on, and `counts` are the driver's.
pub fn pair_held(
    kernel: &[u8],
    driver: u32,
    counts: &Counts,
    kind: PairKind,
    number: u32,
) -> (u32, u32)
    requires { CanLookUp kind driver counts.now number kernel.now }
    ensures { result ≡ held_pair kind driver number kernel.now }
{
    words_in_bytes();
    areas_are_found();
    pairs_are_found();
    match area(kernel, driver) {
        None => (0, 0),
        Some(found) => pair_at(kernel, first_word(&found, counts, kind, number)),
    }
}

/// In which word of the kernel's bytes a pair begins.
pub(crate) fn first_word(area: &Area, counts: &Counts, kind: PairKind, number: u32) -> usize
    ensures { result ≡ area.now.offset / 4 + 2 + 2 * pair_place kind number counts.now }
{
    area.offset as usize / 4 + 2 + 2 * (kind.pairs_before(counts) + number as usize)
}

/// The pair that begins in word `at` of some bytes.
pub(crate) fn pair_at(bytes: &[u8], at: usize) -> (u32, u32)
    requires { 4 * at + 8 ≤ length bytes.now }
    ensures { result ≡
        (slice_index (words_of bytes.now) at, slice_index (words_of bytes.now) (at + 1)) }
{
    (word_at(bytes, at), word_at(bytes, at + 1))
}

/// Puts a pair at word `at` of some bytes. All other bytes stay.
pub(crate) fn put_pair(bytes: &mut [u8], at: usize, pair: (u32, u32))
    requires { 4 * at + 8 ≤ length bytes.old }
    ensures bytes { (words : List ℕ) → bytes.old ≡ bytes_of_words words
        → bytes.new ≡ bytes_of_words (slice_set (slice_set words at pair.0) (at + 1) pair.1) }
    ensures length { length bytes.new ≡ length bytes.old }
{
    put_word(bytes, at, pair.0);
    put_word(bytes, at + 1, pair.1);
}
