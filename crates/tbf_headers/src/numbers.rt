//! Little-endian numbers in bytes, and the checksum of a header.
ghost use Rattle.std.specs.Prelude.{◌≡◌, ◌+◌, ◌≤◌, length};
ghost use Rattle.tbf_headers.specs.Numbers.{half, word_at, double, checksum};

use tk_base::{Width, number_in};

/// The little-endian number of the two bytes at a place.
pub fn half_at(bytes: &[u8], at: usize) -> u16
    requires { at + 2 ≤ length bytes.now }
    ensures { result ≡ half bytes.now at }
{
    number_in(bytes, at, Width::Half) as u16
}

/// The little-endian number of the four bytes at a place.
pub fn word_at(bytes: &[u8], at: usize) -> u32
    requires { at + 4 ≤ length bytes.now }
    ensures { result ≡ word_at bytes.now at }
{
    number_in(bytes, at, Width::Word)
}

/// The little-endian number of the eight bytes at a place.
pub fn double_at(bytes: &[u8], at: usize) -> u64
    requires { at + 8 ≤ length bytes.now }
    ensures { result ≡ double bytes.now at }
{
    u64::from(word_at(bytes, at)) + 0x1_0000_0000 * u64::from(word_at(bytes, at + 4))
}

/// The exclusive or of the header's words, but for the checksum itself.
#[tactic(auto, using(crate::proofs::Places::words_more))]
pub fn checksum_of(header: &[u8]) -> u32
    ensures { result ≡ checksum header.now }
{
    let mut sum = 0;
    for k in 0..header.len() / 4 {
        sum ^= if k == 3 { 0 } else { word_at(header, 4 * k) };
    }
    sum
}
