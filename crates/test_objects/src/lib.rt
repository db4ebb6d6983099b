//! Objects of flash for the tests of the crates above (Tock Binary Format, "TBF Header" and "TLV
//! Elements"), so that they name fields where they would paste bytes. The readers are judged
//! by these, and these by the bytes of one object from outside, in `unit_tests`.
#![tactic(auto)]

ghost use Rattle.std.specs.Prelude.{◌≤◌, length};

use tk_base::{Width, number_in, put_number};

/// A TLV of a header. Numbers of bytes and addresses stand as the format has them.
#[derive(Clone, Copy)]
pub enum Tlv<'a> {
    Main {
        init: u32,
        protected: u32,
        minimum_ram: u32,
    },
    Program {
        init: u32,
        protected: u32,
        minimum_ram: u32,
        binary_end: u32,
    },
    Name(&'a [u8]),
    /// The RAM start and the flash start.
    Fixed(u32, u32),
    /// Offset and size of each region in turn.
    Regions(&'a [u32]),
    /// One entry of Permissions: the driver, the offset, the low and the high word of the bits.
    Permission(u32, u32, u32, u32),
}

/// An object of N bytes whose header has these flags and TLVs and its right checksum; then come the
/// words of its code, and zeros. What would pass N bytes is left out.
pub fn object<const N: usize>(flags: u32, tlvs: &[Tlv<'_>], code: &[u32]) -> [u8; N] {
    let mut bytes = [0; N];
    let header_size = put_tlvs(&mut bytes, tlvs);
    let _ = put_words(&mut bytes, header_size, code);
    put_base(&mut bytes, header_size, flags);
    bytes
}

/// A flash image of N bytes: objects one after another, and then zeros. What would pass N bytes is left
/// out.
pub fn image<const N: usize>(objects: &[&[u8]]) -> [u8; N] {
    let mut bytes = [0; N];
    put_objects(&mut bytes, objects);
    bytes
}

/// Puts a number at a place, where it fits, and gives the place after it.
fn put(bytes: &mut [u8], at: usize, width: Width, value: u32) -> usize
    requires { at ≤ length bytes.old }
    ensures { result ≤ length bytes.new }
{
    let size = width.bytes() as usize;
    if bytes.len() - at < size {
        return at;
    }
    put_number(bytes, at, width, value);
    at + size
}

/// Puts words at a place, and gives the place after them.
fn put_words(bytes: &mut [u8], at: usize, words: &[u32]) -> usize
    requires { at ≤ length bytes.old }
    ensures { result ≤ length bytes.new }
{
    let mut next = at;
    for word in words {
        next = put(bytes, next, Width::Word, *word);
    }
    next
}

/// Puts bytes at a place, and gives the place after them.
fn put_bytes(bytes: &mut [u8], at: usize, part: &[u8]) -> usize
    requires { at ≤ length bytes.old }
    ensures { result ≤ length bytes.new }
{
    let mut next = at;
    for byte in part {
        next = put(bytes, next, Width::Byte, u32::from(*byte));
    }
    next
}

/// Puts objects one after another.
fn put_objects(bytes: &mut [u8], objects: &[&[u8]]) {
    let mut next = 0;
    for object in objects {
        next = put_bytes(bytes, next, object);
    }
}

/// Puts the bytes of a text at a place, and gives the next place at a multiple of 4.
fn put_text(bytes: &mut [u8], at: usize, text: &[u8]) -> usize
    requires { at ≤ length bytes.old }
    ensures { result ≤ length bytes.new }
{
    let next = put_bytes(bytes, at, text);
    next.saturating_add((4 - next % 4) % 4).min(bytes.len())
}

/// Puts the type and the length of a TLV.
fn put_tag(bytes: &mut [u8], at: usize, kind: u32, size: usize) -> usize
    requires { at ≤ length bytes.old }
    ensures { result ≤ length bytes.new }
{
    let at = put(bytes, at, Width::Half, kind);
    put(bytes, at, Width::Half, (size % 0x1_0000) as u32)
}

/// Puts a TLV whose content is words.
fn put_record(bytes: &mut [u8], at: usize, kind: u32, words: &[u32]) -> usize
    requires { at ≤ length bytes.old }
    ensures { result ≤ length bytes.new }
{
    let at = put_tag(bytes, at, kind, words.len().wrapping_mul(4));
    put_words(bytes, at, words)
}

/// Puts a TLV.
fn put_tlv(bytes: &mut [u8], at: usize, tlv: &Tlv<'_>) -> usize
    requires { at ≤ length bytes.old }
    ensures { result ≤ length bytes.new }
{
    match *tlv {
        Tlv::Main {
            init,
            protected,
            minimum_ram,
        } => put_record(bytes, at, 1, &[init, protected, minimum_ram]),
        Tlv::Program {
            init,
            protected,
            minimum_ram,
            binary_end,
        } => put_record(bytes, at, 9, &[init, protected, minimum_ram, binary_end, 1]),
        Tlv::Name(name) => {
            let at = put_tag(bytes, at, 3, name.len());
            put_text(bytes, at, name)
        }
        Tlv::Fixed(ram, flash) => put_record(bytes, at, 5, &[ram, flash]),
        Tlv::Regions(words) => put_record(bytes, at, 2, words),
        Tlv::Permission(driver, offset, low, high) => {
            let at = put_tag(bytes, at, 6, 18);
            let at = put(bytes, at, Width::Half, 1);
            let at = put_words(bytes, at, &[driver, offset, low, high]);
            put(bytes, at, Width::Half, 0)
        }
    }
}

/// Puts TLVs from place 16 on, and gives the header's size.
fn put_tlvs(bytes: &mut [u8], tlvs: &[Tlv<'_>]) -> usize
    ensures { result ≤ length bytes.new }
{
    let mut next = bytes.len().min(16);
    for tlv in tlvs {
        next = put_tlv(bytes, next, tlv);
    }
    next
}

/// Puts the first 16 bytes of a header: version 2, the sizes, the flags and the checksum.
fn put_base(bytes: &mut [u8], header_size: usize, flags: u32)
    requires { header_size ≤ length bytes.old }
{
    let size = (header_size % 0x1_0000) as u32;
    let total_size = (bytes.len() % 0x1_0000_0000) as u32;
    let at = put(bytes, 0, Width::Half, 2);
    let at = put(bytes, at, Width::Half, size);
    let at = put_words(bytes, at, &[total_size, flags]);
    let sum = sum_of_words(bytes.split_at(header_size).0);
    let _ = put(bytes, at, Width::Word, sum);
}

/// The exclusive or of the words of a header whose checksum is still 0.
fn sum_of_words(header: &[u8]) -> u32 {
    let mut sum = 0;
    for k in 0..header.len() / 4 {
        sum ^= number_in(header, 4 * k, Width::Word);
    }
    sum
}
