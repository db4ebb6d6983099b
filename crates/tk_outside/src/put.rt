//! Writing whole texts to a sink. Each call either writes all of its text, or fails after a part
//! of it; none takes memory.
ghost use Rattle.std.specs.Prelude.{◌≡◌, ◌≤◌, ◌<◌, ◌^◌, decimal};
ghost use Rattle.tk_outside.specs.Writes.{Writes};
ghost use Rattle.tk_outside.specs.Text.{text_of, hex_digits, hex_glyph};
ghost use Rattle.std.specs.Prelude.{◌%◌};

use crate::failed::Failed;
use crate::sink::Sink;
use itoa::Buffer;

/// Writes the piece. After a [`Failed`] the sink has a part of it that lacks at least one byte.
pub fn put_all<K: Sink>(out: &mut K, piece: &[u8]) -> Result<(), Failed>
    ensures { Writes K.tells out.old out.new piece.now result }
{
    let mut rest = piece;
    while !rest.is_empty() {
        let taken = out.write(rest)?;
        rest = rest.split_at(taken).1;
    }
    Ok(())
}

/// Writes the pieces, one after the other.
pub fn put_pieces<K: Sink>(out: &mut K, pieces: &[&[u8]]) -> Result<(), Failed>
    ensures { Writes K.tells out.old out.new (text_of pieces.now) result }
{
    for piece in pieces {
        put_all(out, piece)?;
    }
    Ok(())
}

/// Writes a number in decimal, with no leading zero.
pub fn put_number<K: Sink>(out: &mut K, n: u64) -> Result<(), Failed>
    ensures { Writes K.tells out.old out.new (decimal n) result }
{
    let mut buffer = Buffer::new();
    put_all(out, buffer.format(n).as_bytes())
}

/// The eight digits of a number in base 16, in lower case.
pub fn hex_text(n: u32) -> [u8; 8]
    ensures { result ≡ hex_digits 8 n }
{
    [
        hex_digit(n >> 28),
        hex_digit(n >> 24),
        hex_digit(n >> 20),
        hex_digit(n >> 16),
        hex_digit(n >> 12),
        hex_digit(n >> 8),
        hex_digit(n >> 4),
        hex_digit(n),
    ]
}

/// The lowest digit of a number in base 16.
fn hex_digit(n: u32) -> u8
    ensures { result ≡ hex_glyph (n % 16) }
{
    let digit = (n % 16) as u8;
    if digit < 10 {
        b'0' + digit
    } else {
        b'a' - 10 + digit
    }
}

/// Writes a number in base 16, in lower case, with exactly so many digits.
pub fn put_hex<K: Sink>(out: &mut K, n: u32, digits: usize) -> Result<(), Failed>
    requires some { 1 ≤ digits }
    requires at_most_eight { digits ≤ 8 }
    requires fits { n < 16 ^ digits }
    ensures { Writes K.tells out.old out.new (hex_digits digits n) result }
{
    let text = hex_text(n);
    put_all(out, text.split_at(8 - digits).1)
}
