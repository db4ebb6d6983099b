//! The buffer in front of a sink.
ghost use Rattle.std.specs.Prelude.{◌≡◌, ◌++◌, [], true, false, OnOk};
ghost use Rattle.tk_outside.specs.Writes.{Writes};
ghost use Rattle.gathered_output.specs.Puts.{Puts};

use crate::laws::puts_compose;
use crate::text::{Piece, Text};
use arrayvec::ArrayVec;
use std::marker::Model;
use tk_outside::{Failed, Sink, put_all, writes_compose};

/// How many bytes are gathered at most.
pub const BUFFER_LEN: usize = 16_384;

/// What was written and a sink below does not hold yet. What that sink holds, and then what is
/// gathered here, is what was written. Contracts see what is gathered.
#[derive(Drop)]
pub struct OutputBuffer {
    bytes: ArrayVec<u8, BUFFER_LEN>,
}

impl Model for OutputBuffer {
    ghost use Rattle.std.specs.Prelude.{ℕ, List};

    ghost Value = { List ℕ };

    ghost view = { λ b. b.bytes.items };
}

/// Takes pieces as long as there is room for the whole of them. That it is full is no fault of
/// anything outside, so it counts none: its count stands at its last value.
impl Sink for OutputBuffer {
    ghost use Rattle.std.specs.Prelude.{◌-◌, ◌^◌, Some};

    ghost tells = { λ gathered. record { written = Some gathered; faults = 2 ^ 64 - 1 } };

    fn write(&mut self, piece: &[u8]) -> Result<usize, Failed> {
        match self.bytes.try_extend_from_slice(piece) {
            Ok(()) => Ok(piece.len()),
            Err(_) => Err(Failed),
        }
    }
}

impl OutputBuffer {
    /// Nothing is gathered yet. No memory is taken.
    pub fn new() -> OutputBuffer
        ensures { result ≡ [] }
    {
        OutputBuffer {
            bytes: ArrayVec::new(),
        }
    }

    /// Gathers the whole text where there is room for it; else nothing of it, and answers so.
    fn gather<T: Text>(&mut self, text: &T) -> bool
        ensures all { result ≡ true → self.new ≡ self.old ++ T.bytes text.now }
        ensures none { result ≡ false → self.new ≡ self.old }
    {
        let held = self.bytes.len();
        if text.write_to(self).is_ok() {
            return true;
        }
        self.bytes.truncate(held);
        false
    }

    /// Puts a text behind what is gathered. Where there is no room for it, the sink is given what
    /// is gathered, and the text too where it is longer than the buffer.
    ///
    /// [`Failed`] comes only where the sink's count of faults rose. The sink then has a part of
    /// what was gathered and of the text, which lacks at least one byte.
    pub fn put<T: Text, K: Sink>(&mut self, text: &T, out: &mut K) -> Result<(), Failed>
        ensures { Puts K.tells out.old out.new self.old self.new (T.bytes text.now) result }
    {
        writes_compose::<K>();
        if self.gather(text) {
            return Ok(());
        }
        self.flush(out)?;
        if self.gather(text) {
            return Ok(());
        }
        text.write_to(out)
    }

    /// Puts bytes behind what is gathered, as [`OutputBuffer::put`] does a text. Most often they are
    /// few, and there is room for them.
    pub fn put_bytes<K: Sink>(&mut self, bytes: &[u8], out: &mut K) -> Result<(), Failed>
        ensures { Puts K.tells out.old out.new self.old self.new bytes.now result }
    {
        puts_compose::<K>();
        if self.bytes.try_extend_from_slice(bytes).is_ok() {
            return Ok(());
        }
        self.put(&Piece { bytes }, out)
    }

    /// Gives the sink what is gathered.
    ///
    /// [`Failed`] comes only where the sink's count of faults rose. The sink then has a part of
    /// what was gathered that lacks at least one byte.
    pub fn flush<K: Sink>(&mut self, out: &mut K) -> Result<(), Failed>
        ensures text { Writes K.tells out.old out.new self.old result }
        ensures empty { OnOk result (self.new ≡ []) }
    {
        put_all(out, &self.bytes)?;
        self.bytes.clear();
        Ok(())
    }

    /// Gives the sink what is gathered and then a text, the last one.
    ///
    /// [`Failed`] comes only where the sink's count of faults rose. The sink then has a part of
    /// both that lacks at least one byte.
    pub fn finish<T: Text, K: Sink>(mut self, text: &T, out: &mut K) -> Result<(), Failed>
        ensures { Writes K.tells out.old out.new (self ++ T.bytes text.now) result }
    {
        writes_compose::<K>();
        puts_compose::<K>();
        self.put(text, out)?;
        self.flush(out)
    }
}
