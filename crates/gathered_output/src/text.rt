//! What is written.
ghost use Rattle.tk_outside.specs.Writes.{Writes};

use tk_outside::{Failed, Sink, put_all};

/// A text that can be written to any sink.
pub trait Text {
    ghost use Rattle.std.specs.Prelude.{ℕ, List};

    /// Its bytes.
    ghost bytes: { Self → List ℕ };

    /// Writes it. After a [`Failed`] the sink has a part of it that lacks at least one byte.
    fn write_to<K: Sink>(&self, out: &mut K) -> Result<(), Failed>
        ensures { Writes K.tells out.old out.new (bytes self.now) result };
}

/// Bytes as a text.
#[derive(Clone, Copy)]
pub(crate) struct Piece<'a> {
    pub bytes: &'a [u8],
}

impl Text for Piece<'_> {
    ghost bytes = { λ text. text.bytes.now };

    fn write_to<K: Sink>(&self, out: &mut K) -> Result<(), Failed> {
        put_all(out, self.bytes)
    }
}
