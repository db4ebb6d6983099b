//! Where text is written.
ghost use Rattle.std.specs.Prelude.{◌≤◌, ◌<◌, length, IfOk, OnErr};
ghost use Rattle.std.specs.Io.KnownBytes.{WriteAppends};
ghost use Rattle.tk_outside.specs.Count.{Rose};

use crate::failed::Failed;

/// A place that bytes are appended to, in order. A write may take only some of the bytes.
pub trait Sink {
    ghost use Rattle.tk_outside.specs.Sink.{SinkFacts};

    /// What the sink tells: the bytes written so far, and how many faults there were.
    ghost tells: { Self → SinkFacts };

    /// Appends the first bytes of the piece, and answers how many: at least one of a piece that
    /// is not empty. [`Failed`] comes only where the count of faults rose, and then nothing was
    /// appended.
    fn write(&mut self, piece: &[u8]) -> Result<usize, Failed>
        ensures within { IfOk result (λ n. n ≤ length piece.now) }
        ensures some { IfOk result (λ n. 0 < length piece.now → 0 < n) }
        ensures bytes { WriteAppends (tells self.old).written (tells self.new).written result
            piece.now }
        ensures failed { OnErr result (Rose (tells self.old).faults (tells self.new).faults) }
        ensures count { (tells self.old).faults ≤ (tells self.new).faults };
}
