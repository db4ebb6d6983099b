//! A sink in memory.
ghost use Rattle.std.specs.Prelude.{◌≡◌, ◌≤◌, ◌<◌, [], length, min, IfOk, OnErr, Some, vec_len};
ghost use Rattle.std.specs.Vec.{vec_capacity};
ghost use Rattle.std.specs.Io.KnownBytes.{WriteAppends};
ghost use Rattle.tk_outside.specs.Count.{Rose};

use crate::failed::Failed;
use crate::schedule::Schedule;
use crate::sink::Sink;
use std::alloc::Global;
use std::marker::Model;
use tk_base::NoMemory;

/// Keeps what is written, up to its room, all of which is reserved when it is made. It can be told
/// to take few bytes at a time, and to fail at certain calls. Contracts see what was written.
#[derive(Drop)]
pub struct MemSink {
    bytes: Vec<u8>,
    most: usize,
    room: usize,
    schedule: Schedule,
}

impl Model for MemSink {
    ghost use Rattle.std.specs.Prelude.{◌≤◌, vec_len};
    ghost use Rattle.std.specs.Vec.{vec_capacity};
    ghost use Rattle.tk_outside.specs.MemSink.{KeptText};

    ghost Value = { KeptText };

    ghost view = { λ s. record {
      written = s.bytes.items;
      most = s.most;
      room = s.room;
      counts =
          s.schedule;
    } };

    ghost invariant = { λ s. (1 ≤ s.most) × (s.room ≤ vec_capacity s.bytes)
        × (vec_len s.bytes ≤ s.room) };
}

impl MemSink {
    /// An empty sink for `room` bytes, of which one write takes at most `most`. The calls of
    /// `write` whose numbers, from 1, are in `failing` fail.
    ///
    /// [`NoMemory`] where there is no memory for the room.
    pub fn new(
        alloc: Global,
        most: usize,
        room: usize,
        failing: Vec<u64>,
    ) -> Result<MemSink, NoMemory>
        requires { 1 ≤ most }
        ensures written { IfOk result (λ s. s.written ≡ []) }
        ensures most { IfOk result (λ s. s.most ≡ most) }
        ensures room { IfOk result (λ s. s.room ≡ room) }
        ensures calls { IfOk result (λ s. s.counts.calls ≡ 0) }
        ensures failing { IfOk result (λ s. s.counts.failing ≡ failing.items) }
        ensures faults { IfOk result (λ s. s.counts.faults ≡ 0) }
    {
        match Vec::with_capacity(alloc, room) {
            Ok(bytes) => Ok(MemSink {
                bytes,
                most,
                room,
                schedule: Schedule::new(failing),
            }),
            Err(_) => Err(NoMemory),
        }
    }

    /// The bytes written so far.
    pub fn written(&self) -> &[u8]
        ensures { result.now ≡ self.now.written }
    {
        self.bytes.as_slice()
    }
}

impl Sink for MemSink {
    ghost use Rattle.std.specs.Prelude.{◌≡◌, ◌≤◌, ◌<◌, length, IfOk, OnErr, Some};
    ghost use Rattle.std.specs.Option.{ok_or};
    ghost use Rattle.std.specs.Io.KnownBytes.{WriteAppends};
    ghost use Rattle.tk_outside.specs.Count.{Rose, counted};
    ghost use Rattle.tk_outside.specs.MemSink.{taken_of};

    ghost tells = { λ s. record { written = Some s.written; faults = s.counts.faults } };

    /// Takes as many bytes as `most`, the room left and the piece allow. Fails where the call is
    /// one of those that are to fail, and at a piece that is not empty where no room is left.
    fn write(&mut self, piece: &[u8]) -> Result<usize, Failed>
        ensures within { IfOk result (λ n. n ≤ length piece.now) }
        ensures some { IfOk result (λ n. 0 < length piece.now → 0 < n) }
        ensures bytes { WriteAppends (Some self.old.written) (Some self.new.written)
            result piece.now }
        ensures failed { OnErr result (Rose self.old.counts.faults self.new.counts.faults) }
        ensures count { self.old.counts.faults ≤ self.new.counts.faults }

        // What no trait says: how many bytes are taken, and that only calls are counted.
        ensures taken { result ≡ ok_or (taken_of self.old piece.now) record {} }
        ensures most { self.new.most ≡ self.old.most }
        ensures room { self.new.room ≡ self.old.room }
        ensures calls { self.new.counts.calls ≡ counted self.old.counts.calls }
        ensures failing { self.new.counts.failing ≡ self.old.counts.failing }
    {
        if self.schedule.next_fails() {
            return Err(self.schedule.fault());
        }
        let left = self.room - self.bytes.len();
        if left == 0 && !piece.is_empty() {
            return Err(self.schedule.fault());
        }
        let taken = piece.len().min(self.most).min(left);
        let Ok(()) = self.bytes.extend_from_slice(piece.split_at(taken).0) else {
            unreachable!()
        };
        Ok(taken)
    }
}
