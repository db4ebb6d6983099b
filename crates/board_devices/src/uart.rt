//! The UART.
ghost use Rattle.std.specs.Prelude.{◌≡◌, ◌≤◌, [], IfOk, drop, length, take};

use arrayvec::ArrayVec;
use circular_buffer::HeapCircularBuffer;
use std::alloc::Global;
use std::marker::Model;
use tk_base::RING_SIZE;
use tk_outside::NoMemory;

/// A UART: an input ring of [`RING_SIZE`] bytes, and a sending half, which is free from some time on. Contracts see
/// the bytes in the ring, the oldest first, beside the free time and the ticks that a byte takes.
#[derive(Drop)]
pub struct Uart {
    ring: HeapCircularBuffer<u8>,
    ticks: u32,
    free: u64,
}

impl Model for Uart {
    ghost use Rattle.std.specs.Prelude.{◌≡◌};
    ghost use Rattle.tk_base.specs.declared.limits.TheConstants.{RING_SIZE};
    ghost use Rattle.board_devices.specs.SerialLine.{SerialLine};

    ghost Value = { SerialLine };

    ghost view = { λ u. record { ring = u.ring.items; ticks = u.ticks; free = u.free } };

    ghost invariant = { λ u. u.ring.capacity ≡ RING_SIZE };
}

impl Uart {
    ghost use Rattle.tk_base.specs.declared.limits.TheConstants.{RING_SIZE};
    ghost use Rattle.board_devices.specs.SerialLine.{with_input};

    /// A UART that takes so many ticks to send a byte, is free from time 0 on and has no input. It fails
    /// where there is no memory for the ring.
    pub fn new(alloc: Global, ticks: u32) -> Result<Uart, NoMemory>
        ensures { IfOk result (λ uart. uart ≡ record { ring = []; ticks = ticks; free = 0 }) }
    {
        match HeapCircularBuffer::with_capacity(alloc, RING_SIZE) {
            Ok(ring) => Ok(Uart {
                ring,
                ticks,
                free: 0,
            }),
            Err(_) => Err(NoMemory),
        }
    }

    /// The same again. The one error is want of memory.
    pub fn copied(&self, alloc: Global) -> Result<Uart, NoMemory>
        ensures { IfOk result (λ it. it ≡ self.now) }
    {
        let mut uart = Uart::new(alloc, self.ticks)?;
        uart.push(&self.peek());
        uart.set_free(self.free);
        Ok(uart)
    }

    /// How many ticks it takes to send a byte.
    pub fn ticks(&self) -> u32
        ensures { result ≡ self.now.ticks }
    {
        self.ticks
    }

    /// The time, in ticks, from which on it can send.
    pub fn free(&self) -> u64
        ensures { result ≡ self.now.free }
    {
        self.free
    }

    /// Sets the time from which on it can send. Nothing else changes.
    pub fn set_free(&mut self, time: u64)
        ensures { self.new ≡ record self.old { free = time } }
    {
        self.free = time;
    }

    /// Puts bytes that came in at the end of the ring, the first one first. Of what does not fit the
    /// oldest bytes are overwritten. Nothing else changes.
    pub fn push(&mut self, bytes: &[u8])
        ensures { self.new ≡ with_input bytes.now self.old }
    {
        self.ring.extend_from_slice(bytes);
    }

    /// How many bytes are in the ring.
    pub fn held(&self) -> usize
        ensures number { result ≡ length self.now.ring }
        ensures most { result ≤ RING_SIZE }
    {
        self.ring.len()
    }

    /// All bytes of the ring, the oldest first. They stay there.
    pub fn peek(&self) -> ArrayVec<u8, RING_SIZE>
        ensures { result.items ≡ self.now.ring }
    {
        let mut bytes = ArrayVec::new();
        if self.held() == 0 {
            return bytes;
        }
        let (older, newer) = self.ring.as_slices();
        let Ok(()) = bytes.try_extend_from_slice(older) else {
            unreachable!()
        };
        let Ok(()) = bytes.try_extend_from_slice(newer) else {
            unreachable!()
        };
        bytes
    }

    /// Moves the oldest bytes of the ring to a slice, as many as it has room for. It asks that the ring
    /// has so many. Nothing else changes.
    pub fn take(&mut self, into: &mut [u8])
        requires { length into.old ≤ length self.old.ring }
        ensures taken { into.new ≡ take (length into.old) self.old.ring }
        ensures left { self.new ≡ record self.old { ring = drop (length into.old) self.old.ring } }
    {
        self.ring.read_into(into);
    }
}
