//! A process while a driver visits its grant.
ghost use Rattle.std.specs.Prelude.{◌≡◌, ◌+◌, ◌-◌, ◌<◌, ◌≤◌, ◌^◌, IsTrue, min, length, take};
ghost use Rattle.std.specs.Prelude.{slice_range};
ghost use Rattle.std.specs.Borrow.{sem};
ghost use Rattle.tk_base.specs.declared.access.TheConstants.{FLASH_START, RAM_START};
ghost use Rattle.process_layout.specs.Bounds.{bounds_of};
ghost use Rattle.board_memory.specs.Memory.{ram_between};
ghost use Rattle.tk_base.specs.declared.kinds.PairKind.TheVariants.{ReadOnly, ReadWrite, Readable};
ghost use Rattle.tk_base.specs.Kinds.{count_of, is_writable};
ghost use Rattle.process_model.specs.Handed.{held};
ghost use Rattle.upcall_queue.specs.Pending.{is_taken};
ghost use Rattle.process_model.specs.Flash.{flash_byte};
ghost use Rattle.process_model.specs.Served.{bytes_at, ram_at, own_scheduled, upcall_of};
ghost use Rattle.process_model.specs.Served.{with_written};
ghost use Rattle.tk_base.specs.Bytes.{over};
ghost use Rattle.process_seat.specs.Buffers.{LendsBuffer, buffer_held, buffer_start, last_of};
ghost use Rattle.process_seat.specs.Places.{FitsMemory};
ghost use Rattle.process_seat.specs.Seats.{MayBeRead, readable_bytes};
ghost use Rattle.process_seat.specs.Seen.{Framed, IsLent, own_entered, seen};

use crate::kept::kernel_of;
use crate::seat::Seat;
use board_memory::Memory;
use process_layout::Layout;
use swap_tables::pair_held;
use tk_base::{Addr, Counts, FLASH_START, PairKind, RAM_START, Upcall};

/// A process while a driver visits its grant: the buffers that it has allowed the driver, which are
/// lent and never copied, and the upcalls that it has subscribed (Levy et al., SOSP 2017, section
/// 4).
#[derive(Drop)]
pub struct Entered<'a> {
    pub(crate) memory: &'a mut Memory,
    pub(crate) seat: &'a mut Seat,
    pub(crate) driver: u32,
    pub(crate) counts: Counts,
}

/// The bytes of flash from one address up to another.
fn flash_part(flash: &[u8], from: Addr, to: Addr) -> &[u8]
    requires from { FLASH_START ≤ from }
    requires order { from ≤ to }
    requires to { to ≤ FLASH_START + length flash.now }
    ensures { result.now ≡ slice_range flash.now (from - FLASH_START) (to - FLASH_START) }
{
    &flash[(from - FLASH_START) as usize..(to - FLASH_START) as usize]
}

/// The bytes of a buffer that may be read.
fn buffer_at<'a>(memory: &'a Memory, layout: &Layout, at: Addr, size: u32) -> &'a [u8]
    requires settled { FitsMemory (length memory.now.flash) (length memory.now.ram) layout.now }
    requires may { MayBeRead (bounds_of layout.now) (at, size) }
    ensures { result.now ≡ readable_bytes memory.now layout.now (at, size) }
{
    if size == 0 {
        return &[];
    }
    if at < RAM_START {
        return flash_part(memory.flash(), at, at + size);
    }
    memory.part(at, at + size)
}

/// The addresses of a buffer: its first, and the first after it.
fn ends_of(layout: &Layout, buffer: (u32, u32)) -> (Addr, Addr)
    requires { buffer.0 + buffer.1 < 2 ^ 32 }
    ensures { result ≡ (buffer_start layout.now buffer, last_of layout.now buffer) }
{
    let (at, size) = buffer;
    if size == 0 {
        return (layout.start, layout.start);
    }
    (at, at + size)
}

impl Entered<'_> {
    /// The pair of a kind and a number that the process holds with the driver.
    fn held(&self, kind: PairKind, n: u32) -> (u32, u32)
        requires lent { IsLent self.now }
        requires number { n < count_of kind (seen self.now).counts }
        ensures { result ≡ held kind (seen self.now).driver n (own_entered self.now) }
    {
        let kernel = kernel_of(self.memory, &self.seat.layout);
        pair_held(kernel, self.driver, &self.counts, kind, n)
    }

    /// The addresses of a buffer that the driver may write.
    fn ends(&self, kind: PairKind, n: u32) -> (Addr, Addr)
        requires lent { IsLent self.now }
        requires writable { IsTrue (is_writable kind) }
        requires number { n < count_of kind (seen self.now).counts }
        ensures ends { result ≡ (
          buffer_start self.now.seat.now.layout (buffer_held kind n self.now),
          last_of self.now.seat.now.layout (buffer_held kind n self.now),
        ) }
        ensures from { RAM_START ≤ result.0 }
        ensures order { result.0 ≤ result.1 }
        ensures to { result.1 ≤ RAM_START + length self.now.memory.now.ram }
        ensures bytes { ram_between self.now.memory.now.ram result.0 result.1
            ≡ ram_at (own_entered self.now) (buffer_held kind n self.now) }
    {
        let buffer = self.held(kind, n);
        ends_of(&self.seat.layout, buffer)
    }

    /// A buffer that the driver may write, lent to be written.
    fn lend(&mut self, kind: PairKind, n: u32) -> &mut [u8]
        requires lent { IsLent self.old }
        requires writable { IsTrue (is_writable kind) }
        requires number { n < count_of kind (seen self.old).counts }
        ensures* writes_back { sem 𝓛 (LendsBuffer kind n self.entry result) }
        ensures bytes { result.now
            ≡ ram_at (own_entered self.old) (buffer_held kind n self.old) }
    {
        let (from, to) = self.ends(kind, n);
        let memory = &mut *self.memory;
        memory.part_mut(from, to)
    }

    /// The read-only buffer of a number that the process has allowed the driver (TRD 104,
    /// "Read-Only Allow"). It is lent from the process's RAM, or from flash where it lies there; it
    /// has no bytes where the process has allowed none.
    pub fn read_only(&self, n: u32) -> &[u8]
        requires lent { IsLent self.now }
        requires number { n < (seen self.now).counts.ro }
        ensures { result.now ≡ bytes_at (flash_byte (seen self.now).flash) (own_entered self.now)
            (held ReadOnly (seen self.now).driver n (own_entered self.now)) }
    {
        let (at, size) = self.held(PairKind::ReadOnly, n);
        buffer_at(self.memory, &self.seat.layout, at, size)
    }

    /// The read-write buffer of a number that the process has allowed the driver (TRD 104,
    /// "Read-Write Allow"), lent to be written; it has no bytes where the process has allowed none.
    pub fn read_write(&mut self, n: u32) -> &mut [u8]
        requires lent { IsLent self.old }
        requires number { n < (seen self.old).counts.rw }
        ensures* writes_back { sem 𝓛 (LendsBuffer ReadWrite n self.entry result) }
        ensures bytes { result.now ≡ ram_at (own_entered self.old)
            (held ReadWrite (seen self.old).driver n (own_entered self.old)) }
    {
        self.lend(PairKind::ReadWrite, n)
    }

    /// The buffer of a number that the process has allowed the driver and may read while the kernel
    /// writes it (the userspace-readable allow of Tock's kernel), lent as [`Entered::read_write`].
    pub fn readable(&mut self, n: u32) -> &mut [u8]
        requires lent { IsLent self.old }
        requires number { n < (seen self.old).counts.ur }
        ensures* writes_back { sem 𝓛 (LendsBuffer Readable n self.entry result) }
        ensures bytes { result.now ≡ ram_at (own_entered self.old)
            (held Readable (seen self.old).driver n (own_entered self.old)) }
    {
        self.lend(PairKind::Readable, n)
    }

    /// Writes bytes into the read-write buffer of a number, from an offset in it on, as many as
    /// fit, and says how many.
    pub fn write(&mut self, n: u32, offset: u32, bytes: &[u8]) -> usize
        requires lent { IsLent self.old }
        requires number { n < (seen self.old).counts.rw }
        ensures count { result ≡ min (length bytes.now)
            ((held ReadWrite (seen self.old).driver n (own_entered self.old)).1 - offset) }
        ensures own { own_entered self.new
            ≡ with_written ReadWrite (seen self.old).driver n offset bytes.now
            (own_entered self.old) }
        // what a visitor owes
        ensures lent { IsLent self.new }
        ensures framed { Framed self.old self.new }
    {
        put_from(self.read_write(n), offset as usize, bytes)
    }

    /// Schedules the upcall of a number with three arguments (TRD 104, "Subscribe", "Yield"), and
    /// says whether the process gets it. One that the process waits for alone gives it these
    /// arguments; else the null upcall is not scheduled, and not counted, and one that finds no
    /// room is dropped and counted.
    pub fn schedule(&mut self, n: u32, args: [u32; 3]) -> bool
        requires lent { IsLent self.old }
        requires number { n < (seen self.old).counts.upcalls }
        requires dropped { (own_entered self.old).inbox.dropped + 1 < 2 ^ 32 }
        ensures answer { result
            ≡ is_taken (upcall_of (seen self.old).driver n args (own_entered self.old))
            (own_entered self.old).inbox }
        ensures own { own_entered self.new
            ≡ own_scheduled (seen self.old).driver n args (own_entered self.old) }
        // what a visitor owes
        ensures lent { IsLent self.new }
        ensures framed { Framed self.old self.new }
    {
        let (function, app) = self.held(PairKind::Upcall, n);
        let upcall = Upcall {
            driver: self.driver,
            number: n,
            function,
            app,
            args,
        };
        self.seat.inbox.schedule(upcall)
    }
}

/// Puts bytes into a buffer from an offset on, as many as fit, and says how many.
pub fn put_from(buffer: &mut [u8], offset: usize, bytes: &[u8]) -> usize
    ensures count { result ≡ min (length bytes.now) (length buffer.old - offset) }
    ensures buffer { buffer.new
        ≡ over buffer.old offset (take (length buffer.old - offset) bytes.now) }
    ensures long { length buffer.new ≡ length buffer.old }
{
    if offset >= buffer.len() {
        return 0;
    }
    let (_, rest) = buffer.split_at_mut(offset);
    let count = bytes.len().min(rest.len());
    let (front, _) = rest.split_at_mut(count);
    let (some, _) = bytes.split_at(count);
    front.copy_from_slice(some);
    count
}
