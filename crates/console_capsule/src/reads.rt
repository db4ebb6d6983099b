//! Reads: bytes that came in are moved into the buffer of the one that waits longest.
ghost use Rattle.std.specs.Prelude.{◌≡◌, ◌==◌, ◌+◌, ◌-◌, ◌<◌, ◌≤◌, ◌^◌, if◌then◌else◌, [], min, drop};
ghost use Rattle.std.specs.Prelude.{length, take};
ghost use Rattle.tk_base.specs.Call.{code_of};
ghost use Rattle.grant_enter.specs.Homes.{own_of, ChangesOnly};
ghost use Rattle.process_seat.specs.Seen.{Framed, IsLent, own_entered, seen};
ghost use Rattle.tk_base.specs.Bytes.{over};
ghost use Rattle.driver_model.specs.Console.{console, read_status, received};
ghost use Rattle.driver_model.specs.Parts.{bytes_moving};
ghost use Rattle.driver_model.specs.Requests.{unanswered};
ghost use Rattle.driver_model.specs.Steps.{own_after};
ghost use Rattle.driver_requests.specs.Answers.{IsAnswered};
ghost use Rattle.driver_requests.specs.Asking.{MayBeTold, in_life};
ghost use Rattle.console_capsule.specs.Answers.{received_by};
ghost use Rattle.console_capsule.specs.Receiving.{taking_in, written_input};

use crate::grants::consoles;
use arrayvec::ArrayVec;
use board_devices::{Kind, Uart};
use driver_requests::{Service, VisitRequest, visit_request};
use grant_enter::{Entered, Home, a_buffer_is_written, buffers_are_whole, frames_join};
use grant_values::WaitingRead;
use tk_base::{ErrorCode, ProcessId, RING_SIZE};

/// Moves bytes that came in to the read that waits, which completes. It hands the UART back.
#[derive(Drop)]
struct Receive<'a> {
    uart: &'a mut Uart,
}

impl<'a> VisitRequest<WaitingRead> for Receive<'a> {
    ghost use Rattle.std.specs.Prelude.{◌≡◌, ◌+◌, ◌<◌, ◌^◌, drop, length, None};
    ghost use Rattle.driver_model.specs.Parts.{bytes_moving};
    ghost use Rattle.driver_model.specs.Requests.{unanswered};
    ghost use Rattle.console_capsule.specs.Receiving.{taking_in};

    type Answer = &'a mut Uart;

    ghost asks = { λ receive read seen. (seen.driver ≡ console) × (2 < seen.counts.upcalls)
        × (1 < seen.counts.rw) × (seen.own.inbox.dropped + 1 < 2 ^ 32) };

    ghost step = { λ receive read seen.
        taking_in (bytes_moving receive.uart.now.ring read seen.own) seen.own };

    ghost rest = { λ receive read seen. None };

    ghost answers = { λ receive read seen uart.
        let line = receive.uart.now in
        let bytes = bytes_moving line.ring read seen.own in
        (uart.ghost_name ≡ receive.uart.ghost_name)
        × (uart.now ≡ record line { ring = drop (length bytes) line.ring }) };

    fn run(
        self,
        read: &WaitingRead,
        entered: &mut Entered<'_>,
    ) -> (&'a mut Uart, Option<WaitingRead>) {
        let Receive { uart } = self;
        take_in(entered, uart, read);
        (uart, None)
    }
}

/// What became of a buffer that bytes were moved into.
#[derive(Clone, Copy)]
struct Filled {
    /// How many were moved.
    count: u32,
    /// How the process is told: 0, or the code for a size where the buffer has no bytes.
    status: u32,
}

/// How a process is told of a read into a buffer: 0, or the code for a size where it has no bytes.
fn status_for(buffer: &[u8]) -> u32
    ensures { result ≡ (if length buffer.now == 0 then code_of ErrorCode.SIZE else 0) }
{
    if buffer.is_empty() {
        ErrorCode::SIZE.code()
    } else {
        0
    }
}

/// Moves the oldest bytes that came in to the start of a buffer, as many as a read asks for, and no
/// more than the buffer has.
fn fill(buffer: &mut [u8], uart: &mut Uart, read: &WaitingRead) -> Filled
    ensures count { result.count
        ≡ length (take (min read.now.length (length buffer.old)) uart.old.ring) }
    ensures status { result.status
        ≡ (if length buffer.old == 0 then code_of ErrorCode.SIZE else 0) }
    ensures buffer { buffer.new
        ≡ over buffer.old 0 (take (min read.now.length (length buffer.old)) uart.old.ring) }
    ensures long { length buffer.new ≡ length buffer.old }
    ensures uart { uart.new ≡ record uart.old { ring = drop result.count uart.old.ring } }
{
    let status = status_for(buffer);
    let count = (read.length as usize).min(buffer.len()).min(uart.held());
    let (front, _) = buffer.split_at_mut(count);
    uart.take(front);
    Filled {
        count: count as u32,
        status,
    }
}

/// Moves bytes that came in to the buffer of a process.
fn fill_buffer(entered: &mut Entered<'_>, uart: &mut Uart, read: &WaitingRead) -> Filled
    requires lent { IsLent entered.old }
    requires driver { (seen entered.old).driver ≡ console }
    requires buffer { 1 < (seen entered.old).counts.rw }
    ensures count { result.count
        ≡ length (bytes_moving uart.old.ring read.now (own_entered entered.old)) }
    ensures status { result.status ≡ read_status (own_entered entered.old) }
    ensures own { let own = own_entered entered.old in
        own_entered entered.new ≡ written_input (bytes_moving uart.old.ring read.now own) own }
    ensures uart { uart.new ≡ record uart.old { ring = drop result.count uart.old.ring } }
    // what a visitor owes
    ensures lent { IsLent entered.new }
    ensures framed { Framed entered.old entered.new }
{
    a_buffer_is_written();
    buffers_are_whole();
    fill(entered.read_write(1), uart, read)
}

/// Moves bytes that came in to the buffer of a process, and tells it.
fn take_in(entered: &mut Entered<'_>, uart: &mut Uart, read: &WaitingRead)
    requires lent { IsLent entered.old }
    requires driver { (seen entered.old).driver ≡ console }
    requires upcall { 2 < (seen entered.old).counts.upcalls }
    requires buffer { 1 < (seen entered.old).counts.rw }
    requires dropped { (own_entered entered.old).inbox.dropped + 1 < 2 ^ 32 }
    ensures told { let own = own_entered entered.old in
        let bytes = bytes_moving uart.old.ring read.now own in
        (own_entered entered.new ≡ own_after (taking_in bytes own))
        × (uart.new ≡ record uart.old { ring = drop (length bytes) uart.old.ring }) }
    // what a visitor owes
    ensures lent { IsLent entered.new }
    ensures framed { Framed entered.old entered.new }
{
    frames_join();
    let filled = fill_buffer(entered, uart, read);
    entered.schedule(2, [filled.status, filled.count, 0]);
}

/// Moves bytes that came in to the read of a process, if it is there and has one. The answer is
/// whether it has.
#[tactic(auto, unfolding(driver_model::specs::Console::received))]
fn step_of(home: &mut Home, id: ProcessId, uart: &mut Uart) -> bool
    requires told { MayBeTold home.old id }
    ensures received { let own = own_of home.old id.slot in
        let r = in_life id.life own (received uart.old.ring own) (unanswered [] own) in
        (result ≡ r.completed) × (own_of home.new id.slot ≡ own_after r.step)
        × (uart.new ≡ record uart.old { ring = drop (length r.moved) uart.old.ring }) }
    ensures rest { ChangesOnly id.slot home.old home.new }
{
    match visit_request(&consoles(), home, id, Receive { uart }) {
        Ok(attended) => {
            let completed = attended.completed;
            let _uart = attended.answer;
            completed
        }
        Err(Receive { uart: _uart }) => false,
    }
}

/// The bytes that have left the ring, of those that were in it.
fn gone_from(mut bytes: ArrayVec<u8, RING_SIZE>, uart: &Uart) -> ArrayVec<u8, RING_SIZE>
    requires { length uart.now.ring ≤ length bytes.items }
    ensures { result.items ≡ take (length bytes.items - length uart.now.ring) bytes.items }
{
    bytes.truncate(bytes.len() - uart.held());
    bytes
}

/// Moves bytes that came in to the read of a process, if it is there and has one: the bytes, and
/// whether it has one.
#[tactic(auto, using(crate::proofs::Receiving::moved))]
pub(crate) fn give(home: &mut Home, id: &ProcessId, uart: &mut Uart) -> Service
    requires { MayBeTold home.old id.now }
    ensures { IsAnswered (received_by uart.old home.old id.now) id.now home.old result uart.new
        home.new }
{
    let bytes = uart.peek();
    let completed = step_of(home, *id, uart);
    Service {
        kind: Kind::Input(gone_from(bytes, uart)),
        completed,
    }
}
