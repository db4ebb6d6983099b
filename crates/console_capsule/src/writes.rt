//! Writes: the UART takes bytes of the one that waits longest.
ghost use Rattle.std.specs.Prelude.{◌≡◌, ◌-◌, ◌<◌, if◌then◌else◌, min, [], drop, length, take};
ghost use Rattle.tk_base.specs.declared.limits.TheConstants.{PRINT_LIMIT};
ghost use Rattle.process_model.specs.Flash.{flash_byte};
ghost use Rattle.process_seat.specs.Seen.{IsLent, own_entered, seen};
ghost use Rattle.driver_model.specs.Console.{console, next_bytes, portion};
ghost use Rattle.driver_requests.specs.Answers.{IsAnswered};
ghost use Rattle.driver_requests.specs.Asking.{MayBeTold};
ghost use Rattle.console_capsule.specs.Answers.{write_answered};

use crate::grants::consoles;
use arrayvec::ArrayVec;
use board_devices::Kind;
use driver_requests::{Service, VisitRequest, visit_request};
use grant_enter::{Entered, Home, buffers_are_whole, frames_join};
use grant_values::WaitingWrite;
use tk_base::{PRINT_LIMIT, ProcessId};

/// Has the UART take the next bytes of the write that waits, which are put into an empty list;
/// where none is left the write completes. It hands the list back.
#[derive(Drop)]
struct Transmit<'a> {
    printed: &'a mut ArrayVec<u8, PRINT_LIMIT>,
}

impl<'a> VisitRequest<WaitingWrite> for Transmit<'a> {
    ghost use Rattle.std.specs.Prelude.{◌≡◌, ◌+◌, ◌<◌, ◌^◌, []};
    ghost use Rattle.process_model.specs.Flash.{flash_byte};
    ghost use Rattle.driver_model.specs.Console.{sending};
    ghost use Rattle.console_capsule.specs.Sending.{still_waiting, telling_done};

    type Answer = &'a mut ArrayVec<u8, PRINT_LIMIT>;

    ghost asks = { λ transmit write seen. (seen.driver ≡ console) × (1 < seen.counts.upcalls)
        × (1 < seen.counts.ro) × (seen.own.inbox.dropped + 1 < 2 ^ 32)
        × (transmit.printed.now.items ≡ []) };

    ghost step = { λ transmit write seen. telling_done write seen.own };

    ghost rest = { λ transmit write seen. still_waiting write seen.own };

    ghost answers = { λ transmit write seen printed.
        (printed.ghost_name ≡ transmit.printed.ghost_name)
        × (printed.now.items ≡ (sending (flash_byte seen.flash) seen.own write).moved) };

    fn run(
        self,
        write: &WaitingWrite,
        entered: &mut Entered<'_>,
    ) -> (&'a mut ArrayVec<u8, PRINT_LIMIT>, Option<WaitingWrite>) {
        let Transmit { printed } = self;
        frames_join();
        take_next(entered, printed, write);
        if printed.is_empty() {
            entered.schedule(1, [write.taken, 0, 0]);
            return (printed, None);
        }
        let rest = WaitingWrite {
            length: write.length,
            taken: write.taken + printed.len() as u32,
        };
        (printed, Some(rest))
    }
}

/// Puts the next bytes of a write, out of its buffer, into an empty list.
fn put_next(printed: &mut ArrayVec<u8, PRINT_LIMIT>, buffer: &[u8], write: &WaitingWrite)
    requires { printed.old.items ≡ [] }
    ensures { printed.new.items
        ≡ take (min PRINT_LIMIT (min write.now.length (length buffer.now) - write.now.taken))
        (drop write.now.taken buffer.now) }
{
    let taken = write.taken as usize;
    let end = (write.length as usize).min(buffer.len());
    if taken < end {
        let (_, rest) = buffer.split_at(taken);
        let (next, _) = rest.split_at(PRINT_LIMIT.min(end - taken));
        let Ok(()) = printed.try_extend_from_slice(next) else {
            unreachable!()
        };
    }
}

/// Puts the next bytes of a write, out of the buffer that its process has allowed, into an empty
/// list.
fn take_next(entered: &Entered<'_>, printed: &mut ArrayVec<u8, PRINT_LIMIT>, write: &WaitingWrite)
    requires lent { IsLent entered.now }
    requires driver { (seen entered.now).driver ≡ console }
    requires buffer { 1 < (seen entered.now).counts.ro }
    requires empty { printed.old.items ≡ [] }
    ensures bytes { printed.new.items ≡ next_bytes (flash_byte (seen entered.now).flash) write.now
        (own_entered entered.now) }
    ensures long { length printed.new.items ≡ portion write.now (own_entered entered.now) }
{
    buffers_are_whole();
    put_next(printed, entered.read_only(1), write);
}

/// What a process is told of its write, which completed or did not.
fn told(completed: bool) -> Kind
    ensures { result ≡ (if completed then Kind.WriteDone else Kind.Taken) }
{
    if completed {
        Kind::WriteDone
    } else {
        Kind::Taken
    }
}

/// One step of the write of a process, if it is there and has one, whose bytes are put into an
/// empty list: whether all bytes are taken, so that the write completed.
#[tactic(auto, unfolding(driver_model::specs::Console::sent))]
pub(crate) fn send(
    home: &mut Home,
    id: &ProcessId,
    printed: &mut ArrayVec<u8, PRINT_LIMIT>,
) -> Service
    requires told { MayBeTold home.old id.now }
    requires empty { printed.old.items ≡ [] }
    ensures { IsAnswered (write_answered home.old id.now) id.now home.old result printed.new
        home.new }
{
    match visit_request(&consoles(), home, *id, Transmit { printed }) {
        Ok(attended) => {
            let completed = attended.completed;
            let _printed = attended.answer;
            Service {
                kind: told(completed),
                completed,
            }
        }
        Err(Transmit { printed: _printed }) => Service {
            kind: Kind::Taken,
            completed: false,
        },
    }
}
