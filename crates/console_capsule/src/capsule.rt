//! The console, and who waits for it.
ghost use Rattle.std.specs.Prelude.{◌≡◌, ◌+◌, ◌*◌, ◌<◌, ◌^◌, [], is_ok, not, IfSome};
ghost use Rattle.tk_base.specs.declared.limits.TheConstants.{PRINT_LIMIT};
ghost use Rattle.driver_model.specs.Commands.{by_number, Reads, Writes};
ghost use Rattle.driver_model.specs.Console.{commands, console_reads, console_writes};
ghost use Rattle.driver_requests.specs.Answers.{AnswersFirst};
ghost use Rattle.driver_requests.specs.Waiting.{first_of, without};
ghost use Rattle.driver_requests.specs.Asking.{MayAskAt, MayBeTold, Obeys, Replies};
ghost use Rattle.console_capsule.specs.Answers.{cannot_give, cannot_send, received_by, sending_at};
ghost use Rattle.console_capsule.specs.Answers.{write_answered};

use crate::commands::{cancel, read};
use crate::grants::consoles;
use crate::reads::give;
use crate::writes::send;
use arrayvec::ArrayVec;
use board_devices::{Answer, Uart};
use driver_requests::RequestQueue;
use grant_enter::Home;
use grant_values::{WaitingRead, WaitingWrite};
use syscall_abi::{Reply, reply_of};
use tk_base::{CallRule, NotReady, PRINT_LIMIT, ProcessId, Slot};

/// The console.
#[derive(Default, Drop)]
pub struct ConsoleCapsule {
    /// The processes whose write waits.
    pub writes: RequestQueue<WaitingWrite>,
    /// The processes whose read waits.
    pub reads: RequestQueue<WaitingRead>,
}

impl ConsoleCapsule {
    /// The same again.
    pub fn copied(&self) -> ConsoleCapsule
        ensures { result ≡ self.now }
    {
        ConsoleCapsule {
            writes: self.writes.copied(),
            reads: self.reads.copied(),
        }
    }

    /// A command of the process of an id to the console: the reply, or the rule that refuses it.
    #[tactic(auto, unfolding(driver_model::specs::Console::commands))]
    fn obey(
        &mut self,
        home: &mut Home,
        id: ProcessId,
        number: u32,
        count: u32,
    ) -> Result<Reply, CallRule>
        requires writes { MayAskAt console_writes self.old.writes home.old id }
        requires reads { MayAskAt console_reads self.old.reads home.old id }
        requires told { MayBeTold home.old id }
        ensures writes { Obeys Writes id (by_number (commands count) number) self.old.writes home.old
            result self.new.writes home.new }
        ensures reads { Obeys Reads id (by_number (commands count) number) self.old.reads home.old
            result self.new.reads home.new }
    {
        match number {
            0 => Ok(Reply::Success),
            1 => {
                let write = WaitingWrite {
                    length: count,
                    taken: 0,
                };
                self.writes.ask(&consoles(), home, id, write)
            }
            2 => read(&mut self.reads, home, id, count),
            3 => cancel(&mut self.reads, home, id),
            _ => Err(CallRule::NoCommand),
        }
    }

    /// Serves a command of the process of an id to the console (TRD 104, "Command"): the reply, and
    /// the rule that refuses it, if one does. 0 asks whether the driver is there. 1 asks to write
    /// `count` bytes, 2 to read as many; the process then waits, after all others that do. 2 is
    /// refused with [`CallRule::Empty`] where `count` is 0; both with [`CallRule::Busy`] where a
    /// request of that kind of the process waits already, else with [`CallRule::NoRoom`] where
    /// there is no room for its grant. 3 drops the read that waits, of which upcall 2 tells that it
    /// was cancelled; it is refused with [`CallRule::Nothing`] where none waits. Any other number
    /// is refused with [`CallRule::NoCommand`]. Nothing of another process changes, and nothing at
    /// all where it is refused.
    ///
    /// It asks that the process is there, that it waits only where it has a request, and that its
    /// count of dropped upcalls has room for one more.
    pub fn command(
        &mut self,
        home: &mut Home,
        id: ProcessId,
        number: u32,
        count: u32,
    ) -> (Reply, Option<CallRule>)
        requires writes { MayAskAt console_writes self.old.writes home.old id }
        requires reads { MayAskAt console_reads self.old.reads home.old id }
        requires told { MayBeTold home.old id }
        ensures writes { Replies Writes id (by_number (commands count) number) self.old.writes home.old
            result self.new.writes home.new }
        ensures reads { Replies Reads id (by_number (commands count) number) self.old.reads home.old
            result self.new.reads home.new }
    {
        reply_of(self.obey(home, id, number, count))
    }

    /// Has the UART take a step of the write that waits longest, or of that of the one slot which
    /// is served, at a time: it takes the next bytes out of the buffer that the process has allowed
    /// now, at most [`PRINT_LIMIT`], and `printed` is then those; it is free again once they are
    /// sent. Where none is left the write completes: upcall 1 has the count of bytes that were
    /// taken, 0 and 0, and the process waits no more. Bytes are taken until as many are as were
    /// asked for, or as the buffer has that is held then. Nothing changes where the process is not
    /// there in that life, or has no write; and nothing of another slot. The answer is whom it
    /// served, and what it told it: that the UART took the next bytes, or has taken all.
    /// [`NotReady`] comes exactly where no write waits that is served or the UART is not free yet,
    /// and then nothing changes.
    ///
    /// It asks that the slot of whom it serves is one of the home's, that its count of dropped upcalls
    /// has room for one more, that `printed` is empty, and that the time at which so many bytes are
    /// sent is below 2^64.
    pub fn transmit(
        &mut self,
        home: &mut Home,
        uart: &mut Uart,
        time: u64,
        printed: &mut ArrayVec<u8, PRINT_LIMIT>,
        only: Option<Slot>,
    ) -> Result<Answer, NotReady>
        requires told { IfSome (first_of only self.old.writes) (MayBeTold home.old) }
        requires empty { printed.old.items ≡ [] }
        requires time { time + PRINT_LIMIT * uart.old.ticks < 2 ^ 64 }
        ensures ready { is_ok result ≡ not (cannot_send only self.old.writes uart.old time) }
        ensures answers { AnswersFirst only (write_answered home.old) self.old.writes printed.old
            home.old result self.new.writes printed.new home.new }
        ensures uart { uart.new ≡ sending_at time printed.new.items uart.old }
        ensures reads { self.new.reads ≡ self.old.reads }
    {
        if time < uart.free() {
            return Err(NotReady);
        }
        let id = self.writes.first(only)?;
        let service = send(home, &id, printed);
        let answer = self.writes.answered(id, service);
        if !printed.is_empty() {
            uart.set_free(time + printed.len() as u64 * u64::from(uart.ticks()));
        }
        Ok(answer)
    }

    /// Moves the oldest bytes that came in to the read that waits longest, or to that of the one slot
    /// which is served, to the start of the buffer that the process has allowed now, as many as it asks
    /// for, and no more than came in or than the buffer has. The read completes: upcall 2 has a status,
    /// the count of bytes and 0, and the process waits no more. The status is 0, or that of TRD 104,
    /// "Error codes", for a size where the buffer has no bytes; then no byte is moved. Nothing changes
    /// where the process is not there in that life, or has no read; and nothing of another slot. The
    /// answer is whom it served, and the bytes. [`NotReady`] comes exactly where no read waits that is
    /// served or nothing came in, and then nothing changes.
    ///
    /// It asks that the slot of whom it serves is one of the home's, and that its count of dropped
    /// upcalls has room for one more.
    pub fn receive(
        &mut self,
        home: &mut Home,
        uart: &mut Uart,
        only: Option<Slot>,
    ) -> Result<Answer, NotReady>
        requires told { IfSome (first_of only self.old.reads) (MayBeTold home.old) }
        ensures ready { is_ok result ≡ not (cannot_give only self.old.reads uart.old) }
        ensures answers { AnswersFirst only (received_by uart.old home.old) self.old.reads uart.old
            home.old result self.new.reads uart.new home.new }
        ensures writes { self.new.writes ≡ self.old.writes }
    {
        if uart.held() == 0 {
            return Err(NotReady);
        }
        let id = self.reads.first(only)?;
        let service = give(home, &id, uart);
        Ok(self.reads.answered(id, service))
    }

    /// The process of an id ended, or starts again: no write and no read of it waits any more. The
    /// others keep their order.
    #[inline(always)]
    pub fn gone(&mut self, id: ProcessId)
        ensures writes { self.new.writes ≡ without id.slot self.old.writes }
        ensures reads { self.new.reads ≡ without id.slot self.old.reads }
    {
        self.writes.leave(id.slot);
        self.reads.leave(id.slot);
    }
}
