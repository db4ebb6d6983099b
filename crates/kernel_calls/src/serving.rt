//! The system calls that the kernel serves itself.
ghost use Rattle.std.specs.Prelude.{◌≡◌, ◌+◌, ◌<◌, ◌^◌, length, false, true};
ghost use Rattle.driver_model.specs.Drivers.{CommandContext};
ghost use Rattle.grant_enter.specs.Homes.{own_of, ChangesOnly};
ghost use Rattle.kernel_model.specs.Calls.{by_form};
ghost use Rattle.process_restart.specs.Own.{IsOwn, KeepsObject, LivesOn};
ghost use Rattle.kernel_calls.specs.Called.{CanRestart, Comes, Keeps, Serves};
ghost use Rattle.kernel_calls.specs.Outcomes.{is_taken, ServesAt};
ghost use Rattle.syscall_abi.specs.Forms.{form_of};

use crate::caller::Caller;
use crate::lent::{Act, Lent};
use crate::replies::failure;
use grant_enter::Home;
use grant_values::Driver;
use kernel_model::no_call_is_left;
use process_record::{Outcome, Process};
use syscall_abi::{Call, CallForm};
use tk_base::{CallRule, Slot};

/// Whether a call is a command to a driver that takes commands.
#[inline(always)]
fn is_taken(call: &Call) -> bool
    ensures { result ≡ is_taken (form_of call.now) }
{
    match *call {
        Call::Command { driver, .. } => Driver::of(driver).is_some(),
        _ => false,
    }
}

impl Caller<'_> {
    /// Serves a call that is permitted and that no driver is to answer; a command that no driver
    /// takes is refused.
    #[tactic(auto, unfolding(kernel_model::specs::Calls::by_form))]
    fn serve(&mut self, form: &CallForm) -> Outcome
        requires lives { self.old.own.lives ≡ true }
        requires rises { CanRestart self.old }
        requires form { is_taken form.now ≡ false }
        ensures serves { (around : CommandContext)
            → Comes (λ r. by_form around r form.now) self.old self.new result }
        ensures keeps { Keeps self.old self.new }
    {
        match *form {
            CallForm::Yield { number, a1, a2 } => self.yields(number, a1, a2),
            CallForm::Swap(swap) => self.swap(swap),
            CallForm::Command { .. } => self.give(Err(CallRule::NoDriver)),
            CallForm::Memop {
                operation,
                argument,
            } => self.memop(operation, argument),
            CallForm::Exit { kind, code } => self.exit(kind, code),
        }
    }

    /// Serves a call that it makes.
    fn call(&mut self, call: &Call, strict: bool) -> Outcome
        requires lives { self.old.own.lives ≡ true }
        requires rises { CanRestart self.old }
        ensures serves { Serves strict (form_of call.now) self.old self.new result }
        ensures keeps { Keeps self.old self.new }
    {
        no_call_is_left();
        if !self.is_permitted(call, strict) {
            let failure = failure(&call.form(), CallRule::Permission);
            return self.refuse(CallRule::Permission, failure);
        }
        if is_taken(call) {
            return Outcome::ToDriver;
        }
        self.serve(&call.form())
    }
}

/// A call, of the process that makes it.
#[derive(Drop)]
struct MakesCall<'a> {
    call: &'a Call,
    strict: bool,
}

impl Act for MakesCall<'_> {
    type Answer = Outcome;

    ghost asks = { λ made caller. (caller.own.lives ≡ true) × CanRestart caller };

    ghost leaves = { λ made old outcome new.
        Serves made.strict (form_of made.call.now) old new outcome };

    fn run(self, caller: &mut Caller<'_>) -> Outcome {
        caller.call(self.call, self.strict)
    }
}

/// Serves a system call of the process in a slot (TRD 104, "System Call API"). It asks that the
/// process lives: one that has ended makes no call; and that it started again fewer than 2^32 - 1
/// times.
///
/// A call that the header of the process's object does not permit (Tock Binary Format,
/// "Permissions") is refused with [`Permission`](tk_base::CallRule::Permission), before all else. A
/// strict filter permits a process whose object has no Permissions TLV no command, no subscribe and
/// no allow; an open one permits it every call.
///
/// A command (TRD 104, "Command") to a driver that takes commands is left to that driver: the
/// answer is [`ToDriver`](Outcome::ToDriver), exactly then, and nothing has changed. The board has
/// the driver's capsule answer it, and hands what it answered to [`give_reply`](crate::give_reply).
/// A command to any other driver is refused with [`NoDriver`](tk_base::CallRule::NoDriver). What
/// every other call comes to rests on no driver, clock or device, and asks of the board only that a
/// process which exits leaves every queue.
///
/// Yield 0 (TRD 104, "Yield") delivers the first pending upcall, or goes on where there is none,
/// and tells by the byte at a1, where that lies in accessible RAM, which of the two it did; yield 1
/// waits for an upcall. Yield 2 goes on with the arguments of the first pending upcall of the
/// driver at a1 and the number at a2, or waits for that one alone where none is pending. Another
/// number goes on.
///
/// Subscribe and the allows (TRD 104, "Subscribe", "Read-Only Allow", "Read-Write Allow") give the
/// former pair back. They are refused, the first cause first, with `NoDriver` where there is no
/// such driver, with [`NoNumber`](tk_base::CallRule::NoNumber) where it has no upcall or buffer of
/// that number, with [`Outside`](tk_base::CallRule::Outside) where the bytes do not lie where the
/// process may have them, and with [`NoRoom`](tk_base::CallRule::NoRoom) where the driver's grant
/// has no room.
///
/// Memop (TRD 104, "Memop") moves the process's break, or answers an address or a number of its
/// memory. It is refused with [`Break`](tk_base::CallRule::Break) where the break, rounded up to a
/// multiple of 4, may not be moved there; with [`Index`](tk_base::CallRule::Index) where the header
/// names no flash region of that number; and with
/// [`NoOperation`](tk_base::CallRule::NoOperation) where there is no such operation.
///
/// Exit (TRD 104, "Exit") of kind 0 ends the process with a completion code; of kind 1 it starts
/// the process again, with the registers and the break of its start and every byte of its block 0.
/// Another kind is refused with `NoOperation`.
///
/// A process that is replied to goes on after the call, and a refusal is recorded. The header of
/// its object is read from flash where it is needed.
pub fn kernel_call(
    home: &mut Home,
    process: &mut Process,
    slot: Slot,
    call: &Call,
    strict: bool,
) -> Outcome
    requires slot { slot < length home.old.owns }
    requires own { IsOwn home.old.flash process.old (own_of home.old slot) }
    requires lives { (own_of home.old slot).lives ≡ true }
    requires count { process.old.restarts + 1 < 2 ^ 32 }
    requires life { (own_of home.old slot).life + 1 < 2 ^ 32 }
    ensures serves { ServesAt strict slot home.old process.old (form_of call.now) home.new
        process.new result }
    ensures own { IsOwn home.new.flash process.new (own_of home.new slot) }
    ensures stays { KeepsObject process.old process.new }
    ensures lives_on { LivesOn (own_of home.old slot) (own_of home.new slot) }
    ensures rest { ChangesOnly slot home.old home.new }
{
    let act = MakesCall { call, strict };
    home.lend(slot, process, Lent { act })
}
