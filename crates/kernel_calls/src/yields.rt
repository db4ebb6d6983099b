//! Yield, and the delivery of upcalls (TRD 104, "Yield").
ghost use Rattle.std.specs.Prelude.{◌≡◌, ◌<◌, length, slice_get, true};
ghost use Rattle.grant_enter.specs.Homes.{own_of, ChangesOnly};
ghost use Rattle.process_restart.specs.Own.{IsOwn, KeepsObject, LivesOn};
ghost use Rattle.upcall_queue.specs.Pending.{place_of};
ghost use Rattle.kernel_model.specs.Calls.{yield_for, yield_now, yielding};
ghost use Rattle.process_model.specs.Flag.{with_flag};
ghost use Rattle.process_record.specs.Process.{after_call};
ghost use Rattle.kernel_calls.specs.Own.{Beside};
ghost use Rattle.kernel_calls.specs.Outcomes.{first_delivered, DeliversAt};
ghost use Rattle.kernel_calls.specs.Called.{record_of, Comes, Delivers, Keeps};

use crate::caller::Caller;
use crate::lent::{Act, Lent};
use grant_enter::Home;
use process_record::{Outcome, Process};
use tk_base::{Addr, Slot, Upcall};
use upcall_queue::Delivery;

impl Caller<'_> {
    /// Delivers what is due to it. Where nothing is due nothing changes.
    pub fn deliver(&mut self)
        requires { self.old.own.lives ≡ true }
        ensures delivers { Delivers self.old self.new }
        ensures keeps { Keeps self.old self.new }
    {
        if let Some(delivery) = self.take_due() {
            self.wake(&delivery);
        }
    }

    /// Delivers the first upcall that waits for it. Where none waits nothing changes.
    fn deliver_first(&mut self)
        requires { self.old.own.lives ≡ true }
        ensures delivers { (beside : Beside) → record_of self.new beside
            ≡ first_delivered (record_of self.old beside) (slice_get self.old.own.inbox.pending 0) }
        ensures keeps { Keeps self.old self.new }
    {
        if let Some(upcall) = self.take_pending() {
            self.wake(&Delivery::Function(upcall));
        }
    }

    /// The upcalls that wait for it, the first one first.
    fn pending(&self) -> &[Upcall]
        ensures { result.now ≡ self.now.own.inbox.pending }
    {
        self.seat.inbox.pending.as_slice()
    }

    /// Writes the flag of a yield, and goes on after the call.
    fn flag(&mut self, at: Addr, byte: u8)
        ensures written { self.new ≡ record self.old {
          process = after_call self.old.process;
          own = with_flag at byte self.old.own;
        } }
        ensures inbox { self.new.own.inbox ≡ self.old.own.inbox }
    {
        self.put_flag(at, byte);
        self.go_on();
    }

    /// A yield that does not wait.
    fn yield_at_once(&mut self, at: Addr) -> Outcome
        requires { self.old.own.lives ≡ true }
        ensures serves { Comes (λ r. yield_now r at (slice_get r.own.inbox.pending 0)) self.old
            self.new result }
        ensures keeps { Keeps self.old self.new }
    {
        if self.pending().is_empty() {
            self.flag(at, 0);
            return Outcome::GoesOn;
        }
        self.flag(at, 1);
        self.deliver_first();
        Outcome::Delivered
    }

    /// A yield for the upcall of a driver and a number alone.
    fn yield_for_one(&mut self, driver: u32, number: u32) -> Outcome
        requires { self.old.own.lives ≡ true }
        ensures serves { Comes (λ r. yield_for r driver number
            (slice_get r.own.inbox.pending (place_of driver number r.own.inbox.pending)))
            self.old self.new result }
        ensures keeps { Keeps self.old self.new }
    {
        match self.wait_for(driver, number) {
            None => {
                self.wait();
                Outcome::Waits
            }
            Some(upcall) => {
                self.go_on();
                self.wake(&Delivery::Arguments(upcall.args));
                Outcome::Delivered
            }
        }
    }

    /// Serves a yield: 0 does not wait, 1 waits for an upcall, and 2 for the upcall of a driver and a
    /// number alone; with any other number the process goes on.
    #[tactic(auto, unfolding(kernel_model::specs::Calls::yielding))]
    pub fn yields(&mut self, number: u32, a1: u32, a2: u32) -> Outcome
        requires { self.old.own.lives ≡ true }
        ensures serves { Comes (λ r. yielding r number a1 a2) self.old self.new result }
        ensures keeps { Keeps self.old self.new }
    {
        match number {
            0 => self.yield_at_once(a1),
            1 => {
                self.wait();
                Outcome::Waits
            }
            2 => self.yield_for_one(a1, a2),
            _ => {
                self.go_on();
                Outcome::GoesOn
            }
        }
    }
}

/// A delivery to a process that has yielded.
#[derive(Drop)]
struct GetsDue;

impl Act for GetsDue {
    type Answer = ();

    ghost asks = { λ gets caller. caller.own.lives ≡ true };

    ghost leaves = { λ gets old answer new. Delivers old new };

    fn run(self, caller: &mut Caller<'_>) {
        caller.deliver();
    }
}

/// Delivers to the process in a slot, which has yielded, what is due to it (TRD 104, "Yield"): it
/// runs, with the registers of the first upcall that waits for it, or with the arguments of the
/// upcall that it waited for alone. Where nothing is due nothing changes.
pub fn deliver(home: &mut Home, process: &mut Process, slot: Slot)
    requires slot { slot < length home.old.owns }
    requires own { IsOwn home.old.flash process.old (own_of home.old slot) }
    requires lives { (own_of home.old slot).lives ≡ true }
    ensures delivers { DeliversAt slot home.old process.old home.new process.new }
    ensures layout { (own_of home.new slot).layout ≡ (own_of home.old slot).layout }
    ensures own { IsOwn home.new.flash process.new (own_of home.new slot) }
    ensures stays { KeepsObject process.old process.new }
    ensures lives_on { LivesOn (own_of home.old slot) (own_of home.new slot) }
    ensures rest { ChangesOnly slot home.old home.new }
{
    home.lend(slot, process, Lent { act: GetsDue })
}
