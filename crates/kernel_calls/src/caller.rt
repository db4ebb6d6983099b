//! One process, lent for what is done with it: its registers and state, its seat and memory.
ghost use Rattle.std.specs.Prelude.{◌≡◌, ◌+◌, ◌<◌, ◌^◌, true, slice_get, IsTrue, is_ok, IfOk, OnOk, OnErr, OnSome, IfNone};
ghost use Rattle.std.specs.Bool.{OnTrue, OnFalse};
ghost use Rattle.process_layout.specs.Bounds.{permits_break};
ghost use Rattle.process_model.specs.Flag.{with_flag};
ghost use Rattle.process_model.specs.Handed.{handing, has_place, held, may_share};
ghost use Rattle.process_model.specs.Own.{kernel_break_of, layout_of, own_ended, with_inbox};
ghost use Rattle.process_model.specs.Own.{with_moved_break};
ghost use Rattle.process_record.specs.Parts.{after_exit};
ghost use Rattle.process_record.specs.Process.{after_call, delivered, waiting};
ghost use Rattle.process_restart.specs.Own.{HasHeader};
ghost use Rattle.swap_tables.specs.Swaps.{CanHand};
ghost use Rattle.tk_base.specs.declared.upcall.Wait.TheVariants.{For};
ghost use Rattle.upcall_queue.specs.Pending.{due, left_after, place_of, taken_at};
ghost use Rattle.kernel_calls.specs.Called.{Called, Comes, Keeps};
ghost use Rattle.kernel_model.specs.Calls.{driver_answered, refused_with};

use crate::replies::{give, refuse};
use board_memory::Memory;
use grant_region::NoRoom;
use process_layout::Layout;
use process_model::Object;
use process_record::{Outcome, Process};
use process_seat::{Seat, hand_at, put_flag_at};
use std::marker::Model;
use swap_tables::Handover;
use syscall_abi::Reply;
use tk_base::{Addr, CallRule, Upcall};
use upcall_queue::Delivery;

/// The process that makes a call or gets a delivery, lent for that.
#[derive(Drop)]
pub struct Caller<'a> {
    pub(crate) memory: &'a mut Memory,
    pub(crate) seat: &'a mut Seat,
    pub(crate) process: &'a mut Process,
}

impl<'a> Model for Caller<'a> {
    ghost use Rattle.kernel_calls.specs.Called.{Called};

    ghost Value = { Called };

    ghost use Rattle.kernel_calls.specs.Lent.{called, IsCaller};

    ghost view = { called };

    ghost invariant = { IsCaller };
}

/// What was lent is given back: each part is as it was, so that whoever lent it knows it again. The
/// function does nothing.
pub(crate) fn give_back(_memory: &mut Memory, _seat: &mut Seat, _process: &mut Process)
    ensures memory { _memory.new ≡ _memory.old }
    ensures seat { _seat.new ≡ _seat.old }
    ensures process { _process.new ≡ _process.old }
{}

impl Caller<'_> {
    /// Where its memory lies.
    pub fn layout(&self) -> Layout
        ensures { result ≡ layout_of self.now.own }
    {
        self.seat.layout
    }

    /// Its object, which ends at an address.
    pub fn object(&self) -> Object
        ensures object { result ≡ self.now.process.object }
        ensures ends { result.address + result.size < 2 ^ 32 }
        ensures header { HasHeader self.now.flash result }
    {
        self.process.object
    }

    /// Ends it with a completion code.
    pub fn end(&mut self, code: u32)
        ensures { self.new ≡ record self.old {
          process = after_exit self.old.process code;
          own = own_ended self.old.own;
        } }
    {
        self.process.exit(code);
        self.seat.inbox.clear();
        self.seat.lives = false;
    }

    /// Replies to its call, or refuses it.
    pub fn give(&mut self, answer: Result<Reply, CallRule>) -> Outcome
        ensures serves { Comes (λ r. driver_answered r answer) self.old self.new result }
        ensures keeps { Keeps self.old self.new }
    {
        give(self.process, answer)
    }

    /// Refuses its call, by the rule that it broke, with a failure.
    pub fn refuse(&mut self, rule: CallRule, failure: Reply) -> Outcome
        ensures serves { Comes (λ r. refused_with r rule failure) self.old self.new result }
        ensures keeps { Keeps self.old self.new }
    {
        refuse(self.process, rule, failure)
    }

    /// It goes on after its call.
    pub fn go_on(&mut self)
        ensures { self.new ≡ record self.old { process = after_call self.old.process } }
    {
        self.process.go_on();
    }

    /// It waits for an upcall.
    pub fn wait(&mut self)
        requires { self.old.own.lives ≡ true }
        ensures { self.new ≡ record self.old { process = waiting self.old.process } }
    {
        self.process.wait();
    }

    /// It gets what it waited for, and runs.
    pub fn wake(&mut self, delivery: &Delivery)
        requires { self.old.own.lives ≡ true }
        ensures { self.new
            ≡ record self.old { process = delivered delivery.now self.old.process } }
    {
        self.process.deliver(delivery);
    }

    /// Takes out the first upcall that waits for it.
    pub fn take_pending(&mut self) -> Option<Upcall>
        ensures first { result ≡ slice_get self.old.own.inbox.pending 0 }
        ensures left { self.new
            ≡ record self.old { own = with_inbox (taken_at 0) self.old.own } }
    {
        self.seat.inbox.pending.pop()
    }

    /// Takes out what is to be delivered to it.
    pub fn take_due(&mut self) -> Option<Delivery>
        ensures delivery { result ≡ due self.old.own.inbox }
        ensures left { self.new ≡ record self.old {
          own = with_inbox (left_after (due self.old.own.inbox)) self.old.own;
        } }
    {
        self.seat.inbox.take_due()
    }

    /// Takes out the first upcall of a driver and number; where none waits, it waits for that alone.
    pub fn wait_for(&mut self, driver: u32, number: u32) -> Option<Upcall>
        ensures first { result ≡ slice_get self.old.own.inbox.pending
            (place_of driver number self.old.own.inbox.pending) }
        ensures found { OnSome result (self.new ≡ record self.old {
          own = with_inbox (taken_at (place_of driver number self.old.own.inbox.pending))
              self.old.own;
        }) }
        ensures waits { IfNone result (self.new ≡ record self.old {
          own = with_inbox (λ inbox. record inbox { wait = For driver number }) self.old.own;
        }) }
    {
        self.seat.inbox.wait_for(driver, number)
    }

    /// Writes the flag of a yield, where it lies in accessible RAM.
    pub fn put_flag(&mut self, at: Addr, flag: u8)
        ensures { self.new ≡ record self.old { own = with_flag at flag self.old.own } }
    {
        put_flag_at(self.memory, self.seat, at, flag);
    }

    /// Moves its break, if it may be there.
    pub fn set_break(&mut self, new: u32) -> bool
        ensures answer { result
            ≡ permits_break self.old.own.layout (kernel_break_of self.old.own) new }
        ensures moved { OnTrue result
            (self.new ≡ record self.old { own = with_moved_break new self.old.own }) }
        ensures refused { OnFalse result (self.new ≡ self.old) }
    {
        self.seat.layout.set_break(new)
    }

    /// Hands a pair to a driver, and gives the former one.
    #[inline(always)]
    pub fn hand(&mut self, handover: Handover) -> Result<(u32, u32), NoRoom>
        requires pair { CanHand handover }
        requires may { IsTrue (may_share handover.kind self.old.own.layout handover.pair) }
        ensures room { is_ok result ≡ has_place handover.driver self.old.own }
        ensures former { IfOk result (λ former. former
            ≡ held handover.kind handover.driver handover.number self.old.own) }
        ensures handed { OnOk result (self.new ≡ record self.old {
          own = handing handover.kind handover.driver handover.number handover.pair self.old.own;
        }) }
        ensures refused { OnErr result (self.new ≡ self.old) }
    {
        hand_at(self.memory, self.seat, handover)
    }
}
