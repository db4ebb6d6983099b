//! What is scheduled for one process.
ghost use Rattle.std.specs.Prelude.{◌≡◌, ◌+◌, ◌<◌, ◌^◌, slice_get, is_some, OnSome, IfNone};
ghost use Rattle.tk_base.specs.declared.upcall.Wait.TheVariants.{For};
ghost use Rattle.upcall_queue.specs.Pending.{awaits, cleared, due, empty, is_taken, left_after, place_of};
ghost use Rattle.upcall_queue.specs.Pending.{scheduled, taken_at};

use crate::queue::Queue;
use tk_base::{Upcall, Wait};

/// What a process gets that has yielded (TRD 104, "Yield").
#[derive(Clone, Copy, Debug, PartialEq, Eq)]
pub enum Delivery {
    /// An upcall, whose function runs.
    Function(Upcall),
    /// The arguments of the upcall that it waited for alone; no function runs.
    Arguments([u32; 3]),
}

/// What is scheduled for a process (TRD 104, "Subscribe", "Yield").
#[derive(Drop)]
pub struct Inbox {
    /// The upcalls that wait to be delivered.
    pub pending: Queue,
    /// How many upcalls were dropped, since there was no room for them.
    pub dropped: u32,
    /// Whether the process waits for one upcall alone, or that one came.
    pub wait: Wait,
}

/// Whether an upcall is the one that a process waits for alone.
fn is_awaited(wait: &Wait, upcall: &Upcall) -> bool
    ensures { result ≡ awaits wait.now upcall.now }
{
    match *wait {
        Wait::For(driver, number) => upcall.driver == driver && upcall.number == number,
        Wait::No | Wait::Given(_) => false,
    }
}

impl Inbox {
    /// What is scheduled for a process before its first turn: nothing.
    pub fn new() -> Inbox
        ensures { result ≡ empty }
    {
        Inbox {
            pending: Queue::new(),
            dropped: 0,
            wait: Wait::No,
        }
    }

    /// The same again.
    pub fn copied(&self) -> Inbox
        ensures { result ≡ self.now }
    {
        Inbox {
            pending: self.pending.copied(),
            dropped: self.dropped,
            wait: self.wait,
        }
    }

    /// Schedules an upcall, and says whether the process gets it. One that the process waits for
    /// alone gives it its arguments; else the null upcall is not scheduled, and not counted, and
    /// one for which there is no room is dropped and counted.
    pub fn schedule(&mut self, upcall: Upcall) -> bool
        requires { self.old.dropped + 1 < 2 ^ 32 }
        ensures answer { result ≡ is_taken upcall self.old }
        ensures inbox { self.new ≡ scheduled upcall self.old }
    {
        if is_awaited(&self.wait, &upcall) {
            self.wait = Wait::Given(upcall.args);
            return true;
        }
        if upcall.function == 0 {
            return false;
        }
        if self.pending.append(upcall) {
            return true;
        }
        self.dropped += 1;
        false
    }

    /// Whether there is anything to deliver to the process, once it has yielded.
    pub fn is_due(&self) -> bool
        ensures { result ≡ is_some (due self.now) }
    {
        match self.wait {
            Wait::No => !self.pending.is_empty(),
            Wait::For(..) => false,
            Wait::Given(_) => true,
        }
    }

    /// Takes out what is to be delivered to the process, once it has yielded. None exactly where
    /// there is nothing, and then nothing changes.
    pub fn take_due(&mut self) -> Option<Delivery>
        ensures delivery { result ≡ due self.old }
        ensures inbox { self.new ≡ left_after (due self.old) self.old }
    {
        match self.wait {
            Wait::No => match self.pending.pop() {
                Some(upcall) => Some(Delivery::Function(upcall)),
                None => None,
            },
            Wait::For(..) => None,
            Wait::Given(arguments) => {
                self.wait = Wait::No;
                Some(Delivery::Arguments(arguments))
            }
        }
    }

    /// Takes out the first pending upcall of a driver and number; where none is pending, the
    /// process waits for that one alone from now on.
    pub fn wait_for(&mut self, driver: u32, number: u32) -> Option<Upcall>
        ensures first { result
            ≡ slice_get self.old.pending (place_of driver number self.old.pending) }
        ensures found { OnSome result
            (self.new ≡ taken_at (place_of driver number self.old.pending) self.old) }
        ensures waits { IfNone result (self.new ≡ record self.old { wait = For driver number }) }
    {
        match self.pending.pop_of(driver, number) {
            Some(upcall) => Some(upcall),
            None => {
                self.wait = Wait::For(driver, number);
                None
            }
        }
    }

    /// Forgets all that is scheduled, as a restart and the end of the process do. How many upcalls
    /// were dropped stays.
    pub fn clear(&mut self)
        ensures { self.new ≡ cleared self.old }
    {
        self.pending.clear();
        self.wait = Wait::No;
    }
}

impl Default for Inbox {
    ghost use Rattle.std.specs.Prelude.{◌≡◌};
    ghost use Rattle.upcall_queue.specs.Pending.{empty};

    ghost is_default = { λ inbox. inbox ≡ empty };

    /// What is scheduled for a process before its first turn: nothing.
    fn default() -> Inbox {
        Inbox::new()
    }
}
