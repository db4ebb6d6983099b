//! Which calls of an object in memory are to fail.
ghost use Rattle.std.specs.Prelude.{◌≡◌, ◌≤◌, false};
ghost use Rattle.tk_outside.specs.Count.{counted};

use crate::failed::Failed;
use std::marker::Model;

/// Counts the calls of an object, from 1, and its faults, and knows the numbers of the calls that
/// are to fail. Both counts stand still at `2^64 - 1`, and no call after that many fails. Contracts see
/// the counts.
#[derive(Drop)]
pub(crate) struct Schedule {
    calls: u64,
    failing: Vec<u64>,
    faults: u64,
}

impl Model for Schedule {
    ghost use Rattle.tk_outside.specs.Schedule.{CallCounts};

    ghost Value = { CallCounts };

    ghost view = { λ s. record { calls = s.calls; failing = s.failing.items; faults = s.faults } };
}

impl Schedule {
    ghost use Rattle.tk_outside.specs.Schedule.{fails_next, FailsNoMore};

    pub(crate) fn new(failing: Vec<u64>) -> Schedule
        ensures { result ≡ record { calls = 0; failing = failing.items; faults = 0 } }
    {
        Schedule {
            calls: 0,
            failing,
            faults: 0,
        }
    }

    /// Counts one more call, and answers whether it is to fail.
    pub(crate) fn next_fails(&mut self) -> bool
        ensures answer { result ≡ fails_next self.old }
        ensures done { FailsNoMore self.old → FailsNoMore self.new × (result ≡ false) }
        ensures counted { self.new ≡ record self.old { calls = counted self.old.calls } }
    {
        if self.calls == u64::MAX {
            return false;
        }
        self.calls += 1;
        self.failing.contains(&self.calls)
    }

    /// Counts one more fault.
    pub(crate) fn fault(&mut self) -> Failed
        ensures counted { self.new ≡ record self.old { faults = counted self.old.faults } }
        ensures kept { self.old.faults ≤ self.new.faults }
    {
        self.faults = self.faults.saturating_add(1);
        Failed
    }
}
