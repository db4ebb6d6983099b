//! What turns and device steps are made on.
ghost use Rattle.std.specs.Prelude.{◌≡◌, IfOk};

use crate::guard::ActivePmp;
use crate::ready_slots::ReadySlots;
use alarm_capsule::AlarmTimes;
use board_drivers::{Drivers, Moment};
use grant_enter::Home;
use std::alloc::Global;
use tk_base::NoMemory;

/// What turns and device steps are made on: the memory with what is each process's own, the
/// registers under which they run, the drivers with their devices, and the moment; and beside them
/// what is kept so that a step looks at no more than it changed.
#[derive(Drop)]
pub struct Machine {
    pub home: Home,
    pub guard: ActivePmp,
    pub drivers: Drivers,
    pub moment: Moment,
    /// When the alarm of each process becomes due.
    pub alarms: AlarmTimes,
    /// A time up to which no device step is ready.
    pub calm: u64,
    /// Whether each process can have a turn.
    pub ready: ReadySlots,
}

impl Machine {
    /// The same again. The one error is want of memory.
    pub fn copied(&self, alloc: Global) -> Result<Machine, NoMemory>
        ensures { IfOk result (λ machine. machine ≡ self.now) }
    {
        let home = self.home.copied(alloc)?;
        let drivers = self.drivers.copied(alloc)?;
        Ok(Machine {
            home,
            guard: self.guard.copied(),
            drivers,
            moment: self.moment,
            alarms: self.alarms.copied(),
            calm: self.calm,
            ready: self.ready.copied(),
        })
    }
}
