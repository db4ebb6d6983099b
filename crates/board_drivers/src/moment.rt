//! The moment of a step.
ghost use Rattle.std.specs.Prelude.{◌≡◌, ◌-◌, ◌*◌, ◌<◌, ◌≤◌, ◌^◌, IfSome};
ghost use Rattle.tk_base.specs.declared.limits.TheConstants.{STEP_LIMIT};
ghost use Rattle.board_devices.specs.Clock.{clock_at};
ghost use Rattle.kernel_model.specs.World.{lane_count};
ghost use Rattle.kernel_model.specs.Named.{lane_by};
ghost use Rattle.board_drivers.specs.Calm.{end_of, only_of};

use crate::served::Served;
use board_devices::clock_at;
use kernel_model::Settings;
use partition_turns::{window_end, window_slot};

/// What a step rests on beside the processes: the settings that they can see, the time, and the
/// steps so far.
#[derive(Clone, Copy, Debug)]
pub struct Moment {
    pub settings: Settings,
    /// How many ticks a window has; 0 without time partitions.
    pub window: u32,
    /// In ticks.
    pub time: u64,
    pub steps: u64,
}

impl Moment {
    /// Whom device steps serve: with time partitions the slot alone whose window it is.
    #[inline(always)]
    pub fn served(&self) -> Served
        ensures only { result.only ≡ only_of self.now }
        ensures lane { lane_by result.only < lane_count self.now.window }
    {
        if self.window == 0 {
            return Served { only: None };
        }
        Served {
            only: Some(window_slot(self.time, self.window)),
        }
    }

    /// The end of the window, with time partitions.
    pub fn window_end(&self) -> Option<u64>
        requires { self.now.time ≤ STEP_LIMIT * 2 ^ 32 }
        ensures at { result ≡ end_of self.now }
        ensures ahead { IfSome result (λ at. self.now.time < at) }
        ensures near { IfSome result (λ at. at - self.now.time < 2 ^ 32) }
    {
        if self.window == 0 {
            return None;
        }
        Some(window_end(self.time, self.window))
    }

    /// What the alarm's clock shows.
    pub fn tick(&self) -> u32
        ensures { result ≡ clock_at self.now.settings.start self.now.time }
    {
        clock_at(self.settings.start, self.time)
    }
}
