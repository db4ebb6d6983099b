//! The clock that alarms go by.
ghost use Rattle.std.specs.Prelude.{◌≡◌};
ghost use Rattle.board_devices.specs.Clock.{clock_at};

/// What a clock that shows `start` at time 0 shows at a time, in ticks.
pub fn clock_at(start: u32, time: u64) -> u32
    ensures { result ≡ clock_at start time }
{
    start.wrapping_add((time % (1 << 32)) as u32)
}
