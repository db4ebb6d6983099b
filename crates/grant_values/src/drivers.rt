//! The drivers, with what each keeps of a process.
ghost use Rattle.std.specs.Prelude.{◌≡◌, ◌<◌, ◌^◌, IfSome, Some};
ghost use Rattle.grant_values.specs.Drivers.{cost_of, counting, counts_by, counts_of, driver_of, number_of_driver};

use crate::value::GrantValue;
use crate::{alarm, buttons, console, random, storage};
use tk_base::Counts;

/// The alarm's number.
const ALARM: u32 = 0x0;

/// The console's number.
const CONSOLE: u32 = 0x1;

/// The number of the LEDs.
const LEDS: u32 = 0x2;

/// The number of the buttons.
const BUTTONS: u32 = 0x3;

/// The number of the source of random words.
const RANDOM: u32 = 0x4_0001;

/// The storage's number.
const STORAGE: u32 = 0x5_0001;

/// A driver of the board. Commands and grants name it by its number, as Tock's list of drivers does.
#[derive(Clone, Copy, Debug, PartialEq, Eq)]
pub enum Driver {
    /// The alarm.
    Alarm,
    /// The console.
    Console,
    /// The LEDs, which keep nothing of a process.
    Leds,
    /// The buttons.
    Buttons,
    /// The source of random words.
    Random,
    /// The storage of the slots.
    Storage,
}

impl Driver {
    /// The driver of that number. None exactly where there is no such driver.
    #[tactic(auto, unfolding(crate::specs::Drivers::drivers))]
    pub fn of(number: u32) -> Option<Driver>
        ensures { result ≡ driver_of number }
    {
        match number {
            ALARM => Some(Driver::Alarm),
            CONSOLE => Some(Driver::Console),
            LEDS => Some(Driver::Leds),
            BUTTONS => Some(Driver::Buttons),
            RANDOM => Some(Driver::Random),
            STORAGE => Some(Driver::Storage),
            _ => None,
        }
    }

    /// The driver's number, by which [`Driver::of`] finds it.
    #[tactic(auto, unfolding(crate::specs::Drivers::drivers))]
    pub fn number(self) -> u32
        ensures number { result ≡ number_of_driver self }
        ensures found { driver_of result ≡ Some self }
    {
        match self {
            Driver::Alarm => ALARM,
            Driver::Console => CONSOLE,
            Driver::Leds => LEDS,
            Driver::Buttons => BUTTONS,
            Driver::Random => RANDOM,
            Driver::Storage => STORAGE,
        }
    }

    /// How many upcalls and buffers the driver has, and how many bytes it keeps of each process.
    pub fn counts(self) -> Counts
        ensures counts { result ≡ counts_by self }
        ensures cost_fits { cost_of result < 2 ^ 32 }
    {
        match self {
            Driver::Alarm => counting(1, 0, 0, 1, alarm::Alarm::SIZE),
            Driver::Console => counting(3, 2, 2, 0, console::Console::SIZE),
            Driver::Leds => counting(0, 0, 0, 0, 0),
            Driver::Buttons => counting(1, 0, 0, 0, buttons::Buttons::SIZE),
            Driver::Random => counting(1, 0, 1, 0, random::Random::SIZE),
            Driver::Storage => counting(2, 1, 1, 0, storage::Storage::SIZE),
        }
    }
}

/// How many upcalls and buffers the driver of a number has, and how many bytes it keeps of each
/// process. None exactly where there is no driver of that number.
#[tactic(auto, unfolding(crate::specs::Drivers::counts_of))]
pub fn counts(driver: u32) -> Option<Counts>
    ensures counts { result ≡ counts_of driver }
    ensures cost_fits { IfSome result (λ c. cost_of c < 2 ^ 32) }
{
    let driver = Driver::of(driver)?;
    Some(driver.counts())
}

/// The counts of one row of the table.
fn counting(upcalls: u32, ro: u32, rw: u32, ur: u32, value: u32) -> Counts
    ensures { result ≡ counting upcalls ro rw ur value }
{
    Counts {
        upcalls,
        ro,
        rw,
        ur,
        value,
    }
}

/// How many bytes of a process's block the grant of a driver with these counts takes (Levy et al.,
/// SOSP 2017, section 4): the driver's number and this cost, two words for each pair,
/// and the value, rounded up to a multiple of 8. The LEDs have no grant, so nobody asks for theirs.
pub fn cost_of(counts: &Counts) -> u32
    requires { cost_of counts.now < 2 ^ 32 }
    ensures { result ≡ cost_of counts.now }
{
    (8 + 8 * counts.pairs() as u64 + u64::from(counts.value)).next_multiple_of(8) as u32
}
