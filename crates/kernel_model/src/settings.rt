//! What of a board's settings its processes can see.
use fault_policy::Policy;

/// The settings that a process can see, by what it does or by what becomes of it. All other
/// settings of a board change only when its turns come, and what devices answer it.
#[derive(Clone, Copy, Debug, PartialEq, Eq)]
pub struct Settings {
    /// How many LEDs there are.
    pub leds: u32,
    /// How many buttons there are.
    pub buttons: u32,
    /// What the alarm's clock shows at time 0, in ticks.
    pub start: u32,
    /// How many bytes of storage a slot has.
    pub storage: u32,
    /// What becomes of processes that fault.
    pub policy: Policy,
    /// Whether an application without a Permissions element is refused what it would need a
    /// permission for (Tock Binary Format, "Permissions").
    pub strict: bool,
}
