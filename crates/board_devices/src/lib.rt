//! The devices of the board, and what they answer a process. What a device holds are numbers and lists,
//! and each changes by the call that is named for it alone.
#![tactic(auto)]

mod answer;
mod arrivals;
mod buttons;
mod clock;
mod lanes;
mod leds;
mod standard;
mod stores;
mod uart;
mod words;

pub use answer::{Answer, Kind};
pub use arrivals::{Arrivals, OperatorAct};
pub use buttons::{Buttons, Edge};
pub use clock::clock_at;
pub use lanes::{Uarts, WordLanes};
pub use leds::Leds;
pub use standard::Clock;
pub use stores::Stores;
pub use uart::Uart;
pub use words::Words;
