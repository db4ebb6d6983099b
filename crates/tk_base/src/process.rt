//! Names of processes, and what the board may do next.
ghost use Rattle.std.specs.Prelude.{◌≡◌, ◌<◌};
ghost use Rattle.tk_base.specs.declared.limits.TheConstants.{SLOT_COUNT};
ghost use Rattle.tk_base.specs.Verbs.{verb_of, verb_text};

use crate::limits::SLOT_COUNT;
use std::marker::Model;

/// One of the places in which a process can be, from 0 on. Contracts see the number.
#[derive(Clone, Copy, Debug, PartialEq, Eq)]
pub struct Slot {
    number: u8,
}

impl Model for Slot {
    ghost use Rattle.std.specs.Prelude.{ℕ, ◌<◌};
    ghost use Rattle.tk_base.specs.declared.limits.TheConstants.{SLOT_COUNT};

    ghost Value = { ℕ };

    ghost view = { λ s. s.number };

    ghost invariant = { λ s. s.number < SLOT_COUNT };

    ghost inverse = { λ n. record { number = n } };
}

impl Slot {
    /// The slot of that number.
    pub fn new(number: usize) -> Slot
        requires { number < SLOT_COUNT }
        ensures { result ≡ number }
    {
        Slot {
            number: number as u8,
        }
    }

    /// The slot's place in a table of all slots, below [`SLOT_COUNT`].
    pub fn index(self) -> usize
        ensures value { result ≡ self }
        ensures below { result < SLOT_COUNT }
    {
        self.number as usize
    }
}

/// One life of the process in a slot. A restart begins the next life, so what was asked for in an
/// earlier one can be told apart.
#[derive(Clone, Copy, Debug, PartialEq, Eq)]
pub struct ProcessId {
    pub slot: Slot,
    pub life: u32,
}

/// A device of the board that acts by itself, in the order in which the round robin asks them.
#[derive(Clone, Copy, Debug, PartialEq, Eq)]
pub enum Dev {
    /// The script's next event.
    Event,
    /// The alarm.
    Alarm,
    /// The UART's sending half.
    Uart,
    /// The UART's receiving half.
    Receive,
    /// The source of random words.
    Random,
    /// The storage of the slots.
    Store,
}

/// What the board is to do in one step.
#[derive(Clone, Copy, Debug, PartialEq, Eq)]
pub enum Choice {
    /// The process in the slot has a turn: one instruction, or the delivery of an upcall.
    Run(Slot),
    /// A device acts.
    Device(Dev),
    /// So many ticks pass, in which nothing acts.
    Pass(u32),
}

/// What an operator may do to a process, in the words of Tock's process console.
#[derive(Clone, Copy, Debug, PartialEq, Eq)]
pub enum Verb {
    /// Its state is told.
    List,
    /// It has no turns until it is started.
    Stop,
    /// It has turns again.
    Start,
    /// It ends.
    Terminate,
    /// It starts again, also where it has ended.
    Restart,
}

impl Verb {
    /// The verb as an operator writes it.
    pub fn word(self) -> &'static [u8]
        ensures { result.now ≡ verb_text self }
    {
        match self {
            Verb::List => b"list",
            Verb::Stop => b"stop",
            Verb::Start => b"start",
            Verb::Terminate => b"terminate",
            Verb::Restart => b"restart",
        }
    }

    /// The verb that a word is. None where it is none.
    #[tactic(auto, unfolding(crate::specs::Verbs::verb_of))]
    pub fn of(word: &[u8]) -> Option<Verb>
        ensures { result ≡ verb_of word.now }
    {
        if word == Verb::List.word() {
            Some(Verb::List)
        } else if word == Verb::Stop.word() {
            Some(Verb::Stop)
        } else if word == Verb::Start.word() {
            Some(Verb::Start)
        } else if word == Verb::Terminate.word() {
            Some(Verb::Terminate)
        } else if word == Verb::Restart.word() {
            Some(Verb::Restart)
        } else {
            None
        }
    }
}

/// What was to be done was not ready, and nothing changed.
#[derive(Clone, Copy, Debug, PartialEq, Eq)]
pub struct NotReady;

/// Why an application was not placed.
#[derive(Clone, Copy, Debug, Default, PartialEq, Eq)]
pub enum PlaceFault {
    /// As many applications as there are slots are placed already.
    #[default]
    NoSlot,
    /// The RAM start that it asks for is not free, or no multiple of 8.
    FixedTaken,
    /// Its memory would pass the end of RAM.
    NoRoom,
}
