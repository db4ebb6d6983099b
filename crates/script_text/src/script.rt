//! What a script says.
ghost use Rattle.std.specs.Prelude.{◌≡◌};

use arrayvec::ArrayVec;
use fault_policy::Policy;
use std::marker::Model;
use tk_base::{FAULT_LIMIT, INPUT_LIMIT, NAME_LIMIT, Verb, WordList};

/// What comes at a time.
#[derive(Drop)]
pub enum EventKind {
    /// The serial line gets these bytes, the first one first.
    Input(ArrayVec<u8, INPUT_LIMIT>),
    /// The button of this number is pressed.
    Press(u32),
    /// It is released.
    Release(u32),
    /// An operator acts on the process of a name.
    Act(Verb, ArrayVec<u8, NAME_LIMIT>),
}

/// What comes, and when, in ticks. Contracts see the time and the kind, with the bytes as a list.
#[derive(Drop)]
pub struct TimedEvent {
    pub time: u32,
    pub kind: EventKind,
}

impl Model for TimedEvent {
    ghost use Rattle.script_text.specs.Settings.{ScriptEvent};
    ghost use Rattle.script_text.specs.Kinds.{kind_of};

    ghost Value = { ScriptEvent };

    ghost view = { λ e. record { time = e.time; kind = kind_of e.kind } };
}

/// Events, the first one first. Contracts see the list. Each is of a kind that some board has:
/// bytes, as many as may come in at once, a button below [`tk_base::BUTTON_LIMIT`], or an act on a
/// process of a name.
#[derive(Drop)]
pub struct EventList {
    events: Vec<TimedEvent>,
}

impl Model for EventList {
    ghost use Rattle.std.specs.Prelude.{List};
    ghost use Rattle.tk_base.specs.declared.limits.TheConstants.{BUTTON_LIMIT};
    ghost use Rattle.script_text.specs.Settings.{ScriptEvent, EachIsKind};

    ghost Value = { List ScriptEvent };

    ghost view = { λ l. l.events.items };

    ghost invariant = { λ l. EachIsKind BUTTON_LIMIT l.events.items };
}

impl EventList {
    ghost use Rattle.tk_base.specs.declared.limits.TheConstants.{BUTTON_LIMIT};
    ghost use Rattle.script_text.specs.Settings.{EachIsKind};

    /// The list of the events of a `Vec`. It takes no memory.
    pub fn new(events: Vec<TimedEvent>) -> EventList
        requires { EachIsKind BUTTON_LIMIT events.items }
        ensures { result ≡ events.items }
    {
        EventList { events }
    }

    /// The events, the first one first.
    pub fn as_slice(&self) -> &[TimedEvent]
        ensures list { result.now ≡ self.now }
        ensures kinds { EachIsKind BUTTON_LIMIT self.now }
    {
        &self.events
    }

    /// The `Vec` that has the events. It takes no memory.
    pub fn into_vec(self) -> Vec<TimedEvent>
        ensures { result.items ≡ self }
    {
        self.events
    }
}

/// What a script says. Contracts see the settings.
///
/// Every setting is in its range, and every list in its order and within its limit: see `AreSound`.
#[derive(Drop)]
pub struct Script {
    /// The bytes of RAM that the board has.
    pub ram: u32,
    /// The number of LEDs.
    pub leds: u32,
    /// The number of buttons.
    pub buttons: u32,
    /// How many turns a process has before the next one.
    pub slice: u32,
    /// The ticks that the window of each slot has, at least one, where there are time partitions.
    pub partition: Option<u32>,
    /// Where the alarm's clock starts.
    pub start: u32,
    /// The ticks that the serial line takes for a byte.
    pub uart: u32,
    /// The bytes of storage of each slot.
    pub storage: u32,
    pub policy: Policy,
    /// Whether a process without the Permissions element may give no command, subscribe or allow.
    pub strict: bool,
    /// The numbers of the storage requests that fail, counted from 1.
    pub faults: ArrayVec<u32, FAULT_LIMIT>,
    /// The words that the source of random words gives.
    pub words: WordList,
    pub events: EventList,
}

impl Model for Script {
    ghost use Rattle.script_text.specs.Settings.{ScriptSettings};
    ghost use Rattle.script_text.specs.Shown.{ScriptIsSound, settings_of};

    ghost Value = { ScriptSettings };

    ghost view = { settings_of };

    ghost invariant = { ScriptIsSound };
}
