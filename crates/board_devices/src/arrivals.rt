//! What is still to come in.
ghost use Rattle.std.specs.Prelude.{◌≡◌, ◌<◌, ◌≤◌, ◌^◌, drop, length, option_map, IfOk, IfSome, OnErr, OnOk};
ghost use Rattle.std.specs.List.{position, position_or_len};
ghost use Rattle.script_text.specs.Kinds.{kind_of};
ghost use Rattle.script_text.specs.Settings.{IsKind};
ghost use Rattle.tk_base.specs.declared.limits.TheConstants.{BUTTON_LIMIT};
ghost use Rattle.board_devices.specs.Arriving.{first_arrival_time, is_time, change_by, with_edge};
ghost use Rattle.board_devices.specs.Parts.{if_differs};
ghost use Rattle.board_devices.specs.Arriving.{lines_after, pressed_after, with_first_arrived, pressed_after_first};
ghost use Rattle.board_devices.specs.Arriving.{change_by_first};
ghost use Rattle.board_devices.specs.Arriving.{first_act, act_of, act_told, inserted, is_later};
ghost use Rattle.board_devices.specs.Buttons.{told_by};

use crate::buttons::{Buttons, Edge};
use crate::lanes::Uarts;
use arrayvec::ArrayVec;
use script_text::{EventKind, EventList, TimedEvent};
use std::alloc::Global;
use std::marker::Model;
use tk_base::{NAME_LIMIT, Verb};
use tk_outside::NoMemory;

/// What an operator asks for: an act on the process of a name.
#[derive(Drop)]
pub struct OperatorAct {
    pub verb: Verb,
    pub name: ArrayVec<u8, NAME_LIMIT>,
}

/// What is still to come in, and when: bytes on the serial line, changes of buttons, and acts of an
/// operator. Contracts see the list of the events, the first one first.
#[derive(Drop)]
pub struct Arrivals {
    events: Vec<TimedEvent>,
    come: usize,
}

impl Model for Arrivals {
    ghost use Rattle.std.specs.Prelude.{List, ◌≤◌, drop, length};
    ghost use Rattle.tk_base.specs.declared.limits.TheConstants.{BUTTON_LIMIT};
    ghost use Rattle.script_text.specs.Settings.{ScriptEvent, EachIsKind};

    ghost Value = { List ScriptEvent };

    ghost view = { λ a. drop a.come a.events.items };

    ghost invariant = { λ a. (a.come ≤ length a.events.items)
        × EachIsKind BUTTON_LIMIT a.events.items };
}

/// Sets a button, and answers its change, if that is one.
fn change(buttons: &mut Buttons, button: u32, state: bool) -> Option<Edge>
    requires { button < BUTTON_LIMIT }
    ensures edge { option_map told_by result ≡ if_differs buttons.old.pressed (button, state) }
    ensures within { IfSome result (λ edge. edge.button < BUTTON_LIMIT) }
    ensures pressed { buttons.new ≡ record buttons.old {
      pressed = with_edge (if_differs buttons.old.pressed (button, state)) buttons.old.pressed;
    } }
{
    if buttons.set(button, state) {
        Some(Edge { button, state })
    } else {
        None
    }
}

/// What an event of a kind does to the serial line of each lane and the buttons, and the change of
/// a button, if that is one.
fn happen(kind: &EventKind, uarts: &mut Uarts, buttons: &mut Buttons) -> Option<Edge>
    requires { IsKind BUTTON_LIMIT (kind_of kind.now) }
    ensures edge { option_map told_by result ≡ change_by (kind_of kind.now) buttons.old.pressed }
    ensures within { IfSome result (λ edge. edge.button < BUTTON_LIMIT) }
    ensures lines { uarts.new ≡ lines_after (kind_of kind.now) uarts.old }
    ensures pressed { buttons.new ≡ record buttons.old {
      pressed = pressed_after (kind_of kind.now) buttons.old.pressed;
    } }
{
    match kind {
        EventKind::Input(bytes) => {
            uarts.push(bytes);
            None
        }
        EventKind::Press(button) => change(buttons, *button, true),
        EventKind::Release(button) => change(buttons, *button, false),
        EventKind::Act(_, _) => None,
    }
}

/// The same bytes again.
fn copied<const N: usize>(bytes: &ArrayVec<u8, N>) -> ArrayVec<u8, N>
    ensures { result.items ≡ bytes.now.items }
{
    let mut copy = ArrayVec::new();
    let Ok(()) = copy.try_extend_from_slice(bytes) else {
        unreachable!()
    };
    copy
}

/// The same kind again.
fn same_kind(kind: &EventKind) -> EventKind
    ensures { kind_of result ≡ kind_of kind.now }
{
    match kind {
        EventKind::Input(bytes) => EventKind::Input(copied(bytes)),
        EventKind::Press(button) => EventKind::Press(*button),
        EventKind::Release(button) => EventKind::Release(*button),
        EventKind::Act(verb, name) => EventKind::Act(*verb, copied(name)),
    }
}

/// The same event again.
fn same_event(event: &TimedEvent) -> TimedEvent
    ensures { result ≡ event.now }
{
    TimedEvent {
        time: event.time,
        kind: same_kind(&event.kind),
    }
}

/// The same events again. The one error is want of memory.
fn same_events(alloc: Global, events: &[TimedEvent]) -> Result<Vec<TimedEvent>, NoMemory>
    ensures { IfOk result (λ copies. copies.items ≡ events.now) }
{
    let mut copies = Vec::new(alloc);
    for event in events {
        let Ok(()) = copies.push(same_event(event)) else {
            return Err(NoMemory);
        };
    }
    Ok(copies)
}

/// The place of the first of some events that comes in later than a time. None where none does.
fn first_after(events: &[TimedEvent], time: u32) -> Option<usize>
    ensures { result ≡ position (is_later time) events.now }
{
    events.iter().position(|event| event.time > time)
}

/// The same, or the place behind all of them where none does.
fn place_after(events: &[TimedEvent], time: u32) -> usize
    ensures place { result ≡ position_or_len (is_later time) events.now }
    ensures within { result ≤ length events.now }
{
    match first_after(events, time) {
        Some(place) => place,
        None => events.len(),
    }
}

/// What an operator asks for by an event of a kind. None where it is no act.
fn act_in(kind: &EventKind) -> Option<OperatorAct>
    ensures { option_map act_told result ≡ act_of (kind_of kind.now) }
{
    match kind {
        EventKind::Act(verb, name) => Some(OperatorAct {
            verb: *verb,
            name: copied(name),
        }),
        EventKind::Input(_) | EventKind::Press(_) | EventKind::Release(_) => None,
    }
}

impl Arrivals {
    /// All events of a list, the first to come in first.
    pub fn new(events: EventList) -> Arrivals
        ensures { result ≡ events }
    {
        Arrivals {
            events: events.into_vec(),
            come: 0,
        }
    }

    /// The same again. The one error is want of memory.
    pub fn copied(&self, alloc: Global) -> Result<Arrivals, NoMemory>
        ensures { IfOk result (λ it. it ≡ self.now) }
    {
        let events = same_events(alloc, &self.events)?;
        Ok(Arrivals {
            events,
            come: self.come,
        })
    }

    /// An event is still to come in besides: behind those of its time, and before later ones. The
    /// one error is want of memory; then nothing changes. It asks that the event is of a kind that
    /// some board has.
    pub fn expect(&mut self, event: TimedEvent) -> Result<(), NoMemory>
        requires { IsKind BUTTON_LIMIT event.kind }
        ensures comes { OnOk result (self.new ≡ inserted event self.old) }
        ensures unchanged { OnErr result (self.new ≡ self.old) }
    {
        let left = self.events.split_at(self.come).1;
        let place = self.come + place_after(left, event.time);
        match self.events.insert(place, event) {
            Ok(()) => Ok(()),
            Err(_) => Err(NoMemory),
        }
    }

    /// The time, in ticks, at which the next event comes in. None exactly where none is left.
    pub fn next_time(&self) -> Option<u64>
        ensures at { result ≡ first_arrival_time self.now }
        ensures near { IfSome result (λ at. at < 2 ^ 32) }
    {
        let next = self.events.get(self.come)?;
        Some(u64::from(next.time))
    }

    /// Whether the next event comes in at a time.
    pub fn is_time(&self, time: u64) -> bool
        ensures { result ≡ is_time time self.now }
    {
        match self.next_time() {
            Some(at) => at <= time,
            None => false,
        }
    }

    /// What an operator asks for by the next event. None where none is left, or it is no act.
    pub fn next_act(&self) -> Option<OperatorAct>
        ensures { option_map act_told result ≡ first_act self.now }
    {
        let next = self.events.get(self.come)?;
        act_in(&next.kind)
    }

    /// The next event comes in, bytes on every lane. Where it changes the state of a button, this
    /// change is answered. A state that the button has already is no change, and an operator's act
    /// changes nothing here. It asks that an event is left.
    pub fn arrive(&mut self, uarts: &mut Uarts, buttons: &mut Buttons) -> Option<Edge>
        requires { 0 < length self.old }
        ensures edge { option_map told_by result ≡ change_by_first self.old buttons.old.pressed }
        ensures within { IfSome result (λ edge. edge.button < BUTTON_LIMIT) }
        ensures left { self.new ≡ drop 1 self.old }
        ensures lines { uarts.new ≡ with_first_arrived self.old uarts.old }
        ensures pressed { buttons.new ≡ record buttons.old {
          pressed = pressed_after_first self.old buttons.old.pressed;
        } }
    {
        let event = &self.events[self.come];
        let edge = happen(&event.kind, uarts, buttons);
        self.come += 1;
        edge
    }
}
