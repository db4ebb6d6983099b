//! What the lines so far say.
ghost use Rattle.std.specs.Prelude.{◌≡◌, ◌<◌, ◌≤◌, ◌++◌, ◌∷◌, ◌*◌, ◌/◌, true, false, nat_lt};
ghost use Rattle.std.specs.Prelude.{length, map, drop, [], Some, None, IfOk, unwrap_or};
ghost use Rattle.tk_base.specs.declared.limits.TheConstants.{INPUT_LIMIT, NAME_LIMIT};
ghost use Rattle.decimal_number.specs.Number.{is_number, number};
ghost use Rattle.script_text.specs.Kinds.{kind_of};
ghost use Rattle.script_text.specs.Said.{hex_bytes};
ghost use Rattle.script_text.specs.Parts.{hex_word, verb_on};
ghost use Rattle.script_text.specs.Rules.{is_hex, has_bad_hex};
ghost use Rattle.script_text.specs.Seats.{seat, random_form};
ghost use Rattle.script_text.specs.Text.{words, word};

use crate::line::{Context, read_line, written_at};
use crate::rule::ScriptRule;
use crate::script::{EventKind, EventList, Script, TimedEvent};
use crate::table::Line;
use crate::text::{word_at, word_count, words_from};
use arrayvec::ArrayVec;
use fault_policy::Policy;
use hex::FromHex;
use std::alloc::{AllocError, Global};
use std::marker::Model;
use tk_base::{EVENT_LIMIT, FAULT_LIMIT, INPUT_LIMIT, NAME_LIMIT, Verb, WORD_LIMIT, WordList};

/// Why a line is not added.
#[derive(Clone, Copy, Debug, PartialEq, Eq)]
pub enum Trouble {
    /// It breaks a rule, and this one first.
    Breaks(ScriptRule),
    /// There was no memory for what it says.
    Memory,
}

/// What the lines so far say, and which of those that may not repeat stand already. Contracts see the
/// settings, and of those that may not repeat whether each stands.
#[derive(Drop)]
pub struct Draft {
    ram: u32,
    leds: u32,
    buttons: u32,
    slice: u32,
    partition: u32,
    start: u32,
    uart: u32,
    storage: u32,
    policy: Policy,
    strict: bool,
    faults: ArrayVec<u32, FAULT_LIMIT>,
    words: Vec<u32>,
    events: Vec<TimedEvent>,
    stood: [bool; 10],
}

impl Model for Draft {
    ghost use Rattle.script_text.specs.Progress.{Drafted, drafted_by};

    ghost Value = { Drafted };

    ghost view = { drafted_by };
}

impl Line {
    /// Its place among those that may not repeat. The lines of the fault policy have one, and so have
    /// those of the filter. None for one that may repeat.
    fn seat(self) -> Option<usize>
        ensures { result ≡ seat self }
    {
        match self {
            Line::Ram => Some(0),
            Line::Leds => Some(1),
            Line::Buttons => Some(2),
            Line::Slice => Some(3),
            Line::Start => Some(4),
            Line::Uart => Some(5),
            Line::Storage => Some(6),
            Line::Stop | Line::Restart | Line::Threshold => Some(7),
            Line::FilterOpen | Line::FilterStrict => Some(8),
            Line::Partition => Some(9),
            Line::StorageFault
            | Line::Random
            | Line::Input
            | Line::Press
            | Line::Release
            | Line::Act => None,
        }
    }
}

/// The number that eight hex digits write.
fn hex_word(word: &[u8]) -> u32
    requires { is_hex (Some 8) word.now ≡ true }
    ensures { result ≡ hex_word word.now }
{
    match <[u8; 4] as FromHex>::from_hex(word) {
        Ok(bytes) => u32::from_be_bytes(bytes),
        Err(_) => 0,
    }
}

/// Writes the bytes that hex digits write.
fn decode_into(word: &[u8], bytes: &mut [u8])
    requires digits { is_hex None word.now ≡ true }
    requires size { length word.now ≡ 2 * length bytes.old }
    ensures { bytes.new ≡ hex_bytes word.now }
{
    let _ = hex::decode_to_slice(word, bytes);
}

/// The bytes that hex digits write, of which there are at most [`INPUT_LIMIT`].
#[tactic(auto, using(crate::proofs::HexDigits::even_digits))]
fn hex_bytes(word: &[u8]) -> ArrayVec<u8, INPUT_LIMIT>
    requires digits { is_hex None word.now ≡ true }
    requires few { length word.now ≤ 2 * INPUT_LIMIT }
    ensures { result.items ≡ hex_bytes word.now }
{
    let mut buffer = [0; INPUT_LIMIT];
    let bytes = &mut buffer[..word.len() / 2];
    decode_into(word, bytes);
    let mut list = ArrayVec::new();
    let _ = list.try_extend_from_slice(bytes);
    list
}

/// Appends the words that a `random` line gives.
fn add_words(list: &mut Vec<u32>, text: &[u8]) -> Result<(), AllocError>
    requires { has_bad_hex random_form (words text.now) ≡ false }
    ensures { IfOk result (λ _.
        list.new.items ≡ list.old.items ++ map hex_word (drop 1 (words text.now))) }
{
    for word in words_from(text, 1) {
        list.push(hex_word(word))?;
    }
    Ok(())
}

/// Appends an event, at the time that its line gives.
fn add_event(list: &mut Vec<TimedEvent>, text: &[u8], kind: EventKind) -> Result<(), AllocError>
    requires digits { is_number (word (words text.now) 1) ≡ true }
    requires small { number (word (words text.now) 1) ≤ 4294967295 }
    ensures { IfOk result (λ _. list.new.items ≡ list.old.items
        ++ record { time = number (word (words text.now) 1); kind = kind_of kind } ∷ []) }
{
    list.push(TimedEvent {
        time: small_at(text, 1),
        kind,
    })?;
    Ok(())
}

/// Whether hex digits write more bytes than an event has at most.
fn is_long(word: &[u8]) -> bool
    ensures { result ≡ nat_lt INPUT_LIMIT (length word.now / 2) }
{
    word.len() / 2 > INPUT_LIMIT
}

/// Whether a time lies before that of an event.
fn is_before(time: u64, event: &TimedEvent) -> bool
    ensures { result ≡ nat_lt time event.now.time }
{
    time < u64::from(event.time)
}

/// The number that a word of a line writes, where it is below 2^32.
fn small_at(text: &[u8], place: usize) -> u32
    requires digits { is_number (word (words text.now) place) ≡ true }
    requires small { number (word (words text.now) place) ≤ 4294967295 }
    ensures { result ≡ number (word (words text.now) place) }
{
    written_at(text, place) as u32
}

/// The button of a line, which is one of so many.
fn button_at(text: &[u8], count: u32) -> u32
    requires digits { is_number (word (words text.now) 3) ≡ true }
    requires below { number (word (words text.now) 3) < count }
    ensures { result ≡ number (word (words text.now) 3) }
{
    written_at(text, 3) as u32
}

/// The verb of a line of an act.
fn verb_at(text: &[u8]) -> Verb
    ensures { result ≡ verb_on (words text.now) }
{
    match Verb::of(word_at(text, 3)) {
        Some(verb) => verb,
        None => Verb::List,
    }
}

/// The name in a line of an act, which is not too long.
fn name_at(text: &[u8]) -> ArrayVec<u8, NAME_LIMIT>
    requires { length (word (words text.now) 4) ≤ NAME_LIMIT }
    ensures { result.items ≡ word (words text.now) 4 }
{
    let mut name = ArrayVec::new();
    let Ok(()) = name.try_extend_from_slice(word_at(text, 4)) else {
        unreachable!()
    };
    name
}

/// The ticks of a window, where there are any.
fn windows_of(ticks: u32) -> Option<u32>
    ensures { unwrap_or result 0 ≡ ticks }
{
    if ticks == 0 { None } else { Some(ticks) }
}

impl Draft {
    ghost use Rattle.std.specs.Prelude.{◌≡◌, ◌≤◌, true, false, ℕ, List, [], IfOk};
    ghost use Rattle.script_text.specs.Alone.{IsLine};
    ghost use Rattle.script_text.specs.Rules.{disorders, exceeds};
    ghost use Rattle.script_text.specs.Parts.{context_of};
    ghost use Rattle.script_text.specs.Settings.{AreSound};
    ghost use Rattle.script_text.specs.Text.{words};
    ghost use Rattle.script_text.specs.Seats.{stood_at, stood_after};
    ghost use Rattle.script_text.specs.Progress.{DraftSays, Adds, with_line};

    /// No lines.
    pub fn new(alloc: Global) -> Draft
        ensures { DraftSays [] result }
    {
        Draft {
            ram: Line::Ram.row().default,
            leds: Line::Leds.row().default,
            buttons: Line::Buttons.row().default,
            slice: Line::Slice.row().default,
            partition: Line::Partition.row().default,
            start: Line::Start.row().default,
            uart: Line::Uart.row().default,
            storage: Line::Storage.row().default,
            policy: Policy::Stop,
            strict: false,
            faults: ArrayVec::new(),
            words: Vec::new(alloc),
            events: Vec::new(alloc),
            stood: [false; 10],
        }
    }

    /// Whether the line may not repeat, and stands already.
    fn repeats(&self, line: Line) -> bool
        ensures { result ≡ stood_at line self.now.stood }
    {
        match line.seat() {
            Some(seat) => self.stood[seat],
            None => false,
        }
    }

    /// What is needed of the lines so far to look at the next one.
    fn context(&self) -> Context
        ensures { result ≡ context_of self.now.said }
    {
        Context {
            buttons: self.buttons,
            is_partitioned: self.partition > 0,
        }
    }

    /// Whether the line may not stand after those so far.
    fn disorders(&self, line: Line, text: &[u8]) -> bool
        requires { IsLine (context_of self.now.said) (words text.now) line }
        ensures { result ≡ disorders line self.now.said (words text.now) }
    {
        match line {
            Line::Input | Line::Press | Line::Release | Line::Act => match self.events.last() {
                Some(event) => is_before(written_at(text, 1), event),
                None => false,
            },
            Line::StorageFault => {
                !self.events.is_empty()
                    || match self.faults.as_slice().last() {
                        Some(fault) => written_at(text, 1) <= u64::from(*fault),
                        None => false,
                    }
            }
            _ => !self.events.is_empty(),
        }
    }

    /// Whether there are too many of what the line gives.
    fn exceeds(&self, line: Line, text: &[u8]) -> bool
        requires { IsLine (context_of self.now.said) (words text.now) line }
        ensures { result ≡ exceeds line self.now.said (words text.now) }
    {
        match line {
            Line::StorageFault => self.faults.is_full(),
            Line::Random => self.words.len() + word_count(text) > WORD_LIMIT + 1,
            Line::Input => self.events.len() >= EVENT_LIMIT || is_long(word_at(text, 3)),
            Line::Press | Line::Release | Line::Act => self.events.len() >= EVENT_LIMIT,
            _ => false,
        }
    }

    /// Notes that the line stands now.
    fn mark(&mut self, line: Line)
        ensures stood { self.new.stood ≡ stood_after line self.old.stood }
        ensures said { self.new.said ≡ self.old.said }
    {
        if let Some(seat) = line.seat() {
            self.stood[seat] = true;
        }
    }

    /// Takes what the line says. It fails where there is no memory for it.
    fn take(&mut self, line: Line, text: &[u8]) -> Result<(), AllocError>
        requires line { IsLine (context_of self.old.said) (words text.now) line }
        requires few { exceeds line self.old.said (words text.now) ≡ false }
        ensures said { IfOk result (λ _.
            self.new.said ≡ with_line line (words text.now) self.old.said) }
        ensures stood { self.new.stood ≡ self.old.stood }
    {
        match line {
            Line::Ram => self.ram = small_at(text, 1),
            Line::Leds => self.leds = small_at(text, 1),
            Line::Buttons => self.buttons = small_at(text, 1),
            Line::Slice => self.slice = small_at(text, 1),
            Line::Partition => self.partition = small_at(text, 1),
            Line::Start => self.start = small_at(text, 1),
            Line::Uart => self.uart = small_at(text, 1),
            Line::Storage => self.storage = small_at(text, 1),
            Line::Stop => self.policy = Policy::Stop,
            Line::Restart => self.policy = Policy::Restart,
            Line::Threshold => self.policy = Policy::Threshold(small_at(text, 2)),
            Line::FilterOpen => self.strict = false,
            Line::FilterStrict => self.strict = true,
            Line::StorageFault => self.faults.push(small_at(text, 1)),
            Line::Random => add_words(&mut self.words, text)?,
            Line::Input => {
                let kind = EventKind::Input(hex_bytes(word_at(text, 3)));
                add_event(&mut self.events, text, kind)?
            }
            Line::Press => {
                let kind = EventKind::Press(button_at(text, self.buttons));
                add_event(&mut self.events, text, kind)?
            }
            Line::Release => {
                let kind = EventKind::Release(button_at(text, self.buttons));
                add_event(&mut self.events, text, kind)?
            }
            Line::Act => {
                let kind = EventKind::Act(verb_at(text), name_at(text));
                add_event(&mut self.events, text, kind)?
            }
        }
        Ok(())
    }

    /// Adds a line, or tells the first rule that it breaks. Where there is no memory for what it says,
    /// the draft is of no use any more.
    pub fn add(&mut self, text: &[u8]) -> Result<(), Trouble>
        ensures { (before : List (List ℕ)) → DraftSays before self.old
            → Adds before text.now self.new result }
    {
        let line = match read_line(text, self.context()) {
            Ok(Some(line)) => line,
            Ok(None) => return Ok(()),
            Err(rule) => return Err(Trouble::Breaks(rule)),
        };
        if self.repeats(line) {
            return Err(Trouble::Breaks(ScriptRule::Repeated));
        }
        if self.disorders(line, text) {
            return Err(Trouble::Breaks(ScriptRule::Order));
        }
        if self.exceeds(line, text) {
            return Err(Trouble::Breaks(ScriptRule::TooMany));
        }
        let Ok(()) = self.take(line, text) else {
            return Err(Trouble::Memory);
        };
        self.mark(line);
        Ok(())
    }

    /// The settings.
    pub fn script(self) -> Script
        requires { AreSound self.said }
        ensures { result ≡ self.said }
    {
        Script {
            ram: self.ram,
            leds: self.leds,
            buttons: self.buttons,
            slice: self.slice,
            partition: windows_of(self.partition),
            start: self.start,
            uart: self.uart,
            storage: self.storage,
            policy: self.policy,
            strict: self.strict,
            faults: self.faults,
            words: WordList::new(self.words),
            events: EventList::new(self.events),
        }
    }
}
