//! The commands, as words.
ghost use Rattle.std.specs.Prelude.{◌≡◌, ◌==◌, map, option_copied, IfOk};
ghost use Rattle.std.specs.List.{slice_split};
ghost use Rattle.std.specs.Option.{option_map};
ghost use Rattle.tock_look.specs.Asks.{added_of, adding, ask_of, asked, asks_of, is_last, is_traced, limits_in};
ghost use Rattle.tock_look.specs.Asks.{limits_of, place_of, placed_ask};
ghost use Rattle.tock_look.specs.Asks.{line_ask, looking_shown, most_of, numbered_ask, numbers_after};
ghost use Rattle.tock_look.specs.Asks.{numbers_for, numbers_between, places_of, plain_ask, reaching, search_ask};
ghost use Rattle.tock_look.specs.Asks.{searching, slot_of, stepping, two_numbers_ask, watched_after};
ghost use Rattle.tock_look.specs.Asks.{watched_of, with_two};

use arrayvec::ArrayVec;
use board_views::{GOAL_ADDRESSES, GOAL_PLACES, Goal, Reach, Watched};
use decimal_number::number_up_to;
use std::alloc::{AllocError, Global};
use tk_base::{NoMemory, Slot};

/// The number of the last slot.
const LAST_SLOT: u64 = 15;

/// The number of the last place at which a board may be kept.
const LAST_PLACE: u64 = 255;

/// How many bytes a line may have that is added.
pub const LINE_LIMIT: usize = 256;

/// How the command begins that adds a line to a script.
const ADD: &[u8] = b"add ";

/// The greatest number in a command.
const MOST_NUMBER: u64 = 4_294_967_295;

/// A command. Slots are 0 to 15, and other numbers at most 2^32 - 1, all of base 10.
#[derive(Drop)]
pub enum Ask {
    /// `boot`: the board is as before its first step.
    Boot,
    /// `state`: all that there is to see.
    State,
    /// `at S`: where the process in a slot is.
    At { slot: Slot },
    /// `steps S MOST`: at most so many steps are made.
    Steps { slot: Slot, most: u32 },
    /// `trace S MOST`: the same, with the lines of the trace.
    Trace { slot: Slot, most: u32 },
    /// `memory S AT COUNT`: so many bytes of a block, from an address on.
    Memory { slot: Slot, at: u32, count: u32 },
    /// `storage S AT COUNT`: so many bytes of the storage of a slot, from one on.
    Storage { slot: Slot, at: u32, count: u32 },
    /// `to S T MOST`: the steps that begin before a time and end at it or before, at most so many;
    /// `told S T MOST`: the same, with the lines of the trace but for those of calls.
    To { slot: Slot, reach: Reach },
    /// `turns S K MOST`: steps until the process of a slot had so many turns, at most so many steps.
    Turns { slot: Slot, turns: u32, most: u32 },
    /// `until S MOST WATCHED ADDRESSES`, or with an area `until S MOST,LOW,HIGH WATCHED ADDRESSES`:
    /// steps until a goal stops the board, at most so many.
    Until { most: u32, goal: Goal },
    /// `last S MOST WATCHED ADDRESSES`: at most so many steps, and where a goal would have stopped
    /// the board the last time.
    Last { most: u32, goal: Goal },
    /// `add LINE`: the event of an `at` line of a script is still to come in. The line has at most
    /// [`LINE_LIMIT`] bytes.
    Add { line: ArrayVec<u8, LINE_LIMIT> },
    /// `keep K`: the board is kept at a place, 0 to 255.
    Keep { place: usize },
    /// `return K`: the board is as it was kept at a place.
    Return { place: usize },
    /// No command.
    Unknown,
}

/// The slot that a word names.
fn slot_in(word: &str) -> Option<Slot>
    ensures { result ≡ slot_of word.now }
{
    Some(Slot::new(number_up_to(word.as_bytes(), LAST_SLOT)? as usize))
}

/// The number that a word gives.
fn number_in(word: &str) -> Option<u32>
    ensures { result ≡ most_of word.now }
{
    Some(number_up_to(word.as_bytes(), MOST_NUMBER)? as u32)
}

/// The command of a word alone.
fn plain_ask(name: &str) -> Option<Ask>
    ensures { result ≡ plain_ask name.now }
{
    match name {
        "boot" => Some(Ask::Boot),
        "state" => Some(Ask::State),
        _ => None,
    }
}

/// The place that a word names.
fn place_in(word: &str) -> Option<usize>
    ensures { result ≡ place_of word.now }
{
    Some(number_up_to(word.as_bytes(), LAST_PLACE)? as usize)
}

/// The command of a slot or a place.
#[tactic(auto, unfolding(crate::specs::Asks::placed_ask))]
fn placed_ask(name: &str, number: &str) -> Option<Ask>
    ensures { result ≡ placed_ask name.now number.now }
{
    match name {
        "at" => Some(Ask::At {
            slot: slot_in(number)?,
        }),
        "keep" => Some(Ask::Keep {
            place: place_in(number)?,
        }),
        "return" => Some(Ask::Return {
            place: place_in(number)?,
        }),
        _ => None,
    }
}

/// The command of a slot and a number of steps.
#[tactic(auto, unfolding(crate::specs::Asks::numbered_ask))]
fn numbered_ask(name: &str, slot: &str, number: &str) -> Option<Ask>
    ensures { result ≡ numbered_ask name.now slot.now number.now }
{
    let is_traced = is_traced(name)?;
    let slot = slot_in(slot)?;
    let most = number_in(number)?;
    Some(stepping(is_traced, slot, most))
}

/// Whether the lines of steps are to be written.
fn is_traced(name: &str) -> Option<bool>
    ensures { result ≡ is_traced name.now }
{
    match name {
        "steps" => Some(false),
        "trace" => Some(true),
        _ => None,
    }
}

/// The command that makes steps.
fn stepping(is_traced: bool, slot: Slot, most: u32) -> Ask
    ensures { result ≡ stepping is_traced slot most }
{
    if is_traced {
        Ask::Trace { slot, most }
    } else {
        Ask::Steps { slot, most }
    }
}

/// What two numbers of a command are for.
#[derive(Clone, Copy, Debug, PartialEq, Eq)]
pub enum Numbers {
    Memory,
    Storage,
    To,
    Told,
    Turns,
}

/// What the two numbers are for of the command of that name.
fn numbers_for(name: &str) -> Option<Numbers>
    ensures { result ≡ numbers_for name.now }
{
    match name {
        "memory" => Some(Numbers::Memory),
        "storage" => Some(Numbers::Storage),
        "to" => Some(Numbers::To),
        "told" => Some(Numbers::Told),
        "turns" => Some(Numbers::Turns),
        _ => None,
    }
}

/// The command that goes on to a time.
fn reaching(slot: Slot, time: u32, most: u32, told: bool) -> Ask
    ensures { result ≡ reaching slot time most told }
{
    let reach = Reach { time, most, told };
    Ask::To { slot, reach }
}

/// The command of two numbers.
fn with_two(numbers: Numbers, slot: Slot, first: u32, second: u32) -> Ask
    ensures { result ≡ with_two numbers slot first second }
{
    match numbers {
        Numbers::Memory => Ask::Memory {
            slot,
            at: first,
            count: second,
        },
        Numbers::Storage => Ask::Storage {
            slot,
            at: first,
            count: second,
        },
        Numbers::To => reaching(slot, first, second, false),
        Numbers::Told => reaching(slot, first, second, true),
        Numbers::Turns => Ask::Turns {
            slot,
            turns: first,
            most: second,
        },
    }
}

/// The command of a slot and two numbers.
#[tactic(auto, unfolding(crate::specs::Asks::two_numbers_ask))]
fn two_numbers_ask(name: &str, slot: &str, first: &str, second: &str) -> Option<Ask>
    ensures { result ≡ two_numbers_ask name.now slot.now first.now second.now }
{
    let numbers = numbers_for(name)?;
    let slot = slot_in(slot)?;
    let first = number_in(first)?;
    let second = number_in(second)?;
    Some(with_two(numbers, slot, first, second))
}

/// The numbers that words give, behind others; none where one of them gives none, or there are more
/// than a goal may have addresses.
fn numbers_after(
    mut numbers: ArrayVec<u32, GOAL_ADDRESSES>,
    words: &[&str],
) -> Option<ArrayVec<u32, GOAL_ADDRESSES>>
    ensures { option_map (λ v. v.items) result
        ≡ numbers_after numbers.items (map (λ word. word.now) words.now) }
{
    match words {
        [] => Some(numbers),
        [first, rest @ ..] => {
            let number = number_in(first)?;
            if numbers.try_push(number).is_err() {
                return None;
            }
            numbers_after(numbers, rest)
        }
    }
}

/// A word's own words, which stand between commas.
fn listed_in(alloc: Global, word: &str) -> Result<Vec<&str>, AllocError>
    ensures { IfOk result (λ v. map (λ piece. piece.now) v.items
        ≡ slice_split (λ b. b == 44) word.now) }
{
    word.split(',').collect(alloc)
}

/// The numbers of a word, which stand between commas; `-` has none.
#[tactic(auto, unfolding(crate::specs::Asks::numbers_between))]
fn numbers_in(alloc: Global, word: &str) -> Result<Option<ArrayVec<u32, GOAL_ADDRESSES>>, NoMemory>
    ensures { IfOk result (λ numbers. option_map (λ v. v.items) numbers ≡ numbers_between word.now) }
{
    if word == "-" {
        return Ok(Some(ArrayVec::new()));
    }
    match listed_in(alloc, word) {
        Ok(words) => Ok(numbers_after(ArrayVec::new(), &words)),
        Err(_) => Err(NoMemory),
    }
}

/// The watched places that numbers give, behind others. Each has three numbers, and fewer at the end
/// are none. None where there are more places than a goal can have.
fn watched_after(
    mut places: ArrayVec<Watched, GOAL_PLACES>,
    numbers: &[u32],
) -> Option<ArrayVec<Watched, GOAL_PLACES>>
    ensures { option_map (λ v. v.items) result ≡ watched_after places.items numbers.now }
{
    match numbers {
        [slot, at, count, others @ ..] => {
            let place = Watched {
                slot: *slot,
                at: *at,
                count: *count,
            };
            if places.try_push(place).is_err() {
                return None;
            }
            watched_after(places, others)
        }
        _ => Some(places),
    }
}

/// The watched places of a word.
fn watched_in(alloc: Global, word: &str) -> Result<Option<ArrayVec<Watched, GOAL_PLACES>>, NoMemory>
    ensures { IfOk result (λ places. option_map (λ v. v.items) places ≡ watched_of word.now) }
{
    match numbers_in(alloc, word)? {
        Some(numbers) => Ok(watched_after(ArrayVec::new(), &numbers)),
        None => Ok(None),
    }
}

/// How many steps are made at most, and an area of addresses.
#[derive(Clone, Copy, Debug, PartialEq, Eq)]
pub struct Limits {
    pub most: u32,
    pub low: u32,
    pub high: u32,
}

/// The limits that numbers give: without an area, or with one.
fn limits_of(numbers: &[u32]) -> Option<Limits>
    ensures { result ≡ limits_of numbers.now }
{
    match numbers {
        [most] => Some(Limits {
            most: *most,
            low: 0,
            high: 0,
        }),
        [most, low, high] => Some(Limits {
            most: *most,
            low: *low,
            high: *high,
        }),
        _ => None,
    }
}

/// The limits of a word.
fn limits_in(alloc: Global, word: &str) -> Result<Option<Limits>, NoMemory>
    ensures { IfOk result (λ limits. limits ≡ limits_in word.now) }
{
    match numbers_in(alloc, word)? {
        Some(numbers) => Ok(limits_of(&numbers)),
        None => Ok(None),
    }
}

/// What a command has that looks for places: its limits, the watched places, and the addresses.
#[derive(Drop)]
struct Places {
    limits: Limits,
    watched: ArrayVec<Watched, GOAL_PLACES>,
    addresses: ArrayVec<u32, GOAL_ADDRESSES>,
}

/// Those of three words.
fn places_in(
    alloc: Global,
    limits: &str,
    watched: &str,
    addresses: &str,
) -> Result<Option<Places>, NoMemory>
    ensures { IfOk result (λ places. places ≡ places_of limits.now watched.now addresses.now) }
{
    let limits = limits_in(alloc, limits)?;
    let watched = watched_in(alloc, watched)?;
    let addresses = numbers_in(alloc, addresses)?;
    let Some(limits) = limits else {
        return Ok(None);
    };
    let Some(watched) = watched else {
        return Ok(None);
    };
    let Some(addresses) = addresses else {
        return Ok(None);
    };
    Ok(Some(Places {
        limits,
        watched,
        addresses,
    }))
}

/// Whether the last place of a way is asked for.
fn is_last(name: &str) -> Option<bool>
    ensures { result ≡ is_last name.now }
{
    match name {
        "until" => Some(false),
        "last" => Some(true),
        _ => None,
    }
}

/// The command that looks for places.
fn searching(is_last: bool, slot: Slot, places: Places) -> Ask
    ensures { result ≡ searching is_last slot places }
{
    let Places {
        limits,
        watched,
        addresses,
    } = places;
    let goal = Goal {
        slot,
        low: limits.low,
        high: limits.high,
        watched,
        addresses,
    };
    let most = limits.most;
    if is_last {
        Ask::Last { most, goal }
    } else {
        Ask::Until { most, goal }
    }
}

/// The command of a slot that looks for places.
fn search_ask(name: &str, slot: &str, places: Places) -> Option<Ask>
    ensures { result ≡ search_ask name.now slot.now places }
{
    let is_last = is_last(name)?;
    let slot = slot_in(slot)?;
    Some(searching(is_last, slot, places))
}

/// The command of some words.
fn asked(alloc: Global, pieces: &[&str]) -> Result<Option<Ask>, NoMemory>
    ensures { IfOk result (λ ask. ask ≡ asked (map (λ piece. piece.now) pieces.now)) }
{
    match pieces {
        [name] => Ok(plain_ask(name)),
        [name, number] => Ok(placed_ask(name, number)),
        [name, slot, number] => Ok(numbered_ask(name, slot, number)),
        [name, slot, first, second] => Ok(two_numbers_ask(name, slot, first, second)),
        [name, slot, limits, watched, addresses] => {
            match places_in(alloc, limits, watched, addresses)? {
                Some(places) => Ok(search_ask(name, slot, places)),
                None => Ok(None),
            }
        }
        _ => Ok(None),
    }
}

/// A word's own words, which stand between blanks.
fn pieces_of(alloc: Global, word: &str) -> Result<Vec<&str>, AllocError>
    ensures { IfOk result (λ v. map (λ piece. piece.now) v.items
        ≡ slice_split (λ b. b == 32) word.now) }
{
    word.split(' ').collect(alloc)
}

/// The line that a word adds to a script, if it begins so.
fn added_in(word: &[u8]) -> Option<&[u8]>
    ensures { option_copied result ≡ added_of word.now }
{
    if word.len() < ADD.len() {
        return None;
    }
    let (name, line) = word.split_at(ADD.len());
    if name == ADD { Some(line) } else { None }
}

/// The command that adds a line. None where the line is too long.
fn adding(line: &[u8]) -> Option<Ask>
    ensures { result ≡ adding line.now }
{
    let mut copy = ArrayVec::new();
    match copy.try_extend_from_slice(line) {
        Ok(()) => Some(Ask::Add { line: copy }),
        Err(_) => None,
    }
}

/// The command of a word.
#[tactic(auto, unfolding(crate::specs::Asks::ask_of))]
fn ask_in(alloc: Global, word: &str) -> Result<Option<Ask>, NoMemory>
    ensures { IfOk result (λ ask. ask ≡ ask_of word.now) }
{
    if let Some(line) = added_in(word.as_bytes()) {
        return Ok(adding(line));
    }
    match pieces_of(alloc, word) {
        Ok(pieces) => asked(alloc, &pieces),
        Err(_) => Err(NoMemory),
    }
}

/// The command of a line; a line may also be none. It fails for want of memory alone.
pub fn line_ask(alloc: Global, line: &str) -> Result<Ask, NoMemory>
    ensures { IfOk result (λ ask. ask ≡ line_ask line.now) }
{
    match ask_in(alloc, line)? {
        Some(ask) => Ok(ask),
        None => Ok(Ask::Unknown),
    }
}

/// The commands of words; none where one of them is no command. It fails for want of memory alone.
pub fn asks_in(alloc: Global, words: &[String]) -> Result<Option<Vec<Ask>>, NoMemory>
    ensures { IfOk result (λ asks. looking_shown asks ≡ asks_of words.now) }
{
    let mut asks = Vec::new(alloc);
    for word in words {
        match ask_in(alloc, word.as_str())? {
            Some(ask) => {
                if asks.push(ask).is_err() {
                    return Err(NoMemory);
                }
            }
            None => return Ok(None),
        }
    }
    Ok(Some(asks))
}
