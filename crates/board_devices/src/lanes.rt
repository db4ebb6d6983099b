//! What each lane has of its own: of all slots there is one lane, with time partitions of each.
ghost use Rattle.std.specs.Prelude.{◌≡◌, ◌<◌, [], IfOk, length, map, replicate, slice_index_or, slice_set};
ghost use Rattle.std.specs.Borrow.{Lends, sem};
ghost use Rattle.board_devices.specs.SerialLine.{line_at, with_input};

use crate::uart::Uart;
use crate::words::{Words, same_words};
use std::alloc::Global;
use std::marker::Model;
use tk_base::WordList;
use tk_outside::NoMemory;

/// The UART of each lane. Contracts see their lines, that of lane 0 first.
#[derive(Drop)]
pub struct Uarts {
    lanes: Vec<Uart>,
}

impl Model for Uarts {
    ghost use Rattle.std.specs.Prelude.{List};
    ghost use Rattle.board_devices.specs.SerialLine.{SerialLine};

    ghost Value = { List SerialLine };

    ghost view = { λ u. u.lanes.items };
}

/// The same UARTs again. The one error is want of memory.
fn same_uarts(alloc: Global, uarts: &[Uart]) -> Result<Vec<Uart>, NoMemory>
    ensures { IfOk result (λ copies. copies.items ≡ uarts.now) }
{
    let mut copies = Vec::new(alloc);
    for uart in uarts {
        let copy = uart.copied(alloc)?;
        let Ok(()) = copies.push(copy) else {
            return Err(NoMemory);
        };
    }
    Ok(copies)
}

impl Uarts {
    ghost use Rattle.board_devices.specs.contracts.lanes.Uarts.{the_row};
    ghost use Rattle.board_devices.specs.contracts.uart.Uart.{the_row as uart};

    /// One for each of so many lanes. The one error is want of memory.
    pub fn new(alloc: Global, count: usize, ticks: u32) -> Result<Uarts, NoMemory>
        ensures { IfOk result (λ uarts. uarts
            ≡ replicate count (record { ring = []; ticks = ticks; free = 0 })) }
    {
        let mut lanes = Vec::new(alloc);
        for _ in 0..count {
            let uart = Uart::new(alloc, ticks)?;
            let Ok(()) = lanes.push(uart) else {
                return Err(NoMemory);
            };
        }
        Ok(Uarts { lanes })
    }

    /// The same again. The one error is want of memory.
    pub fn copied(&self, alloc: Global) -> Result<Uarts, NoMemory>
        ensures { IfOk result (λ it. it ≡ self.now) }
    {
        let lanes = same_uarts(alloc, &self.lanes)?;
        Ok(Uarts { lanes })
    }

    /// When that of a lane is free; at once where there is no such lane.
    pub fn free(&self, lane: usize) -> u64
        ensures { result ≡ (line_at lane self.now).free }
    {
        match self.lanes.get(lane) {
            Some(uart) => uart.free(),
            None => 0,
        }
    }

    /// How many bytes came in on a lane and were not read; none where there is no such lane.
    pub fn held(&self, lane: usize) -> usize
        ensures { result ≡ length (line_at lane self.now).ring }
    {
        match self.lanes.get(lane) {
            Some(uart) => uart.held(),
            None => 0,
        }
    }

    /// That of a lane. It asks that there is such a lane.
    pub fn at(&mut self, lane: usize) -> &mut Uart
        requires { lane < length self.old }
        ensures* writes_back { sem 𝓛 (Lends the_row uart self.entry result (slice_set self.old lane)) }
        ensures value { result.now ≡ line_at lane self.old }
    {
        &mut self.lanes[lane]
    }

    /// Bytes come in on each lane.
    pub(crate) fn push(&mut self, bytes: &[u8])
        ensures { self.new ≡ map (with_input bytes.now) self.old }
    {
        push_to_all(&mut self.lanes, bytes);
    }
}

/// Bytes come in at each UART.
fn push_to_all(uarts: &mut [Uart], bytes: &[u8])
    ensures { uarts.new ≡ map (with_input bytes.now) uarts.old }
{
    for uart in uarts.iter_mut() {
        uart.push(bytes);
    }
}

/// The random words of each lane. Contracts see the lists of them, that of lane 0 first.
#[derive(Drop)]
pub struct WordLanes {
    lanes: Vec<Words>,
}

impl Model for WordLanes {
    ghost use Rattle.std.specs.Prelude.{ℕ, List};

    ghost Value = { List (List ℕ) };

    ghost view = { λ w. w.lanes.items };
}

/// The same words of each lane again. The one error is want of memory.
fn same_lanes(alloc: Global, lanes: &[Words]) -> Result<Vec<Words>, NoMemory>
    ensures { IfOk result (λ copies. copies.items ≡ lanes.now) }
{
    let mut copies = Vec::new(alloc);
    for words in lanes {
        let copy = words.copied(alloc)?;
        let Ok(()) = copies.push(copy) else {
            return Err(NoMemory);
        };
    }
    Ok(copies)
}

impl WordLanes {
    ghost use Rattle.board_devices.specs.contracts.lanes.WordLanes.{the_row};
    ghost use Rattle.board_devices.specs.contracts.words.Words.{the_row as words};

    /// The words for each of so many lanes. The one error is want of memory.
    pub fn new(alloc: Global, count: usize, words: WordList) -> Result<WordLanes, NoMemory>
        ensures { IfOk result (λ lists. lists ≡ replicate count words) }
    {
        let mut lanes = Vec::new(alloc);
        for _ in 0..count {
            let copy = same_words(alloc, &words)?;
            let Ok(()) = lanes.push(Words::new(copy)) else {
                return Err(NoMemory);
            };
        }
        Ok(WordLanes { lanes })
    }

    /// The same again. The one error is want of memory.
    pub fn copied(&self, alloc: Global) -> Result<WordLanes, NoMemory>
        ensures { IfOk result (λ it. it ≡ self.now) }
    {
        let lanes = same_lanes(alloc, &self.lanes)?;
        Ok(WordLanes { lanes })
    }

    /// Those of a lane. It asks that there is such a lane.
    pub fn at(&mut self, lane: usize) -> &mut Words
        requires { lane < length self.old }
        ensures* writes_back { sem 𝓛 (Lends the_row words self.entry result (slice_set self.old lane)) }
        ensures value { result.now ≡ slice_index_or self.old lane [] }
    {
        &mut self.lanes[lane]
    }
}
