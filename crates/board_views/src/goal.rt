//! What a board looks for while it goes on.
ghost use Rattle.std.specs.Prelude.{◌≡◌, ◌==◌, ◌++◌, OnOk};
ghost use Rattle.std.specs.List.{list_any};
ghost use Rattle.std.specs.Str.{bytes_eq};
ghost use Rattle.board_views.specs.Goals.{before_stop, changed_at, end_stop, exit_stop, is_among, shows_exit};
ghost use Rattle.board_views.specs.Goals.{stands_outside, is_past, is_at_instruction, range_stop};
ghost use Rattle.board_views.specs.Goals.{shown_stop, stop_after};
ghost use Rattle.board_views.specs.Goals.{watched_at, watched_bytes};

use crate::going::Stop;
use crate::memory::memory_at;
use arrayvec::ArrayVec;
use board_core::Board;
use process_record::{CallMade, Emit, Process, State};
use tk_base::{Choice, Denial, NoMemory, SLOT_COUNT, Slot};

/// How many addresses there may be in a goal.
pub const GOAL_ADDRESSES: usize = 64;

/// How many places a goal may watch.
pub const GOAL_PLACES: usize = 21;

/// The class of the system call Exit.
const EXIT_CLASS: u32 = 6;

/// A place that is watched: in the block of a slot, of whose number the last four bits count, from an
/// address on so many bytes.
#[derive(Clone, Copy, Debug, PartialEq, Eq, Default)]
pub struct Watched {
    pub slot: u32,
    pub at: u32,
    pub count: u32,
}

/// What stops a board that goes on: before a turn of any process an address, which its pc is; after
/// a step a watched byte that changed, a denial, an exit, and an operator's act; and after a turn of
/// one process an area of addresses, which it left.
#[derive(Drop)]
pub struct Goal {
    /// The process that leaves the area.
    pub slot: Slot,
    /// Where the area begins.
    pub low: u32,
    /// Where it ends, exclusively; 0 where there is none.
    pub high: u32,
    pub watched: ArrayVec<Watched, GOAL_PLACES>,
    pub addresses: ArrayVec<u32, GOAL_ADDRESSES>,
}

/// The bytes of a watched place.
fn watched_at(board: &Board, place: Watched) -> &[u8]
    ensures { result.now ≡ watched_at board.now place }
{
    let slot = Slot::new(place.slot as usize % SLOT_COUNT);
    memory_at(board, slot, place.at, place.count)
}

/// Adds the bytes of watched places.
pub fn keep_watched(board: &Board, places: &[Watched], kept: &mut Vec<u8>) -> Result<(), NoMemory>
    ensures { OnOk result (kept.new.items ≡ kept.old.items ++ watched_bytes board.now places.now) }
{
    match places {
        [] => Ok(()),
        [place, others @ ..] => {
            if kept.extend_from_slice(watched_at(board, *place)).is_err() {
                return Err(NoMemory);
            }
            keep_watched(board, others, kept)
        }
    }
}

/// Whether bytes are the same. They are few, and compared after each step.
fn are_same(first: &[u8], second: &[u8]) -> bool
    ensures { result ≡ bytes_eq first.now second.now }
{
    match first {
        [] => second.is_empty(),
        [a, later @ ..] => match second {
            [] => false,
            [b, others @ ..] => *a == *b && are_same(later, others),
        },
    }
}

/// The address of the first watched place whose bytes are not those that were kept.
fn changed_at(board: &Board, kept: &[u8], places: &[Watched]) -> Option<u32>
    ensures { result ≡ changed_at board.now kept.now places.now }
{
    match places {
        [] => None,
        [place, others @ ..] => {
            let bytes = watched_at(board, *place);
            if kept.len() < bytes.len() {
                return Some(place.at);
            }
            let (was, later) = kept.split_at(bytes.len());
            if are_same(was, bytes) {
                return changed_at(board, later, others);
            }
            Some(place.at)
        }
    }
}

/// The address of the first place that a goal watches whose bytes are not those that were kept.
pub fn change_of(board: &Board, goal: &Goal, kept: &[u8]) -> Option<u32>
    ensures { result ≡ changed_at board.now kept.now goal.now.watched.items }
{
    changed_at(board, kept, &goal.watched)
}

/// Whether a process is at an instruction.
fn is_at_instruction(state: State) -> bool
    ensures { result ≡ is_at_instruction state }
{
    match state {
        State::Running => true,
        State::Yielded | State::Faulted | State::Terminated(_) => false,
    }
}

/// Whether an address is one of some. They are few, and looked through before each step.
fn has(addresses: &[u32], pc: u32) -> bool
    ensures { result ≡ list_any (λ a. a == pc) addresses.now }
{
    match addresses {
        [] => false,
        [first, rest @ ..] => *first == pc || has(rest, pc),
    }
}

/// Whether a process is at an instruction that has one of some addresses.
fn is_among(addresses: &[u32], process: &Option<Process>) -> bool
    ensures { result ≡ is_among addresses.now process.now }
{
    match process {
        Some(process) => is_at_instruction(process.state) && has(addresses, process.regs.pc()),
        None => false,
    }
}

/// What stops a board before the next choice.
pub fn before_stop(board: &Board, goal: &Goal, choice: &Choice) -> Option<Stop>
    ensures { result ≡ before_stop goal.now board.now choice.now }
{
    match choice {
        Choice::Run(slot) => {
            if is_among(&goal.addresses, &board.process(*slot)) {
                Some(Stop::Address { slot: *slot })
            } else {
                None
            }
        }
        Choice::Device(_) | Choice::Pass(_) => None,
    }
}

/// Whether an address is outside of an area, where this is one.
fn is_past(low: u32, high: u32, pc: u32) -> bool
    ensures { result ≡ is_past low high pc }
{
    high > 0 && (pc < low || pc >= high)
}

/// Whether a process is outside of an area.
fn stands_outside(low: u32, high: u32, process: &Option<Process>) -> bool
    ensures { result ≡ stands_outside low high process.now }
{
    match process {
        Some(process) => is_past(low, high, process.regs.pc()),
        None => false,
    }
}

/// Whether a turn of the goal's process left its area.
fn range_stop(board: &Board, goal: &Goal, choice: &Choice) -> Option<Stop>
    ensures { result ≡ range_stop goal.now board.now choice.now }
{
    match choice {
        Choice::Run(slot) => {
            if *slot == goal.slot
                && stands_outside(goal.low, goal.high, &board.process(goal.slot))
            {
                Some(Stop::Range)
            } else {
                None
            }
        }
        Choice::Device(_) | Choice::Pass(_) => None,
    }
}

/// Whether a call is an exit that was made.
fn shows_exit(made: &CallMade) -> bool
    ensures { result ≡ shows_exit made.now }
{
    made.class == EXIT_CLASS && made.reply.is_none() && made.rule.is_none()
}

/// The exit of a process that a call is.
fn exit_stop(slot: Slot, made: &Option<CallMade>) -> Option<Stop>
    ensures { result ≡ exit_stop slot made.now }
{
    match made {
        Some(made) => {
            if shows_exit(made) {
                Some(Stop::Exit {
                    slot,
                    words: made.args,
                })
            } else {
                None
            }
        }
        None => None,
    }
}

/// A denial of a process, or else its exit.
fn end_stop(slot: Slot, denial: &Option<Denial>, made: &Option<CallMade>) -> Option<Stop>
    ensures { result ≡ end_stop slot denial.now made.now }
{
    match denial {
        Some(denial) => Some(Stop::Denied {
            slot,
            denial: *denial,
        }),
        None => exit_stop(slot, made),
    }
}

/// What a step shows that stops a board.
fn shown_stop(shown: &Emit) -> Option<Stop>
    ensures { result ≡ shown_stop shown.now.act shown.now }
{
    if let Some((slot, _)) = shown.act {
        return Some(Stop::Act { slot });
    }
    match shown.slot {
        Some(slot) => end_stop(slot, &shown.denial, &shown.made),
        None => None,
    }
}

/// What stops a board after a step by a choice, which shows this: the bytes that were watched are
/// kept.
#[tactic(auto, unfolding(crate::specs::Goals::stop_after))]
pub fn stop_after(
    board: &Board,
    goal: &Goal,
    kept: &[u8],
    choice: &Choice,
    shown: &Emit,
) -> Option<Stop>
    ensures { result ≡ stop_after goal.now kept.now board.now choice.now shown.now }
{
    if let Some(stop) = shown_stop(shown) {
        return Some(stop);
    }
    if let Some(at) = change_of(board, goal, kept) {
        return Some(Stop::Changed { at });
    }
    range_stop(board, goal, choice)
}
