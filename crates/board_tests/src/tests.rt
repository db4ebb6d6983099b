//! Two applications on one board, step by step. Each function makes few calls: the proof of a long
//! one costs more than those of its parts.
use board_core::*;
use process_record::{Emit, State};
use script_text::{Script, read_script};
use std::alloc::Global;
use std::process::Abort;
use test_objects::{Tlv, image, object};
use tk_base::{Access, Choice, Denial, Rule, Slot};
use tk_outside::MemSink;
use turn_scheduler::next_choice;

/// `j .`
const SPIN: [u32; 1] = [0x0000_006f];

/// `lui a1, 0x80000` and `sw x0, 0(a1)`: a store at the start of RAM, which is the first
/// application's.
const STRAY: [u32; 2] = [0x8000_05b7, 0x0005_a023];

/// `ebreak`
const BREAK: [u32; 1] = [0x0010_0073];

/// `addi t0, t0, 1` and `j .-4`
const COUNT: [u32; 2] = [0x0012_8293, 0xffdf_f06f];

/// `li a4, 6`, `li a0, 0`, `li a1, 7` and `ecall`: it exits with the code 7.
const EXIT: [u32; 4] = [0x0060_0713, 0x0000_0513, 0x0070_0593, 0x0000_0073];

/// It allows the console a buffer that it may read into, the first 16 bytes of its RAM, and then 8
/// bytes at 32: `mv s0, a1`, `li a4, 3`, and twice `li a0, 1`, `li a1, 1`, the buffer's address in
/// a2 and its size in a3, and `ecall`.
const ALLOWS: [u32; 12] = [
    0x0005_8413,
    0x0030_0713,
    0x0010_0513,
    0x0010_0593,
    0x0004_0613,
    0x0100_0693,
    0x0000_0073,
    0x0010_0513,
    0x0010_0593,
    0x0204_0613,
    0x0080_0693,
    0x0000_0073,
];

/// An application of N bytes with this code.
fn application<const N: usize>(code: &[u32]) -> [u8; N] {
    let main = Tlv::Main {
        init: 0,
        protected: 0,
        minimum_ram: 256,
    };
    object(1, &[main], code)
}

/// A board with the two applications under a script; None for want of memory.
fn board_under(alloc: Global, script: Script) -> Option<Board> {
    let flash: [u8; 128] = image(&[&application::<64>(&SPIN), &application::<64>(&STRAY)]);
    let flash = Vec::from_slice(alloc, &flash).ok()?;
    Board::boot(alloc, flash, script).ok()
}

/// One without a script; None for want of memory.
fn board_of(alloc: Global) -> Option<Board> {
    let script = read_script(alloc, b"").ok()?;
    board_under(alloc, script)
}

/// A board with three applications: one with this code, one that stops at an `ebreak`, and one that
/// exits; a process that faults is started again twice. None for want of memory.
fn board_beside(alloc: Global, code: &[u32]) -> Option<Board> {
    let flash: [u8; 140] = image(&[
        &application::<40>(code),
        &application::<36>(&BREAK),
        &application::<64>(&EXIT),
    ]);
    let flash = Vec::from_slice(alloc, &flash).ok()?;
    let script = read_script(alloc, b"slice 2\npolicy threshold 2\n").ok()?;
    Board::boot(alloc, flash, script).ok()
}

/// The turns of the three by round robin in slices of two, fourteen of them.
fn fourteen_turns() -> [Choice; 14] {
    let mut choices = [Choice::Run(Slot::new(0)); 14];
    choices[2] = Choice::Run(Slot::new(1));
    choices[3] = Choice::Run(Slot::new(1));
    choices[4] = Choice::Run(Slot::new(2));
    choices[5] = Choice::Run(Slot::new(2));
    choices[8] = Choice::Run(Slot::new(1));
    choices[9] = Choice::Run(Slot::new(2));
    choices[10] = Choice::Run(Slot::new(2));
    choices
}

/// Whether the process in a slot of two boards has the same registers, state and counts, layout,
/// block and storage.
fn is_alike(board: &Board, other: &Board, slot: Slot) -> bool {
    board.process(slot) == other.process(slot)
        && board.layout(slot) == other.layout(slot)
        && board.block(slot) == other.block(slot)
        && board.storage(slot) == other.storage(slot)
}

/// Of each of three slots whether its process is the same on two boards.
fn alike(board: &Board, other: &Board) -> [bool; 3] {
    [
        is_alike(board, other, Slot::new(0)),
        is_alike(board, other, Slot::new(1)),
        is_alike(board, other, Slot::new(2)),
    ]
}

/// How the process in a slot stands.
fn state(board: &Board, slot: Slot) -> Option<State> {
    board.process(slot).map(|process| process.state)
}

/// What is seen of three processes beside another first one.
#[derive(Clone, Copy, Debug, PartialEq, Eq)]
struct BesideAnother {
    /// Of each slot whether its process is the same on both boards.
    is_alike: [bool; 3],
    second: Option<State>,
    third: Option<State>,
}

/// After fourteen turns on two boards, which differ in what the first application does. None for
/// want of memory.
fn beside_another(alloc: Global) -> Option<BesideAnother> {
    let mut board = board_beside(alloc, &SPIN)?;
    let mut other = board_beside(alloc, &COUNT)?;
    let _ = played(&mut board, alloc, &fourteen_turns());
    let _ = played(&mut other, alloc, &fourteen_turns());
    Some(BesideAnother {
        is_alike: alike(&board, &other),
        second: state(&other, Slot::new(1)),
        third: state(&other, Slot::new(2)),
    })
}

/// What choices come to on a board; None for want of memory.
fn played(board: &mut Board, alloc: Global, choices: &[Choice]) -> Option<PlayEnd> {
    let mut out = MemSink::new(alloc, 1, 1, Vec::new(alloc)).ok()?;
    board.play(choices, &mut out).err()
}

/// Whose turn a step was, if it was one, and what was denied in it.
#[derive(Clone, Copy, Debug, PartialEq, Eq)]
struct TurnSeen {
    slot: Option<Slot>,
    denial: Option<Denial>,
}

/// Makes the round robin's next step.
fn go_on(board: &mut Board) -> TurnSeen {
    let mut emit = Emit::new();
    if let Some(choice) = board.next_choice() {
        let _ = board.step(choice, &mut emit);
    }
    TurnSeen {
        slot: emit.slot,
        denial: emit.denial,
    }
}

/// The same, with what a quiet stretch tells of the end of its instruction.
fn go_on_with_end(board: &mut Board) -> TurnSeen {
    let mut emit = Emit::new();
    let quiet = board.run_quietly(10);
    let next_choice = quiet.next_choice;
    let end = quiet.end;
    if let Some(choice) = next_choice {
        let _ = board.step_with_end(choice, end, &mut emit);
    }
    TurnSeen {
        slot: emit.slot,
        denial: emit.denial,
    }
}

/// How many turns quiet stretches have: ten at the most from the first step on; then to the end of
/// the slice and on to the second application's first turn; and before its second one.
fn stretches(board: &mut Board) -> [u32; 3] {
    let ten = board.run_quietly(10);
    let rest = board.run_quietly(1000);
    [ten.made, rest.made, board.run_quietly(10).made]
}

/// Whether the second application's store is denied, and the first one goes on.
fn is_stopped(board: &mut Board) -> bool {
    let stray = Denial {
        access: Access::Store,
        address: 0x8000_0000,
        rule: Rule::NoRegion,
    };
    let second = TurnSeen {
        slot: Some(Slot::new(1)),
        denial: Some(stray),
    };
    let first = TurnSeen {
        slot: Some(Slot::new(0)),
        denial: None,
    };
    go_on_with_end(board) == second && go_on(board) == first
}

/// Three turns of the first application, one of the second one, and one of the first one again.
fn five_turns() -> [Choice; 5] {
    let mut choices = [Choice::Run(Slot::new(0)); 5];
    choices[3] = Choice::Run(Slot::new(1));
    choices
}

/// What is seen of two applications.
#[derive(Clone, Copy, Debug, PartialEq, Eq)]
struct SeenOfTwo {
    /// How many turns each of three quiet stretches has.
    stretches: [u32; 3],
    /// Whether the second application's store is denied then, and the first one goes on.
    is_stopped: bool,
    /// What comes of choices from outside then.
    end: Option<PlayEnd>,
    steps: u64,
}

fn see_two(board: &mut Board, alloc: Global) -> SeenOfTwo {
    let stretches = stretches(board);
    let is_stopped = is_stopped(board);
    let end = played(board, alloc, &five_turns());
    SeenOfTwo {
        stretches,
        is_stopped,
        end,
        steps: board.summary().steps,
    }
}

#[test]
fn two_applications_go_on_as_was_worked_out(rt: HostRuntime) {
    let mut board = board_of(rt.alloc()).expect(&rt, "memory");
    assert_eq!(rt;
        see_two(&mut board, rt.alloc()),
        SeenOfTwo {
            stretches: [10, 91, 0],
            is_stopped: true,
            end: Some(PlayEnd::NotReady(3)),
            steps: 106,
        }
    );
}

/// The next choice by the board's status, which is then made.
fn go_on_by_status(board: &mut Board) -> Option<Choice> {
    let choice = next_choice(&board.status());
    go_on(board);
    choice
}

/// The first five choices in windows of two ticks, by the board's status. None for want of memory.
fn in_windows(alloc: Global) -> Option<[Option<Choice>; 5]> {
    let script = read_script(alloc, b"partition 2\n").ok()?;
    let mut board = board_under(alloc, script)?;
    let mut choices = [None; 5];
    for choice in choices.iter_mut() {
        *choice = go_on_by_status(&mut board);
    }
    Some(choices)
}

#[test]
fn a_status_tells_the_choice_in_a_window(rt: HostRuntime) {
    let choices = in_windows(rt.alloc()).expect(&rt, "memory");
    assert_eq!(rt;
        choices,
        [
            Some(Choice::Run(Slot::new(0))),
            Some(Choice::Run(Slot::new(0))),
            Some(Choice::Run(Slot::new(1))),
            Some(Choice::Run(Slot::new(1))),
            Some(Choice::Pass(2)),
        ]
    );
}

#[test]
fn a_process_is_the_same_beside_any_other(rt: HostRuntime) {
    let beside = beside_another(rt.alloc()).expect(&rt, "memory");
    assert_eq!(rt;
        beside,
        BesideAnother {
            is_alike: [false, true, true],
            second: Some(State::Faulted),
            third: Some(State::Terminated(7)),
        }
    );
}

/// The console's area once the second buffer was allowed: the driver's number and what the area
/// costs, three upcalls and a read-only buffer that were not handed over, the read-write buffer,
/// and the driver's value.
fn console_area() -> [u8; 96] {
    let mut area = [0; 96];
    area[0] = 1;
    area[4] = 96;
    area[56] = 0x20;
    area[59] = 0x80;
    area[60] = 8;
    area
}

/// Whether the last bytes of the block are the console's area after the twelve turns of the two
/// allows. None for want of memory.
fn lays_its_grant(alloc: Global) -> Option<bool> {
    let flash: [u8; 80] = image(&[&application::<80>(&ALLOWS)]);
    let flash = Vec::from_slice(alloc, &flash).ok()?;
    let script = read_script(alloc, b"").ok()?;
    let mut board = Board::boot(alloc, flash, script).ok()?;
    let _ = played(&mut board, alloc, &[Choice::Run(Slot::new(0)); 12]);
    let block = board.block(Slot::new(0))?;
    Some(block.len() == 1024 && block.split_at(928).1 == &console_area()[..])
}

#[test]
fn a_grant_stands_in_the_block_byte_by_byte(rt: HostRuntime) {
    assert_eq!(rt; lays_its_grant(rt.alloc()), Some(true));
}
