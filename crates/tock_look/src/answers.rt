//! The answers to commands.
ghost use Rattle.std.specs.Prelude.{◌≡◌, ◌++◌, Some, IfOk, OnOk};
ghost use Rattle.tk_outside.specs.Writes.{Writes};
ghost use Rattle.kernel_model.specs.Run.{round};
ghost use Rattle.board_views.specs.Searches.{last_before, until_goal};
ghost use Rattle.board_views.specs.Stops.{within};
ghost use Rattle.board_views.specs.Times.{world_reached};
ghost use Rattle.tool_tasks.specs.RunFiles.{AreWithinLimits, opening_of_files};
ghost use Rattle.tool_answers.specs.Served.{sink_account};
ghost use Rattle.tock_look.specs.Adding.{added_text, line_event, whether_added, with_line};
ghost use Rattle.tock_look.specs.Answers.{answer_text, answered, kept_by, worlds_of};
ghost use Rattle.tock_look.specs.Answers.{Answers, AnswersWith, last_text, reached_text, traced_text};
ghost use Rattle.tock_look.specs.Answers.{until_text, view_text, words_line};
ghost use Rattle.tock_look.specs.Asks.{line_ask};
ghost use Rattle.tock_look.specs.Keeping.{returned};
ghost use Rattle.tock_look.specs.declared.answers.Answered.TheVariants.{Whole};
ghost use Rattle.tock_look.specs.declared.asks.Ask.TheVariants.{Keep, Return};
ghost use Rattle.tock_look.specs.declared.views.View.TheVariants.{Nothing};

use crate::adding::{add_line, write_added};
use crate::asks::{Ask, line_ask};
use crate::keeping::{Boards, keep, return_to, write_found_place};
use crate::views::{View, write_view};
use board_core::Board;
use board_views::{Goal, Reach, find_last, go_steps, go_to, go_traced, go_turns, go_until};
use std::alloc::Global;
use tk_base::{NoMemory, Slot};
use tk_outside::{Failed, Sink, put_all, writes_compose};
use tool_tasks::prepare::{RunFiles, said_in};

/// How a command was answered.
#[derive(Clone, Copy, Debug, PartialEq, Eq)]
pub enum Answered {
    /// The whole answer was written.
    Whole,
    /// The sink failed, and has a part of the answer.
    SinkFailed,
    /// There was no memory, and nothing of the answer was written.
    NoMemory,
}

/// Shows something of a board.
fn show<K: Sink>(board: &Board, view: View, out: &mut K) -> Answered
    ensures { AnswersWith (sink_account K.tells out.old out.new) (view_text board.now view) result }
{
    told(write_view(board, view, out))
}

/// Makes at most so many steps, writes the lines of each, and then why and where the board stopped.
fn trace<K: Sink>(board: &mut Board, slot: Slot, most: u32, out: &mut K) -> Result<(), Failed>
    ensures text { Writes K.tells out.old out.new (traced_text board.old slot most) result }
    ensures led { OnOk result (board.new ≡ (round (within board.old most) board.old).world) }
{
    writes_compose::<K>();
    let stop = go_traced(board, most, out)?;
    write_view(board, View::Stopped { slot, stop }, out)
}

/// Goes on to a time, writes what is told of the steps, and then why and where the board stopped.
fn reach_time<K: Sink>(
    board: &mut Board,
    slot: Slot,
    reach: Reach,
    out: &mut K,
) -> Result<(), Failed>
    ensures text { Writes K.tells out.old out.new (reached_text board.old slot reach) result }
    ensures led { OnOk result (board.new ≡ world_reached reach board.old) }
{
    writes_compose::<K>();
    let stop = go_to(board, reach, out)?;
    write_view(board, View::Stopped { slot, stop }, out)
}

/// The board of two files before its first step. It fails for want of memory, or where the script
/// has no reading, which `load_files` has looked at before.
pub fn board_of(alloc: Global, files: &RunFiles) -> Result<Board, NoMemory>
    requires { AreWithinLimits files.now }
    ensures { IfOk result (λ board.
        opening_of_files files.now.flash.items files.now.script.items ≡ Some board) }
{
    let Ok(said) = said_in(alloc, &files.script) else {
        return Err(NoMemory);
    };
    let Ok(flash) = files.flash.clone() else {
        return Err(NoMemory);
    };
    Board::boot(alloc, flash, said)
}

/// Has the board be as before its first step.
fn boot_again<K: Sink>(alloc: Global, files: &RunFiles, board: &mut Board, out: &mut K) -> Answered
    requires { AreWithinLimits files.now }
    ensures text { AnswersWith (sink_account K.tells out.old out.new)
        (view_text board.old Nothing) result }
    ensures opened { result ≡ Whole →
        opening_of_files files.now.flash.items files.now.script.items ≡ Some board.new }
{
    writes_compose::<K>();
    match board_of(alloc, files) {
        Ok(opened) => {
            *board = opened;
            show(board, View::Nothing, out)
        }
        Err(_) => Answered::NoMemory,
    }
}

/// Goes on to a goal, and tells why and where the board stopped.
fn go_on<K: Sink>(alloc: Global, board: &mut Board, goal: &Goal, most: u32, out: &mut K) -> Answered
    ensures text { AnswersWith (sink_account K.tells out.old out.new)
        (until_text most goal.now board.old) result }
    ensures led { result ≡ Whole → board.new ≡ (until_goal most goal.now board.old).world }
{
    writes_compose::<K>();
    let Ok(stop) = go_until(alloc, board, goal, most) else {
        return Answered::NoMemory;
    };
    let slot = goal.slot;
    show(board, View::Stopped { slot, stop }, out)
}

/// Goes on, and tells where a goal would have stopped the board the last time.
fn look_back<K: Sink>(
    alloc: Global,
    board: &mut Board,
    goal: &Goal,
    most: u32,
    out: &mut K,
) -> Answered
    ensures text { AnswersWith (sink_account K.tells out.old out.new)
        (last_text most goal.now board.old) result }
    ensures led { result ≡ Whole → board.new ≡ (last_before most goal.now board.old).world }
{
    writes_compose::<K>();
    let Ok(found) = find_last(alloc, board, goal, most) else {
        return Answered::NoMemory;
    };
    show(board, View::Last { found }, out)
}

/// How a command was answered whose answer was written, or in part.
fn told(written: Result<(), Failed>) -> Answered
    ensures { result ≡ answered written }
{
    match written {
        Ok(()) => Answered::Whole,
        Err(_) => Answered::SinkFailed,
    }
}

/// Adds the event of a line, and tells whether there is one.
fn add<K: Sink>(alloc: Global, board: &mut Board, line: &[u8], out: &mut K) -> Answered
    ensures text { AnswersWith (sink_account K.tells out.old out.new)
        (added_text (whether_added (line_event board.old line.now))) result }
    ensures led { result ≡ Whole → board.new ≡ with_line board.old line.now }
{
    match add_line(alloc, board, line) {
        Ok(added) => told(write_added(added, out)),
        Err(_) => Answered::NoMemory,
    }
}

/// Keeps the board at a place, and tells whether there is one.
fn keep_at<K: Sink>(alloc: Global, boards: &mut Boards, place: usize, out: &mut K) -> Answered
    ensures text { AnswersWith (sink_account K.tells out.old out.new)
        (answer_text (worlds_of boards.old) (Keep place)) result }
    ensures board { boards.new.board ≡ boards.old.board }
    ensures kept { result ≡ Whole →
        boards.new.kept.items ≡ kept_by (worlds_of boards.old) (Keep place) }
{
    match keep(alloc, boards, place) {
        Ok(found) => told(write_found_place(found, out)),
        Err(_) => Answered::NoMemory,
    }
}

/// Has the board be as it was kept at a place, and tells whether one is.
fn return_at<K: Sink>(alloc: Global, boards: &mut Boards, place: usize, out: &mut K) -> Answered
    ensures text { AnswersWith (sink_account K.tells out.old out.new)
        (answer_text (worlds_of boards.old) (Return place)) result }
    ensures board { result ≡ Whole →
        boards.new.board ≡ returned place boards.old.kept.items boards.old.board }
    ensures kept { boards.new.kept ≡ boards.old.kept }
{
    match return_to(alloc, boards, place) {
        Ok(found) => told(write_found_place(found, out)),
        Err(_) => Answered::NoMemory,
    }
}

/// Writes the answer to what is no command.
fn answer_unknown<K: Sink>(out: &mut K) -> Answered
    ensures { AnswersWith (sink_account K.tells out.old out.new) words_line result }
{
    told(put_all(out, b"= words\n"))
}

/// Does a command, and writes the answer. Afterwards the boards show the worlds after that command,
/// where the whole answer was written.
pub fn answer<K: Sink>(
    alloc: Global,
    files: &RunFiles,
    boards: &mut Boards,
    ask: &Ask,
    out: &mut K,
) -> Answered
    requires { AreWithinLimits files.now }
    ensures { Answers (sink_account K.tells out.old out.new) files.now boards.old boards.new ask.now
        result }
{
    let board = &mut boards.board;
    match ask {
        Ask::Boot => boot_again(alloc, files, board, out),
        Ask::State => show(board, View::State, out),
        Ask::At { slot } => show(board, View::Place { slot: *slot }, out),
        Ask::Steps { slot, most } => {
            let stop = go_steps(board, *most);
            show(board, View::Stopped { slot: *slot, stop }, out)
        }
        Ask::Trace { slot, most } => told(trace(board, *slot, *most, out)),
        Ask::To { slot, reach } => told(reach_time(board, *slot, *reach, out)),
        Ask::Turns { slot, turns, most } => {
            let stop = go_turns(board, *slot, *turns, *most);
            show(board, View::Stopped { slot: *slot, stop }, out)
        }
        Ask::Memory { slot, at, count } => show(
            board,
            View::Memory {
                slot: *slot,
                at: *at,
                count: *count,
            },
            out,
        ),
        Ask::Storage { slot, at, count } => show(
            board,
            View::Storage {
                slot: *slot,
                at: *at,
                count: *count,
            },
            out,
        ),
        Ask::Until { most, goal } => go_on(alloc, board, goal, *most, out),
        Ask::Last { most, goal } => look_back(alloc, board, goal, *most, out),
        Ask::Add { line } => add(alloc, board, line, out),
        Ask::Keep { place } => keep_at(alloc, boards, *place, out),
        Ask::Return { place } => return_at(alloc, boards, *place, out),
        Ask::Unknown => answer_unknown(out),
    }
}

/// Does the command of a line, or answers that it is none.
pub fn answer_line<K: Sink>(
    alloc: Global,
    files: &RunFiles,
    boards: &mut Boards,
    line: &str,
    out: &mut K,
) -> Answered
    requires { AreWithinLimits files.now }
    ensures { Answers (sink_account K.tells out.old out.new) files.now boards.old boards.new
        (line_ask line.now) result }
{
    writes_compose::<K>();
    match line_ask(alloc, line) {
        Ok(ask) => answer(alloc, files, boards, &ask, out),
        Err(_) => Answered::NoMemory,
    }
}
